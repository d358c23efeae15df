//! What watches a stream: it tells of it while it runs, and ends it after a fault if that is asked for, and before its
//! trace is too long.
ghost use Rattle.std.specs.Prelude.{◌≡◌, ◌≤◌, true, false, length, IsTrue};
ghost use Rattle.kpn_command_stream.specs.Watching.{EndsInTime, HasFaulted, HasLongTrace, HaveNotFaulted};

use kpn_book::Book;
use kpn_command_base::{Teller, is_faulted};
use kpn_limits::MAX_INPUT_BYTES;
use kpn_stream::Watcher;
use kpn_text::Document;

/// The trace of more events is too long to be read. The line of an event has at least 8 bytes.
const MOST_TRACED: usize = MAX_INPUT_BYTES / 8;

/// The watcher of a stream. It lends the place for faults, so that the lender has it as the last look left it.
#[derive(Drop)]
pub(crate) struct StreamWatcher<'w, E> {
    pub(crate) document: &'w Document,
    pub(crate) err: &'w mut E,
    /// How many processes had ended at its last look.
    pub(crate) ended: usize,
    /// Whether a fault ends the stream.
    pub(crate) stops: bool,
}

impl<E: Teller> Watcher for StreamWatcher<'_, E> {
    ghost use Rattle.kpn_command_stream.specs.Watching.{KnowsEnded, LooksAt};

    ghost knows = { KnowsEnded };

    ghost sees = { LooksAt E.tells };

    fn has_news(&self, book: &Book<'_>) -> bool {
        book.counts().ended != self.ended || is_too_long(book)
    }

    fn look(&mut self, book: &Book<'_>) -> bool {
        self.ended = book.counts().ended;
        self.err.tell(self.document, book);
        is_to_end(self.stops, book)
    }
}

/// Whether a look ends the stream, if a fault is to end it or not.
fn is_to_end(stops: bool, book: &Book<'_>) -> bool
    ensures { EndsInTime stops book.now result }
{
    if is_too_long(book) {
        return true;
    }
    if !stops {
        return false;
    }
    has_faulted(book)
}

/// Whether the trace of what has happened is too long, if one is kept.
fn is_too_long(book: &Book<'_>) -> bool
    ensures long { result ≡ true → HasLongTrace book.now }
    ensures short { result ≡ false → IsTrue book.now.keeps_events
        → length book.now.history ≤ 33554432 }
{
    let history = book.history();
    if !history.is_kept() {
        return false;
    }
    MOST_TRACED < history.len()
}

/// Whether a process has ended by a fault.
fn has_faulted(book: &Book<'_>) -> bool
    ensures faulted { result ≡ true → HasFaulted book.now }
    ensures none { result ≡ false → HaveNotFaulted (length book.now.tables.instances) book.now }
{
    for p in 0..book.network().instances() {
        if is_faulted(book.state(p)) {
            return true;
        }
    }
    false
}
