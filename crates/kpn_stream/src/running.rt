//! The run of a network over devices.
ghost use Rattle.std.specs.Prelude.{◌≡◌, ◌≤◌, [], Some, None, IfOk, OnErr, IfNone};
ghost use Rattle.kpn_net.specs.Tables.{is_source, is_sink};
ghost use Rattle.kpn_history.specs.Ends.{IsSettled};
ghost use Rattle.kpn_book.specs.Kept.{IsBook};
ghost use Rattle.kpn_book.specs.Remembering.{Remembers};
ghost use Rattle.kpn_stream.specs.Devices.{Fed, Served, EndsFlushed, Called};
ghost use Rattle.kpn_stream.specs.Ending.{end_numbers, failed_source, failed_sink, is_halted, IsEnding, HasNoOutcome, AreTaken, LeavesNothing};
ghost use Rattle.kpn_stream.specs.Streaming.{IsStepless, StreamGoesOn, MayEndWell, Serves, ServesOrHalts};
ghost use Rattle.kpn_stream.specs.Watching.{Watched, Watches};

use crate::devices::{Sinks, Sources};
use crate::ending::{StreamEnding, Streamed};
use crate::ends::{EndNumbers, end_numbers_of};
use crate::looking::end_stretch;
use crate::pace::StreamPace;
use crate::reading::read_one;
use crate::stepping::{STRETCH, is_idle, step_stretch};
use crate::taking::{flush_all, take_all};
use crate::watching::Watcher;
use kpn_book::{Book, Keeping, Limits, outcome_of};
use kpn_net::Network;
use std::alloc::{AllocError, Global};

/// Runs a network over devices until there is an ending. The book keeps what it is told to keep.
///
/// In each turn the processes make steps until none is ready, or a stretch of 1,000 commits is over. Then the devices
/// of the sinks take what has come. If the run has no outcome yet, and still no process is ready, the least open source
/// is read for whose item a process waits. So nobody reads ahead of need. Before a read that has to wait, the devices
/// of the sinks hand on all that they took. If the book keeps no events and the commits have no limit, nobody sees the
/// order: then the processes make steps in any, and up to 64 items that are at hand are read at once. If several
/// sources are awaited and the answer of the least is not at hand, that one is read whose answer comes first.
///
/// At the end of a stretch with processes ready, the devices of the sinks hand on what they took, and each awaited
/// source is read once whose answer is at hand. No source is waited for while a process is ready.
///
/// A sink is left once nobody reads what its device hands on, and once it has given the items that the limits want of
/// it and its device has handed them on.
///
/// The watcher is asked in each turn whether it has to look, before a source is read. It also looks before the stream
/// waits for a source, and in each 1,024th turn. Each time the devices of the sinks hand on all that they took before.
/// If it wants the end, the stream ends there. If a device fails, the call returns at once: what the devices of the sinks
/// keep is for the caller to flush. If memory runs out, that is an ending too, and the book is that of the run so far.
/// The error is that memory ran out before the run: no device was called.
pub fn stream<'n, S: Sources, K: Sinks, W: Watcher>(
    alloc: Global,
    network: &'n Network,
    sources: &mut S,
    sinks: &mut K,
    limits: &Limits,
    keeping: Keeping,
    watcher: &mut W,
) -> Result<Streamed<'n>, AllocError>
    ensures network { IfOk result (λ streamed. streamed.book.tables ≡ network.now) }
    ensures book { IfOk result (λ streamed. IsBook streamed.book) }
    ensures sources { IfOk result (λ streamed. Fed network.now S.gives S.looks
        sources.old streamed.book.history (failed_source (Some streamed.ending)) sources.new) }
    ensures sinks { IfOk result (λ streamed. Served K.takes K.flushes limits.now.take
        sinks.old streamed.book.history (failed_sink (Some streamed.ending)) sinks.new) }
    ensures calls { IfOk result (λ streamed. Called network.now S.gives S.looks S.at_hand
        K.takes K.flushes limits.now.take sources.old sinks.old
        streamed.book.history sources.new sinks.new) }
    ensures flushed { IfOk result (λ streamed. EndsFlushed K.takes K.flushes limits.now.take
        network.now [] sinks.old (Some streamed.ending) streamed.book.history sinks.new) }
    ensures ending { IfOk result (λ streamed.
        IsEnding limits.now streamed.ending streamed.book) }
    ensures taken { IfOk result (λ streamed. LeavesNothing streamed.ending streamed.book) }
    ensures commits { IfOk result (λ streamed. streamed.book.commits ≤ limits.now.commits) }
    ensures kept { IfOk result (λ streamed. Remembers keeping streamed.book) }
    ensures watched { IfOk result (λ streamed. Watched network.now W.knows W.sees watcher.old
        streamed.book.history (is_halted (Some streamed.ending)) watcher.new) }
    ensures no_source { OnErr result (sources.new ≡ sources.old) }
    ensures no_sink { OnErr result (sinks.new ≡ sinks.old) }
    ensures no_look { OnErr result (watcher.new ≡ watcher.old) }
{
    let ends = end_numbers_of(alloc, network)?;
    let mut book = Book::keeping(alloc, network, keeping)?;
    let ending = run(&mut book, &ends, sources, sinks, limits, watcher);
    book.known();
    Ok(Streamed { ending, book })
}

/// Makes turns until there is an ending. A run that has an outcome at the start makes none.
fn run<S: Sources, K: Sinks, W: Watcher>(
    book: &mut Book<'_>,
    ends: &EndNumbers,
    sources: &mut S,
    sinks: &mut K,
    limits: &Limits,
    watcher: &mut W,
) -> StreamEnding
    requires sources { ends.now.sources.items ≡ end_numbers is_source book.old.tables }
    requires sinks { ends.now.sinks.items ≡ end_numbers is_sink book.old.tables }
    requires start { book.old.history ≡ [] }
    ensures goes_on { StreamGoesOn S.gives S.looks S.at_hand K.takes K.flushes limits.now (Some result)
        book.old book.new sources.old sources.new sinks.old sinks.new }
    ensures watched { Watches W.knows W.sees book.old book.new
        watcher.old (is_halted (Some result)) watcher.new }
{
    let over = come_to_outcome(book, ends, sinks, limits);
    if let Some(ending) = over {
        return ending;
    }
    make_turns(book, ends, sources, sinks, limits, watcher)
}

/// Makes turns until there is an ending.
fn make_turns<S: Sources, K: Sinks, W: Watcher>(
    book: &mut Book<'_>,
    ends: &EndNumbers,
    sources: &mut S,
    sinks: &mut K,
    limits: &Limits,
    watcher: &mut W,
) -> StreamEnding
    requires sources { ends.now.sources.items ≡ end_numbers is_source book.old.tables }
    requires sinks { ends.now.sinks.items ≡ end_numbers is_sink book.old.tables }
    requires taken { AreTaken book.old.tables book.old.history }
    ensures goes_on { StreamGoesOn S.gives S.looks S.at_hand K.takes K.flushes limits.now (Some result)
        book.old book.new sources.old sources.new sinks.old sinks.new }
    ensures watched { Watches W.knows W.sees book.old book.new
        watcher.old (is_halted (Some result)) watcher.new }
{
    let mut pace = StreamPace::new();
    'turns: for _turn in 0..u64::MAX {
        let ended = turn(book, ends, sources, sinks, limits, &mut pace, watcher);
        if let Some(ending) = ended {
            return ending;
        }
    }
    out_of_memory(book, ends, sinks, limits)
}

/// One turn.
fn turn<S: Sources, K: Sinks, W: Watcher>(
    book: &mut Book<'_>,
    ends: &EndNumbers,
    sources: &mut S,
    sinks: &mut K,
    limits: &Limits,
    pace: &mut StreamPace,
    watcher: &mut W,
) -> Option<StreamEnding>
    requires sources { ends.now.sources.items ≡ end_numbers is_source book.old.tables }
    requires sinks { ends.now.sinks.items ≡ end_numbers is_sink book.old.tables }
    ensures goes_on { StreamGoesOn S.gives S.looks S.at_hand K.takes K.flushes limits.now result
        book.old book.new sources.old sources.new sinks.old sinks.new }
    ensures taken { result ≡ None → AreTaken book.new.tables book.new.history }
    ensures watched { Watches W.knows W.sees book.old book.new
        watcher.old (is_halted result) watcher.new }
{
    let ran_out = step_stretch(book, limits, pace.goal).is_err();
    let ended = take_all(book, ends, sinks, limits);
    if ended.is_some() {
        return ended;
    }
    if ran_out {
        return Some(out_of_memory(book, ends, sinks, limits));
    }
    let shown = show(book, ends, sinks, limits, pace, watcher);
    if shown.is_some() {
        return shown;
    }
    book.known();
    come_to_read(book, ends, sources, sinks, limits, pace)
}

/// Shows the book to the watcher, if it is time for a look or something is new.
fn show<K: Sinks, W: Watcher>(
    book: &mut Book<'_>,
    ends: &EndNumbers,
    sinks: &mut K,
    limits: &Limits,
    pace: &mut StreamPace,
    watcher: &mut W,
) -> Option<StreamEnding>
    requires ends { ends.now.sinks.items ≡ end_numbers is_sink book.old.tables }
    requires taken { AreTaken book.old.tables book.old.history }
    ensures serves { ServesOrHalts K.takes K.flushes limits.now result book.old book.new
        sinks.old sinks.new }
    ensures taken { AreTaken book.new.tables book.new.history }
    ensures watched { Watches W.knows W.sees book.old book.new
        watcher.old (is_halted result) watcher.new }
    ensures known { result ≡ None → W.knows watcher.new book.new }
{
    if pace.is_time_to_look() {
        return look(book, ends, sinks, limits, watcher);
    }
    if watcher.has_news(book) {
        return look(book, ends, sinks, limits, watcher);
    }
    None
}

/// The watcher looks at the book, once the devices of the sinks have handed on all that they kept.
#[cold]
#[inline(never)]
fn look<K: Sinks, W: Watcher>(
    book: &mut Book<'_>,
    ends: &EndNumbers,
    sinks: &mut K,
    limits: &Limits,
    watcher: &mut W,
) -> Option<StreamEnding>
    requires ends { ends.now.sinks.items ≡ end_numbers is_sink book.old.tables }
    requires taken { AreTaken book.old.tables book.old.history }
    ensures serves { ServesOrHalts K.takes K.flushes limits.now result book.old book.new
        sinks.old sinks.new }
    ensures taken { AreTaken book.new.tables book.new.history }
    ensures watched { Watches W.knows W.sees book.old book.new
        watcher.old (is_halted result) watcher.new }
    ensures known { result ≡ None → W.knows watcher.new book.new }
{
    let ended = flush_all(book, ends, sinks, limits);
    if ended.is_some() {
        return ended;
    }
    book.known();
    if watcher.look(book) {
        return Some(StreamEnding::Halted);
    }
    None
}

/// The end of a turn, when the sinks have nothing unread: the run may have come to its limit, or it is time to read.
fn come_to_read<S: Sources, K: Sinks>(
    book: &mut Book<'_>,
    ends: &EndNumbers,
    sources: &mut S,
    sinks: &mut K,
    limits: &Limits,
    pace: &mut StreamPace,
) -> Option<StreamEnding>
    requires sources { ends.now.sources.items ≡ end_numbers is_source book.old.tables }
    requires sinks { ends.now.sinks.items ≡ end_numbers is_sink book.old.tables }
    requires taken { AreTaken book.old.tables book.old.history }
    ensures goes_on { StreamGoesOn S.gives S.looks S.at_hand K.takes K.flushes limits.now result
        book.old book.new sources.old sources.new sinks.old sinks.new }
    ensures taken { AreTaken book.new.tables book.new.history }
    ensures stepless { IsStepless result book.old book.new }
{
    if limits.commits <= book.commits() {
        return come_to_outcome(book, ends, sinks, limits);
    }
    if is_idle(book) {
        pace.goal = book.commits().saturating_add(STRETCH);
        return read_one(book, ends, sources, sinks, limits, pace);
    }
    if book.commits() < pace.goal {
        return None;
    }
    pace.goal = book.commits().saturating_add(STRETCH);
    end_stretch(book, ends, sources, sinks, limits)
}

/// Memory ran out in the processes. The devices of the sinks hand on what was taken.
#[cold]
#[inline(never)]
fn out_of_memory<K: Sinks>(
    book: &mut Book<'_>,
    ends: &EndNumbers,
    sinks: &mut K,
    limits: &Limits,
) -> StreamEnding
    requires ends { ends.now.sinks.items ≡ end_numbers is_sink book.old.tables }
    requires taken { AreTaken book.old.tables book.old.history }
    ensures { Serves K.takes K.flushes limits.now (Some result) book.old book.new
        sinks.old sinks.new }
{
    let ended = flush_all(book, ends, sinks, limits);
    if let Some(ending) = ended {
        return ending;
    }
    StreamEnding::NoMemory
}

/// The outcome of the run, if it has come to one. Before it is told, the devices of the sinks hand on all that they
/// kept.
fn come_to_outcome<K: Sinks>(
    book: &mut Book<'_>,
    ends: &EndNumbers,
    sinks: &mut K,
    limits: &Limits,
) -> Option<StreamEnding>
    requires ends { ends.now.sinks.items ≡ end_numbers is_sink book.old.tables }
    requires taken { AreTaken book.old.tables book.old.history }
    ensures { Serves K.takes K.flushes limits.now result book.old book.new sinks.old sinks.new }
{
    if outcome_of(book, limits).is_none() {
        return None;
    }
    let ended = flush_all(book, ends, sinks, limits);
    if ended.is_some() {
        return ended;
    }
    ending_of(book, limits)
}

/// The outcome as an ending.
pub(crate) fn ending_of(book: &Book<'_>, limits: &Limits) -> Option<StreamEnding>
    requires { AreTaken book.now.tables book.now.history }
    ensures well { MayEndWell limits.now result book.now }
    ensures none { IfNone result (¬ IsSettled book.now.tables book.now.history) }
    ensures no_outcome { IfNone result (HasNoOutcome limits.now book.now) }
{
    match outcome_of(book, limits) {
        Some(outcome) => Some(StreamEnding::Outcome(outcome)),
        None => None,
    }
}
