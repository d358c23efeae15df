//! A source is read.
ghost use Rattle.std.specs.Prelude.{◌≡◌, ◌<◌, ℕ, true, false, [], ◌∷◌, ◌++◌, length, IfSome, IfNone, IsTrue};
ghost use Rattle.kpn_net.specs.Tables.{channel_at, is_source, is_sink};
ghost use Rattle.kpn_history.specs.declared.event.Event.TheVariants as event;
ghost use Rattle.kpn_history.specs.Channels.{is_closed};
ghost use Rattle.kpn_history.specs.Legal.{MayFeed};
ghost use Rattle.kpn_book.specs.Appending.{Happens};
ghost use Rattle.kpn_stream.specs.Devices.{IsAwaited, IsStuckUnderAll, MayRead};
ghost use Rattle.kpn_stream.specs.Ending.{end_numbers, IsUnwanted, AreTaken};
ghost use Rattle.kpn_stream.specs.Streaming.{IsStepless, StreamGoesOn, IsUnfed, MayEndWell, ReadsSource, ReadsInTurn, WasRead, Serves};

use crate::devices::{Sinks, Sources};
use crate::ending::StreamEnding;
use crate::ends::EndNumbers;
use crate::faults::SourceFault;
use crate::looking::first_to_come;
use crate::pace::StreamPace;
use crate::running::ending_of;
use crate::stepping::{is_idle, is_order_seen};
use crate::taking::flush_all;
use kpn_book::{Book, Limits};
use kpn_net::Policy;

/// How many items of a source are read at once at most.
const MOST_AT_ONCE: u64 = 64;

/// Reads one item of a source that is due, and feeds it, or closes the source at the end of its input. No process is
/// ready. Before it waits for the device of a source, those of the sinks hand on all that they kept.
pub(crate) fn read_one<S: Sources, K: Sinks>(
    book: &mut Book<'_>,
    ends: &EndNumbers,
    sources: &mut S,
    sinks: &mut K,
    limits: &Limits,
    pace: &mut StreamPace,
) -> Option<StreamEnding>
    requires sources { ends.now.sources.items ≡ end_numbers is_source book.old.tables }
    requires sinks { ends.now.sinks.items ≡ end_numbers is_sink book.old.tables }
    requires taken { AreTaken book.old.tables book.old.history }
    ensures goes_on { StreamGoesOn S.gives S.looks S.at_hand K.takes K.flushes limits.now result
        book.old book.new sources.old sources.new sinks.old sinks.new }
    ensures taken { AreTaken book.new.tables book.new.history }
    ensures stepless { IsStepless result book.old book.new }
{
    let Some(c) = source_due(book, ends) else {
        return rest(book, ends, sinks, limits);
    };
    if sources.is_at_hand(c) {
        return read_in_turn(book, sources, c, limits);
    }
    wait_for_one(book, ends, sources, sinks, limits, pace)
}

/// Reads a source that is due once the devices of the sinks have handed on all that they kept. A sink that was left
/// then may have woken a process, which goes first. So does the watcher, which looks once before the stream waits.
fn wait_for_one<S: Sources, K: Sinks>(
    book: &mut Book<'_>,
    ends: &EndNumbers,
    sources: &mut S,
    sinks: &mut K,
    limits: &Limits,
    pace: &mut StreamPace,
) -> Option<StreamEnding>
    requires sources { ends.now.sources.items ≡ end_numbers is_source book.old.tables }
    requires sinks { ends.now.sinks.items ≡ end_numbers is_sink book.old.tables }
    requires taken { AreTaken book.old.tables book.old.history }
    ensures goes_on { StreamGoesOn S.gives S.looks S.at_hand K.takes K.flushes limits.now result
        book.old book.new sources.old sources.new sinks.old sinks.new }
    ensures taken { AreTaken book.new.tables book.new.history }
    ensures stepless { IsStepless result book.old book.new }
{
    let ended = flush_all(book, ends, sinks, limits);
    if ended.is_some() {
        return ended;
    }
    if !is_idle(book) {
        return None;
    }
    if !pace.may_wait() {
        return None;
    }
    let Some(least) = source_due(book, ends) else {
        return None;
    };
    let c = first_to_come(book, ends, sources, least);
    read(book, sources, c)
}

/// No source is due, and no process is ready: the stream comes to rest.
fn rest<K: Sinks>(
    book: &mut Book<'_>,
    ends: &EndNumbers,
    sinks: &mut K,
    limits: &Limits,
) -> Option<StreamEnding>
    requires sources { ends.now.sources.items ≡ end_numbers is_source book.old.tables }
    requires sinks { ends.now.sinks.items ≡ end_numbers is_sink book.old.tables }
    requires taken { AreTaken book.old.tables book.old.history }
    ensures { Serves K.takes K.flushes limits.now result book.old book.new sinks.old sinks.new }
{
    let ended = flush_all(book, ends, sinks, limits);
    if ended.is_some() {
        return ended;
    }
    ending_at_rest(book, ends, limits)
}

/// The ending of a stream that rests: its outcome if it has one.
fn ending_at_rest(book: &Book<'_>, ends: &EndNumbers, limits: &Limits) -> Option<StreamEnding>
    requires sources { ends.now.sources.items ≡ end_numbers is_source book.now.tables }
    requires taken { AreTaken book.now.tables book.now.history }
    ensures { MayEndWell limits.now result book.now }
{
    let over = ending_of(book, limits);
    if over.is_some() {
        return over;
    }
    if !is_idle(book) {
        return None;
    }
    match least_open(book, ends, true) {
        Some(_) => None,
        None => Some(StreamEnding::Resting),
    }
}

/// Reads source `c`, whose answer is at hand. If nobody sees when, it reads on while items are at hand.
fn read_in_turn<S: Sources>(
    book: &mut Book<'_>,
    sources: &mut S,
    c: usize,
    limits: &Limits,
) -> Option<StreamEnding>
    requires due { MayRead book.old.tables book.old.history c }
    requires at_hand { S.at_hand sources.old c }
    ensures { ReadsInTurn S.gives S.looks S.at_hand c book.old sources.old result book.new sources.new }
{
    let ended = read(book, sources, c);
    if ended.is_some() || book.is_closed(c) || is_order_seen(book, limits) {
        return ended;
    }
    read_on(book, sources, c)
}

/// Reads source `c` on while its items are at hand, if it was read.
fn read_on<S: Sources>(book: &mut Book<'_>, sources: &mut S, c: usize) -> Option<StreamEnding>
    requires { WasRead c 1 book.old }
    ensures { ReadsInTurn S.gives S.looks S.at_hand c book.old sources.old result book.new sources.new }
{
    'items: for _item in 1..MOST_AT_ONCE {
        let Some(item) = sources.next_at_hand(c) else {
            return None;
        };
        let ended = feed(book, c, item);
        if ended.is_some() {
            return ended;
        }
    }
    None
}

/// Reads source `c`.
pub(crate) fn read<S: Sources>(
    book: &mut Book<'_>,
    sources: &mut S,
    c: usize,
) -> Option<StreamEnding>
    requires { MayRead book.old.tables book.old.history c }
    ensures reads { ReadsSource S.gives S.looks c result book.old book.new sources.old sources.new }
    ensures fed { IfNone result (is_closed book.new.history c ≡ false → WasRead c 1 book.new) }
{
    match sources.next(c) {
        Ok(Some(item)) => feed(book, c, item),
        Ok(None) => close(book, c),
        Err(fault) => Some(StreamEnding::SourceFailed(c, fault)),
    }
}

fn feed(book: &mut Book<'_>, c: usize, item: i64) -> Option<StreamEnding>
    ensures fed { IfNone result (Happens (event.Feed c item) book.old book.new) }
    ensures alone { IfNone result (book.new.history ≡ book.old.history ++ event.Feed c item ∷ []) }
    ensures refused { IfSome result (IsUnfed c book.old book.new) }
{
    match book.feed(c, item, usize::MAX) {
        Ok(()) => {
            book.known();
            None
        }
        Err(_) => Some(StreamEnding::SourceFailed(c, SourceFault::NoMemory)),
    }
}

fn close(book: &mut Book<'_>, c: usize) -> Option<StreamEnding>
    requires { is_closed book.old.history c ≡ false }
    ensures closed { IfNone result (Happens (event.Close c) book.old book.new) }
    ensures refused { IfSome result (IsUnfed c book.old book.new) }
{
    book.known();
    match book.close_source(c) {
        Ok(()) => None,
        Err(_) => Some(StreamEnding::SourceFailed(c, SourceFault::NoMemory)),
    }
}

/// The source that is due: the least open one for whose item a process waits. If there is none and nothing can go on,
/// it is the least open one.
fn source_due(book: &Book<'_>, ends: &EndNumbers) -> Option<usize>
    requires sources { ends.now.sources.items ≡ end_numbers is_source book.now.tables }
    requires taken { AreTaken book.now.tables book.now.history }
    ensures { IfSome result (λ c. MayRead book.now.tables book.now.history c) }
{
    let awaited = least_open(book, ends, true);
    if awaited.is_some() {
        return awaited;
    }
    if !is_stuck(book) {
        return None;
    }
    least_open(book, ends, false)
}

/// Whether no process can go on, under the policy `all`: a growth may wait for the end of all inputs.
fn is_stuck(book: &Book<'_>) -> bool
    ensures { IsTrue result → IsStuckUnderAll book.now.tables book.now.history }
{
    match book.network().policy() {
        Policy::All => is_idle(book),
        Policy::Cycles => false,
    }
}

/// The least open source, of those for whose item a process waits or of all.
fn least_open(book: &Book<'_>, ends: &EndNumbers, awaited_only: bool) -> Option<usize>
    requires { ends.now.sources.items ≡ end_numbers is_source book.now.tables }
    ensures open { IfSome result (λ c. MayFeed book.now.tables book.now.history c) }
    ensures awaited { awaited_only ≡ true
        → IfSome result (λ c. IsAwaited book.now.tables book.now.history c) }
    ensures none { IfNone result ((c : ℕ) → is_source (channel_at book.now.tables c) ≡ true
        → IsUnwanted book.now c) }
{
    'sources: for i in 0..ends.sources.len() {
        let c = ends.sources[i];
        if is_due(book, c, awaited_only) {
            return Some(c);
        }
    }
    None
}

/// Whether a source is open and, if this is asked for, a process waits for its item.
pub(crate) fn is_due(book: &Book<'_>, c: usize, awaited_only: bool) -> bool
    requires { c < length book.now.tables.channels }
    ensures open { IsTrue result → is_closed book.now.history c ≡ false }
    ensures awaited { IsTrue result → awaited_only ≡ true
        → IsAwaited book.now.tables book.now.history c }
    ensures not_due { result ≡ false → IsUnwanted book.now c }
{
    if book.is_closed(c) {
        return false;
    }
    !awaited_only || is_awaited(book, c)
}

/// Whether a process waits for an item of a channel.
fn is_awaited(book: &Book<'_>, c: usize) -> bool
    requires { c < length book.now.tables.channels }
    ensures awaited { IsTrue result → IsAwaited book.now.tables book.now.history c }
    ensures unwanted { result ≡ false → IsUnwanted book.now c }
{
    book.known();
    book.is_awaited(c)
}
