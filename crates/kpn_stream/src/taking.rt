//! The sinks get what came for them.
ghost use Rattle.std.specs.Prelude.{◌≡◌, ◌↔◌, ◌⊎◌, ◌<◌, ℤ, true, false, length, is_some, Some, None, IfOk, OnErr, IsTrue};
ghost use Rattle.kpn_net.specs.Tables.{channel_at, is_sink};
ghost use Rattle.kpn_chan.specs.Channel.{next_item};
ghost use Rattle.kpn_history.specs.declared.event.Event.TheVariants as event;
ghost use Rattle.kpn_machine.specs.Machine.{channel_in};
ghost use Rattle.kpn_book.specs.Appending.{Happens};
ghost use Rattle.kpn_stream.specs.Devices.{HasGiven, IsFlushed, AreFlushed};
ghost use Rattle.kpn_stream.specs.Ending.{end_numbers, HasSink, AreLeft, IsSinkTaken, AreTaken};
ghost use Rattle.kpn_stream.specs.Streaming.{IsHandled, IsLeaving, MayEndWell, Serves};

use crate::devices::Sinks;
use crate::ending::StreamEnding;
use crate::ends::EndNumbers;
use crate::faults::SinkFault;
use kpn_book::{Book, Limits, outcome_of};
use std::alloc::AllocError;

/// Takes all that is unread from the sinks, and hands it to their devices.
// It is called at one place, so that it is inlined there. With two it takes 80 instructions an item more.
pub(crate) fn take_all<K: Sinks>(
    book: &mut Book<'_>,
    ends: &EndNumbers,
    sinks: &mut K,
    limits: &Limits,
) -> Option<StreamEnding>
    requires { ends.now.sinks.items ≡ end_numbers is_sink book.old.tables }
    ensures serves { Serves K.takes K.flushes limits.now result book.old book.new
        sinks.old sinks.new }
    ensures taken { result ≡ None → AreTaken book.new.tables book.new.history }
{
    'each: for i in 0..ends.sinks.len() {
        let ended = take_each(book, ends, sinks, limits, ends.sinks[i]);
        if ended.is_some() {
            return ended;
        }
    }
    None
}

/// Takes what is unread from sink `c`. Once it has given the items that are wanted of it, it is left.
fn take_each<K: Sinks>(
    book: &mut Book<'_>,
    ends: &EndNumbers,
    sinks: &mut K,
    limits: &Limits,
    c: usize,
) -> Option<StreamEnding>
    requires ends { ends.now.sinks.items ≡ end_numbers is_sink book.old.tables }
    requires sink { is_sink (channel_at book.old.tables c) ≡ true }
    ensures serves { Serves K.takes K.flushes limits.now result book.old book.new
        sinks.old sinks.new }
    ensures taken { result ≡ None → IsSinkTaken book.new.history c }
{
    let ended = put_each(book, ends, sinks, limits, c);
    if ended.is_some() {
        return ended;
    }
    if !has_given(book, c, limits.take) {
        return None;
    }
    finish(book, ends, sinks, limits, c)
}

/// Hands what is unread on sink `c` to its device, up to as many items as are wanted.
fn put_each<K: Sinks>(
    book: &mut Book<'_>,
    ends: &EndNumbers,
    sinks: &mut K,
    limits: &Limits,
    c: usize,
) -> Option<StreamEnding>
    requires ends { ends.now.sinks.items ≡ end_numbers is_sink book.old.tables }
    requires sink { is_sink (channel_at book.old.tables c) ≡ true }
    ensures serves { Serves K.takes K.flushes limits.now result book.old book.new
        sinks.old sinks.new }
    ensures all { result ≡ None
        → (IsSinkTaken book.new.history c ⊎ HasGiven limits.now.take book.new.history c) }
{
    'items: while let Some(item) = book.next_item(c) {
        book.known();
        if has_given(book, c, limits.take) {
            return None;
        }
        if let Err(fault) = sinks.put(c, item) {
            return handle(book, ends, limits, c, fault);
        }
        if take(book, c).is_err() {
            return Some(StreamEnding::SinkFailed(c, SinkFault::NoMemory));
        }
    }
    book.known();
    None
}

/// Sink `c` has given the items that are wanted of it: its device hands on all of them, and it is left.
fn finish<K: Sinks>(
    book: &mut Book<'_>,
    ends: &EndNumbers,
    sinks: &mut K,
    limits: &Limits,
    c: usize,
) -> Option<StreamEnding>
    requires ends { ends.now.sinks.items ≡ end_numbers is_sink book.old.tables }
    requires sink { is_sink (channel_at book.old.tables c) ≡ true }
    requires given { HasGiven limits.now.take book.old.history c }
    ensures serves { Serves K.takes K.flushes limits.now result book.old book.new
        sinks.old sinks.new }
    ensures taken { result ≡ None → IsSinkTaken book.new.history c }
{
    book.known();
    if book.is_left(c) {
        return None;
    }
    match sinks.flush(c) {
        Ok(()) => leave(book, ends, limits, c),
        Err(fault) => handle(book, ends, limits, c, fault),
    }
}

/// Takes the next item of a sink. The error is that memory ran out.
fn take(book: &mut Book<'_>, c: usize) -> Result<(), AllocError>
    ensures took { (v : ℤ) → next_item (channel_in book.old.machine c) ≡ Some v
        → IfOk result (λ _. Happens (event.Take c v) book.old book.new) }
    ensures as_before { OnErr result (book.new ≡ book.old) }
{
    match book.take(c) {
        Ok(Some(_)) => Ok(()),
        _ => Err(AllocError),
    }
}

/// Whether a sink has given exactly as many items as are wanted.
fn has_given(book: &Book<'_>, c: usize, wanted: Option<u64>) -> bool
    requires { c < length book.now.tables.channels }
    ensures { IsTrue result ↔ HasGiven wanted book.now.history c }
{
    match wanted {
        Some(items) => book.read_count(c) as u64 == items,
        None => false,
    }
}

/// Handles a fault of the device of sink `c`: if nobody reads what it hands on, the sink is left.
fn handle(
    book: &mut Book<'_>,
    ends: &EndNumbers,
    limits: &Limits,
    c: usize,
    fault: SinkFault,
) -> Option<StreamEnding>
    requires ends { ends.now.sinks.items ≡ end_numbers is_sink book.old.tables }
    requires not_left { (channel_in book.old.machine c).is_retired ≡ false }
    ensures { IsHandled limits.now c fault result book.old book.new }
{
    match fault {
        SinkFault::Gone => leave(book, ends, limits, c),
        _ => Some(StreamEnding::SinkFailed(c, fault)),
    }
}

/// Leaves sink `c`. If it was the last one, or memory runs out, the stream has ended.
fn leave(book: &mut Book<'_>, ends: &EndNumbers, limits: &Limits, c: usize) -> Option<StreamEnding>
    requires ends { ends.now.sinks.items ≡ end_numbers is_sink book.old.tables }
    requires not_left { (channel_in book.old.machine c).is_retired ≡ false }
    ensures { IsLeaving limits.now c result book.old book.new }
{
    match book.leave_sink(c) {
        Ok(()) => ending_if_left(book, ends, limits),
        Err(_) => Some(StreamEnding::SinkFailed(c, SinkFault::NoMemory)),
    }
}

/// The ending of a stream whose sinks were all left: its outcome if it has one.
fn ending_if_left(book: &Book<'_>, ends: &EndNumbers, limits: &Limits) -> Option<StreamEnding>
    requires ends { ends.now.sinks.items ≡ end_numbers is_sink book.now.tables }
    requires sink { HasSink book.now.tables }
    ensures well { MayEndWell limits.now result book.now }
    ensures left { is_some result ≡ true → AreLeft book.now.tables book.now.history }
{
    book.known();
    if !are_left(book, ends) {
        return None;
    }
    match outcome_of(book, limits) {
        Some(outcome) => Some(StreamEnding::Outcome(outcome)),
        None => Some(StreamEnding::Left),
    }
}

/// Whether each sink was left.
fn are_left(book: &Book<'_>, ends: &EndNumbers) -> bool
    requires { ends.now.sinks.items ≡ end_numbers is_sink book.now.tables }
    ensures { IsTrue result → AreLeft book.now.tables book.now.history }
{
    book.known();
    'sinks: for i in 0..ends.sinks.len() {
        if !book.is_left(ends.sinks[i]) {
            return false;
        }
    }
    true
}

/// Lets the devices of the sinks that were not left hand on all that they kept.
pub(crate) fn flush_all<K: Sinks>(
    book: &mut Book<'_>,
    ends: &EndNumbers,
    sinks: &mut K,
    limits: &Limits,
) -> Option<StreamEnding>
    requires { ends.now.sinks.items ≡ end_numbers is_sink book.old.tables }
    ensures serves { Serves K.takes K.flushes limits.now result book.old book.new
        sinks.old sinks.new }
    ensures flushed { result ≡ None → AreFlushed K.flushes
        ends.now.sinks.items book.old.history sinks.old book.new.history sinks.new }
{
    'sinks: for i in 0..ends.sinks.len() {
        let ended = flush(book, ends, sinks, limits, ends.sinks[i]);
        if ended.is_some() {
            return ended;
        }
    }
    None
}

fn flush<K: Sinks>(
    book: &mut Book<'_>,
    ends: &EndNumbers,
    sinks: &mut K,
    limits: &Limits,
    c: usize,
) -> Option<StreamEnding>
    requires ends { ends.now.sinks.items ≡ end_numbers is_sink book.old.tables }
    requires sink { is_sink (channel_at book.old.tables c) ≡ true }
    ensures serves { Serves K.takes K.flushes limits.now result book.old book.new
        sinks.old sinks.new }
    ensures flushed { result ≡ None → IsFlushed K.flushes
        c book.old.history sinks.old book.new.history sinks.new }
{
    book.known();
    if book.is_left(c) {
        return None;
    }
    match sinks.flush(c) {
        Ok(()) => None,
        Err(fault) => handle(book, ends, limits, c, fault),
    }
}
