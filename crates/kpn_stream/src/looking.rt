//! Looks at sources: whose answer has come, without waiting for it.
ghost use Rattle.std.specs.Prelude.{◌≡◌, ◌≢◌, ◌<◌, true, length, IfSome, IsTrue};
ghost use Rattle.kpn_net.specs.Tables.{channel_at, is_source, is_sink};
ghost use Rattle.kpn_stream.specs.declared.devices.Readiness.TheVariants as look;
ghost use Rattle.kpn_stream.specs.Devices.{MayRead, AreLookedAt};
ghost use Rattle.kpn_stream.specs.Ending.{end_numbers, AreTaken};
ghost use Rattle.kpn_stream.specs.Streaming.{IsStepless, StreamGoesOn, ReadsAtHand};

use crate::devices::{Readiness, Sinks, Sources};
use crate::ending::StreamEnding;
use crate::ends::EndNumbers;
use crate::reading::{is_due, read};
use crate::taking::flush_all;
use kpn_book::{Book, Limits};

// ---- processes are ready

/// A stretch is over, and processes are ready. The devices of the sinks hand on all that they kept, and each awaited
/// source is read once whose answer is at hand.
pub(crate) fn end_stretch<S: Sources, K: Sinks>(
    book: &mut Book<'_>,
    ends: &EndNumbers,
    sources: &mut S,
    sinks: &mut K,
    limits: &Limits,
) -> Option<StreamEnding>
    requires sources { ends.now.sources.items ≡ end_numbers is_source book.old.tables }
    requires sinks { ends.now.sinks.items ≡ end_numbers is_sink book.old.tables }
    requires taken { AreTaken book.old.tables book.old.history }
    ensures goes_on { StreamGoesOn S.gives S.looks S.at_hand K.takes K.flushes limits.now result
        book.old book.new sources.old sources.new sinks.old sinks.new }
    ensures taken { AreTaken book.new.tables book.new.history }
    ensures stepless { IsStepless result book.old book.new }
{
    let ended = flush_all(book, ends, sinks, limits);
    if ended.is_some() {
        return ended;
    }
    'sources: for i in 0..ends.sources.len() {
        let ended = read_at_hand(book, sources, ends.sources[i]);
        if ended.is_some() {
            return ended;
        }
    }
    None
}

/// Reads source `c` if it is awaited and its answer is at hand.
fn read_at_hand<S: Sources>(book: &mut Book<'_>, sources: &mut S, c: usize) -> Option<StreamEnding>
    requires source { is_source (channel_at book.old.tables c) ≡ true }
    requires taken { AreTaken book.old.tables book.old.history }
    ensures { ReadsAtHand S.gives S.looks S.at_hand c result
        book.old book.new sources.old sources.new }
{
    if !is_due(book, c, true) {
        return None;
    }
    if !has_come(sources, c) {
        return None;
    }
    read(book, sources, c)
}

/// Whether the answer for a source is at hand, by a look if need be.
fn has_come<S: Sources>(sources: &mut S, c: usize) -> bool
    ensures looked { AreLookedAt S.looks sources.old sources.new }
    ensures at_hand { IsTrue result → S.at_hand sources.new c }
{
    if sources.is_at_hand(c) {
        return true;
    }
    match sources.look(c) {
        Readiness::AtHand => true,
        _ => false,
    }
}

// ---- no process is ready

/// Which source is to be read, if `least` is the least that is due. Of several that are awaited it is the one whose
/// answer comes first.
pub(crate) fn first_to_come<S: Sources>(
    book: &Book<'_>,
    ends: &EndNumbers,
    sources: &mut S,
    least: usize,
) -> usize
    requires sources { ends.now.sources.items ≡ end_numbers is_source book.now.tables }
    requires may_read { MayRead book.now.tables book.now.history least }
    ensures looked { AreLookedAt S.looks sources.old sources.new }
    ensures may_read { MayRead book.now.tables book.now.history result }
{
    if !are_several(book, ends) {
        return least;
    }
    'looks: for _look in 0..u64::MAX {
        if let Some(c) = look_around(book, ends, sources) {
            return c;
        }
        sources.linger();
    }
    least
}

/// Whether several sources are awaited.
fn are_several(book: &Book<'_>, ends: &EndNumbers) -> bool
    requires { ends.now.sources.items ≡ end_numbers is_source book.now.tables }
{
    let mut is_one = false;
    'sources: for i in 0..ends.sources.len() {
        if is_due(book, ends.sources[i], true) {
            if is_one {
                return true;
            }
            is_one = true;
        }
    }
    false
}

/// Looks at each awaited source. Returns the least whose answer is at hand, or else the least of which nobody can tell.
fn look_around<S: Sources>(book: &Book<'_>, ends: &EndNumbers, sources: &mut S) -> Option<usize>
    requires sources { ends.now.sources.items ≡ end_numbers is_source book.now.tables }
    requires taken { AreTaken book.now.tables book.now.history }
    ensures looked { AreLookedAt S.looks sources.old sources.new }
    ensures may_read { IfSome result (λ c. MayRead book.now.tables book.now.history c) }
{
    let mut unknown = None;
    'sources: for i in 0..ends.sources.len() {
        let c = ends.sources[i];
        match look_at(book, sources, c) {
            Readiness::AtHand => return Some(c),
            Readiness::Unknown => unknown = unknown.or(Some(c)),
            Readiness::NotYet => {}
        }
    }
    unknown
}

/// Looks at source `c` if it is awaited.
fn look_at<S: Sources>(book: &Book<'_>, sources: &mut S, c: usize) -> Readiness
    requires source { is_source (channel_at book.now.tables c) ≡ true }
    requires taken { AreTaken book.now.tables book.now.history }
    ensures looked { AreLookedAt S.looks sources.old sources.new }
    ensures may_read { result ≢ look.NotYet → MayRead book.now.tables book.now.history c }
{
    if !is_due(book, c, true) {
        return Readiness::NotYet;
    }
    sources.look(c)
}
