//! Whether a run has come to its outcome.
ghost use Rattle.std.specs.Prelude.{◌≡◌, ◌↔◌, ℕ, ◌+◌, ◌<◌, ◌^◌, List, length, IsTrue, IfNone};
ghost use Rattle.kpn_history.specs.declared.event.Event.{Event};
ghost use Rattle.kpn_history.specs.Channels.{read_on};
ghost use Rattle.kpn_book.specs.Outcomes.{HaveRead, IsEnough, IsOutcome};
ghost use Rattle.kpn_book.specs.Running.{ReadsOneMore};

use crate::Book;
use crate::outcome::{Limits, Outcome};

/// What a run has come to under its limits, if it has. It is enough if what is wanted was read of each sink. Else it is
/// the verdict if there is one. Else it is stopped if the commits have reached their limit.
pub fn outcome_of(book: &Book<'_>, limits: &Limits) -> Option<Outcome>
    ensures { IsOutcome book.now.tables book.now.history book.now.commits limits.now result }
{
    if has_enough(book, limits.take) {
        return Some(Outcome::Enough);
    }
    outcome_unless_enough(book, limits)
}

/// What a run that has not enough has come to, if it has.
pub(crate) fn outcome_unless_enough(book: &Book<'_>, limits: &Limits) -> Option<Outcome>
    ensures countable { IfNone result (book.now.commits + 1 < 2 ^ 64) }
    ensures outcome { (¬ IsEnough book.now.tables book.now.history limits.now.take)
        → IsOutcome book.now.tables book.now.history book.now.commits limits.now result }
{
    if let Some(verdict) = book.verdict() {
        return Some(Outcome::from(verdict));
    }
    if limits.commits <= book.commits() {
        return Some(Outcome::Stopped);
    }
    None
}

/// Whether what is wanted of the sinks, if anything, was read.
pub(crate) fn has_enough(book: &Book<'_>, wanted: Option<u64>) -> bool
    ensures { IsTrue result ↔ IsEnough book.now.tables book.now.history wanted }
{
    match wanted {
        Some(items) => have_read(book, items),
        None => false,
    }
}

/// Whether there is enough after at most one more item was read of this sink. Before it there was not enough. So the
/// call looks at the other sinks only if this one has exactly as many as are wanted.
pub(crate) fn has_enough_by(book: &Book<'_>, sink: usize, wanted: Option<u64>) -> bool
    requires { sink < length book.now.tables.channels }
    ensures { (before : List Event) → ReadsOneMore book.now.tables sink before book.now.history
        → (¬ IsEnough book.now.tables before wanted)
        → (IsTrue result ↔ IsEnough book.now.tables book.now.history wanted) }
{
    match wanted {
        Some(items) => book.read_count(sink) as u64 == items && have_read(book, items),
        None => false,
    }
}

/// Whether this many items or more were read of each sink.
fn have_read(book: &Book<'_>, items: u64) -> bool
    ensures { IsTrue result ↔ HaveRead book.now.tables book.now.history items }
{
    let network = book.network();
    'channels: for c in 0..network.channels() {
        if network.is_sink(c) && (book.read_count(c) as u64) < items {
            return false;
        }
    }
    true
}
