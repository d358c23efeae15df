//! Turns in a row of a network that is left to itself: processes make steps until one has put an item on a sink, and it
//! is taken.
ghost use Rattle.std.specs.Prelude.{◌≡◌, ◌+◌, ◌<◌, ◌^◌, max, Bool, true, false, IfOk, None};
ghost use Rattle.kpn_book.specs.Book.{Book as Seen};
ghost use Rattle.kpn_book.specs.Outcomes.{IsEnough, IsOutcome};
ghost use Rattle.kpn_book.specs.Running.{IsLeftToItself, IsFrontStepped, IsStepped, AreStepped, IsCommitted, HasPutOn};

use crate::Book;
use crate::outcome::Limits;
use crate::stopping::has_enough_by;
use std::alloc::AllocError;

/// Steps the processes one after the other, each by no more steps than the quota, until one has put an item on a sink,
/// which is taken, or none is ready, or the commits have reached their limit. Returns whether there is enough then. The
/// order is that of the queue, if this is asked for.
pub(crate) fn step(
    book: &mut Book<'_>,
    limits: &Limits,
    quota: u32,
    in_order: bool,
) -> Result<bool, AllocError>
    requires quota { quota ≡ max limits.now.quota 1 }
    requires countable { book.old.commits + 1 < 2 ^ 64 }
    requires to_itself { IsLeftToItself book.old }
    requires goes_on { IsOutcome book.old.tables book.old.history book.old.commits limits.now None }
    ensures { IfOk result (λ enough. AreStepped limits.now in_order enough book.old book.new) }
{
    if in_order {
        return step_in_order(book, limits, quota);
    }
    step_in_any_order(book, limits, quota)
}

/// The same in the order of the queue.
fn step_in_order(book: &mut Book<'_>, limits: &Limits, quota: u32) -> Result<bool, AllocError>
    requires quota { quota ≡ max limits.now.quota 1 }
    requires countable { book.old.commits + 1 < 2 ^ 64 }
    requires to_itself { IsLeftToItself book.old }
    requires goes_on { IsOutcome book.old.tables book.old.history book.old.commits limits.now None }
    ensures { IfOk result (λ enough. AreStepped limits.now true enough book.old book.new) }
{
    book.known();
    let most = limits.commits - book.commits();
    let put = book.run_on(quota, most)?;
    match put {
        None => Ok(false),
        Some(sink) => take_what_was_put(book, sink, limits),
    }
}

/// The same in any order.
fn step_in_any_order(book: &mut Book<'_>, limits: &Limits, quota: u32) -> Result<bool, AllocError>
    requires quota { quota ≡ max limits.now.quota 1 }
    requires countable { book.old.commits + 1 < 2 ^ 64 }
    requires to_itself { IsLeftToItself book.old }
    requires goes_on { IsOutcome book.old.tables book.old.history book.old.commits limits.now None }
    ensures { IfOk result (λ enough. AreStepped limits.now false enough book.old book.new) }
{
    book.known();
    let most = limits.commits - book.commits();
    let put = book.go_on(quota, most)?;
    match put {
        None => Ok(false),
        Some(sink) => take_what_was_put(book, sink, limits),
    }
}

/// Takes the item that was just put on this sink. Returns whether there is enough then.
fn take_what_was_put(book: &mut Book<'_>, sink: usize, limits: &Limits) -> Result<bool, AllocError>
    ensures { (in_order : Bool) (before : Seen) → IsLeftToItself before
        → (in_order ≡ true → IsFrontStepped (max limits.now.quota 1) before book.old)
        → IsCommitted before book.old → HasPutOn sink before book.old
        → (¬ IsEnough before.tables before.history limits.now.take)
        → IfOk result (λ enough. IsStepped limits.now in_order enough before book.new) }
{
    book.known();
    match book.take(sink) {
        Ok(_) => {
            book.known();
            Ok(has_enough_by(book, sink, limits.take))
        }
        Err(_) => Err(AllocError),
    }
}
