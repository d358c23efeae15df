//! The processes make steps.
ghost use Rattle.std.specs.Prelude.{◌≡◌, ◌+◌, ◌<◌, ◌≤◌, ◌^◌, count_by, IsTrue};
ghost use Rattle.kpn_history.specs.Ends.{HaveStopped};
ghost use Rattle.kpn_history.specs.Views.{is_ready};
ghost use Rattle.kpn_book.specs.Book.{held_count};
ghost use Rattle.kpn_stream.specs.Streaming.{StepsWithinLimits};

use kpn_book::{Book, Limits};
use std::alloc::AllocError;

/// The most commits in a stretch, and in a turn.
pub(crate) const STRETCH: u64 = 1_000;

/// This many events have room before a turn: two for each commit and for each item that is taken then, and some for
/// sources and sinks. So if memory runs out in the processes, their items can still be taken.
const ROOM: usize = 5_000;

/// Makes a stretch of steps, as `step_until` does. The error is that memory ran out.
pub(crate) fn step_stretch(
    book: &mut Book<'_>,
    limits: &Limits,
    goal: u64,
) -> Result<(), AllocError>
    ensures { StepsWithinLimits limits.now book.old book.new }
{
    book.reserve(ROOM)?;
    step_until(book, limits, goal)
}

/// Steps the processes until none is ready, or the commits have reached the goal or their limit. If nobody sees the
/// order, an item on a sink ends it too. The error is that memory ran out.
fn step_until(book: &mut Book<'_>, limits: &Limits, goal: u64) -> Result<(), AllocError>
    ensures { StepsWithinLimits limits.now book.old book.new }
{
    'rows: for _row in 0..u64::MAX {
        if step_row(book, limits, goal)?.is_none() || !is_order_seen(book, limits) {
            return Ok(());
        }
    }
    Ok(())
}

/// Steps the processes until one has put an item on a sink, which is returned, or none is ready, or the commits have
/// reached the goal or their limit.
fn step_row(book: &mut Book<'_>, limits: &Limits, goal: u64) -> Result<Option<usize>, AllocError>
    ensures { StepsWithinLimits limits.now book.old book.new }
{
    let most = commits_left(book, limits, goal);
    if is_order_seen(book, limits) {
        return book.run_on(limits.quota.max(1), most);
    }
    book.go_on(limits.quota.max(1), most)
}

/// Whether somebody sees in which order the processes make steps: the book keeps its events, or the commits are
/// limited.
pub(crate) fn is_order_seen(book: &Book<'_>, limits: &Limits) -> bool {
    limits.commits < u64::MAX || book.history().is_kept()
}

/// How many commits are left up to the goal and to the limit, and at most as many as can be counted.
fn commits_left(book: &Book<'_>, limits: &Limits, goal: u64) -> u64
    ensures countable { book.now.commits + held_count book.now + result < 2 ^ 64 }
    ensures within { book.now.commits ≤ limits.now.commits
        → book.now.commits + result ≤ limits.now.commits }
{
    book.known();
    let made = book.commits();
    let countable = u64::MAX - book.counts().held as u64;
    limits.commits.min(goal).min(countable).saturating_sub(made)
}

/// Whether each process has ended or waits.
pub(crate) fn is_idle(book: &Book<'_>) -> bool
    ensures nobody_ready { IsTrue result → count_by is_ready book.now.schedule.states ≡ 0 }
    ensures stopped { IsTrue result → HaveStopped book.now.tables book.now.history }
{
    book.known();
    let counts = book.counts();
    if counts.held > 0 {
        return false;
    }
    counts.ready == 0
}
