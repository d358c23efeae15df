//! A run on the calling thread only.
ghost use Rattle.std.specs.Prelude.{◌≡◌, ◌≤◌, length, true, IsTrue, IfOk};
ghost use Rattle.kpn_net.specs.Iteration.{sources};
ghost use Rattle.kpn_history.specs.Keeping.{keeps_all};
ghost use Rattle.kpn_book.specs.Reports.{events_of, AreSupplied, IsReport};
ghost use Rattle.kpn_book.specs.RunHere.{IsReportHere};
ghost use Rattle.kpn_book.specs.Running.{IsLeftToItself, ComesToOutcome};

use crate::feeding::feed_sources;
use crate::outcome::{Limits, Outcome};
use crate::report::Report;
use crate::stepping::step;
use crate::stopping::{has_enough, outcome_unless_enough};
use crate::telling::report_of;
use crate::{Book, Keeping, Unread};
use kpn_lang::Sequence;
use kpn_net::Network;
use std::alloc::{AllocError, Global};

/// Runs a network on these lists, one for each source in order of channel number, until there is an outcome under the
/// limits.
///
/// It feeds each source its whole list and closes it. Then it steps the processes, one after the other, and takes at
/// once what they put on the sinks. The error is that memory ran out.
pub fn run_here(
    alloc: Global,
    network: &Network,
    lists: &[Sequence<i64>],
    limits: &Limits,
) -> Result<Report, AllocError>
    requires { length lists.now ≡ sources network.now }
    ensures report { IfOk result (λ report. IsReport network.now lists.now limits.now report) }
    ensures here { IfOk result (λ report. IsReportHere network.now lists.now limits.now report) }
    ensures supplied { IfOk result (λ report.
        AreSupplied network.now lists.now (events_of report)) }
    ensures commits { IfOk result (λ report. report.commits ≤ limits.now.commits) }
    ensures kept { IfOk result (λ report. IsTrue report.history.is_kept) }
{
    match run_here_keeping(alloc, network, lists, limits, Keeping::All) {
        Ok(report) => Ok(report),
        // All is kept, so none of it is unread because it was forgotten.
        Err(_) => Err(AllocError),
    }
}

/// The same run, which keeps what it is told to keep. The error is that memory ran out, or that the items of the sinks
/// are not kept.
pub fn run_here_keeping(
    alloc: Global,
    network: &Network,
    lists: &[Sequence<i64>],
    limits: &Limits,
    keeping: Keeping,
) -> Result<Report, Unread>
    requires { length lists.now ≡ sources network.now }
    ensures report { IfOk result (λ report. IsReport network.now lists.now limits.now report) }
    ensures here { IfOk result (λ report. IsReportHere network.now lists.now limits.now report) }
    ensures supplied { IfOk result (λ report.
        AreSupplied network.now lists.now (events_of report)) }
    ensures commits { IfOk result (λ report. report.commits ≤ limits.now.commits) }
    ensures kept { IfOk result (λ report. report.history.is_kept ≡ keeps_all keeping) }
{
    run_by_order(alloc, network, lists, limits, keeping, true)
}

/// The same run, but that nobody sees the order of its turns, so it is faster. Between two turns the queue may come to
/// another order, and a process may have made steps.
pub fn run_in_any_order(
    alloc: Global,
    network: &Network,
    lists: &[Sequence<i64>],
    limits: &Limits,
    keeping: Keeping,
) -> Result<Report, Unread>
    requires { length lists.now ≡ sources network.now }
    ensures report { IfOk result (λ report. IsReport network.now lists.now limits.now report) }
    ensures supplied { IfOk result (λ report.
        AreSupplied network.now lists.now (events_of report)) }
    ensures commits { IfOk result (λ report. report.commits ≤ limits.now.commits) }
    ensures kept { IfOk result (λ report. report.history.is_kept ≡ keeps_all keeping) }
{
    run_by_order(alloc, network, lists, limits, keeping, false)
}

/// The run whose turns are in the order of the queue, or in any.
fn run_by_order(
    alloc: Global,
    network: &Network,
    lists: &[Sequence<i64>],
    limits: &Limits,
    keeping: Keeping,
    in_order: bool,
) -> Result<Report, Unread>
    requires { length lists.now ≡ sources network.now }
    ensures report { IfOk result (λ report. IsReport network.now lists.now limits.now report) }
    ensures here { in_order ≡ true
        → IfOk result (λ report. IsReportHere network.now lists.now limits.now report) }
    ensures supplied { IfOk result (λ report.
        AreSupplied network.now lists.now (events_of report)) }
    ensures commits { IfOk result (λ report. report.commits ≤ limits.now.commits) }
    ensures kept { IfOk result (λ report. report.history.is_kept ≡ keeps_all keeping) }
{
    let mut book = Book::keeping(alloc, network, keeping)?;
    feed_sources(&mut book, network, lists)?;
    let outcome = run(&mut book, limits, in_order)?;
    book.known();
    report_of(alloc, book, outcome)
}

/// Steps processes until there is an outcome.
fn run(book: &mut Book<'_>, limits: &Limits, in_order: bool) -> Result<Outcome, AllocError>
    requires { IsLeftToItself book.old }
    ensures { IfOk result (λ outcome.
        ComesToOutcome limits.now in_order outcome book.old book.new) }
{
    if has_enough(book, limits.take) {
        return Ok(Outcome::Enough);
    }
    let quota = limits.quota.max(1);
    'run: loop {
        if let Some(outcome) = outcome_unless_enough(book, limits) {
            return Ok(outcome);
        }
        if step(book, limits, quota, in_order)? {
            return Ok(Outcome::Enough);
        }
    }
}
