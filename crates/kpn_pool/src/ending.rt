//! The end of a run, once its workers are gone: what they held is put back, the sinks are emptied, and the report is
//! written.
ghost use Rattle.std.specs.Prelude.{◌≡◌, length, IfOk};
ghost use Rattle.kpn_net.specs.Iteration.{sources};
ghost use Rattle.kpn_history.specs.declared.keeping.Keeping.{Keeping};
ghost use Rattle.kpn_history.specs.Keeping.{keeps_all};
ghost use Rattle.kpn_book.specs.Remembering.{Remembers};
ghost use Rattle.kpn_book.specs.Reports.{AreSupplied, IsReport, events_of};
ghost use Rattle.kpn_pool.specs.Ending.{KeepsHeld};

use crate::fault::RunFault;
use crate::fed::{are_closed, are_kept, were_fed};
use kpn_book::{Book, Limits, Report, outcome_of, put_back_held, report_of};
use kpn_lang::Sequence;
use kpn_pool_desk::Refused;
use std::alloc::Global;

/// The report of a run whose workers have ended, by the rule of a run on one thread. `abandoned` says whether the gate
/// ended all of them, and `served` what became of the calls of the outside.
pub(crate) fn conclude(
    alloc: Global,
    book: Book<'_>,
    lists: &[Sequence<i64>],
    limits: &Limits,
    abandoned: bool,
    served: Result<(), Refused>,
) -> Result<Report, RunFault>
    requires { length lists.now ≡ sources book.tables }
    ensures report { IfOk result (λ report.
        IsReport book.entry.tables lists.now limits.now report) }
    ensures supplied { IfOk result (λ report.
        AreSupplied book.entry.tables lists.now (events_of report)) }
    ensures commits { IfOk result (λ report. report.commits ≡ book.entry.commits) }
    ensures kept { IfOk result (λ report. (keeping : Keeping) → Remembers keeping book.entry
        → report.history.is_kept ≡ keeps_all keeping) }
{
    let mut book = book;
    put_back_held(&mut book);
    let emptied = empty_sinks(&mut book);
    if matches!(emptied, Err(Refused::NoMemory)) {
        return Err(RunFault::NoMemory);
    }
    let Some(outcome) = outcome_of(&book, limits) else {
        return Err(if abandoned {
            RunFault::Abandoned
        } else {
            RunFault::Foreign
        });
    };
    book.known();
    let network = book.network();
    let are_closed = are_closed(&book);
    let are_kept = are_kept(&book);
    let Ok(report) = report_of(alloc, book, outcome) else {
        return Err(RunFault::NoMemory);
    };
    let are_fed = were_fed(network, lists, &report.view);
    if !are_fed || !are_closed || !are_kept || served.is_err() || emptied.is_err() {
        return Err(RunFault::Foreign);
    }
    Ok(report)
}

/// Takes all that is unread from the sinks.
fn empty_sinks(book: &mut Book<'_>) -> Result<(), Refused>
    ensures { KeepsHeld book.old book.new }
{
    'channels: for c in 0..book.network().channels() {
        if book.network().is_sink(c) {
            empty_sink(book, c)?;
        }
    }
    Ok(())
}

/// Takes all that is unread from a sink.
fn empty_sink(book: &mut Book<'_>, sink: usize) -> Result<(), Refused>
    ensures { KeepsHeld book.old book.new }
{
    book.known();
    'items: while book.take(sink)?.is_some() {
        book.known();
    }
    Ok(())
}
