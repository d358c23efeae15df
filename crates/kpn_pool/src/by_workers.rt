//! A run by several workers.
ghost use Rattle.std.specs.Prelude.{◌≡◌, ◌<◌, ◌≤◌, length, IfOk, IsTrue};
ghost use Rattle.kpn_net.specs.Iteration.{sources};
ghost use Rattle.kpn_history.specs.Keeping.{keeps_all};
ghost use Rattle.kpn_book.specs.Reports.{AreSupplied, IsReport, events_of};
ghost use Rattle.kpn_pool.specs.Fed.{keeps_ends};

use crate::beside::{EndedRun, WorkPlan, run_beside};
use crate::ending::conclude;
use crate::fault::RunFault;
use crate::serving::{Nobody, Serving};
use kpn_book::{Keeping, Limits, Report};
use kpn_lang::Sequence;
use kpn_limits::MAX_WORKERS;
use kpn_net::Network;
use kpn_pool_desk::{Gate, Refused};
use std::alloc::Global;
use std::sync::Wait;
use std::thread::Threads;
use std::time::Clock;

/// Runs a network on these lists, one for each source in order of channel number, until there is an outcome under the
/// limits. The processes are stepped by 1 to `MAX_WORKERS` workers, each on a thread of its own.
///
/// The calling thread feeds each source its whole list, closes it, and takes from the sinks what is put on them, while
/// the workers run. The gate is asked before each commit, unless it lets all through. The report keeps the promise of
/// `kpn_book::run_here`: the lists were fed whole and the sources closed, under every outcome. Which capacities and which
/// prefixes of the journals of other channels it shows depends on the schedule. The commits are those of the workers,
/// who may make up to 127 more than the limit. A quota of 0 counts as 1.
///
/// The error is the first of these: a thread could not be started; memory ran out; the gate made every worker end
/// before there was an outcome; a source was fed something else than its list or not closed, or a call of the outside
/// was refused.
pub fn run<R: Threads + Wait + Clock + Sync, G: Gate>(
    rt: &R,
    alloc: Global,
    network: &Network,
    lists: &[Sequence<i64>],
    workers: usize,
    gate: &G,
    limits: &Limits,
) -> Result<Report, RunFault>
    requires lists { length lists.now ≡ sources network.now }
    requires workers { (0 < workers) × (workers ≤ MAX_WORKERS) }
    ensures report { IfOk result (λ report. IsReport network.now lists.now limits.now report) }
    ensures supplied { IfOk result (λ report.
        AreSupplied network.now lists.now (events_of report)) }
    ensures kept { IfOk result (λ report. IsTrue report.history.is_kept) }
{
    let plan = WorkPlan {
        workers,
        gate,
        limits: *limits,
        keeping: Keeping::All,
    };
    run_keeping(rt, alloc, network, lists, &plan)
}

/// The same run as it is planned.
pub fn run_keeping<R: Threads + Wait + Clock + Sync, G: Gate>(
    rt: &R,
    alloc: Global,
    network: &Network,
    lists: &[Sequence<i64>],
    plan: &WorkPlan<'_, G>,
) -> Result<Report, RunFault>
    requires lists { length lists.now ≡ sources network.now }
    requires workers { (0 < plan.now.workers) × (plan.now.workers ≤ MAX_WORKERS) }
    // by the items of the sources the report is checked, and of those of the sinks it is made
    requires keeping { IsTrue (keeps_ends plan.now.keeping) }
    ensures report { IfOk result (λ report.
        IsReport network.now lists.now plan.now.limits report) }
    ensures supplied { IfOk result (λ report.
        AreSupplied network.now lists.now (events_of report)) }
    ensures kept { IfOk result (λ report.
        report.history.is_kept ≡ keeps_all plan.now.keeping) }
{
    let serving = Serving::new(lists, plan.limits.take, plan.gate.lets_all());
    let nobody: &[Nobody] = &[];
    let ran = run_beside(rt, alloc, network, plan, serving, nobody)?;
    let EndedRun {
        book,
        client,
        fault,
        ..
    } = ran;
    let abandoned = match fault {
        Some(RunFault::Abandoned) => true,
        Some(fault) => return Err(fault),
        None => false,
    };
    let served = client.served();
    if matches!(served, Err(Refused::NoMemory)) {
        return Err(RunFault::NoMemory);
    }
    conclude(alloc, book, lists, &plan.limits, abandoned, served)
}
