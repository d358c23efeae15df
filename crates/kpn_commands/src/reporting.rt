//! A network is run: by the calling thread, or by workers on threads of their own.
ghost use Rattle.std.specs.Prelude.{◌≡◌, ◌≤◌, true, length, is_some, option_map, Some, IfSome, IfOk, IfErr, IsSome, IsTrue};
ghost use Rattle.kpn_net.specs.Iteration.{sources};
ghost use Rattle.kpn_book.specs.Reports.{events_of, AreSupplied, IsReport};
ghost use Rattle.kpn_book.specs.RunHere.{IsReportHere};
ghost use Rattle.kpn_pool.specs.Fed.{keeps_ends};
ghost use Rattle.kpn_commands.specs.Limits.{commits_in_any_order, commits_with, limits_in_any_order, run_limits_of};
ghost use Rattle.kpn_commands.specs.Reported.{IsRefusalOfReport};

use kpn_book::{Keeping, Limits, Outcome, Report, Unread, run_here_keeping, run_in_any_order};
use kpn_command_base::{Inputs, NamedEnd, QUOTA, Refusal, RunRequest};
use kpn_lang::Sequence;
use kpn_limits::{MAX_INPUT_BYTES, MAX_WORKERS};
use kpn_net::Network;
use kpn_pool::{RunFault, WorkPlan, run_keeping};
use kpn_pool_desk::CommitsAll;
use std::alloc::Global;
use std::sync::Wait;
use std::thread::Threads;
use std::time::Clock;

/// What was run, the sinks that options name, and the report.
#[derive(Drop)]
pub(crate) struct Reported<'a> {
    pub(crate) inputs: Inputs,
    pub(crate) sinks: Vec<NamedEnd<'a>>,
    pub(crate) report: Report,
}

/// A run that stores a trace has at most this many commits. The line of a get, a put, a wait or an end has at
/// least 10 bytes.
const MOST_TRACED: u64 = MAX_INPUT_BYTES as u64 / 10;

/// Some channel has at least this many places, if turns in any order are faster.
const FEWEST_PLACES: u32 = 8;

/// The limits of a run that is asked for.
pub(crate) fn limits_of(request: &RunRequest<'_>) -> Limits
    ensures { result ≡ run_limits_of request.now }
{
    Limits {
        commits: commits_with(request.trace, request.commits),
        take: request.take,
        quota: QUOTA,
    }
}

fn commits_with(trace: Option<&str>, asked: u64) -> u64
    ensures { result ≡ commits_with (option_map (λ name. name.now) trace.entry) asked }
{
    match trace {
        Some(_) => asked.min(MOST_TRACED),
        None => asked,
    }
}

/// What is kept of a run: all for its trace, or else what its report is made of. A report of workers is checked by what
/// the sources were fed.
pub(crate) fn keeping_of(request: &RunRequest<'_>) -> Keeping
    ensures { IsSome request.now.workers → IsTrue (keeps_ends result) }
{
    match (request.trace, request.workers) {
        (Some(_), _) => Keeping::All,
        (None, Some(_)) => Keeping::Ends,
        (None, None) => Keeping::Sinks,
    }
}

/// Whether a trace of the run is asked for.
pub(crate) fn is_traced(request: &RunRequest<'_>) -> bool
    ensures { result ≡ is_some request.now.trace }
{
    match request.trace {
        Some(_) => true,
        None => false,
    }
}

/// Runs a network on the calling thread. If the run is traced, its turns are in the order of the queue. Otherwise
/// nobody sees the order. Then they are made in any, if this is faster, with fewer commits, and in the order of the
/// queue only if this stops.
pub(crate) fn run_on_this_thread(
    alloc: Global,
    network: &Network,
    lists: &[Sequence<i64>],
    limits: &Limits,
    keeping: Keeping,
    traced: bool,
) -> Result<Report, Unread>
    requires { length lists.now ≡ sources network.now }
    ensures report { IfOk result (λ report. IsReport network.now lists.now limits.now report) }
    ensures here { traced ≡ true
        → IfOk result (λ report. IsReportHere network.now lists.now limits.now report) }
    ensures supplied { IfOk result (λ report.
        AreSupplied network.now lists.now (events_of report)) }
    ensures commits { IfOk result (λ report. report.commits ≤ limits.now.commits) }
{
    if !traced && is_wide(network) {
        let found = try_any_order(alloc, network, lists, limits, keeping)?;
        if let Some(report) = found {
            return Ok(report);
        }
    }
    run_here_keeping(alloc, network, lists, limits, keeping)
}

/// Whether some channel between processes has room for several items, so that a process may go on for long.
fn is_wide(network: &Network) -> bool {
    'channels: for c in 0..network.channels() {
        if !network.is_sink(c) && network.cap_of(c).unwrap_or(0) >= FEWEST_PLACES {
            return true;
        }
    }
    false
}

/// The report of a run in any order, with fewer commits; `None` if it stops.
fn try_any_order(
    alloc: Global,
    network: &Network,
    lists: &[Sequence<i64>],
    limits: &Limits,
    keeping: Keeping,
) -> Result<Option<Report>, Unread>
    requires { length lists.now ≡ sources network.now }
    ensures report { IfOk result (λ found. IfSome found (λ report.
        IsReport network.now lists.now limits.now report)) }
    ensures supplied { IfOk result (λ found. IfSome found (λ report.
        AreSupplied network.now lists.now (events_of report))) }
    ensures commits { IfOk result (λ found. IfSome found (λ report.
        report.commits ≤ limits.now.commits)) }
{
    let fewer = limits_in_any_order(network, limits);
    let report = run_in_any_order(alloc, network, lists, &fewer, keeping)?;
    if report.outcome == Outcome::Stopped {
        return Ok(None);
    }
    Ok(Some(report))
}

/// The limits of a run in any order. If it comes to an outcome within them, one in the order of the queue comes to the
/// same within these. In that order a process waits at most once before each get or put, and once more; and in each
/// round of the queue it makes the next event of the other run, if that was not made before.
fn limits_in_any_order(network: &Network, limits: &Limits) -> Limits
    ensures { result ≡ limits_in_any_order (length network.now.instances) limits.now }
{
    let processes = network.instances() as u64;
    Limits {
        commits: commits_in_any_order(processes, limits.take, limits.commits),
        take: limits.take,
        quota: limits.quota,
    }
}

fn commits_in_any_order(processes: u64, take: Option<u64>, commits: u64) -> u64
    ensures { result ≡ commits_in_any_order processes take commits }
{
    let most = commits.saturating_sub(processes) / 2;
    match take {
        Some(_) => most
            .min((commits / processes.max(1)).saturating_sub(1))
            .min(commits / 8),
        None => most.min(commits / 8),
    }
}

/// Runs a network by workers: at least one, and at most `MAX_WORKERS`.
pub(crate) fn run_by_workers<R: Threads + Wait + Clock + Sync>(
    rt: &R,
    alloc: Global,
    network: &Network,
    lists: &[Sequence<i64>],
    workers: u32,
    limits: &Limits,
    keeping: Keeping,
) -> Result<Report, Refusal>
    requires lists { length lists.now ≡ sources network.now }
    requires keeping { IsTrue (keeps_ends keeping) }
    ensures report { IfOk result (λ report. IsReport network.now lists.now limits.now report) }
    ensures refused { IfErr result (IsRefusalOfReport (Some workers)) }
{
    let workers = (workers as usize).clamp(1, MAX_WORKERS);
    let plan = WorkPlan {
        workers,
        gate: &CommitsAll,
        limits: *limits,
        keeping,
    };
    match run_keeping(rt, alloc, network, lists, &plan) {
        Ok(report) => Ok(report),
        Err(RunFault::Threads) => Err(Refusal::Threads),
        Err(RunFault::NoMemory) => Err(Refusal::NoMemory),
        Err(RunFault::Abandoned) => Err(Refusal::Abandoned),
        Err(RunFault::Foreign) => Err(Refusal::Foreign),
    }
}
