//! The command: it reads a network and the lists of its sources, runs the network, and concludes with the files to
//! store and a report.
ghost use Rattle.std.specs.Prelude.{◌≡◌, IfOk, IfErr};
ghost use Rattle.kpn_commands.specs.Run.{IsRunConcluded, IsRunAnswer, IsNoRun, IsOfLegal, IsStatus, left_out_of, strict_status};
ghost use Rattle.kpn_commands.specs.Files.{IsRefusalOfFiles};
ghost use Rattle.kpn_book.specs.Reports.{events_of};
ghost use Rattle.kpn_deadlock.specs.Told.{are_some};

use crate::files::files_of;
use crate::reporting::{
    Reported, is_traced, keeping_of, limits_of, run_by_workers, run_on_this_thread,
};
use kpn_book::{Outcome, Report};
use kpn_command_base::{
    Conclusion, NamedEnd, Refusal, RunInputs, RunRequest, has_fault, prepare, status_of,
    text_of_report,
};
use kpn_deadlock::rings_among;
use kpn_history::State;
use kpn_lang::Sequence;
use kpn_net::Network;
use kpn_shelf::Shelf;
use std::alloc::{AllocError, Global};
use std::sync::Wait;
use std::thread::Threads;
use std::time::Clock;

/// What `kpn run FILE` comes to on the calling thread, which waits for nobody. Before the run it makes ready for the
/// files that the run is to store: the trace first, then what the sinks received. The status is 0 for ended and enough,
/// 3 for clogged, 4 for jammed, 5 for stopped. If the run is strict, it is 8 if a process has faulted, and else 9 if
/// there is a ring. If it is quiet, the report has no list of a sink that is stored.
pub fn run_command<S: Shelf>(
    alloc: Global,
    request: &RunRequest<'_>,
    shelf: &S,
) -> Result<Conclusion, Refusal>
    ensures ok { IfOk result (IsRunAnswer (S.may_give shelf.now) request.now) }
    ensures refused { IfErr result
        (IsNoRun (S.may_give shelf.now) (S.may_alias shelf.now) request.now) }
{
    let RunInputs { inputs, sinks } = match prepare(alloc, request, shelf) {
        Ok(loaded) => loaded,
        Err(refusal) => return Err(refusal),
    };
    let limits = limits_of(request);
    let network = inputs.document.network();
    let keeping = keeping_of(request);
    let traced = is_traced(request);
    let report = match run_on_this_thread(alloc, network, &inputs.given, &limits, keeping, traced) {
        Ok(report) => report,
        Err(_) => return Err(Refusal::NoMemory),
    };
    let reported = Reported {
        inputs,
        sinks,
        report,
    };
    conclusion_of(alloc, request, &reported)
}

/// The same by as many workers as are asked for, on threads of their own: by one for 0, and by `MAX_WORKERS` for more.
/// Without a number it is `run_command`.
pub fn run_command_by_workers<R: Threads + Wait + Clock + Sync, S: Shelf>(
    rt: &R,
    alloc: Global,
    request: &RunRequest<'_>,
    shelf: &S,
) -> Result<Conclusion, Refusal>
    ensures ok { IfOk result (IsRunAnswer (S.may_give shelf.now) request.now) }
    ensures refused { IfErr result
        (IsNoRun (S.may_give shelf.now) (S.may_alias shelf.now) request.now) }
{
    let Some(workers) = request.workers else {
        return run_command(alloc, request, shelf);
    };
    let RunInputs { inputs, sinks } = match prepare(alloc, request, shelf) {
        Ok(loaded) => loaded,
        Err(refusal) => return Err(refusal),
    };
    let limits = limits_of(request);
    let network = inputs.document.network();
    let keeping = keeping_of(request);
    let report = match run_by_workers(
        rt,
        alloc,
        network,
        &inputs.given,
        workers,
        &limits,
        keeping,
    ) {
        Ok(report) => report,
        Err(refusal) => return Err(refusal),
    };
    let reported = Reported {
        inputs,
        sinks,
        report,
    };
    conclusion_of(alloc, request, &reported)
}

// The files of a run, the text of its report, and its status.
fn conclusion_of(
    alloc: Global,
    request: &RunRequest<'_>,
    reported: &Reported<'_>,
) -> Result<Conclusion, Refusal>
    requires { let r = reported.now in IsOfLegal r.inputs.document.tables r.report }
    ensures ok { IfOk result (IsRunConcluded request.now reported.now) }
    ensures refused { let r = reported.now in IfErr result
        (IsRefusalOfFiles request.now.trace r.inputs.document.tables (events_of r.report)) }
{
    let files = files_of(alloc, request.trace, request.take, reported)?;
    let document = &reported.inputs.document;
    let report = &reported.report;
    let left_out = left_out_of(request.quiet, &reported.sinks);
    let text = text_of_report(alloc, document, left_out, request.take, report)?;
    let status = status_of_run(alloc, request.strict, document.network(), report)?;
    Ok(Conclusion {
        text,
        status,
        files,
    })
}

// The sinks whose lists the report leaves out.
fn left_out_of<'s, 'a>(quiet: bool, stored: &'s [NamedEnd<'a>]) -> &'s [NamedEnd<'a>]
    ensures { result.now ≡ left_out_of quiet stored.now }
{
    if quiet { stored } else { &[] }
}

// The status of a run: a strict one looks for faults and rings.
fn status_of_run(
    alloc: Global,
    strict: bool,
    network: &Network,
    report: &Report,
) -> Result<u8, AllocError>
    requires { IsOfLegal network.now report.now }
    ensures { IfOk result (IsStatus strict network.now report.now) }
{
    if !strict {
        return Ok(status_of(report.outcome));
    }
    let states = report.view.states.as_slice();
    let rings = rings_among(alloc, network, states)?;
    Ok(strict_status(states, rings.as_slice(), report.outcome))
}

fn strict_status(states: &[State], rings: &[Sequence<usize>], outcome: Outcome) -> u8
    ensures { result ≡ strict_status states.now rings.now outcome }
{
    if has_fault(states) {
        return 8;
    }
    if has_ring(rings) {
        return 9;
    }
    status_of(outcome)
}

fn has_ring(rings: &[Sequence<usize>]) -> bool
    ensures { result ≡ are_some rings.now }
{
    0 < rings.len()
}
