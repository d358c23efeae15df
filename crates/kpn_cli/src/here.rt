//! The answers that need no workers. Nothing here has a handle by which it might wait.
ghost use Rattle.std.specs.Prelude.{option_map};
ghost use Rattle.kpn_cli.specs.Command.{RequestComesTo, ExplainsFile};

use crate::usage::told;
use kpn_command_base::{Conclusion, Refusal, RunRequest, StreamRequest};
use kpn_command_explain::{explain_command, explain_items_command, explain_trace_command};
use kpn_command_line::Request;
use kpn_command_views::{draw_command, picture_command, stats_command};
use kpn_commands::{
    alone_command, audit_command, check_command, join_command, print_command, rounds_command,
    run_command,
};
use kpn_limits::USUAL_COUNT;
use kpn_shelf::Shelf;
use std::alloc::Global;
use std::io::Read;

/// How far a request is answered without workers.
#[derive(Drop)]
pub enum Progress<'a> {
    /// It is answered.
    Answered(Result<Conclusion, Refusal>),
    /// It asks for this run by workers. Nothing of it is done yet.
    NeedsWorkers(RunRequest<'a>),
    /// It asks for this stream, which writes while it goes on. Nothing of it is done yet.
    NeedsDevices(StreamRequest<'a>),
    /// It asks for a timeline, which goes out while it is made. Nothing of it is done yet.
    NeedsOutput {
        file: &'a str,
        trace: &'a str,
        steps: u64,
    },
}

/// Answers everything except a run by workers, a stream and a timeline, which it hands back.
pub fn answer_here<'a, S: Shelf, I: Read>(
    alloc: Global,
    request: Request<'a>,
    shelf: &S,
    input: &mut I,
) -> Progress<'a>
    ensures { RequestComesTo (S.may_give shelf.now) (S.may_alias shelf.now) I.remaining request.entry
        input.old input.new result }
{
    match request {
        Request::Help(text) => Progress::Answered(told(alloc, &text)),
        Request::Alone(name) => Progress::Answered(alone_command(alloc, name, input)),
        Request::Check(file) => Progress::Answered(check_command(alloc, file, shelf)),
        Request::Explain { file, trace, steps } => {
            Progress::Answered(explain(alloc, file, trace, steps, shelf))
        }
        Request::ExplainItems(file) => {
            Progress::Answered(explain_items_command(alloc, file, shelf))
        }
        Request::Print(file) => Progress::Answered(print_command(alloc, file, shelf)),
        Request::Draw {
            file,
            trace,
            direction,
        } => Progress::Answered(draw_command(alloc, file, trace, direction, USUAL_COUNT, shelf)),
        Request::Rounds { file, n, sources } => {
            Progress::Answered(rounds_command(alloc, file, n, &sources, shelf))
        }
        Request::Run(run) => match run.workers {
            Some(_) => Progress::NeedsWorkers(run),
            None => Progress::Answered(run_command(alloc, &run, shelf)),
        },
        Request::Stream(stream) => Progress::NeedsDevices(stream),
        Request::Audit { file, trace, steps } => {
            Progress::Answered(audit_command(alloc, file, trace, steps, shelf))
        }
        Request::Join { file, parts, steps } => {
            Progress::Answered(join_command(alloc, file, &parts, steps, shelf))
        }
        Request::Timeline { file, trace, steps } => Progress::NeedsOutput { file, trace, steps },
        Request::Picture {
            file,
            trace,
            steps,
            first,
            last,
        } => Progress::Answered(picture_command(alloc, file, trace, steps, first, last, shelf)),
        Request::Stats {
            file,
            trace,
            steps,
            tables,
        } => Progress::Answered(stats_command(alloc, file, trace, steps, tables, shelf)),
    }
}

// Explains a description, or a trace of its network.
fn explain<S: Shelf>(
    alloc: Global,
    file: &str,
    trace: Option<&str>,
    steps: u64,
    shelf: &S,
) -> Result<Conclusion, Refusal>
    ensures { ExplainsFile (S.may_give shelf.now) file.now (option_map (λ name. name.now) trace.entry)
        steps result }
{
    match trace {
        Some(trace) => explain_trace_command(alloc, file, trace, steps, shelf),
        None => explain_command(alloc, file, shelf),
    }
}
