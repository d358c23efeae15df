//! The whole program: what the words of a command line ask for is answered, and the answer is carried out.
ghost use Rattle.std.specs.Prelude.{map};
ghost use Rattle.std.specs.String.{string_bytes};
ghost use Rattle.kpn_command_stream.specs.Command.{names_of};
ghost use Rattle.kpn_cli.specs.Command.{RunsProgram, TellsTimeline};

use crate::concluding::conclude;
use crate::here::{Progress, answer_here};
use crate::usage::refuse;
use kpn_command_base::Teller;
use kpn_command_line::read_words;
use kpn_command_stream::stream_command;
use kpn_command_views::timeline_command;
use kpn_commands::run_command_by_workers;
use kpn_shelf::{NonblockingRead, Ports, Shelf};
use std::alloc::Global;
use std::io::Write;
use std::sync::Wait;
use std::thread::Threads;
use std::time::Clock;

/// The program over a shelf of files, an input, an output and a place for faults. The first of the words is the name
/// that the user called the program by. It returns the status of the program: 0 for success and for help, 1 for a
/// refused input, a device that fails or an illegal trace, 2 for words that are not understood, 3 for a run that has
/// clogged, 4 for one that has jammed, 5 for one that has stopped or an audit without steps left, 6 for want of memory,
/// 7 for workers that came to no outcome, 8 for a stream of which a process has faulted, 9 for a stream with a ring.
/// What a quiet stream does not say is added to `unsaid`. A run by workers waits for its threads, and a stream for those
/// that open and read its ends.
pub fn command<
    R: Threads + Wait + Clock + Sync,
    S: Shelf + Ports,
    I: NonblockingRead,
    O: Write,
    E: Write + Teller,
>(
    rt: &R,
    alloc: Global,
    words: &[String],
    shelf: &mut S,
    input: &mut I,
    out: &mut O,
    err: &mut E,
    unsaid: &mut Vec<u8>,
) -> u8
    ensures { RunsProgram S.may_give S.may_alias
        (names_of S.are_two_inputs S.may_share S.comes_from S.goes_to)
        I.remaining S.Input.remaining O.contents S.Output.contents E.contents E.tells
        (map string_bytes words.now) shelf.old shelf.new input.old input.new out.old out.new
        err.old err.new result }
{
    match read_words(alloc, words) {
        Ok(request) => match answer_here(alloc, request, shelf, input) {
            Progress::Answered(answer) => conclude(answer, shelf, out, err),
            Progress::NeedsWorkers(run) => {
                let answer = run_command_by_workers(rt, alloc, &run, shelf);
                conclude(answer, shelf, out, err)
            }
            Progress::NeedsDevices(stream) => {
                stream_command(alloc, &stream, shelf, input, out, err, unsaid)
            }
            Progress::NeedsOutput { file, trace, steps } => {
                tell_timeline(alloc, file, trace, steps, shelf, out, err)
            }
        },
        Err(fault) => refuse(&fault, err),
    }
}

// Writes a timeline, or reports why there is none. It returns the status.
fn tell_timeline<S: Shelf, O: Write, E: Write>(
    alloc: Global,
    file: &str,
    trace: &str,
    steps: u64,
    shelf: &S,
    out: &mut O,
    err: &mut E,
) -> u8
    ensures { TellsTimeline O.contents E.contents (S.may_give shelf.now) file.now trace.now
        steps out.old out.new err.old err.new result }
{
    match timeline_command(alloc, file, trace, steps, shelf, out) {
        Ok(status) => status,
        Err(refusal) => refusal.report(err),
    }
}
