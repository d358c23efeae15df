//! The text of a report.
ghost use Rattle.std.specs.Prelude.{◌≡◌, [], option_map, slice_index_or, IfOk};
ghost use Rattle.kpn_command_base.specs.Added.{Adds};
ghost use Rattle.kpn_command_base.specs.ReportText.{fault_text, outcome_status, outcome_word, processes_text, report_text, sink_line, sink_lines, sinks_text, state_lines, wait_text, wanted_of};

use crate::faulted::push_faulted;
use crate::list_text::push_list;
use crate::pieces::Pushed;
use crate::sources::{NamedEnd, file_for};
use kpn_book::{Outcome, Report};
use kpn_history::{How, State};
use kpn_lang::Sequence;
use kpn_text::Document;
use std::alloc::{AllocError, Global};

/// The sinks, but for those that are left out, the faults, the waits and the outcome, as far as the outcome wants them.
/// Of each sink as many items are written as are wanted at most.
pub fn text_of_report(
    alloc: Global,
    document: &Document,
    left_out: &[NamedEnd<'_>],
    wanted: Option<u64>,
    report: &Report,
) -> Result<Vec<u8>, AllocError>
    ensures { IfOk result (λ text. text.items
        ≡ report_text document.now left_out.now wanted report.now) }
{
    let mut text = String::new(alloc);
    push_sinks(&mut text, document, left_out, wanted, report)?;
    push_processes(&mut text, document, report)?;
    writeln!(text, "{}", word_of(report.outcome))?;
    Ok(text.into_bytes())
}

/// The status of the program under an outcome.
pub fn status_of(outcome: Outcome) -> u8
    ensures { result ≡ outcome_status outcome }
{
    match outcome {
        Outcome::Ended | Outcome::Enough => 0,
        Outcome::Clogged => 3,
        Outcome::Jammed => 4,
        Outcome::Stopped => 5,
    }
}

/// The word for an outcome.
pub fn word_of(outcome: Outcome) -> &'static str
    ensures { result.now ≡ outcome_word outcome }
{
    match outcome {
        Outcome::Ended => "ended",
        Outcome::Clogged => "clogged",
        Outcome::Jammed => "jammed",
        Outcome::Enough => "enough",
        Outcome::Stopped => "stopped",
    }
}

// What was taken from the sinks, if the outcome shows it.
fn push_sinks(
    text: &mut String,
    document: &Document,
    left_out: &[NamedEnd<'_>],
    wanted: Option<u64>,
    report: &Report,
) -> Pushed
    ensures { Adds result text.old text.new
        (sinks_text document.now left_out.now wanted report.now) }
{
    match report.outcome {
        Outcome::Ended | Outcome::Enough => {
            push_taken(text, document, left_out, wanted, report.taken.as_slice())
        }
        Outcome::Clogged | Outcome::Jammed | Outcome::Stopped => Ok(()),
    }
}

// The line of each sink that is not left out.
fn push_taken(
    text: &mut String,
    document: &Document,
    left_out: &[NamedEnd<'_>],
    wanted: Option<u64>,
    taken: &[Sequence<i64>],
) -> Pushed
    ensures { Adds result text.old text.new (sink_lines document.now.names.channels left_out.now
        wanted taken.now 0 0 document.now.tables.channels) }
{
    let network = document.network();
    let mut sink = 0;
    for channel in 0..network.channels() {
        if network.is_sink(channel) {
            let items = wanted_of(items_of(taken, sink), wanted);
            push_sink(
                text,
                file_for(left_out, sink),
                document.channel_name(channel),
                items,
            )?;
            sink += 1;
        }
    }
    Ok(())
}

// The line of a sink, if it is not left out for a file.
fn push_sink(text: &mut String, file: Option<&str>, name: &str, items: &[i64]) -> Pushed
    ensures { Adds result text.old text.new
        (sink_line (option_map (λ name. name.now) file.entry) name.now items.now) }
{
    match file {
        Some(_) => Ok(()),
        None => {
            text.push_str("sink ")?;
            push_list(text, name, items)
        }
    }
}

// The list of a sink; none if there is no such sink.
fn items_of(taken: &[Sequence<i64>], sink: usize) -> &[i64]
    ensures { result.now ≡ slice_index_or taken.now sink [] }
{
    match taken.get(sink) {
        Some(items) => items.as_slice(),
        None => &[],
    }
}

/// The first items, as many as are wanted at most.
pub fn wanted_of(items: &[i64], wanted: Option<u64>) -> &[i64]
    ensures { result.now ≡ wanted_of wanted items.now }
{
    match wanted {
        Some(most) if most < items.len() as u64 => &items[..most as usize],
        _ => items,
    }
}

// Which processes have faulted and which wait, if the outcome shows it.
fn push_processes(text: &mut String, document: &Document, report: &Report) -> Pushed
    ensures { Adds result text.old text.new (processes_text document.now report.now) }
{
    match report.outcome {
        Outcome::Ended | Outcome::Clogged | Outcome::Jammed => {
            let states = report.view.states.as_slice();
            push_faults(text, document, states)?;
            push_waits(text, document, states)
        }
        Outcome::Enough | Outcome::Stopped => Ok(()),
    }
}

/// The line of each process that ended by a fault.
pub fn push_faults(text: &mut String, document: &Document, states: &[State]) -> Pushed
    ensures { Adds result text.old text.new
        (state_lines fault_text document.now.names.instances 0 states.now) }
{
    for (process, state) in states.iter().enumerate() {
        push_fault(text, document.instance_name(process), *state)?;
    }
    Ok(())
}

// What is written of how a process ended.
fn push_fault(text: &mut String, name: &str, state: State) -> Pushed
    ensures { Adds result text.old text.new (fault_text name.now state) }
{
    match state {
        State::Ended(How::Done) => Ok(()),
        State::Ended(how) => push_faulted(text, name, how),
        _ => Ok(()),
    }
}

/// The line of each process that waits.
pub fn push_waits(text: &mut String, document: &Document, states: &[State]) -> Pushed
    ensures { let names = document.now.names in Adds result text.old text.new
        (state_lines (wait_text names.channels) names.instances 0 states.now) }
{
    for (process, state) in states.iter().enumerate() {
        push_wait(text, document, document.instance_name(process), *state)?;
    }
    Ok(())
}

// What is written of what a process waits for.
fn push_wait(text: &mut String, document: &Document, name: &str, state: State) -> Pushed
    ensures { Adds result text.old text.new
        (wait_text document.now.names.channels name.now state) }
{
    match state {
        State::WaitsEmpty(c) => writeln!(text, "waits {name} {}", document.channel_name(c)),
        State::WaitsFull(c) => writeln!(text, "waits {name} {} full", document.channel_name(c)),
        _ => Ok(()),
    }
}
