//! What is told of a stream that has ended, and its status.
ghost use Rattle.std.specs.Prelude.{◌≡◌, ◌<◌, ◌++◌, true, length, codes, IfOk, IsTrue};
ghost use Rattle.std.specs.List.{AllZip};
ghost use Rattle.std.specs.String.{string_bytes};
ghost use Rattle.kpn_net.specs.Tables.{is_sink};
ghost use Rattle.kpn_command_base.specs.Added.{Adds};
ghost use Rattle.kpn_deadlock.specs.Told.{are_some};
ghost use Rattle.kpn_stream.specs.Ending.{end_numbers};
ghost use Rattle.kpn_command_stream.specs.Summary.{IsSinkEnd, AreSinkEnds, are_all_done, are_done, members_text, outcome_text, ring_text, rings_text, sink_text, sink_ends_text, status_at, stream_status, stream_summary_text};

use kpn_book::Book;
use kpn_command_base::{Pushed, has_fault, push_faults, push_waits, status_of, word_of};
use kpn_history::State;
use kpn_lang::Sequence;
use kpn_stream::{Outcome, end_numbers_of};
use kpn_text::Document;
use std::alloc::{AllocError, Global};

/// What is told of a sink.
#[derive(Clone, Copy)]
pub(crate) struct SinkEnd {
    pub(crate) channel: usize,
    pub(crate) items: usize,
    pub(crate) is_complete: bool,
    pub(crate) is_left: bool,
}

/// The sinks of a book, in order.
pub(crate) fn sink_ends(alloc: Global, book: &Book<'_>) -> Result<Vec<SinkEnd>, AllocError>
    ensures { IfOk result (λ sinks. AreSinkEnds book.now sinks.items) }
{
    let ends = end_numbers_of(alloc, book.network())?;
    let mut sinks = Vec::new(alloc);
    for i in 0..ends.sinks.len() {
        let c = ends.sinks[i];
        sinks.push(sink_end(book, c))?;
    }
    Ok(sinks)
}

fn sink_end(book: &Book<'_>, c: usize) -> SinkEnd
    requires { c < length book.now.tables.channels }
    ensures { IsSinkEnd book.now c result }
{
    SinkEnd {
        channel: c,
        items: book.read_count(c),
        is_complete: book.is_complete(c),
        is_left: book.is_left(c),
    }
}

/// The status of a stream no device of which has failed.
pub(crate) fn stream_status(
    sinks: &[SinkEnd],
    states: &[State],
    rings: &[Sequence<usize>],
    outcome: Option<Outcome>,
) -> u8
    ensures { result ≡ stream_status sinks.now states.now rings.now outcome }
{
    if has_fault(states) {
        return 8;
    }
    if has_ring(rings) {
        return 9;
    }
    if are_done(sinks) {
        return 0;
    }
    status_at(outcome)
}

fn status_at(outcome: Option<Outcome>) -> u8
    ensures { result ≡ status_at outcome }
{
    match outcome {
        Some(outcome) => status_of(outcome),
        None => status_of(Outcome::Stopped),
    }
}

/// Whether there is a ring.
fn has_ring(rings: &[Sequence<usize>]) -> bool
    ensures { result ≡ are_some rings.now }
{
    0 < rings.len()
}

/// Whether there are sinks, and each is complete or was left.
fn are_done(sinks: &[SinkEnd]) -> bool
    ensures { result ≡ are_done sinks.now }
{
    0 < sinks.len() && are_all_done(sinks)
}

fn are_all_done(sinks: &[SinkEnd]) -> bool
    ensures { result ≡ are_all_done sinks.now }
{
    sinks.iter().all(|sink| sink.is_complete || sink.is_left)
}

/// The sinks, the faults, the waits, the rings, and the outcome if there is one.
pub(crate) fn summary_of(
    alloc: Global,
    document: &Document,
    sinks: &[SinkEnd],
    states: &[State],
    rings: &[Sequence<usize>],
    outcome: Option<Outcome>,
) -> Result<String, AllocError>
    ensures { IfOk result (λ text. string_bytes text
        ≡ stream_summary_text document.now sinks.now states.now rings.now outcome) }
{
    let mut text = String::new(alloc);
    push_sinks(&mut text, document, sinks)?;
    push_faults(&mut text, document, states)?;
    push_waits(&mut text, document, states)?;
    push_rings(&mut text, document, rings)?;
    push_outcome(&mut text, outcome)?;
    Ok(text)
}

/// The line of each sink.
fn push_sinks(text: &mut String, document: &Document, sinks: &[SinkEnd]) -> Pushed
    ensures { Adds result text.old text.new (sink_ends_text document.now.names.channels sinks.now) }
{
    for sink in sinks {
        push_sink(text, document.channel_name(sink.channel), *sink)?;
    }
    Ok(())
}

fn push_sink(text: &mut String, name: &str, sink: SinkEnd) -> Pushed
    ensures { Adds result text.old text.new (sink_text name.now sink) }
{
    let items = sink.items;
    if sink.is_complete {
        write!(text, "sink {name}: {items} items, complete\n")
    } else {
        write!(text, "sink {name}: {items} items, not complete\n")
    }
}

/// The line of each ring.
fn push_rings(text: &mut String, document: &Document, rings: &[Sequence<usize>]) -> Pushed
    ensures { Adds result text.old text.new (rings_text document.now.names.instances rings.now) }
{
    for members in rings {
        push_ring(text, document, members.as_slice())?;
    }
    Ok(())
}

fn push_ring(text: &mut String, document: &Document, members: &[usize]) -> Pushed
    ensures { Adds result text.old text.new (ring_text document.now.names.instances members.now) }
{
    text.push_str("deadlock")?;
    push_members(text, document, members)?;
    text.push_str("\n")
}

/// The names of processes, with a space before each.
fn push_members(text: &mut String, document: &Document, members: &[usize]) -> Pushed
    ensures { Adds result text.old text.new (members_text document.now.names.instances members.now) }
{
    for p in members {
        push_member(text, document.instance_name(*p))?;
    }
    Ok(())
}

fn push_member(text: &mut String, name: &str) -> Pushed
    ensures { Adds result text.old text.new (codes " " ++ name.now) }
{
    write!(text, " {name}")
}

/// The line of the outcome.
fn push_outcome(text: &mut String, outcome: Option<Outcome>) -> Pushed
    ensures { Adds result text.old text.new (outcome_text outcome) }
{
    match outcome {
        Some(outcome) => writeln!(text, "{}", word_of(outcome)),
        None => Ok(()),
    }
}
