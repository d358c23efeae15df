//! The end of a stream: what is told of it, its trace, and the status.
ghost use Rattle.std.specs.Prelude.{◌≡◌, Bool, true, false, [], None, IfOk, unwrap_or, Result as Answer};
ghost use Rattle.std.specs.String.{string_bytes};
ghost use Rattle.kpn_command_base.specs.declared.refusal.Refusal.{Refusal as Cause};
ghost use Rattle.kpn_command_stream.specs.Command.{IsEndTold, IsStreamConcluded, IsSummaryMade, IsSummaryOf, IsTextTold, IsTraceKept, end_fault, end_status, summary_with};
ghost use Rattle.kpn_command_stream.specs.Summary.{stream_status};
ghost use Rattle.kpn_command_stream.specs.Refusal.{ending_fault, first_status, lost_fault, summary_fault, trace_fault};

use crate::ending::{Over, over_of};
use crate::places::{EndPlaces, place_of};
use crate::refusal::{report_memory, report_sink, report_source};
use crate::running::{Lost, limits_of};
use crate::stats::tables_of;
use crate::summary::{SinkEnd, stream_status, summary_of};
use kpn_command_base::{Refusal, StreamRequest, put, store_trace};
use kpn_net::Network;
use kpn_shelf::Shelf;
use kpn_stream::{StreamEnding, Streamed};
use kpn_text::Document;
use std::alloc::{AllocError, Global};
use std::io::Write;

/// Tells how the stream has ended, stores the trace, and returns the status.
pub(crate) fn conclude<S: Shelf, E: Write>(
    alloc: Global,
    request: &StreamRequest<'_>,
    document: &Document,
    streamed: Streamed<'_>,
    lost: &[Lost],
    places: &EndPlaces<'_>,
    shelf: &mut S,
    err: &mut E,
    unsaid: &mut Vec<u8>,
) -> u8
    ensures { IsStreamConcluded S.may_give E.contents request.now document.now
        streamed.entry.ending streamed.entry.book lost.now shelf.old shelf.new
        err.old err.new result }
{
    let ending = streamed.ending;
    match over_of(alloc, streamed, &limits_of(request), request.stats) {
        Ok(over) => conclude_over(
            alloc, request, document, ending, lost, &over, places, shelf, err, unsaid,
        ),
        Err(_) => conclude_untold(document, ending, lost, places, err),
    }
}

/// The same of what the stream has come to.
fn conclude_over<S: Shelf, E: Write>(
    alloc: Global,
    request: &StreamRequest<'_>,
    document: &Document,
    ending: StreamEnding,
    lost: &[Lost],
    over: &Over,
    places: &EndPlaces<'_>,
    shelf: &mut S,
    err: &mut E,
    unsaid: &mut Vec<u8>,
) -> u8
    ensures { let t = document.now.tables in
        (stored : Answer (Unit {0}) Cause) × (is_told : Bool)
        × IsTraceKept S.may_give request.now.trace t over.now shelf.old shelf.new stored
        × IsEndTold E.contents request.now (end_fault ending lost.now stored is_told)
        (summary_with document.now over.now over.now.sinks.items) err.old err.new
        × (result ≡ end_status ending lost.now stored is_told over.now) }
{
    let ends = ends_told(alloc, over, ending, lost);
    let is_told = tell(alloc, request, document, over, ends, err, unsaid);
    let failed = report_failed(ending, document, lost, places, err);
    let stored = keep_trace(alloc, request, document.network(), over, shelf);
    let unstored = report_trace(&stored, err);
    let untold = report_summary(is_told, err);
    let status = first_of(failed, first_of(unstored, untold));
    status.unwrap_or(status_of_over(over))
}

/// The status of what a stream has come to, if nothing has failed.
fn status_of_over(over: &Over) -> u8
    ensures { let o = over.now in
        result ≡ stream_status o.sinks.items o.states o.rings o.outcome }
{
    let states = over.states.as_slice();
    stream_status(&over.sinks, states, over.rings.as_slice(), over.outcome)
}

/// There was no memory for what is to be told. So there is none for the trace either.
fn conclude_untold<E: Write>(
    document: &Document,
    ending: StreamEnding,
    lost: &[Lost],
    places: &EndPlaces<'_>,
    err: &mut E,
) -> u8
    ensures { result ≡ unwrap_or (first_status (ending_fault ending) (lost_fault lost.now)) 6 }
{
    let failed = report_failed(ending, document, lost, places, err);
    let memory = report_memory(err);
    failed.unwrap_or(memory)
}

/// Stores the trace, if one was asked for.
fn keep_trace<S: Shelf>(
    alloc: Global,
    request: &StreamRequest<'_>,
    network: &Network,
    over: &Over,
    shelf: &mut S,
) -> Result<(), Refusal>
    ensures { IsTraceKept S.may_give request.now.trace network.now over.now
        shelf.old shelf.new result }
{
    let Some(name) = request.trace else {
        return Ok(());
    };
    store_trace(alloc, name, network, &over.history, shelf)
}

/// What is told of the sinks: one whose output has failed is not complete.
fn ends_told(
    alloc: Global,
    over: &Over,
    ending: StreamEnding,
    lost: &[Lost],
) -> Result<Vec<SinkEnd>, AllocError>
    ensures { ending_fault ending ≡ None → lost.now ≡ []
        → IfOk result (λ ends. ends.items ≡ over.now.sinks.items) }
{
    let mut ends = Vec::new(alloc);
    for end in &over.sinks {
        let has_failed = has_failed(ending, end.channel) || has_lost(lost, end.channel);
        ends.push(end_told(*end, has_failed))?;
    }
    Ok(ends)
}

fn end_told(end: SinkEnd, has_failed: bool) -> SinkEnd
    ensures { has_failed ≡ false → result ≡ end }
{
    SinkEnd {
        is_complete: end.is_complete && !has_failed,
        ..end
    }
}

/// Whether the output of a sink has lost something at the end.
fn has_lost(lost: &[Lost], sink: usize) -> bool
    ensures { lost.now ≡ [] → result ≡ false }
{
    lost.iter().any(|one| one.sink == sink)
}

/// Whether the output of a sink has ended the stream.
fn has_failed(ending: StreamEnding, sink: usize) -> bool
    ensures { ending_fault ending ≡ None → result ≡ false }
{
    match ending {
        StreamEnding::SinkFailed(c, _) => c == sink,
        _ => false,
    }
}

/// Tells how the stream has ended, and the tables, if they are asked for. If it can't, memory ran out.
fn tell<E: Write>(
    alloc: Global,
    request: &StreamRequest<'_>,
    document: &Document,
    over: &Over,
    ends: Result<Vec<SinkEnd>, AllocError>,
    err: &mut E,
    unsaid: &mut Vec<u8>,
) -> bool
    ensures { result ≡ true → request.now.stats ≡ false → IsSummaryMade E.contents
        request.now.quiet ends (summary_with document.now over.now) err.old err.new }
{
    let is_told = tell_summary(alloc, request, document, over, ends, err, unsaid);
    if !request.stats {
        return is_told;
    }
    let states = over.states.as_slice();
    let tables = tables_of(alloc, document, &over.channels, states, request.quiet);
    write_text(tables, err) && is_told
}

/// Tells how the stream has ended. If the stream is to be quiet, that is only kept.
fn tell_summary<E: Write>(
    alloc: Global,
    request: &StreamRequest<'_>,
    document: &Document,
    over: &Over,
    ends: Result<Vec<SinkEnd>, AllocError>,
    err: &mut E,
    unsaid: &mut Vec<u8>,
) -> bool
    ensures { result ≡ true → IsSummaryMade E.contents request.now.quiet ends
        (summary_with document.now over.now) err.old err.new }
{
    let summary = summary_with(alloc, document, over, ends);
    if request.quiet {
        keep_text(summary, unsaid);
        return true;
    }
    write_text(summary, err)
}

/// The summary, with what is told of the sinks.
fn summary_with(
    alloc: Global,
    document: &Document,
    over: &Over,
    ends: Result<Vec<SinkEnd>, AllocError>,
) -> Result<String, AllocError>
    ensures { IsSummaryOf string_bytes (summary_with document.now over.now) ends result }
{
    let ends = ends?;
    let states = over.states.as_slice();
    summary_of(
        alloc,
        document,
        &ends,
        states,
        over.rings.as_slice(),
        over.outcome,
    )
}

/// Writes a text, as much of it as is taken, if there was memory for it.
fn write_text<E: Write>(text: Result<String, AllocError>, err: &mut E) -> bool
    ensures { result ≡ true
        → IsTextTold string_bytes text (E.contents err.old) (E.contents err.new) }
{
    match text {
        Ok(text) => {
            let _whole = put(err, text.as_bytes());
            true
        }
        Err(_) => false,
    }
}

/// Keeps a text, if there was memory for it.
fn keep_text(text: Result<String, AllocError>, unsaid: &mut Vec<u8>) {
    if let Ok(text) = text {
        let _ = unsaid.extend_from_slice(text.as_bytes());
    }
}

// ---- what has failed

/// The first of two statuses.
fn first_of(first: Option<u8>, later: Option<u8>) -> Option<u8>
    ensures { result ≡ first_status first later }
{
    match first {
        Some(status) => Some(status),
        None => later,
    }
}

/// Reports what has ended the stream, if something has failed, and what was lost at its end. Returns the status of the
/// first.
fn report_failed<E: Write>(
    ending: StreamEnding,
    document: &Document,
    lost: &[Lost],
    places: &EndPlaces<'_>,
    err: &mut E,
) -> Option<u8>
    ensures fault { result ≡ first_status (ending_fault ending) (lost_fault lost.now) }
    ensures silent { result ≡ None → err.new ≡ err.old }
{
    let first = report_ending(ending, document, places, err);
    let second = report_lost(document, lost, places, err);
    first_of(first, second)
}

/// Reports a device that has failed, or that memory ran out.
fn report_ending<E: Write>(
    ending: StreamEnding,
    document: &Document,
    places: &EndPlaces<'_>,
    err: &mut E,
) -> Option<u8>
    ensures fault { result ≡ ending_fault ending }
    ensures silent { result ≡ None → err.new ≡ err.old }
{
    match ending {
        StreamEnding::SourceFailed(c, fault) => {
            let place = place_of(&places.sources, c);
            Some(report_source(document, fault, place, err))
        }
        StreamEnding::SinkFailed(c, fault) => {
            let place = place_of(&places.sinks, c);
            Some(report_sink(document, fault, place, err))
        }
        StreamEnding::NoMemory => Some(report_memory(err)),
        _ => None,
    }
}

/// Reports each output that could not hand on what it kept.
fn report_lost<E: Write>(
    document: &Document,
    lost: &[Lost],
    places: &EndPlaces<'_>,
    err: &mut E,
) -> Option<u8>
    ensures fault { result ≡ lost_fault lost.now }
    ensures silent { result ≡ None → err.new ≡ err.old }
{
    let mut status = None;
    for one in lost {
        let place = place_of(&places.sinks, one.sink);
        let told = report_sink(document, one.fault, place, err);
        status = first_of(status, Some(told));
    }
    status
}

/// Reports that the trace could not be stored.
fn report_trace<E: Write>(stored: &Result<(), Refusal>, err: &mut E) -> Option<u8>
    ensures fault { result ≡ trace_fault stored.now }
    ensures silent { result ≡ None → err.new ≡ err.old }
{
    match stored {
        Ok(()) => None,
        Err(refusal) => Some(refusal.report(err)),
    }
}

/// Reports that there was no memory for the summary or the tables.
fn report_summary<E: Write>(is_told: bool, err: &mut E) -> Option<u8>
    ensures fault { result ≡ summary_fault is_told }
    ensures silent { result ≡ None → err.new ≡ err.old }
{
    if is_told {
        return None;
    }
    Some(report_memory(err))
}
