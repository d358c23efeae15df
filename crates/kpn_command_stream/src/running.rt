//! The run of a stream between its inputs and outputs.
ghost use Rattle.std.specs.Prelude.{◌≡◌, ◌≤◌, ◌<◌, ◌++◌, [], length, vec_capacity, Some, IfOk, IfErr, OnErr};
ghost use Rattle.kpn_book.specs.Remembering.{Remembers};
ghost use Rattle.kpn_command_stream.specs.Causes.{IsDeviceRefusal};
ghost use Rattle.kpn_stream.specs.Ending.{is_halted};
ghost use Rattle.kpn_stream.specs.Watching.{Watched};
ghost use Rattle.kpn_command_stream.specs.Watching.{KnowsEnded, LooksAt, WasTold};
ghost use Rattle.kpn_command_stream.specs.Command.{HandedOn, RanOverFiles, RanAt, RanOver, flushes_of, keeping_for, known_of, most_commits, stream_limits_of, losses, names_of, sinks_of};

use crate::devices::{empty_outputs, open_inputs, open_outputs};
use crate::places::EndPlaces;
use crate::watching::StreamWatcher;
use kpn_command_base::{QUOTA, Refusal, StreamRequest, Teller};
use kpn_net::Network;
use kpn_shelf::{NonblockingRead, Ports, Shelf};
use kpn_stream::{Keeping, Limits, SinkFault, Sinks, Streamed, stream};
use kpn_stream_devices::{SinkOutput, SinkOutputs, SourceInput, SourceInputs};
use kpn_text::Document;
use std::alloc::{AllocError, Global};
use std::io::Write;

/// The limits of a stream. It has no end of its own.
pub(crate) fn limits_of(request: &StreamRequest<'_>) -> Limits
    ensures { result ≡ stream_limits_of request.now }
{
    Limits {
        commits: request.commits.unwrap_or(most_commits(request.stats)),
        take: request.take,
        quota: QUOTA,
    }
}

/// The limit of commits of a stream that was given none. No stream comes to it, but one that has a limit keeps the
/// order of its turns, of which the tables of `--stats` tell.
fn most_commits(stats: bool) -> u64
    ensures { result ≡ most_commits stats }
{
    if stats { u64::MAX - 1 } else { u64::MAX }
}

/// What is kept of a stream: only a trace reads what has happened.
fn keeping_of(request: &StreamRequest<'_>) -> Keeping
    ensures { result ≡ keeping_for request.now.trace }
{
    match request.trace {
        Some(_) => Keeping::All,
        None => Keeping::Nothing,
    }
}

/// What an output has lost: at the end it could not hand on what it kept.
#[derive(Clone, Copy)]
pub(crate) struct Lost {
    pub(crate) sink: usize,
    pub(crate) fault: SinkFault,
}

/// Opens the inputs and the outputs, and runs the network between them. It lists what is lost at the end.
pub(crate) fn run<'n, S: Shelf + Ports, I: NonblockingRead, O: Write, E: Teller>(
    alloc: Global,
    request: &StreamRequest<'_>,
    document: &'n Document,
    places: &EndPlaces<'_>,
    shelf: &S,
    input: &mut I,
    out: &mut O,
    err: &mut E,
    lost: &mut Vec<Lost>,
) -> Result<Streamed<'n>, Refusal>
    requires none { lost.old.items ≡ [] }
    requires room { length places.now.sinks.items ≤ vec_capacity lost.old }
    ensures ran { IfOk result (λ streamed. RanAt (S.may_give shelf.now)
        (names_of S.are_two_inputs S.may_share S.comes_from S.goes_to)
        (known_of I.remaining S.Input.remaining O.contents S.Output.contents) request.now
        document.now.tables places.now input.old input.new out.old out.new
        streamed.ending streamed.book lost.new.items) }
    ensures kept { IfOk result (λ streamed.
        Remembers (keeping_for request.now.trace) streamed.book) }
    ensures told { IfOk result (λ streamed. WasTold E.tells request.now document.now
        streamed.ending streamed.book err.old err.new) }
    ensures untold { OnErr result (err.new ≡ err.old) }
    ensures input { OnErr result (input.new ≡ input.old) }
    ensures output { OnErr result (out.new ≡ out.old) }
    ensures cause { IfErr result IsDeviceRefusal }
{
    let mut inputs = open_inputs(alloc, shelf, places)?;
    let mut outputs = open_outputs(alloc, shelf, places, request)?;
    empty_outputs(shelf, places, &mut outputs)?;
    run_between(
        alloc,
        request,
        document,
        places,
        &mut inputs,
        &mut outputs,
        input,
        out,
        err,
        lost,
    )
}

/// Runs the network between these inputs and outputs.
fn run_between<
    'n,
    I: NonblockingRead,
    F: NonblockingRead + Drop,
    O: Write,
    G: Write + Drop,
    E: Teller,
>(
    alloc: Global,
    request: &StreamRequest<'_>,
    document: &'n Document,
    places: &EndPlaces<'_>,
    inputs: &mut Vec<SourceInput<F>>,
    outputs: &mut Vec<SinkOutput<G>>,
    input: &mut I,
    out: &mut O,
    err: &mut E,
    lost: &mut Vec<Lost>,
) -> Result<Streamed<'n>, Refusal>
    requires none { lost.old.items ≡ [] }
    requires room { length places.now.sinks.items ≤ vec_capacity lost.old }
    ensures ran { IfOk result (λ streamed. RanOverFiles
        (known_of I.remaining F.remaining O.contents G.contents) request.now
        document.now.tables (sinks_of places.now)
        inputs.old.items outputs.old.items input.old input.new out.old out.new
        streamed.ending streamed.book lost.new.items) }
    ensures kept { IfOk result (λ streamed.
        Remembers (keeping_for request.now.trace) streamed.book) }
    ensures told { IfOk result (λ streamed. WasTold E.tells request.now document.now
        streamed.ending streamed.book err.old err.new) }
    ensures untold { OnErr result (err.new ≡ err.old) }
    ensures input { OnErr result (input.new ≡ input.old) }
    ensures output { OnErr result (out.new ≡ out.old) }
    ensures cause { IfErr result IsDeviceRefusal }
{
    let mut sources = SourceInputs {
        standard: input,
        each: inputs,
    };
    let mut sinks = SinkOutputs {
        standard: out,
        each: outputs,
    };
    let mut watcher = StreamWatcher {
        document,
        err,
        ended: 0,
        stops: request.stops,
    };
    let limits = limits_of(request);
    let network = document.network();
    let streamed = run_over(
        alloc,
        network,
        places,
        &limits,
        keeping_of(request),
        &mut sources,
        &mut sinks,
        &mut watcher,
        lost,
    )?;
    Ok(streamed)
}

/// Runs the network over devices. At the end the outputs hand on what they kept.
fn run_over<
    'n,
    I: NonblockingRead,
    F: NonblockingRead + Drop,
    O: Write,
    G: Write + Drop,
    E: Teller,
>(
    alloc: Global,
    network: &'n Network,
    places: &EndPlaces<'_>,
    limits: &Limits,
    keeping: Keeping,
    sources: &mut SourceInputs<'_, I, F>,
    sinks: &mut SinkOutputs<'_, O, G>,
    watcher: &mut StreamWatcher<'_, E>,
    lost: &mut Vec<Lost>,
) -> Result<Streamed<'n>, AllocError>
    requires none { lost.old.items ≡ [] }
    requires room { length places.now.sinks.items ≤ vec_capacity lost.old }
    ensures ran { IfOk result (λ streamed. RanOver
        (known_of I.remaining F.remaining O.contents G.contents) limits.now network.now
        (sinks_of places.now)
        sources.old sources.new sinks.old sinks.new
        streamed.ending streamed.book lost.new.items) }
    ensures kept { IfOk result (λ streamed. Remembers keeping streamed.book) }
    ensures watched { IfOk result (λ streamed. Watched network.now KnowsEnded (LooksAt E.tells)
        watcher.old streamed.book.history (is_halted (Some streamed.ending)) watcher.new) }
    ensures same_err { watcher.new.err.ghost_name ≡ watcher.old.err.ghost_name }
    ensures no_look { OnErr result (watcher.new ≡ watcher.old) }
    ensures no_source { OnErr result (sources.new ≡ sources.old) }
    ensures no_sink { OnErr result (sinks.new ≡ sinks.old) }
{
    let streamed = stream(alloc, network, sources, sinks, limits, keeping, watcher)?;
    flush_each(places, sinks, lost);
    Ok(streamed)
}

/// Lets the outputs of all sinks hand on what they kept, and lists what is lost. If a device has failed, nobody else
/// has told them to.
fn flush_each<O: Write, G: Write + Drop>(
    places: &EndPlaces<'_>,
    sinks: &mut SinkOutputs<'_, O, G>,
    lost: &mut Vec<Lost>,
)
    requires none { lost.old.items ≡ [] }
    requires room { length places.now.sinks.items ≤ vec_capacity lost.old }
    ensures { HandedOn (flushes_of O.contents G.contents) sinks.old
        (sinks_of places.now) lost.new.items sinks.new }
{
    for i in 0..places.sinks.len() {
        let place = places.sinks[i];
        let answer = sinks.flush(place.channel);
        note(lost, place.channel, answer);
    }
}

/// Lists what is lost if an output answers so at the end. Nothing is if nobody reads it.
fn note(lost: &mut Vec<Lost>, sink: usize, answer: Result<(), SinkFault>)
    requires { length lost.old.items < vec_capacity lost.old }
    ensures listed { lost.new.items ≡ lost.old.items ++ losses sink answer }
    ensures room { vec_capacity lost.new ≡ vec_capacity lost.old }
{
    match answer {
        Ok(()) | Err(SinkFault::Gone) => {}
        Err(fault) => lost.push_reserved(Lost { sink, fault }),
    }
}
