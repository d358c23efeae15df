//! The devices of a stream, opened.
ghost use Rattle.std.specs.Prelude.{◌≡◌, [], All, IfOk, IfErr, IfSome, OnOk};
ghost use Rattle.std.specs.List.{AllZip};
ghost use Rattle.kpn_command_stream.specs.Causes.{IsDeviceRefusal};
ghost use Rattle.kpn_command_stream.specs.Command.{first_bytes, IsEmptied, IsInputFor, IsInputOf, IsOutputFor, IsOutputOf, KeepsName, StayOutputs};

use crate::places::{EndPlace, EndPlaces, is_dash};
use kpn_command_base::{Refusal, StreamRequest};
use kpn_shelf::Ports;
use kpn_stream_devices::{ItemFormat, OutputFormat, SinkOutput, SourceInput, Window, head_bytes};
use kpn_text_items::{ItemFault, WriteFault};
use std::alloc::{AllocError, Global};

/// So many samples of each channel are in a second of a WAV file, if no option says another number.
pub const USUAL_RATE: u32 = 48_000;

/// An input for each source.
pub(crate) fn open_inputs<S: Ports>(
    alloc: Global,
    shelf: &S,
    places: &EndPlaces<'_>,
) -> Result<Vec<SourceInput<S::Input>>, Refusal>
    ensures inputs { IfOk result (λ inputs.
        AllZip (IsInputFor (S.may_give shelf.now) S.comes_from S.Input.remaining)
        places.now.sources.items inputs.items) }
    ensures cause { IfErr result IsDeviceRefusal }
{
    let mut inputs = Vec::new(alloc);
    for i in 0..places.sources.len() {
        let place = places.sources[i];
        let input = input_for(alloc, shelf, place)?;
        inputs.push(input)?;
    }
    Ok(inputs)
}

fn input_for<S: Ports>(
    alloc: Global,
    shelf: &S,
    place: EndPlace<'_>,
) -> Result<SourceInput<S::Input>, Refusal>
    ensures input { IfOk result
        (IsInputFor (S.may_give shelf.now) S.comes_from S.Input.remaining place.entry) }
    ensures cause { IfErr result IsDeviceRefusal }
{
    match open_input(shelf, place.name) {
        Ok(file) => Ok(SourceInput {
            channel: place.channel,
            format: place.format,
            file,
            window: Window::new(alloc),
            failed: None,
        }),
        Err(fault) => Err(Refusal::Input(fault)),
    }
}

/// The file of this name, if it is not standard input.
fn open_input<S: Ports>(shelf: &S, name: &str) -> Result<Option<S::Input>, ItemFault>
    ensures { IfOk result
        (IsInputOf (S.may_give shelf.now) S.comes_from S.Input.remaining name.now) }
{
    if is_dash(name) {
        return Ok(None);
    }
    Ok(Some(shelf.open_input(name)?))
}

/// An output for each sink, as the request asks for. Files keep what they hold until all are open.
pub(crate) fn open_outputs<S: Ports>(
    alloc: Global,
    shelf: &S,
    places: &EndPlaces<'_>,
    request: &StreamRequest<'_>,
) -> Result<Vec<SinkOutput<S::Output>>, Refusal>
    ensures outputs { IfOk result (λ outputs.
        AllZip (IsOutputFor S.goes_to request.now) places.now.sinks.items outputs.items) }
    ensures cause { IfErr result IsDeviceRefusal }
{
    let mut outputs = Vec::new(alloc);
    for i in 0..places.sinks.len() {
        let place = places.sinks[i];
        let output = output_for(alloc, shelf, place, request)?;
        outputs.push(output)?;
    }
    Ok(outputs)
}

fn output_for<S: Ports>(
    alloc: Global,
    shelf: &S,
    place: EndPlace<'_>,
    request: &StreamRequest<'_>,
) -> Result<SinkOutput<S::Output>, Refusal>
    ensures output { IfOk result (IsOutputFor S.goes_to request.now place.entry) }
    ensures cause { IfErr result IsDeviceRefusal }
{
    let bytes = first_bytes(alloc, place.format, request)?;
    match open_output(shelf, place.name) {
        Ok(file) => Ok(SinkOutput {
            channel: place.channel,
            format: OutputFormat {
                items: place.format,
                clips: request.clips,
            },
            file,
            bytes,
        }),
        Err(fault) => Err(Refusal::Output(fault)),
    }
}

/// What an output of this format begins with.
fn first_bytes(
    alloc: Global,
    format: ItemFormat,
    request: &StreamRequest<'_>,
) -> Result<Vec<u8>, AllocError>
    ensures { IfOk result (λ bytes. bytes.items ≡ first_bytes format request.now) }
{
    let rate = request.rate.unwrap_or(USUAL_RATE);
    head_bytes(alloc, format, rate, request.channels.unwrap_or(1))
}

/// The file of this name, if it is not standard output.
fn open_output<S: Ports>(shelf: &S, name: &str) -> Result<Option<S::Output>, WriteFault>
    ensures { IfOk result (IsOutputOf S.goes_to name.now) }
{
    if is_dash(name) {
        return Ok(None);
    }
    Ok(Some(shelf.open_output(name)?))
}

/// Removes what the plain files of the outputs held. All inputs and outputs are open.
pub(crate) fn empty_outputs<S: Ports>(
    shelf: &S,
    places: &EndPlaces<'_>,
    outputs: &mut Vec<SinkOutput<S::Output>>,
) -> Result<(), Refusal>
    ensures outputs { OnOk result
        (StayOutputs S.goes_to places.now.sinks.items outputs.old.items outputs.new.items) }
    ensures emptied { OnOk result (All (IsEmptied S.Output.contents) outputs.new.items) }
    ensures cause { IfErr result IsDeviceRefusal }
{
    for i in 0..outputs.len() {
        empty_output(shelf, &mut outputs[i])?;
    }
    Ok(())
}

fn empty_output<S: Ports>(shelf: &S, output: &mut SinkOutput<S::Output>) -> Result<(), Refusal>
    ensures channel { output.new.channel ≡ output.old.channel }
    ensures format { output.new.format ≡ output.old.format }
    ensures bytes { output.new.bytes ≡ output.old.bytes }
    ensures name { KeepsName S.goes_to output.old.file output.new.file }
    ensures emptied { OnOk result (IsEmptied S.Output.contents output.new) }
    ensures cause { IfErr result IsDeviceRefusal }
{
    match &mut output.file {
        Some(file) => empty_file(shelf, file),
        None => Ok(()),
    }
}

fn empty_file<S: Ports>(shelf: &S, file: &mut S::Output) -> Result<(), Refusal>
    ensures named { S.goes_to file.new ≡ S.goes_to file.old }
    ensures empty { OnOk result (IfSome (S.Output.contents file.new) (λ bytes. bytes ≡ [])) }
    ensures cause { IfErr result IsDeviceRefusal }
{
    match shelf.empty(file) {
        Ok(()) => Ok(()),
        Err(fault) => Err(Refusal::Output(fault)),
    }
}
