//! The outputs of a stream, as the devices of its sinks.
ghost use Rattle.std.specs.Prelude.{◌≡◌, ◌≤◌, ◌*◌, ◌%◌, ◌^◌, ◌++◌, IfOk, OnOk, OnErr, IfErr};
ghost use Rattle.std.specs.Int.{to_le_bytes, w16, w32};
ghost use Rattle.std.specs.Io.KnownBytes.{Appends};
ghost use Rattle.kpn_text_items.specs.ItemFile.{item_line};
ghost use Rattle.kpn_stream_devices.specs.Formats.{head_bytes, item_bytes, number_bytes, sample_bytes, sample_width, wav_head};
ghost use Rattle.kpn_stream_devices.specs.SinkOutputs.{device_holds, output_of, was_put, KeepsFew, TakesItem, HandsOn, IsOfDevice, WritesOnly};

use crate::floats::float_bits;
use crate::formats::{ItemFormat, OutputFormat, SampleFormat};
use byteorder::{ByteOrder, LittleEndian};
use itoa::Buffer;
use kpn_stream::{SinkFault, Sinks};
use std::alloc::{AllocError, Global};
use std::io::{ErrorKind, Write};

/// With this many bytes an output hands on what it kept.
const WRITE_BYTES: usize = 8192;

/// How the head of a WAV file begins, up to the tag of whole numbers, and how it ends. Nobody knows the sizes yet: they
/// are those that `sox` takes for unknown.
const WAV_OPENING: &[u8] = b"RIFF\x24\xf0\xff\x7fWAVEfmt \x10\0\0\0\x01\0";

const CLOSING: &[u8] = b"data\x00\xf0\xff\x7f";

/// The output of a sink: that of this file, or else standard output. And the bytes that it has not got yet.
#[derive(Drop)]
pub struct SinkOutput<G: Drop> {
    pub channel: usize,
    pub format: OutputFormat,
    pub file: Option<G>,
    pub bytes: Vec<u8>,
}

/// The outputs of all sinks. They are lent, so that the lender has them as the last write left them.
#[derive(Drop)]
pub struct SinkOutputs<'o, O, G: Drop> {
    pub standard: &'o mut O,
    pub each: &'o mut Vec<SinkOutput<G>>,
}

impl<O: Write, G: Write + Drop> Sinks for SinkOutputs<'_, O, G> {
    ghost use Rattle.kpn_stream_devices.specs.SinkOutputs.{OutputsTake, OutputsFlush};

    ghost takes = { OutputsTake O.contents G.contents };

    ghost flushes = { OutputsFlush O.contents G.contents };

    fn put(&mut self, sink: usize, item: i64) -> Result<(), SinkFault> {
        let Some(i) = output_of(self.each, sink) else {
            return Ok(());
        };
        put_to(&mut self.each[i], self.standard, item)
    }

    fn flush(&mut self, sink: usize) -> Result<(), SinkFault> {
        let Some(i) = output_of(self.each, sink) else {
            return Ok(());
        };
        hand_on(&mut self.each[i], self.standard)
    }
}

/// Which output is that of a sink: the first for its channel.
fn output_of<G: Drop>(outputs: &[SinkOutput<G>], sink: usize) -> Option<usize>
    ensures { result ≡ output_of outputs.now sink }
{
    outputs.iter().position(|output| output.channel == sink)
}

/// Puts an item to an output. Without memory for it the output is as it was.
fn put_to<O: Write, G: Write + Drop>(
    output: &mut SinkOutput<G>,
    standard: &mut O,
    item: i64,
) -> Result<(), SinkFault>
    ensures channel { output.new.channel ≡ output.old.channel }
    ensures format { output.new.format ≡ output.old.format }
    ensures only { WritesOnly standard.old standard.new output.old.file output.new.file }
    ensures taken { TakesItem output.old.format item result
        (was_put O.contents G.contents standard.old output.old)
        (was_put O.contents G.contents standard.new output.new) }
    ensures few { KeepsFew result output.new.bytes.items }
{
    let Some(written) = output.format.written(item) else {
        return Err(SinkFault::NoSample(item));
    };
    if push(&mut output.bytes, output.format.items, written).is_err() {
        return Err(SinkFault::NoMemory);
    }
    if output.bytes.len() < WRITE_BYTES {
        return Ok(());
    }
    hand_on(output, standard)
}

/// Puts the text of an item after these bytes, all of it or nothing.
fn push(bytes: &mut Vec<u8>, format: ItemFormat, item: i64) -> Result<(), AllocError>
    ensures whole { OnOk result (bytes.new.items ≡ bytes.old.items ++ item_bytes format item) }
    ensures nothing { OnErr result (bytes.new.items ≡ bytes.old.items) }
{
    match format {
        ItemFormat::Lines => push_line(bytes, item),
        ItemFormat::Samples(sample) => push_sample(bytes, sample, item),
        ItemFormat::Wav(wav) => push_sample(bytes, wav.sample(), item),
    }
}

fn push_line(bytes: &mut Vec<u8>, item: i64) -> Result<(), AllocError>
    ensures whole { OnOk result (bytes.new.items ≡ bytes.old.items ++ item_line item) }
    ensures nothing { OnErr result (bytes.new.items ≡ bytes.old.items) }
{
    let mut buffer = Buffer::new();
    let digits = buffer.format(item).as_bytes();
    bytes.reserve(digits.len() + 1)?;
    bytes.extend_from_slice(digits)?;
    bytes.push_reserved(b'\n');
    Ok(())
}

fn push_sample(bytes: &mut Vec<u8>, sample: SampleFormat, item: i64) -> Result<(), AllocError>
    ensures whole { OnOk result (bytes.new.items ≡ bytes.old.items ++ sample_bytes sample item) }
    ensures nothing { OnErr result (bytes.new.items ≡ bytes.old.items) }
{
    match sample {
        SampleFormat::U8 | SampleFormat::S8 => push_number(bytes, item, 1),
        SampleFormat::S16 => push_number(bytes, item, 2),
        SampleFormat::S24 => push_number(bytes, item, 3),
        SampleFormat::S32 => push_number(bytes, item, 4),
        SampleFormat::S64 => push_number(bytes, item, 8),
        SampleFormat::F32(power) => push_number(bytes, i64::from(float_bits(power, item)), 4),
    }
}

/// What an output of this format begins with: the head of a WAV file, or nothing. It says that `rate` items of each
/// channel are in a second, and that there are `channels` channels. How many items follow nobody knows yet.
pub fn head_bytes(
    alloc: Global,
    format: ItemFormat,
    rate: u32,
    channels: u16,
) -> Result<Vec<u8>, AllocError>
    ensures { IfOk result (λ bytes. bytes.items ≡ head_bytes format rate channels) }
{
    let mut bytes = Vec::new(alloc);
    if let ItemFormat::Wav(wav) = format {
        push_head(&mut bytes, wav.sample(), rate, channels)?;
    }
    Ok(bytes)
}

fn push_head(
    bytes: &mut Vec<u8>,
    sample: SampleFormat,
    rate: u32,
    channels: u16,
) -> Result<(), AllocError>
    ensures { OnOk result
        (bytes.new.items ≡ bytes.old.items ++ wav_head sample rate channels) }
{
    let frame = frame_of(sample, channels);
    bytes.extend_from_slice(WAV_OPENING)?;
    push_half(bytes, channels)?;
    push_word(bytes, rate)?;
    push_word(bytes, pace_of(rate, frame))?;
    push_half(bytes, (frame % 65_536) as u16)?;
    push_half(bytes, 8 * sample.width() as u16)?;
    bytes.extend_from_slice(CLOSING)?;
    Ok(())
}

/// How many bytes the samples of all channels have that belong together.
fn frame_of(sample: SampleFormat, channels: u16) -> u32
    ensures { result ≡ channels * sample_width sample }
{
    u32::from(channels) * sample.width() as u32
}

/// How many bytes a second has: its lowest 32 bits.
fn pace_of(rate: u32, frame: u32) -> u32
    ensures { result ≡ rate * frame % 2 ^ 32 }
{
    (u64::from(rate) * u64::from(frame) % 4_294_967_296) as u32
}

/// Puts a number of 16 bits after these bytes.
fn push_half(bytes: &mut Vec<u8>, number: u16) -> Result<(), AllocError>
    ensures { OnOk result (bytes.new.items ≡ bytes.old.items ++ to_le_bytes w16 number) }
{
    bytes.extend_from_slice(&number.to_le_bytes())
}

/// Puts a number of 32 bits after these bytes.
fn push_word(bytes: &mut Vec<u8>, number: u32) -> Result<(), AllocError>
    ensures { OnOk result (bytes.new.items ≡ bytes.old.items ++ to_le_bytes w32 number) }
{
    bytes.extend_from_slice(&number.to_le_bytes())
}

/// Puts the lowest `width` bytes of an item after these bytes, the lowest of them first.
fn push_number(bytes: &mut Vec<u8>, item: i64, width: usize) -> Result<(), AllocError>
    requires low { 1 ≤ width }
    requires high { width ≤ 8 }
    ensures whole { OnOk result (bytes.new.items ≡ bytes.old.items ++ number_bytes width item) }
    ensures nothing { OnErr result (bytes.new.items ≡ bytes.old.items) }
{
    let mut sample = [0; 8];
    LittleEndian::write_int(&mut sample, item, width);
    bytes.extend_from_slice(&sample[..width])
}

/// Hands on what an output kept.
fn hand_on<O: Write, G: Write + Drop>(
    output: &mut SinkOutput<G>,
    standard: &mut O,
) -> Result<(), SinkFault>
    ensures channel { output.new.channel ≡ output.old.channel }
    ensures format { output.new.format ≡ output.old.format }
    ensures only { WritesOnly standard.old standard.new output.old.file output.new.file }
    ensures handed_on { HandsOn result output.new.bytes.items
        (was_put O.contents G.contents standard.old output.old)
        (was_put O.contents G.contents standard.new output.new) }
{
    if output.bytes.is_empty() {
        return Ok(());
    }
    let written = write_device(standard, &mut output.file, &output.bytes);
    output.bytes.clear();
    written
}

/// Writes bytes to the file, or else to standard output.
fn write_device<O: Write, G: Write + Drop>(
    standard: &mut O,
    file: &mut Option<G>,
    bytes: &[u8],
) -> Result<(), SinkFault>
    ensures written { OnOk result
        (Appends (device_holds O.contents G.contents standard.old file.old)
        (device_holds O.contents G.contents standard.new file.new) bytes.now) }
    ensures only { WritesOnly standard.old standard.new file.old file.new }
    ensures fault { IfErr result IsOfDevice }
{
    match file {
        Some(file) => write_whole(file, bytes),
        None => write_whole(standard, bytes),
    }
}

fn write_whole<W: Write>(writer: &mut W, bytes: &[u8]) -> Result<(), SinkFault>
    ensures written { OnOk result
        (Appends (W.contents writer.old) (W.contents writer.new) bytes.now) }
    ensures fault { IfErr result IsOfDevice }
{
    writer
        .write_all(bytes)
        .map_err(|error| fault_of(error.kind()))?;
    writer.flush().map_err(|error| fault_of(error.kind()))
}

/// The fault of a device that fails so. Only a broken pipe says that its reader has gone.
fn fault_of(kind: ErrorKind) -> SinkFault
    ensures device { IsOfDevice result }
    ensures gone { result ≡ SinkFault.Gone → kind ≡ ErrorKind.BrokenPipe }
{
    match kind {
        ErrorKind::BrokenPipe => SinkFault::Gone,
        _ => SinkFault::Write,
    }
}
