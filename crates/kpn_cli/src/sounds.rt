//! What a person may not have meant of the WAV files that a stream has read: their channels, their samples a second,
//! and samples of 8 bits.
ghost use Rattle.std.specs.Prelude.{◌<◌};

use crate::keeping::MOST_GIVEN;
use crate::pieces::{file_in, is_of, is_plain, name_in, push, push_made};
use crate::words::Evidence;
use kpn_command_base::{EndKind, StreamRequest};
use kpn_command_stream::{USUAL_RATE, word_for};
use kpn_shelf::STANDARD;
use kpn_stream_devices::ItemFormat;
use kpn_text::Document;
use std::alloc::{AllocError, Global};
use std::fs;
use std::io::Read;
use std::rt::Files;

// What a head that is written says without an option.
const USUAL_CHANNELS: u16 = 1;

// What a head says of its samples.
#[derive(Clone, Copy)]
struct Sound {
    channels: u16,
    rate: u32,
    bits: u16,
}

/// Adds what the heads of WAV files say that differs from what sinks write, or that samples have 8 bits.
pub(crate) fn push_sounds<R: Files, S>(
    text: &mut Vec<u8>,
    stream: &StreamRequest<'_>,
    document: &Document,
    evidence: &Evidence<'_, R, S>,
) -> Result<(), AllocError> {
    let alloc = evidence.alloc;
    if stream.quiet {
        return Ok(());
    }
    for channel in 0..document.network().channels() {
        if is_sound(document, EndKind::Sources, channel, stream) {
            let name = document.channel_name(channel);
            if let Some(sound) = sound_at(file_of(stream, name), evidence) {
                push_channels(text, alloc, stream, name, sound)?;
                push_rate(text, alloc, stream, document, name, sound)?;
                push_bits(text, alloc, name, sound)?;
            }
        }
    }
    Ok(())
}

// Whether a channel is one of these ends, and its items are those of a WAV file.
fn is_sound(
    document: &Document,
    ends: EndKind,
    channel: usize,
    stream: &StreamRequest<'_>,
) -> bool {
    let word = word_for(&stream.formats, document.channel_name(channel));
    is_of(document, ends, channel) && matches!(ItemFormat::of_word(word), Some(ItemFormat::Wav(_)))
}

// The input of a source.
fn file_of<'a>(stream: &StreamRequest<'a>, name: &str) -> &'a str {
    for option in &stream.sources {
        if name_in(option) == name {
            return file_in(option);
        }
    }
    STANDARD
}

fn push_channels(
    text: &mut Vec<u8>,
    alloc: Global,
    stream: &StreamRequest<'_>,
    name: &str,
    sound: Sound,
) -> Result<(), AllocError> {
    let count = sound.channels;
    if count < 2 || count == stream.channels.unwrap_or(USUAL_CHANNELS) {
        return Ok(());
    }
    push_made(
        text,
        format!(in alloc; "Source `{name}` gets the samples of {count} channels in turn. "),
    )?;
    push(
        text,
        "`--channels N` says how many a written WAV file has.\n",
    )
}

fn push_rate(
    text: &mut Vec<u8>,
    alloc: Global,
    stream: &StreamRequest<'_>,
    document: &Document,
    name: &str,
    sound: Sound,
) -> Result<(), AllocError> {
    let (rate, written) = (sound.rate, stream.rate.unwrap_or(USUAL_RATE));
    let channels = document.network().channels();
    if rate == written
        || !(0..channels).any(|channel| is_sound(document, EndKind::Sinks, channel, stream))
    {
        return Ok(());
    }
    push_made(
        text,
        format!(in alloc; "Source `{name}` has {rate} samples a second, and a written WAV file "),
    )?;
    push_made(
        text,
        format!(in alloc; "says {written}. `--rate N` sets that.\n"),
    )
}

fn push_bits(
    text: &mut Vec<u8>,
    alloc: Global,
    name: &str,
    sound: Sound,
) -> Result<(), AllocError> {
    if sound.bits != 8 {
        return Ok(());
    }
    push_made(
        text,
        format!(in alloc;
            "Samples of source `{name}` have 8 bits: 0 to 255, and 128 is silence.\n"
        ),
    )
}

// What the head of an input says: of a plain file, or of standard input as far as it was kept.
fn sound_at<R: Files, S>(file: &str, evidence: &Evidence<'_, R, S>) -> Option<Sound> {
    if file == STANDARD {
        return sound_in(evidence.known.given);
    }
    if !is_plain(evidence.rt, file) {
        return None;
    }
    let mut bytes = [0; MOST_GIVEN];
    let count = fs::open(evidence.rt, file).ok()?.read(&mut bytes).ok()?;
    sound_in(&bytes[..count])
}

// What the chunk `fmt ` of a head says, if it begins among these first bytes.
fn sound_in(bytes: &[u8]) -> Option<Sound> {
    let mut rest = bytes.get(12..)?;
    for _chunk in 0..MOST_GIVEN / 8 {
        let after = rest.get(8..)?;
        if rest.starts_with(b"fmt ") {
            return described(after);
        }
        let size = word_at(rest, 4)? as usize;
        rest = after.get(size + size % 2..)?;
    }
    None
}

// What the first bytes of a chunk `fmt ` say.
fn described(bytes: &[u8]) -> Option<Sound> {
    Some(Sound {
        channels: half_at(bytes, 2)?,
        rate: word_at(bytes, 4)?,
        bits: half_at(bytes, 14)?,
    })
}

// The number of 16 bits at this place.
fn half_at(bytes: &[u8], at: usize) -> Option<u16>
    requires { at < 100 }
{
    let low = *bytes.get(at)?;
    Some(u16::from_le_bytes([low, *bytes.get(at + 1)?]))
}

// The number of 32 bits at this place.
fn word_at(bytes: &[u8], at: usize) -> Option<u32>
    requires { at < 16 }
{
    let low = u32::from(half_at(bytes, at)?);
    Some(low + 65_536 * u32::from(half_at(bytes, at + 2)?))
}
