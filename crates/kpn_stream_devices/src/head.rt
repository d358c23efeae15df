//! The head of a WAV file: where its samples begin, and how they are written.
ghost use Rattle.std.specs.Prelude.{◌≡◌, ◌+◌, ◌%◌, ◌≤◌, ◌<◌, length, drop};
ghost use Rattle.byteorder.specs.Endian.{little_number};
ghost use Rattle.kpn_stream_devices.specs.Head.{chunk_at, chunks_from, data_of, described, format_of, head_of, is_whole, left_of, sample_of, most_bytes, number_at, HasHead, IsHeadWithin, is_extended};

use crate::formats::SampleFormat;
use byteorder::{ByteOrder, LittleEndian};

/// A head has at most this many bytes.
const MOST_HEAD_BYTES: usize = 1_048_576;

/// At most this many chunks follow the first bytes of a head, and `data` is the last of them.
const MOST_CHUNKS: u32 = 1_000;

/// From this many bytes on, `data` has what comes: a program that writes to a pipe can't know how much that is.
pub(crate) const UNKNOWN: u64 = 0x7fff_e000;

// The names of chunks, as numbers.
const RIFF: u32 = 0x4646_4952;

const WAVE: u32 = 0x4556_4157;

const FORMAT_CHUNK: u32 = 0x2074_6d66;

const DATA: u32 = 0x6174_6164;

// The tag of whole numbers, and the one that says what the samples are by 16 bytes; those of whole numbers.
const WHOLE: u16 = 1;

const EXTENDED: u16 = 0xfffe;

const WHOLE_KIND: u64 = 0x0010_0000_0000_0001;

const WHOLE_KIND_END: u64 = 0x719b_3800_aa00_0080;

/// What is left of the samples of a WAV file: this many bytes, or from `UNKNOWN` on as many as come.
#[derive(Clone, Copy)]
pub struct Wav {
    pub sample: SampleFormat,
    pub left: u64,
}

/// What the first bytes of an input tell of its head.
#[derive(Clone, Copy)]
pub enum Head {
    /// They are too few to tell.
    Open,
    /// The head is wrong from this byte on, counted from 0.
    Bad(usize),
    /// This many bytes are the head, and these samples follow.
    Whole(usize, Wav),
}

/// What a chunk of a head tells.
#[derive(Clone, Copy)]
enum Chunk {
    /// What the head is.
    Told(Head),
    /// Where the next chunk begins, and what the samples are, if a chunk has said so.
    Next(usize, Option<SampleFormat>),
}

/// What the first bytes of an input tell of its head.
pub(crate) fn head_of(bytes: &[u8]) -> Head
    ensures is { result ≡ head_of bytes.now }
    ensures within { HasHead result (length bytes.now) }
{
    if bytes.len() < 12 {
        return Head::Open;
    }
    if word_at(bytes, 0) != RIFF {
        return Head::Bad(0);
    }
    if word_at(bytes, 8) != WAVE {
        return Head::Bad(8);
    }
    chunks_from(bytes, 12, None, MOST_CHUNKS)
}

/// What at most this many chunks from this place on tell.
fn chunks_from(bytes: &[u8], at: usize, sample: Option<SampleFormat>, count: u32) -> Head
    requires { at ≤ most_bytes }
    ensures is { result ≡ chunks_from count bytes.now at sample }
    ensures within { HasHead result (length bytes.now) }
{
    if count == 0 {
        return Head::Bad(at);
    }
    match chunk_at(bytes, at, sample) {
        Chunk::Told(head) => head,
        Chunk::Next(next, found) => chunks_from(bytes, next, found, count - 1),
    }
}

/// What the chunk at this place tells.
fn chunk_at(bytes: &[u8], at: usize, sample: Option<SampleFormat>) -> Chunk
    requires { at ≤ most_bytes }
    ensures is { result ≡ chunk_at bytes.now at sample }
    ensures within { IsHeadWithin result (length bytes.now) }
{
    if bytes.len() < at + 8 {
        return Chunk::Told(Head::Open);
    }
    let name = word_at(bytes, at);
    let size = word_at(bytes, at + 4) as usize;
    if name == DATA {
        return Chunk::Told(data_of(word_at(bytes, 4) as usize, at, size, sample));
    }
    let next = at + 8 + size + size % 2;
    if next > MOST_HEAD_BYTES {
        return Chunk::Told(Head::Bad(at + 4));
    }
    if name == FORMAT_CHUNK {
        format_of(bytes, at, size)
    } else {
        Chunk::Next(next, sample)
    }
}

/// What the chunk `data` tells, which says that `size` bytes follow. The head says how many bytes the whole file has.
fn data_of(whole: usize, at: usize, size: usize, sample: Option<SampleFormat>) -> Head
    requires { at ≤ most_bytes }
    ensures is { result ≡ data_of whole at size sample }
    ensures within { HasHead result (at + 8) }
{
    let left = left_of(whole, at, size);
    match sample {
        Some(sample) => Head::Whole(at + 8, Wav { sample, left }),
        None => Head::Bad(at),
    }
}

/// How many bytes of samples follow. A program that writes to a pipe says 0 or a large number. By 0 there are none if
/// the whole file, from byte 8 on, ends after this chunk.
fn left_of(whole: usize, at: usize, size: usize) -> u64
    ensures { result ≡ left_of whole at size }
{
    if size == 0 && at < whole && (whole as u64) < UNKNOWN {
        return 0;
    }
    let size = size as u64;
    if size == 0 || size >= UNKNOWN {
        return u64::MAX;
    }
    size
}

/// What the chunk `fmt ` at this place tells, which has this many bytes.
fn format_of(bytes: &[u8], at: usize, size: usize) -> Chunk
    requires { at + 8 + size + size % 2 ≤ most_bytes }
    ensures is { result ≡ format_of bytes.now at size }
    ensures within { IsHeadWithin result (length bytes.now) }
{
    if size < 16 {
        return Chunk::Told(Head::Bad(at + 4));
    }
    let next = at + 8 + size + size % 2;
    if bytes.len() < next {
        return Chunk::Told(Head::Open);
    }
    match described(bytes, at + 8, size) {
        Ok(sample) => Chunk::Next(next, Some(sample)),
        Err(place) => Chunk::Told(Head::Bad(place)),
    }
}

/// The samples that the `size` bytes of a chunk `fmt ` from this place on say; or the first place where they
/// say something else.
fn described(bytes: &[u8], at: usize, size: usize) -> Result<SampleFormat, usize>
    requires some { 16 ≤ size }
    requires whole { at + size ≤ length bytes.now }
    requires few { at + size ≤ most_bytes }
    ensures { result ≡ described bytes.now at size }
{
    if !is_whole(bytes, at, size) {
        return Err(at);
    }
    let Some(sample) = sample_of(half_at(bytes, at + 14)) else {
        return Err(at + 14);
    };
    let channels = usize::from(half_at(bytes, at + 2));
    if usize::from(half_at(bytes, at + 12)) != channels * sample.width() {
        return Err(at + 12);
    }
    Ok(sample)
}

/// Whether these bytes of a chunk `fmt ` say that the samples are whole numbers.
fn is_whole(bytes: &[u8], at: usize, size: usize) -> bool
    requires some { 16 ≤ size }
    requires whole { at + size ≤ length bytes.now }
    requires few { at + size ≤ most_bytes }
    ensures { result ≡ is_whole bytes.now at size }
{
    let tag = half_at(bytes, at);
    if tag == WHOLE {
        return true;
    }
    if tag == EXTENDED {
        return is_extended(bytes, at, size);
    }
    false
}

/// Whether a long description tells the kind of whole numbers.
fn is_extended(bytes: &[u8], at: usize, size: usize) -> bool
    requires whole { at + size ≤ length bytes.now }
    requires few { at + size ≤ most_bytes }
    ensures { result ≡ is_extended bytes.now at size }
{
    if size < 40 {
        return false;
    }
    let kind = LittleEndian::read_u64(&bytes[at + 24..]);
    let end = LittleEndian::read_u64(&bytes[at + 32..]);
    kind == WHOLE_KIND && end == WHOLE_KIND_END
}

/// The samples of this many bits.
fn sample_of(bits: u16) -> Option<SampleFormat>
    ensures { result ≡ sample_of bits }
{
    match bits {
        8 => Some(SampleFormat::U8),
        16 => Some(SampleFormat::S16),
        24 => Some(SampleFormat::S24),
        _ => None,
    }
}

/// The number of 32 bits at this place.
fn word_at(bytes: &[u8], at: usize) -> u32
    requires { at + 4 ≤ length bytes.now }
    ensures { result ≡ number_at 4 at bytes.now }
{
    LittleEndian::read_u32(&bytes[at..])
}

/// The number of 16 bits at this place.
fn half_at(bytes: &[u8], at: usize) -> u16
    requires { at + 2 ≤ length bytes.now }
    ensures { result ≡ number_at 2 at bytes.now }
{
    LittleEndian::read_u16(&bytes[at..])
}
