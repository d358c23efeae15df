//! What a file is that spells no items, as far as its first bytes show, and what helps.

use crate::lines::front;
use std::alloc::AllocError;
use std::str;

/// What the first bytes of a file show.
#[derive(Clone, Copy)]
pub(crate) enum FileKind {
    /// The head of a WAV file.
    Wav,
    /// A byte order mark.
    Marked,
    /// Bytes that no text has.
    Samples,
    /// A letter.
    Words,
    /// Nothing else than items may have.
    Lines,
}

// This many bytes are looked at.
const LOOKED_AT: usize = 4_096;

/// What the first bytes of a file show.
pub(crate) fn kind_of(bytes: &[u8]) -> FileKind {
    let first = front(bytes, LOOKED_AT);
    if first.starts_with(b"RIFF") {
        FileKind::Wav
    } else if begins_marked(first) {
        FileKind::Marked
    } else if looks_like_samples(first) {
        FileKind::Samples
    } else if first.first().is_some_and(|byte| byte.is_ascii_alphabetic()) {
        FileKind::Words
    } else {
        FileKind::Lines
    }
}

// Whether a text begins with the byte order mark of UTF-8 or of UTF-16.
fn begins_marked(bytes: &[u8]) -> bool {
    bytes.starts_with(b"\xef\xbb\xbf")
        || bytes.starts_with(b"\xff\xfe")
        || bytes.starts_with(b"\xfe\xff")
}

// Whether one of these bytes is in no text, or many are in few texts.
fn looks_like_samples(bytes: &[u8]) -> bool {
    let high = bytes.iter().filter(|byte| **byte > 126).count();
    bytes.iter().any(|byte| is_control(*byte)) || (high > bytes.len() / 8 && !is_text(bytes))
}

// Neither a tab, a line feed nor a carriage return.
fn is_control(byte: u8) -> bool {
    byte < 32 && byte != b'\t' && byte != b'\n' && byte != b'\r'
}

// Whether these bytes are UTF-8, except that the last character may be cut off.
fn is_text(bytes: &[u8]) -> bool {
    match str::from_utf8(bytes) {
        Ok(_) => true,
        Err(error) => bytes.len() == LOOKED_AT && error.valid_up_to() > LOOKED_AT - 4,
    }
}

/// Adds what helps with a file of this kind for the source of this name. It returns whether it did.
pub(crate) fn push_remedy(
    told: &mut Vec<u8>,
    kind: FileKind,
    source: &str,
) -> Result<bool, AllocError> {
    match kind {
        FileKind::Wav => {
            told.extend_from_slice(b"This is a WAV file, which `kpn stream` reads by ")?;
            push_format(told, source, "wav")?;
        }
        FileKind::Marked => told.extend_from_slice(
            b"It begins with a byte order mark, which is no part of an item: store it without one.\n",
        )?,
        FileKind::Samples => {
            told.extend_from_slice(
                b"These bytes look like samples, which `kpn stream` reads: of 16 bits by ",
            )?;
            push_format(told, source, "s16le")?;
        }
        FileKind::Words => told.extend_from_slice(
            b"This is text, and no list of items: a line has one whole number, and nothing else.\n",
        )?,
        FileKind::Lines => return Ok(false),
    }
    Ok(true)
}

// The option that says the format of a source.
fn push_format(told: &mut Vec<u8>, source: &str, format: &str) -> Result<(), AllocError> {
    told.extend_from_slice(b"`--format ")?;
    told.extend_from_slice(source.as_bytes())?;
    told.extend_from_slice(b"=")?;
    told.extend_from_slice(format.as_bytes())?;
    told.extend_from_slice(b"`.\n")
}
