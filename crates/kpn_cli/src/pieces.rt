//! Pieces of words, and what options, files and networks say for them.
ghost use Rattle.std.specs.Prelude.{◌<◌};

use kpn_command_base::EndKind;
use kpn_text::Document;
use std::alloc::AllocError;
use std::rt::Files;
use std::{fs, str};

/// Adds a piece to a text.
pub(crate) fn push(text: &mut Vec<u8>, piece: &str) -> Result<(), AllocError> {
    text.extend_from_slice(piece.as_bytes())
}

/// Adds a piece that was made, if there was memory for it.
pub(crate) fn push_made(
    text: &mut Vec<u8>,
    made: Result<String, AllocError>,
) -> Result<(), AllocError> {
    let piece = made?;
    push(text, piece.as_str())
}

/// Adds a name between backticks, and what stands before it and after it.
pub(crate) fn push_name(
    text: &mut Vec<u8>,
    before: &str,
    name: &str,
    behind: &str,
) -> Result<(), AllocError> {
    push(text, before)?;
    push(text, "`")?;
    push_visible(text, name)?;
    push(text, "`")?;
    push(text, behind)
}

/// Adds a name in which each control character is shown by its number, as `\x1b`: a terminal would obey it.
fn push_visible(text: &mut Vec<u8>, name: &str) -> Result<(), AllocError> {
    let mut before = 0;
    for byte in name.as_bytes() {
        let is_late = before == LATE_CONTROLS && *byte < 0xa0;
        if is_late {
            text.pop();
        }
        if is_late || *byte < 0x20 || *byte == 0x7f {
            push(text, "\\x")?;
            text.push(hex_digit(*byte / 16))?;
            text.push(hex_digit(*byte % 16))?;
        } else {
            text.push(*byte)?;
        }
        before = *byte;
    }
    Ok(())
}

// The byte with which the characters from 0x80 to 0xbf begin: those up to 0x9f are control characters.
const LATE_CONTROLS: u8 = 0xc2;

fn hex_digit(number: u8) -> u8
    requires { number < 16 }
{
    if number < 10 {
        b'0' + number
    } else {
        b'a' + (number - 10)
    }
}

/// A text that was kept. Nothing is read of one that is not UTF-8.
pub(crate) fn text_of(kept: &[u8]) -> &str {
    str::from_utf8(kept).unwrap_or("")
}

/// Whether this is a line of what was said.
pub(crate) fn is_said(said: &[u8], line: &str) -> bool {
    text_of(said).lines().any(|told| told == line)
}

/// Whether a path leads to a plain file. Another one may not be read twice.
pub(crate) fn is_plain<R: Files>(rt: &R, path: &str) -> bool {
    fs::metadata(rt, path).is_ok_and(|found| found.is_file())
}

/// The name that an option gives something.
pub(crate) fn name_in<'a>(option: &&'a str) -> &'a str {
    match option.split_once('=') {
        Some((name, _)) => name,
        None => option,
    }
}

/// What stands after the name in an option.
pub(crate) fn file_in<'a>(option: &&'a str) -> &'a str {
    match option.split_once('=') {
        Some((_, file)) => file,
        None => "",
    }
}

/// Whether one of these options has this name.
pub(crate) fn has_name(options: &[&str], name: &str) -> bool {
    options.iter().any(|option| name_in(option) == name)
}

/// The word for an end of a network.
pub(crate) fn word_of(ends: EndKind) -> &'static str {
    match ends {
        EndKind::Sources => "source",
        EndKind::Sinks => "sink",
    }
}

/// Whether a network has an end of this name.
pub(crate) fn is_end(document: &Document, ends: EndKind, name: &str) -> bool {
    match document.find_channel(name) {
        Some(channel) => is_of(document, ends, channel),
        None => false,
    }
}

/// Whether a channel is one of these ends.
pub(crate) fn is_of(document: &Document, ends: EndKind, channel: usize) -> bool {
    match ends {
        EndKind::Sources => document.network().is_source(channel),
        EndKind::Sinks => document.network().is_sink(channel),
    }
}

/// Whether a network has one of these ends.
pub(crate) fn has_one(document: &Document, ends: EndKind) -> bool {
    (0..document.network().channels()).any(|channel| is_of(document, ends, channel))
}

/// Adds the names of these ends of a network.
pub(crate) fn push_ends(
    text: &mut Vec<u8>,
    document: &Document,
    ends: EndKind,
) -> Result<(), AllocError> {
    let mut before = "";
    for channel in 0..document.network().channels() {
        if is_of(document, ends, channel) {
            push_name(text, before, document.channel_name(channel), "")?;
            before = ", ";
        }
    }
    if before.is_empty() {
        push(text, "no ")?;
        push(text, word_of(ends))?;
    }
    Ok(())
}
