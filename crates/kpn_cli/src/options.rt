//! What is wrong with options: one that a command has not, and one that says a format.

use crate::pieces::{has_name, is_end, name_in, push, push_ends, push_made, push_name, text_of};
use crate::words::{Evidence, SeenBytes};
use kpn_command_base::{EndKind, StreamRequest};
use kpn_shelf::Shelf;
use kpn_stream_devices::ItemFormat;
use kpn_text::Document;
use std::alloc::{AllocError, Global};
use std::rt::Files;

// What stands before a word that a command does not know.
const UNEXPECTED: &str = "unexpected argument '";

// What `kpn run` has not and `kpn stream` has.
const OF_STREAMS: [&str; 5] = ["--format", "--rate", "--channels", "--clip", "--stats"];

/// Adds where a command lists its options, if a word is told that it does not know.
pub(crate) fn push_unclear(
    text: &mut Vec<u8>,
    alloc: Global,
    words: &[String],
    known: &SeenBytes<'_>,
) -> Result<(), AllocError> {
    let Some((_, behind)) = text_of(known.told).split_once(UNEXPECTED) else {
        return Ok(());
    };
    let (Some((word, _)), Some(command)) = (behind.split_once('\''), words.get(1)) else {
        return Ok(());
    };
    let command = command.as_str();
    push_name(text, "", word, " is no option here: ")?;
    push_made(
        text,
        format!(in alloc; "`kpn {command} --help` lists those that there are.\n"),
    )?;
    match command {
        "run" if OF_STREAMS.contains(&word) => push(text, "`kpn stream` has it.\n"),
        "run" | "stream" | "rounds" => push(
            text,
            "A source gets its items by `--source NAME=FILE`.\n",
        ),
        _ => Ok(()),
    }
}

/// Adds what is wrong with the first word after a `--format` that is wrong.
pub(crate) fn push_wrong_format<R: Files, S: Shelf>(
    text: &mut Vec<u8>,
    stream: &StreamRequest<'_>,
    evidence: &Evidence<'_, R, S>,
) -> Result<(), AllocError> {
    for word in &stream.formats {
        let format = match word.split_once('=') {
            Some((_, format)) => format,
            None => *word,
        };
        if ItemFormat::of_word(format).is_none() {
            return push_name(text, "There is no format ", format, ".\n");
        }
    }
    match evidence.plain_document(stream.file) {
        Some(document) => push_wrong_end(text, &document, &stream.formats),
        None => Ok(()),
    }
}

// Adds which sources and sinks there are, if one of these words is for none of them, or that it is for one that an
// earlier one is for.
fn push_wrong_end(
    text: &mut Vec<u8>,
    document: &Document,
    formats: &[&str],
) -> Result<(), AllocError> {
    for (at, word) in formats.iter().enumerate() {
        let Some((name, _)) = word.split_once('=') else {
            continue;
        };
        if !is_end(document, EndKind::Sources, name) && !is_end(document, EndKind::Sinks, name) {
            push_name(
                text,
                "There is no source and no sink ",
                name,
                ". The network has ",
            )?;
            push_ends(text, document, EndKind::Sources)?;
            push(text, " and ")?;
            push_ends(text, document, EndKind::Sinks)?;
            return push(text, ".\n");
        }
        if has_name(formats.get(..at).unwrap_or(&[]), name) {
            return push_name(text, "The format of ", name, " is given twice.\n");
        }
    }
    Ok(())
}
