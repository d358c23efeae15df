//! What has failed at an end of a stream, or in an input that can't be read again: which end, what stands there, and
//! what helps.

use crate::causes::push_unread;
use crate::keeping::MOST_GIVEN;
use crate::pieces::{file_in, is_plain, name_in, push, push_made, push_name};
use crate::words::{Evidence, SeenBytes};
use kpn_command_base::{EndKind, StreamRequest};
use kpn_command_explain::bad_line_text;
use kpn_command_stream::word_for;
use kpn_shelf::{STANDARD, Shelf};
use kpn_stream_devices::ItemFormat;
use std::alloc::{AllocError, Global};
use std::fs;
use std::rt::Files;

/// What stands for the name of a source where there is none.
pub(crate) const NO_SOURCE: &str = "NAME";

/// The first error line of what was told.
#[derive(Clone, Copy)]
pub(crate) struct ErrorLine<'t> {
    /// The number of the error.
    pub(crate) number: &'t str,
    /// The last word: a place or an item, if there is one.
    pub(crate) place: &'t str,
    /// The end that the next line names.
    pub(crate) end: Option<FailedEnd<'t>>,
}

/// A source or a sink, and its file.
#[derive(Clone, Copy)]
pub(crate) struct FailedEnd<'t> {
    ends: EndKind,
    name: &'t str,
    file: &'t str,
}

impl<'t> ErrorLine<'t> {
    /// The first error line of a text.
    pub(crate) fn in_text(told: &'t str) -> Option<ErrorLine<'t>> {
        let (_, rest) = told.split_once("kpn: ")?;
        let (line, below) = rest.split_once('\n')?;
        let (number, rest) = line.split_once(' ')?;
        let place = match rest.rsplit_once(' ') {
            Some((_, place)) => place,
            None => "",
        };
        Some(ErrorLine {
            number,
            place,
            end: FailedEnd::in_line(below),
        })
    }
}

impl<'t> FailedEnd<'t> {
    // The end that the first line of a text names.
    fn in_line(text: &'t str) -> Option<FailedEnd<'t>> {
        let (line, _) = text.split_once('\n')?;
        let (ends, option) = match line.strip_prefix("at --source ") {
            Some(option) => (EndKind::Sources, option),
            None => (EndKind::Sinks, line.strip_prefix("at --sink ")?),
        };
        Some(FailedEnd {
            ends,
            name: name_in(&option),
            file: file_in(&option),
        })
    }
}

/// Adds what has failed at the end that a line names. It returns whether it names one.
pub(crate) fn push_failed_end<R: Files, S: Shelf>(
    text: &mut Vec<u8>,
    stream: &StreamRequest<'_>,
    line: ErrorLine<'_>,
    evidence: &Evidence<'_, R, S>,
) -> Result<bool, AllocError> {
    let Some(end) = line.end else {
        return Ok(false);
    };
    let word = word_for(&stream.formats, end.name);
    match end.ends {
        EndKind::Sources => push_failed_source(text, word, end, line, evidence)?,
        EndKind::Sinks if line.number == "54" => {
            push_unfit(text, evidence.alloc, end, word, line.place)?
        }
        EndKind::Sinks => push_shown(text, end.file, "Standard output", TAKES_NO_MORE)?,
    }
    Ok(true)
}

const TAKES_NO_MORE: &str = " takes no more: is it closed, or its disk full?\n";

const CLOSED: &str = " can't be read: is it closed?\n";

// Adds what has failed at a source whose format has this word.
fn push_failed_source<R: Files, S: Shelf>(
    text: &mut Vec<u8>,
    word: &str,
    end: FailedEnd<'_>,
    line: ErrorLine<'_>,
    evidence: &Evidence<'_, R, S>,
) -> Result<(), AllocError> {
    let alloc = evidence.alloc;
    match line.number {
        "25" if word == "lines" => push_bad_line(text, end, line.place, evidence),
        "25" => push_bad_sample(text, alloc, end, line.place),
        "29" => push_cut(text, alloc, end, word, length_of(end.file, evidence)),
        "55" => push_bad_head(text, alloc, end, line.place),
        _ if end.file != STANDARD && push_unread(text, evidence.rt, end.file, u64::MAX)? => Ok(()),
        _ => push_shown(text, end.file, "Standard input", CLOSED),
    }
}

// Adds the file of an end, or which standard device it is.
fn push_shown(
    text: &mut Vec<u8>,
    file: &str,
    device: &str,
    behind: &str,
) -> Result<(), AllocError> {
    if file != STANDARD {
        return push_name(text, "", file, behind);
    }
    push(text, device)?;
    push(text, behind)
}

// Adds the line of a source that spells no item, and what helps.
fn push_bad_line<R: Files, S: Shelf>(
    text: &mut Vec<u8>,
    end: FailedEnd<'_>,
    place: &str,
    evidence: &Evidence<'_, R, S>,
) -> Result<(), AllocError> {
    let alloc = evidence.alloc;
    if end.file == STANDARD {
        return push_given(text, alloc, end.name, place, evidence.known);
    }
    if is_plain(evidence.rt, end.file) {
        if let (Ok(bytes), Ok(line)) = (evidence.shelf.load(alloc, end.file), place.parse()) {
            let told = bad_line_text(alloc, end.file, &bytes, line, end.name)?;
            return text.extend_from_slice(&told);
        }
    }
    push_unseen(text, alloc, end.name, end.file, place)
}

/// Adds the line of standard input that spells no item, if it is known, and what helps. It is that of the source of this
/// name.
pub(crate) fn push_given(
    text: &mut Vec<u8>,
    alloc: Global,
    source: &str,
    place: &str,
    known: &SeenBytes<'_>,
) -> Result<(), AllocError> {
    let feeds = known.given.iter().filter(|byte| **byte == b'\n').count();
    match place.parse::<usize>() {
        Ok(line) if line <= feeds || known.given.len() < MOST_GIVEN || line == 1 => {
            let told = bad_line_text(alloc, "standard input", known.given, line, source)?;
            text.extend_from_slice(&told)
        }
        _ => push_unseen(text, alloc, source, STANDARD, place),
    }
}

/// Adds that a line spells no item which can't be read again, and what an item is.
pub(crate) fn push_unseen(
    text: &mut Vec<u8>,
    alloc: Global,
    source: &str,
    file: &str,
    place: &str,
) -> Result<(), AllocError> {
    push_made(text, format!(in alloc; "Line {place} of "))?;
    push_shown(text, file, "standard input", " spells no item")?;
    if source != NO_SOURCE {
        push_name(text, " for source ", source, "")?;
    }
    push(text, ITEM)?;
    push(text, source)?;
    push(text, "=s16le`, and a WAV file with `=wav`.\n")
}

const ITEM: &str = "\
. An item is a whole number on a line of its own,
from -9223372036854775808 to 9223372036854775807. `kpn stream` reads samples of 16 bits with `--format ";

// Adds which floats are no items.
fn push_bad_sample(
    text: &mut Vec<u8>,
    alloc: Global,
    end: FailedEnd<'_>,
    place: &str,
) -> Result<(), AllocError> {
    let name = end.name;
    push_made(
        text,
        format!(in alloc;
            "Sample {place} of source `{name}` is no number, infinite, or too large for an item.\n"
        ),
    )
}

// Adds that an input is no WAV file that a stream reads, and what helps.
fn push_bad_head(
    text: &mut Vec<u8>,
    alloc: Global,
    end: FailedEnd<'_>,
    place: &str,
) -> Result<(), AllocError> {
    let name = end.name;
    push_made(
        text,
        format!(in alloc;
            "The input of source `{name}` is no WAV file with samples of 8, 16 or 24 bits. "
        ),
    )?;
    push_made(
        text,
        format!(in alloc; "In its head byte {place}, from 0, is another or is missing.\n"),
    )?;
    push(text, OTHER_SOUNDS)
}

const OTHER_SOUNDS: &str = "\
`sox IN -e signed -b 16 OUT.wav` makes one of other sounds. Raw samples have formats of their own.
";

// How many bytes an input has, if it can be told.
fn length_of<R: Files, S>(file: &str, evidence: &Evidence<'_, R, S>) -> Option<u64> {
    if file == STANDARD {
        return Some(evidence.known.count);
    }
    match fs::metadata(evidence.rt, file) {
        Ok(found) if found.is_file() => Some(found.len()),
        _ => None,
    }
}

// Adds how many bytes are left over after the last whole sample, if the length is known.
fn push_cut(
    text: &mut Vec<u8>,
    alloc: Global,
    end: FailedEnd<'_>,
    word: &str,
    length: Option<u64>,
) -> Result<(), AllocError> {
    let name = end.name;
    let Some(ItemFormat::Samples(sample)) = ItemFormat::of_word(word) else {
        return push_made(
            text,
            format!(in alloc;
                "The input of source `{name}` ends before its last sample does: it is cut.\n"
            ),
        );
    };
    let width = sample.width();
    let Some(length) = length else {
        return push_made(
            text,
            format!(in alloc;
                "The input of source `{name}` ends within a sample: one of {word} has {width} bytes.\n"
            ),
        );
    };
    let left = length % width as u64;
    push_made(
        text,
        format!(in alloc;
            "The input of source `{name}` has {length} bytes, and a sample of {word} has {width}. "
        ),
    )?;
    push_made(text, format!(in alloc; "Left over: {left}.\n"))
}

// Adds what a format has, and what helps with an item that it does not have.
fn push_unfit(
    text: &mut Vec<u8>,
    alloc: Global,
    end: FailedEnd<'_>,
    word: &str,
    item: &str,
) -> Result<(), AllocError> {
    let Some(format) = ItemFormat::of_word(word) else {
        return Ok(());
    };
    let (name, least, greatest) = (end.name, format.least(), format.greatest());
    let wider = wider_format(word, item);
    push_made(
        text,
        format!(in alloc; "Sink `{name}` gets {item}, and {word} has {least} to {greatest}. "),
    )?;
    push_made(
        text,
        format!(in alloc;
            "`--format {name}={wider}` has it, and `--clip` writes the nearest one.\n"
        ),
    )
}

// The least format of signed samples that has an item: one of WAV files, if the sink writes one and there is one.
fn wider_format(word: &str, item: &str) -> &'static str {
    let Ok(item) = item.parse::<i64>() else {
        return "s64le";
    };
    if word.starts_with("wav") && has_item("wav24", item) {
        return "wav24";
    }
    for wider in ["s8", "s16le", "s24le", "s32le"] {
        if has_item(wider, item) {
            return wider;
        }
    }
    "s64le"
}

fn has_item(word: &str, item: i64) -> bool {
    ItemFormat::of_word(word).is_some_and(|format| format.has(item))
}
