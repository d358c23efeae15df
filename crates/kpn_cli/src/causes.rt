//! Why a file of a request was refused: its name and the reason, and the words of `kpn explain`.

use crate::ends::{ErrorLine, NO_SOURCE, push_failed_end, push_given, push_unseen};
use crate::named::NamedFiles;
use crate::pieces::{
    file_in, has_name, is_end, is_plain, name_in, push, push_ends, push_name, text_of, word_of,
};
use crate::words::{Evidence, SeenBytes};
use kpn_command_base::{Conclusion, EndKind, Refusal, load_document};
use kpn_command_explain::{
    bad_line_text, explain_command, explain_items_command, explain_trace_command,
};
use kpn_command_line::Request;
use kpn_limits::{MAX_INPUT_BYTES, USUAL_COUNT};
use kpn_shelf::{STANDARD, Shelf};
use kpn_text::Document;
use kpn_text_items::{ItemFault, items_of};
use std::alloc::{AllocError, Global};
use std::fs;
use std::io::ErrorKind;
use std::rt::Files;

/// Adds what is wrong with the first file of a request that is wrong.
pub(crate) fn push_causes<R: Files, S: Shelf>(
    text: &mut Vec<u8>,
    request: &Request<'_>,
    evidence: &Evidence<'_, R, S>,
) -> Result<(), AllocError> {
    let line = ErrorLine::in_text(text_of(evidence.known.told));
    let Some(named) = NamedFiles::of(request) else {
        return push_wrong_input(text, evidence.alloc, line, evidence.known);
    };
    if push_wrong_description(text, &named, evidence)? {
        return Ok(());
    }
    let Ok(document) = load_document(evidence.alloc, evidence.shelf, named.file) else {
        return Ok(());
    };
    if push_wrong_name(text, &document, EndKind::Sources, named.sources)?
        || push_wrong_name(text, &document, EndKind::Sinks, named.sinks)?
        || push_wrong_end(text, &named, line, evidence)?
        || push_wrong_items(text, &named, line, evidence)?
        || push_wrong_trace(text, &named, evidence)?
        || push_wrong_part(text, &named, evidence)?
        || push_unwritable(text, evidence.rt, &named)?
    {
        return Ok(());
    }
    push_full(text, &named, line)
}

// Adds what is wrong with a description, if something is. It returns whether nothing more can be said.
fn push_wrong_description<R: Files, S: Shelf>(
    text: &mut Vec<u8>,
    named: &NamedFiles<'_, '_>,
    evidence: &Evidence<'_, R, S>,
) -> Result<bool, AllocError> {
    let Evidence {
        alloc,
        shelf,
        rt,
        ..
    } = *evidence;
    Ok(
        push_unread(text, rt, named.file, MOST_FILE_BYTES)?
            || !is_plain(rt, named.file)
            || named.is_items
            || push_marked(text, alloc, named.file, shelf)?
            || !named.has_explained && push_told(text, explain_command(alloc, named.file, shelf))?,
    )
}

// Adds what is wrong with the first part that is wrong, or why the parts are not joined.
fn push_wrong_part<R: Files, S: Shelf>(
    text: &mut Vec<u8>,
    named: &NamedFiles<'_, '_>,
    evidence: &Evidence<'_, R, S>,
) -> Result<bool, AllocError> {
    if named.parts.is_empty() {
        return Ok(false);
    }
    for r in 0..named.parts.len() / 2 {
        let (part, trace) = (named.parts[2 * r], named.parts[2 * r + 1]);
        let part = NamedFiles::traced(part, Some(trace), named.steps);
        if push_wrong_description(text, &part, evidence)?
            || push_wrong_trace(text, &part, evidence)?
        {
            return Ok(true);
        }
    }
    push(text, unjoined(text_of(evidence.known.written)))?;
    Ok(true)
}

// Why parts that are right by themselves are not joined, by what was written.
fn unjoined(written: &str) -> &'static str {
    if written.starts_with("no cut") {
        NO_CUT
    } else if written.starts_with("not joined") {
        NOT_JOINED
    } else {
        OLD_TRACE
    }
}

const NO_CUT: &str = "\
The parts are not those of this network. Each of its processes has to be in one part, once, with its
name, program and parameters, at channels of the same names. Give the description and the parts of one run.
";

const NOT_JOINED: &str = "\
This event feeds an item that no part has put there before. Give the traces of one run, unchanged.
";

const OLD_TRACE: &str = "\
A trace of version 1 can't be joined: its growths do not say the new capacity. Run the network again.
";

// Adds what is wrong with the items of standard input.
fn push_wrong_input(
    text: &mut Vec<u8>,
    alloc: Global,
    line: Option<ErrorLine<'_>>,
    known: &SeenBytes<'_>,
) -> Result<(), AllocError> {
    match line {
        Some(line) if line.number == "25" => push_given(text, alloc, NO_SOURCE, line.place, known),
        _ => Ok(()),
    }
}

// The byte order mark of UTF-8.
const BYTE_ORDER_MARK: [u8; 3] = [0xef, 0xbb, 0xbf];

// Adds that a description begins with a byte order mark, if it does. It returns whether it did.
fn push_marked<S: Shelf>(
    text: &mut Vec<u8>,
    alloc: Global,
    file: &str,
    shelf: &S,
) -> Result<bool, AllocError> {
    let Ok(bytes) = shelf.load(alloc, file) else {
        return Ok(false);
    };
    if !bytes.starts_with(&BYTE_ORDER_MARK) {
        return Ok(false);
    }
    push_name(text, "", file, MARKED)?;
    Ok(true)
}

const MARKED: &str =
    " begins with a byte order mark, which is no part of a description: store it without one.\n";

// Adds what has failed at an end of a stream, if something has.
fn push_wrong_end<R: Files, S: Shelf>(
    text: &mut Vec<u8>,
    named: &NamedFiles<'_, '_>,
    line: Option<ErrorLine<'_>>,
    evidence: &Evidence<'_, R, S>,
) -> Result<bool, AllocError> {
    match (named.stream, line) {
        (Some(stream), Some(line)) => push_failed_end(text, stream, line, evidence),
        _ => Ok(false),
    }
}

// Adds what an explanation says, if something is wrong. It returns whether it did.
fn push_told(text: &mut Vec<u8>, answer: Result<Conclusion, Refusal>) -> Result<bool, AllocError> {
    match answer {
        Ok(told) if told.status == 1 => {
            text.extend_from_slice(&told.text)?;
            Ok(true)
        }
        Err(Refusal::PolicyDiffers) => {
            push(text, OTHER_RULES)?;
            Ok(true)
        }
        _ => Ok(false),
    }
}

// A file that is read whole may have this many bytes.
const MOST_FILE_BYTES: u64 = MAX_INPUT_BYTES as u64;

const OTHER_RULES: &str = "\
The trace is of a network with another `policy` or `grow`. Give it the description that ran.
";

/// Adds the name of a file that can't be read, and the reason: it may have `most` bytes. It returns whether it did.
pub(crate) fn push_unread<R: Files>(
    text: &mut Vec<u8>,
    rt: &R,
    file: &str,
    most: u64,
) -> Result<bool, AllocError> {
    let Some(reason) = unread(rt, file, most) else {
        return Ok(false);
    };
    push_name(text, "", file, " can't be read: ")?;
    push(text, reason)?;
    push(text, "\n")?;
    Ok(true)
}

// Why a file can't be read that may have `most` bytes.
fn unread<R: Files>(rt: &R, file: &str, most: u64) -> Option<&'static str> {
    match fs::metadata(rt, file) {
        Ok(found) if found.is_dir() => Some("it is a folder"),
        Ok(found) if !found.is_file() => None,
        Ok(found) if found.len() > most => Some("it has more than 268,435,456 bytes"),
        Ok(_) => match fs::open(rt, file) {
            Ok(_) => None,
            Err(error) => Some(reason_of(error.kind())),
        },
        Err(error) => Some(reason_of(error.kind())),
    }
}

// What an error of the system says of a file.
fn reason_of(kind: ErrorKind) -> &'static str {
    match kind {
        ErrorKind::NotFound => "there is no such file",
        ErrorKind::PermissionDenied => "you may not read it, or not look into its folder",
        ErrorKind::NotADirectory => "a part of its path is no folder",
        _ => "the system refuses it",
    }
}

// Adds which names there are, if one of these options names something else, or an earlier one's.
fn push_wrong_name(
    text: &mut Vec<u8>,
    document: &Document,
    ends: EndKind,
    options: &[&str],
) -> Result<bool, AllocError> {
    for (at, option) in options.iter().enumerate() {
        let name = name_in(option);
        if !is_end(document, ends, name) {
            push(text, "There is no ")?;
            push(text, word_of(ends))?;
            push_name(text, " ", name, ". The network has ")?;
            push_ends(text, document, ends)?;
            push(text, ".\n")?;
            return Ok(true);
        }
        if has_name(options.get(..at).unwrap_or(&[]), name) {
            push(text, "The option of ")?;
            push(text, word_of(ends))?;
            push_name(text, " ", name, " is given twice.\n")?;
            return Ok(true);
        }
    }
    Ok(false)
}

// Adds what is wrong with the first file of items that is wrong.
fn push_wrong_items<R: Files, S: Shelf>(
    text: &mut Vec<u8>,
    named: &NamedFiles<'_, '_>,
    line: Option<ErrorLine<'_>>,
    evidence: &Evidence<'_, R, S>,
) -> Result<bool, AllocError> {
    for option in named.sources {
        let file = file_in(option);
        if named.stream.is_some() {
            // A stream reads on as long as bytes come.
            if file != STANDARD && push_unread(text, evidence.rt, file, u64::MAX)? {
                return Ok(true);
            }
        } else if push_wrong_file(text, name_in(option), file, line, evidence)? {
            return Ok(true);
        }
    }
    Ok(false)
}

// Adds what is wrong with the file of a source that is read whole: why it can't be read, or its first bad line.
fn push_wrong_file<R: Files, S: Shelf>(
    text: &mut Vec<u8>,
    source: &str,
    file: &str,
    line: Option<ErrorLine<'_>>,
    evidence: &Evidence<'_, R, S>,
) -> Result<bool, AllocError> {
    if push_unread(text, evidence.rt, file, MOST_FILE_BYTES)? {
        if file == STANDARD {
            push(text, NO_STANDARD)?;
        }
        return Ok(true);
    }
    if is_plain(evidence.rt, file) {
        return push_bad_line(text, evidence.alloc, source, file, evidence.shelf);
    }
    match line {
        Some(line) if line.number == "25" => {
            push_unseen(text, evidence.alloc, source, file, line.place)?;
            Ok(true)
        }
        _ => Ok(false),
    }
}

const NO_STANDARD: &str = "\
This command reads files: give `/dev/stdin`. `kpn stream` reads standard input as `-`.
";

// Adds the first line of a file that spells no item, if there is one.
fn push_bad_line<S: Shelf>(
    text: &mut Vec<u8>,
    alloc: Global,
    source: &str,
    file: &str,
    shelf: &S,
) -> Result<bool, AllocError> {
    let Ok(bytes) = shelf.load(alloc, file) else {
        return Ok(false);
    };
    match items_of(alloc, &bytes) {
        Err(ItemFault::BadItem(line)) => {
            let told = bad_line_text(alloc, file, &bytes, line, source)?;
            text.extend_from_slice(&told)?;
            Ok(true)
        }
        _ => Ok(false),
    }
}

// Adds what is wrong with the trace that is read.
fn push_wrong_trace<R: Files, S: Shelf>(
    text: &mut Vec<u8>,
    named: &NamedFiles<'_, '_>,
    evidence: &Evidence<'_, R, S>,
) -> Result<bool, AllocError> {
    let Some(trace) = named.read else {
        return Ok(false);
    };
    if push_unread(text, evidence.rt, trace, MOST_FILE_BYTES)? {
        return Ok(true);
    }
    if named.has_explained || !is_plain(evidence.rt, trace) {
        return Ok(false);
    }
    let (file, steps) = (named.file, named.steps);
    push_told(
        text,
        explain_trace_command(evidence.alloc, file, trace, steps, evidence.shelf),
    )
}

// Adds the name of an output that can't be written, and the reason.
fn push_unwritable<R: Files>(
    text: &mut Vec<u8>,
    rt: &R,
    named: &NamedFiles<'_, '_>,
) -> Result<bool, AllocError> {
    for sink in named.sinks {
        if push_unwritten(text, rt, file_in(sink))? {
            return Ok(true);
        }
    }
    match named.stored {
        Some(trace) => push_unwritten(text, rt, trace),
        None => Ok(false),
    }
}

// Adds which outputs there are, and what may be wrong with one, if nothing shows it.
fn push_full(
    text: &mut Vec<u8>,
    named: &NamedFiles<'_, '_>,
    line: Option<ErrorLine<'_>>,
) -> Result<(), AllocError> {
    match line {
        Some(line) if line.number == "27" => {}
        _ => return Ok(()),
    }
    for sink in named.sinks {
        push_name(text, "", file_in(sink), " or ")?;
    }
    if let Some(trace) = named.stored {
        push_name(text, "", trace, " or ")?;
    }
    let standard = if text.is_empty() {
        "Standard"
    } else {
        "standard"
    };
    push(text, standard)?;
    push(text, OUTPUT_FULL)?;
    match named.stored {
        Some(_) => push(text, MOST_TRACE),
        None => Ok(()),
    }
}

const MOST_TRACE: &str = "\
A trace has 268,435,456 bytes at most: `--max-commits N` makes it shorter.
";

const OUTPUT_FULL: &str =
    " output takes no more: is it closed, locked by another run, or its disk full?\n";

// Adds the name of a file that can't be written, and the reason, as far as it shows.
fn push_unwritten<R: Files>(text: &mut Vec<u8>, rt: &R, file: &str) -> Result<bool, AllocError> {
    let folder = match file.rsplit_once('/') {
        Some(("", _)) => "/",
        Some((folder, _)) => folder,
        None => ".",
    };
    let reason = if fs::metadata(rt, file).is_ok_and(|found| found.is_dir()) {
        "it is a folder"
    } else if !fs::metadata(rt, folder).is_ok_and(|found| found.is_dir()) {
        "its folder is not there"
    } else {
        return Ok(false);
    };
    push_name(text, "", file, " can't be written: ")?;
    push(text, reason)?;
    push(text, "\n")?;
    Ok(true)
}
