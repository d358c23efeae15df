//! A whole item file: its items read, from bytes at hand or from a reader, and written.

ghost use Rattle.std.specs.Prelude.{◌≡◌, ◌≢◌, ◌==◌, ◌<◌, ◌∷◌, length, position, Err, IfOk, IfErr, OnOk, IfSome, IsErrAnd, ◌≤◌, vec_len};
ghost use Rattle.std.specs.Str.Lines.{lines, strip_carriage_return};
ghost use Rattle.std.specs.Io.KnownBytes.{Appends, IsAtEnd};
ghost use Rattle.kpn_text_items.specs.ItemFile.{Spells, TellsFirstBadLine, item_text};
ghost use Rattle.kpn_text_items.specs.Input.{LosesItsFront, NamesNoLine, TellsLineAtEnd};

use crate::fault::{ItemFault, WriteFault};
use crate::input::read_all;
use crate::item_line::item_of_line;
use kpn_limits::MAX_INPUT_BYTES;
use std::alloc::Global;
use std::io::{Read, Write};

/// The items that the bytes of an item file spell, one on each line.
///
/// It fails with `ItemFault::BadItem` at the first line that spells none, counted from 1, and with
/// `ItemFault::NoMemory` if memory for the items ran out.
pub fn items_of(alloc: Global, bytes: &[u8]) -> Result<Vec<i64>, ItemFault>
    ensures ok { IfOk result (λ items. Spells bytes.now items.items) }
    ensures bad_item { IfErr result (TellsFirstBadLine bytes.now) }
    ensures never_read { result ≢ Err ItemFault.Read }
{
    let mut items = Vec::new(alloc);
    let mut rest = bytes;
    while !rest.is_empty() {
        let (line, after) = first_line(rest);
        let Some(item) = item_of_line(line) else {
            return Err(ItemFault::BadItem(items.len() + 1));
        };
        items.push(item).map_err(|_| ItemFault::NoMemory)?;
        rest = after;
    }
    Ok(items)
}

/// The items that a reader's bytes spell. It reads all before it looks at the first line, so the faults of `read_all`
/// come before those of `items_of`.
pub fn read_items<R: Read>(alloc: Global, reader: &mut R) -> Result<Vec<i64>, ItemFault>
    // If the reader's bytes are known, the answer is about them.
    ensures ok { IfOk result (λ items.
        IfSome (R.remaining reader.old) (λ bytes. Spells bytes items.items)) }
    ensures bad_item { IfErr result (λ fault.
        IfSome (R.remaining reader.old) (λ bytes. TellsFirstBadLine bytes fault)) }

    // If they are more than the limit, the call fails whatever they spell.
    ensures too_long { IfSome (R.remaining reader.old) (λ bytes.
        MAX_INPUT_BYTES < length bytes → IsErrAnd result NamesNoLine) }

    // There are no more items than bytes.
    ensures few { IfOk result (λ items. vec_len items ≤ MAX_INPUT_BYTES) }

    // It returns items or names a line only once it has read all. The reader loses no bytes but those read.
    ensures at_end { OnOk result (IsAtEnd (R.remaining reader.new)) }
    ensures bad_at_end { IfErr result (TellsLineAtEnd (R.remaining reader.new)) }
    ensures rest { LosesItsFront (R.remaining reader.old) (R.remaining reader.new) }
{
    let bytes = read_all(alloc, reader)?;
    items_of(alloc, &bytes)
}

/// Writes the items, each as its canonical line: no leading zeros, no `-0`, a line feed at the end.
///
/// It takes no memory. After `WriteFault::Write` nobody knows how much went out.
pub fn write_items<W: Write>(writer: &mut W, items: &[i64]) -> Result<(), WriteFault>
    ensures { OnOk result
        (Appends (W.contents writer.old) (W.contents writer.new) (item_text items.now)) }
{
    for item in items {
        writeln!(writer, "{item}").map_err(|_| WriteFault::Write)?;
    }
    Ok(())
}

/// The first line, without its line end, and the bytes of the lines after it.
fn first_line(bytes: &[u8]) -> (&[u8], &[u8])
    requires { 0 < length bytes.now }
    ensures split { lines bytes.now ≡ result.0.now ∷ lines result.1.now }
    ensures shorter { length result.1.now < length bytes.now }
{
    match line_feed(bytes) {
        Some(end) => (without_carriage_return(&bytes[..end]), &bytes[end + 1..]),
        None => (bytes, &bytes[bytes.len()..]),
    }
}

/// How many bytes stand before the first line feed, if there is one.
pub fn line_feed(bytes: &[u8]) -> Option<usize>
    ensures { result ≡ position (λ byte. byte == 10) bytes.now }
{
    bytes.iter().position(|&byte| byte == b'\n')
}

/// A line without the carriage return at its end, if it has one.
pub fn without_carriage_return(line: &[u8]) -> &[u8]
    ensures { result.now ≡ strip_carriage_return line.now }
{
    line.strip_suffix(b"\r").unwrap_or(line)
}
