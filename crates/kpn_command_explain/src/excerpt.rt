//! What is shown of a place in a text: where it is, the line, and a caret under the place.
ghost use Rattle.std.specs.Prelude.{◌≡◌, ◌++◌, map, OnOk};
ghost use Rattle.kpn_command_explain.specs.Excerpt as spec;

use crate::lines::{Position, front, line_before, line_behind, place_at};
use itoa::Buffer;
use std::alloc::AllocError;

/// The most bytes of a line that are shown whole.
const MAX_SHOWN: usize = 100;

/// The bytes of a longer line that are shown on each side of a place.
const SIDE: usize = 50;

/// `NAME:LINE:COLUMN: ` for a byte of a text. Bytes of the name outside 32 to 126 are shown as `?`.
pub fn push_where(out: &mut Vec<u8>, name: &[u8], text: &[u8], at: usize) -> Result<(), AllocError>
    ensures { OnOk result (out.new.items ≡ out.old.items ++ spec.where_text name.now text.now at) }
{
    push_place(out, name, place_at(text, at))
}

// `NAME:LINE:COLUMN: `
fn push_place(out: &mut Vec<u8>, name: &[u8], place: Position) -> Result<(), AllocError>
    ensures { OnOk result (out.new.items ≡ out.old.items ++ spec.position_text name.now place) }
{
    let mut line = Buffer::new();
    let mut column = Buffer::new();
    push_plain(out, name)?;
    out.extend_from_slice(b":")?;
    out.extend_from_slice(line.format(place.line).as_bytes())?;
    out.extend_from_slice(b":")?;
    out.extend_from_slice(column.format(place.column).as_bytes())?;
    out.extend_from_slice(b": ")?;
    Ok(())
}

fn push_plain(out: &mut Vec<u8>, bytes: &[u8]) -> Result<(), AllocError>
    ensures { OnOk result (out.new.items ≡ out.old.items ++ map spec.plain bytes.now) }
{
    for byte in bytes {
        out.push(plain(*byte))?;
    }
    Ok(())
}

fn plain(byte: u8) -> u8
    ensures { result ≡ spec.plain byte }
{
    if 32 <= byte && byte <= 126 {
        byte
    } else {
        b'?'
    }
}

/// The line of a text at a byte, and a caret under that byte. Tabs stay, and other bytes outside 32 to 126 are shown as
/// `?`. A line of more than 100 bytes is cut around the place.
pub fn push_excerpt(out: &mut Vec<u8>, text: &[u8], at: usize) -> Result<(), AllocError> {
    let (mut before, mut behind) = (line_before(text, at), line_behind(text, at));
    if before.len().saturating_add(behind.len()) > MAX_SHOWN {
        before = &before[before.len().saturating_sub(SIDE)..];
        behind = front(behind, SIDE);
    }
    push_visible(out, before)?;
    push_visible(out, behind)?;
    out.push(b'\n')?;
    for byte in before {
        out.push(if *byte == b'\t' { b'\t' } else { b' ' })?;
    }
    out.extend_from_slice(b"^\n")
}

fn push_visible(out: &mut Vec<u8>, bytes: &[u8]) -> Result<(), AllocError> {
    for byte in bytes {
        out.push(if *byte == b'\t' { b'\t' } else { plain(*byte) })?;
    }
    Ok(())
}
