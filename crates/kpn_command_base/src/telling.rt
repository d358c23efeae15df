//! A line goes piece by piece to the place for faults, which may take no more. It needs no memory. `write!` of std does
//! not say what a writer has taken that fails.
ghost use Rattle.std.specs.Fmt.{decimal};
ghost use Rattle.kpn_command_base.specs.Told.{AreWritten, Continues};
ghost use Rattle.kpn_command_base.specs.FaultLine.{place_text};

use itoa::Buffer;
use std::io::{ErrorKind, Write};

/// Writes bytes, as many of them as are taken. It returns whether all are.
pub fn put<E: Write>(err: &mut E, bytes: &[u8]) -> bool
    ensures { AreWritten (E.contents err.old) (E.contents err.new) bytes.now result }
{
    let mut rest = bytes;
    'writes: for _ in 0..u64::MAX {
        if rest.is_empty() {
            return true;
        }
        match err.write(rest) {
            Ok(0) => return false,
            Ok(n) => {
                rest = &rest[n..];
                continue 'writes;
            }
            Err(error) => {
                if error.kind() != ErrorKind::Interrupted {
                    return false;
                }
            }
        }
    }
    false
}

/// Goes on with these bytes, if all before were written.
pub fn put_more<E: Write>(whole: bool, err: &mut E, bytes: &[u8]) -> bool
    ensures { Continues (E.contents err.old) (E.contents err.new) bytes.now whole result }
{
    whole && put(err, bytes)
}

/// The same with a number.
pub(crate) fn put_number<E: Write>(whole: bool, err: &mut E, number: usize) -> bool
    ensures { Continues (E.contents err.old) (E.contents err.new) (decimal number) whole result }
{
    let mut buffer = Buffer::new();
    put_more(whole, err, buffer.format(number).as_bytes())
}

/// The same with a place, if there is one.
pub(crate) fn put_place<E: Write>(whole: bool, err: &mut E, place: Option<usize>) -> bool
    ensures { Continues (E.contents err.old) (E.contents err.new) (place_text place) whole result }
{
    let Some(place) = place else {
        return whole;
    };
    let whole = put_more(whole, err, b" at ");
    put_number(whole, err, place)
}
