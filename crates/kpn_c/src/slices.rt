//! What is told goes to the front of a slice, if it fits there.

ghost use Rattle.kpn_c.specs.Slices.{PutsIfFits, PutsToFront};

use crate::codes::{OK, TOO_SMALL};

/// Puts bytes to the front of a slice, and returns whether they fit. If they don't, the slice is as before.
pub fn put_bytes(room: &mut [u8], bytes: &[u8]) -> bool
    ensures { PutsIfFits result bytes.now room.old room.new }
{
    if room.len() < bytes.len() {
        return false;
    }
    room[..bytes.len()].copy_from_slice(bytes);
    true
}

/// Puts items to the front of a slice, and returns whether they fit. If they don't, the slice is as before.
pub fn put_items(room: &mut [i64], items: &[i64]) -> bool
    ensures { PutsIfFits result items.now room.old room.new }
{
    if room.len() < items.len() {
        return false;
    }
    room[..items.len()].copy_from_slice(items);
    true
}

/// Puts lengths to the front of a slice, and returns whether they fit. If they don't, the slice is as before.
pub fn put_lengths(room: &mut [usize], lengths: &[usize]) -> bool
    ensures { PutsIfFits result lengths.now room.old room.new }
{
    if room.len() < lengths.len() {
        return false;
    }
    room[..lengths.len()].copy_from_slice(lengths);
    true
}

/// Puts a text to the front of a slice if it fits there, and tells its length. It returns the number that says whether
/// it fits.
pub fn put_text(room: &mut [u8], length: &mut usize, text: &[u8]) -> u32
    ensures { PutsToFront text.now result length.new room.old room.new }
{
    *length = text.len();
    if put_bytes(room, text) { OK } else { TOO_SMALL }
}
