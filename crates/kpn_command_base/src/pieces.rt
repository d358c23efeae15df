//! Pieces of a text: what stands between two others.
ghost use Rattle.std.specs.Prelude.{◌≡◌, ◌++◌, OnOk};
ghost use Rattle.std.specs.Fmt.{decimal, signed_decimal};

use itoa::Buffer;
use std::alloc::AllocError;

/// What a call gives that writes after a text.
pub type Pushed = Result<(), AllocError>;

/// A text between two others.
pub fn push_between(text: &mut Vec<u8>, before: &[u8], piece: &[u8], after: &[u8]) -> Pushed
    ensures { OnOk result
        (text.new.items ≡ text.old.items ++ (before.now ++ piece.now ++ after.now)) }
{
    text.extend_from_slice(before)?;
    text.extend_from_slice(piece)?;
    text.extend_from_slice(after)
}

/// A number between two texts.
pub fn push_number(text: &mut Vec<u8>, before: &[u8], number: usize, after: &[u8]) -> Pushed
    ensures { OnOk result
        (text.new.items ≡ text.old.items ++ (before.now ++ decimal number ++ after.now)) }
{
    let mut buffer = Buffer::new();
    push_between(text, before, buffer.format(number).as_bytes(), after)
}

/// An item between two texts.
pub fn push_item(text: &mut Vec<u8>, before: &[u8], item: i64, after: &[u8]) -> Pushed
    ensures { OnOk result
        (text.new.items ≡ text.old.items ++ (before.now ++ signed_decimal item ++ after.now)) }
{
    let mut buffer = Buffer::new();
    push_between(text, before, buffer.format(item).as_bytes(), after)
}
