//! The first word of a text: whether it is a name or a number, and what stands after it.

use crate::lines::back;
use crate::names::name_at;

fn behind_word(text: &[u8]) -> &[u8] {
    back(text, name_at(text, 0).len())
}

/// Whether `=` stands after the word, perhaps with a space between.
pub(crate) fn assigns_next(text: &[u8]) -> bool {
    behind_word(text).starts_with(b"=") || behind_word(text).starts_with(b" =")
}

/// Whether `[` stands after the word.
pub(crate) fn indexes_next(text: &[u8]) -> bool {
    behind_word(text).starts_with(b"[")
}

fn begins_digit(text: &[u8]) -> bool {
    text.first().is_some_and(|byte| byte.is_ascii_digit())
}

/// Whether there is a word, and it does not begin with a digit.
pub(crate) fn begins_name(text: &[u8]) -> bool {
    !name_at(text, 0).is_empty() && !begins_digit(text)
}

/// Whether the word begins with a digit, and a point stands right after it.
pub(crate) fn is_fraction(text: &[u8]) -> bool {
    begins_digit(text) && behind_word(text).starts_with(b".")
}
