//! Numbers as language 2 writes them: `1_000`, `0xFF`, `0b1010` and `'A'`.

ghost use Rattle.std.specs.Prelude.{◌≡◌, ◌<◌, ◌≤◌, ◌^◌, slice_index};
ghost use Rattle.kpn_text_tokens.specs.Numerals as spec;

use crate::tokens::{Language, MAX_NUMBER};

/// The value with one more byte behind its digits.
fn with_digit(base: u32, value: u64, byte: u8) -> Option<u64>
    requires low { 2 ≤ base }
    requires high { base ≤ 16 }
    ensures { result ≡ spec.with_digit base value byte }
{
    if byte == b'_' {
        return Some(value);
    }
    let digit = char::from(byte).to_digit(base)?;
    let value = value
        .saturating_mul(u64::from(base))
        .saturating_add(u64::from(digit));
    if value <= MAX_NUMBER {
        Some(value)
    } else {
        None
    }
}

/// The value of the digits of a base, with `_` behind some of them.
fn digits_in(base: u32, digits: &[u8]) -> Option<u64>
    requires low { 2 ≤ base }
    requires high { base ≤ 16 }
    ensures { result ≡ spec.digits_in base digits.now }
{
    if *digits.first()? == b'_' {
        return None;
    }
    let mut value = 0;
    for digit in digits {
        value = with_digit(base, value, *digit)?;
    }
    Some(value)
}

/// The value of a run of letters, digits and `_`.
pub(crate) fn numeral_value(word: &[u8]) -> Option<u64>
    ensures { result ≡ spec.numeral_value word.now }
{
    if word.starts_with(b"0x") {
        digits_in(16, &word[2..])
    } else if word.starts_with(b"0b") {
        digits_in(2, &word[2..])
    } else {
        digits_in(10, word)
    }
}

/// Whether a number of a language begins with this quote.
pub(crate) fn begins_quote(language: Language, byte: u8) -> bool
    ensures { result ≡ spec.begins_quote language byte }
{
    byte == b'\'' && matches!(language, Language::Two)
}

fn is_plain(byte: u8) -> bool
    ensures { result ≡ spec.is_plain byte }
{
    (b' ' <= byte && byte <= b'~') && (byte != b'\'' && byte != b'\\')
}

/// What a byte behind `\` stands for.
fn escape_value(byte: u8) -> Option<u64>
    ensures { result ≡ spec.escape_value byte }
{
    if byte == b'n' {
        Some(10)
    } else if byte == b'\\' {
        Some(92)
    } else if byte == b'\'' {
        Some(39)
    } else if byte == b'0' {
        Some(0)
    } else {
        None
    }
}

/// The byte at a place, and 0 behind the end.
fn byte_at(text: &[u8], place: usize) -> u8
    ensures { result ≡ slice_index text.now place }
{
    match text.get(place) {
        Some(byte) => *byte,
        None => 0,
    }
}

/// The value of what a quote begins.
pub(crate) fn quoted_value(text: &[u8]) -> Option<u64>
    ensures { result ≡ spec.quoted_value text.now }
{
    let byte = byte_at(text, 1);
    if byte == b'\\' {
        if byte_at(text, 3) == b'\'' {
            escape_value(byte_at(text, 2))
        } else {
            None
        }
    } else if is_plain(byte) && byte_at(text, 2) == b'\'' {
        Some(u64::from(byte))
    } else {
        None
    }
}

/// How many bytes that takes.
pub(crate) fn quoted_length(text: &[u8]) -> usize
    ensures { result ≡ spec.quoted_length text.now }
{
    if byte_at(text, 1) == b'\\' { 4 } else { 3 }
}
