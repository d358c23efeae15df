//! One line of an item file: the whole number that it spells.

ghost use Rattle.std.specs.Prelude.{◌≡◌, ℤ, MatchOption};
ghost use Rattle.std.specs.Option.{SomeIff};
ghost use Rattle.std.specs.Str.Parse.{digits_value};
ghost use Rattle.kpn_text_items.specs.ItemLine.{IsShortNumeral, SpellsItem};

use kpn_limits::MAX_DIGITS;

/// The item that a line without its line end spells, or `None` if it spells none.
pub fn item_of_line(line: &[u8]) -> Option<i64>
    ensures { MatchOption result ((item : ℤ) → ¬ SpellsItem line.now item) (SpellsItem line.now) }
{
    match line.split_first() {
        Some((b'-', digits)) => 0i64.checked_sub_unsigned(short_number(digits)?),
        _ => 0i64.checked_add_unsigned(short_number(line)?),
    }
}

/// The number that 1 to 19 digits write.
fn short_number(digits: &[u8]) -> Option<u64>
    ensures { SomeIff result (IsShortNumeral digits.now) (digits_value 10 digits.now) }
{
    if digits.is_empty() || digits.len() > MAX_DIGITS {
        return None;
    }
    let mut number = 0u64;
    for digit in digits {
        if !digit.is_ascii_digit() {
            return None;
        }
        number = number * 10 + u64::from(*digit - b'0');
    }
    Some(number)
}
