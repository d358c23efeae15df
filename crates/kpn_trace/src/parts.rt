//! The words after the kind of an event, by what they write.
ghost use Rattle.std.specs.Prelude.{◌≡◌, ◌≢◌, ℕ, ℤ, ◌<◌, ◌≤◌, ◌^◌, [], ◌∷◌, MatchOption, FitsSigned};
ghost use Rattle.std.specs.Int.{w64};
ghost use Rattle.std.specs.Fmt.{decimal, signed_decimal};
ghost use Rattle.kpn_history.specs.declared.event.How.{How};
ghost use Rattle.kpn_trace.specs.EventLine.{spaced, how_word};

use crate::kind::how_named;
use crate::words::{canonical_item, capacity, number, number_before};
use kpn_history::How;
use kpn_limits::MAX_CAPACITY;

/// Two numbers.
pub fn two_numbers(parts: &[u8]) -> Option<(u16, u16)>
    ensures { MatchOption result
        ((m n : ℕ) → m < 2 ^ 16 → n < 2 ^ 16 → parts.now ≢ spaced (decimal m ∷ decimal n ∷ []))
        (λ read. parts.now ≡ spaced (decimal read.0 ∷ decimal read.1 ∷ [])) }
{
    let (first, rest) = number_before(parts)?;
    let second = number(rest)?;
    Some((first, second))
}

fn number_and_capacity(parts: &[u8]) -> Option<(u16, u32)>
    ensures { MatchOption result
        ((m n : ℕ) → m < 2 ^ 16 → 0 < n → n ≤ MAX_CAPACITY
        → parts.now ≢ spaced (decimal m ∷ decimal n ∷ []))
        (λ read. (parts.now ≡ spaced (decimal read.0 ∷ decimal read.1 ∷ []))
        × (0 < read.1) × (read.1 ≤ MAX_CAPACITY)) }
{
    let (first, rest) = number_before(parts)?;
    let second = capacity(rest)?;
    Some((first, second))
}

/// Two numbers and a capacity.
pub fn two_numbers_and_capacity(parts: &[u8]) -> Option<(u16, u16, u32)>
    ensures { MatchOption result
        ((l m n : ℕ) → l < 2 ^ 16 → m < 2 ^ 16 → 0 < n → n ≤ MAX_CAPACITY
        → parts.now ≢ spaced (decimal l ∷ decimal m ∷ decimal n ∷ []))
        (λ read.
        (parts.now ≡ spaced (decimal read.0 ∷ decimal read.1 ∷ decimal read.2 ∷ []))
        × (0 < read.2) × (read.2 ≤ MAX_CAPACITY)) }
{
    let (first, rest) = number_before(parts)?;
    let (second, capacity) = number_and_capacity(rest)?;
    Some((first, second, capacity))
}

/// A number and an item.
pub fn number_and_item(parts: &[u8]) -> Option<(u16, i64)>
    ensures { MatchOption result
        ((n : ℕ) (item : ℤ) → n < 2 ^ 16 → FitsSigned w64 item
        → parts.now ≢ spaced (decimal n ∷ signed_decimal item ∷ []))
        (λ read. parts.now ≡ spaced (decimal read.0 ∷ signed_decimal read.1 ∷ [])) }
{
    let (first, rest) = number_before(parts)?;
    let item = canonical_item(rest)?;
    Some((first, item))
}

/// Two numbers and an item.
pub fn two_numbers_and_item(parts: &[u8]) -> Option<(u16, u16, i64)>
    ensures { MatchOption result
        ((m n : ℕ) (item : ℤ) → m < 2 ^ 16 → n < 2 ^ 16 → FitsSigned w64 item
        → parts.now ≢ spaced (decimal m ∷ decimal n ∷ signed_decimal item ∷ []))
        (λ read.
        parts.now ≡ spaced (decimal read.0 ∷ decimal read.1 ∷ signed_decimal read.2 ∷ [])) }
{
    let (first, rest) = number_before(parts)?;
    let (second, item) = number_and_item(rest)?;
    Some((first, second, item))
}

/// A number and how a process ended.
pub fn number_and_how(parts: &[u8]) -> Option<(u16, How)>
    ensures { MatchOption result
        ((n : ℕ) (how : How) → n < 2 ^ 16 → parts.now ≢ spaced (decimal n ∷ how_word how ∷ []))
        (λ read. parts.now ≡ spaced (decimal read.0 ∷ how_word read.1 ∷ [])) }
{
    let (first, rest) = number_before(parts)?;
    let how = how_named(rest)?;
    Some((first, how))
}
