//! Words of a line, and the numbers that they write.
ghost use Rattle.std.specs.Prelude.{◌≡◌, ◌≢◌, ◌==◌, ℕ, ℤ, ◌<◌, ◌≤◌, ◌^◌, List, ◌∷◌, ◌++◌, length, position, MatchOption, FitsSigned, IsTrue, ◌↔◌};
ghost use Rattle.std.specs.Int.{w64};
ghost use Rattle.std.specs.Fmt.{decimal, signed_decimal};
ghost use Rattle.kpn_text_items.specs.ItemLine.{SpellsItem, without_minus};
ghost use Rattle.kpn_trace.specs.EventLine.{LacksByte};

use kpn_limits::MAX_CAPACITY;
use kpn_text_items::item_of_line;

/// What comes before the first such byte, and what comes after it.
pub fn parted(bytes: &[u8], byte: u8) -> Option<(&[u8], &[u8])>
    ensures { MatchOption result (LacksByte byte bytes.now) (λ parts.
        (bytes.now ≡ parts.0.now ++ byte ∷ parts.1.now) × LacksByte byte parts.0.now) }
{
    let place = place_of(bytes, byte)?;
    Some((&bytes[..place], &bytes[place + 1..]))
}

/// The place of the first such byte.
fn place_of(bytes: &[u8], byte: u8) -> Option<usize>
    ensures { result ≡ position (λ b. b == byte) bytes.now }
{
    bytes.iter().position(|&b| b == byte)
}

/// The item whose canonical form this is: no leading zeros, no `-0`.
pub fn canonical_item(word: &[u8]) -> Option<i64>
    ensures { MatchOption result ((item : ℤ) → FitsSigned w64 item → word.now ≢ signed_decimal item)
        (λ item. (word.now ≡ signed_decimal item) × FitsSigned w64 item) }
{
    let item = item_of_line(word)?;
    if is_canonical(word) { Some(item) } else { None }
}

/// Whether a word that spells an item is its canonical form.
fn is_canonical(word: &[u8]) -> bool
    requires { 0 < length (without_minus word.now) }
    ensures { (item : ℤ) → SpellsItem word.now item
        → IsTrue result ↔ (word.now ≡ signed_decimal item) }
{
    digits_of(word)[0] != b'0' || word.len() == 1
}

/// A word without the minus that it may begin with.
fn digits_of(word: &[u8]) -> &[u8]
    ensures { result.now ≡ without_minus word.now }
{
    match word.split_first() {
        Some((b'-', digits)) => digits,
        _ => word,
    }
}

/// The number from 0 to 65535 whose canonical form this is.
pub fn number(word: &[u8]) -> Option<u16>
    ensures { MatchOption result ((n : ℕ) → n < 2 ^ 16 → word.now ≢ decimal n)
        (λ n. word.now ≡ decimal n) }
{
    let item = canonical_item(word)?;
    u16::try_from(item).ok()
}

/// The number of 32 bits whose canonical form this is.
fn large_number(word: &[u8]) -> Option<u32>
    ensures { MatchOption result ((n : ℕ) → n < 2 ^ 32 → word.now ≢ decimal n)
        (λ n. word.now ≡ decimal n) }
{
    let item = canonical_item(word)?;
    u32::try_from(item).ok()
}

/// The capacity whose canonical form this is: from 1 to the largest one.
pub fn capacity(word: &[u8]) -> Option<u32>
    ensures { MatchOption result
        ((n : ℕ) → 0 < n → n ≤ MAX_CAPACITY → word.now ≢ decimal n)
        (λ n. (word.now ≡ decimal n) × (0 < n) × (n ≤ MAX_CAPACITY)) }
{
    let n = large_number(word)?;
    if n == 0 {
        return None;
    }
    if n > MAX_CAPACITY {
        return None;
    }
    Some(n)
}

/// A number with a space after it, and what follows.
pub fn number_before(bytes: &[u8]) -> Option<(u16, &[u8])>
    ensures { MatchOption result
        ((n : ℕ) (more : List ℕ) → n < 2 ^ 16 → bytes.now ≢ decimal n ++ 32 ∷ more)
        (λ read. (read.0 < 2 ^ 16) × (bytes.now ≡ decimal read.0 ++ 32 ∷ read.1.now)) }
{
    let (word, rest) = parted(bytes, b' ')?;
    let n = number(word)?;
    Some((n, rest))
}
