//! Floats of 32 bits, by the integers that their bits are.
ghost use Rattle.std.specs.Prelude.{◌≡◌, ◌+◌, ◌*◌, ◌^◌, ◌-◌, ◌<◌, ◌≤◌, max, MatchOption};
ghost use Rattle.kpn_stream_devices.specs.Floats.{rounded, significand_of, size_of, with_sign, float_item, highest_bit, size_bits, float_bits};

/// The first bit of a significand that is not all there.
const ONE: u32 = 8_388_608;

/// 2^63, the size of the least item.
const HALF: u64 = 9_223_372_036_854_775_808;

/// The greatest power of two.
const MOST_POWER: u32 = 62;

/// The item that a float with these bits writes, of 2^power for 1.
pub(crate) fn float_item(power: u32, bits: u32) -> Option<i64>
    ensures { result ≡ float_item power bits }
{
    let exponent = bits / ONE % 256;
    let fraction = bits % ONE;
    if exponent == 255 {
        return None;
    }
    let size = size_of(power.min(MOST_POWER), exponent, fraction)?;
    with_sign(bits >= 2_147_483_648, size)
}

/// The size of a float times 2^power, unless it has more than 64 bits.
fn size_of(power: u32, exponent: u32, fraction: u32) -> Option<u64>
    requires power { power ≤ 62 }
    requires exponent { exponent < 255 }
    requires fraction { fraction < 2 ^ 23 }
    ensures { MatchOption result (2 ^ 64 ≤ size_of power exponent fraction)
        (λ size. size ≡ size_of power exponent fraction) }
{
    if exponent == 0 {
        return Some(0);
    }
    let significand = u64::from(fraction + ONE);
    let scale = exponent + power;
    if scale > 190 {
        return None;
    }
    if scale >= 150 {
        return Some(significand << (scale - 150));
    }
    if scale < 124 {
        return Some(0);
    }
    Some(rounded(u128::from(significand), 150 - scale) as u64)
}

/// The number of this size, if it has 64 bits.
fn with_sign(is_negative: bool, size: u64) -> Option<i64>
    ensures { result ≡ with_sign is_negative size }
{
    if size < HALF {
        let item = size as i64;
        return Some(if is_negative { -item } else { item });
    }
    if is_negative && size == HALF {
        return Some(i64::MIN);
    }
    None
}

/// A number divided by a power of two, rounded to the nearest number, and to the even one of two that are nearest.
fn rounded(number: u128, power: u32) -> u128
    requires number { number < 2 ^ 88 }
    requires power { power < 64 }
    ensures { result ≡ rounded number (2 ^ power) }
{
    let unit: u128 = 1 << power;
    let whole = number >> power;
    let rest = number & (unit - 1);
    if unit < 2 * rest {
        whole + 1
    } else if 2 * rest == unit {
        whole + whole % 2
    } else {
        whole
    }
}

/// The bits of the float that writes an item, of 2^power for 1.
pub(crate) fn float_bits(power: u32, item: i64) -> u32
    ensures { result ≡ float_bits power item }
{
    let sign = if item < 0 { 2_147_483_648 } else { 0 };
    sign + size_bits(power.min(MOST_POWER), item.unsigned_abs())
}

/// The bits of a size / 2^power.
fn size_bits(power: u32, size: u64) -> u32
    requires { power ≤ 62 }
    ensures value { result ≡ size_bits power size }
    ensures bound { result < 2 ^ 31 }
{
    if size == 0 {
        return 0;
    }
    let highest = 63 - size.leading_zeros();
    let significand = rounded(u128::from(size) << 23, highest) as u32;
    (highest + 126 - power) * ONE + significand
}
