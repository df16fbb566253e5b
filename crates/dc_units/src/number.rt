//! The numbers of data fields (types A and B).

ghost use Rattle.std.specs.Prelude.{◌≡◌, ◌-◌, ◌*◌, ◌^◌, ◌<◌, ◌≤◌, ◌==◌, ◌-ℤ◌, length, nat_lt, pos};
ghost use Rattle.std.specs.Prelude.{if◌then◌else◌, IfSome, Some, None};
ghost use Rattle.dc_units.specs.Number.{unsigned, integer, bcd, bcd_digits, number_after};
ghost use Rattle.dc_units.specs.Number.{digit_pair};

use byteorder::{ByteOrder, LittleEndian};

/// Whole number of 1 to 8 bytes, the lowest first, without a sign.
#[inline(always)]
#[tactic(auto, using(crate::proofs::Bytes::unsigned_bytes))]
pub fn unsigned(bytes: &[u8]) -> u64
    requires { (1 ≤ length bytes.now) × (length bytes.now ≤ 8) }
    ensures { result ≡ unsigned bytes.now }
{
    LittleEndian::read_uint(bytes, bytes.len())
}

/// Two's complement of 1 to 8 bytes, the lowest first (type B). The least number counts as no number.
#[inline(always)]
pub fn integer(bytes: &[u8]) -> Option<i64>
    requires { (1 ≤ length bytes.now) × (length bytes.now ≤ 8) }
    ensures { result ≡ integer bytes.now }
{
    // Most meters send four bytes at most, which are read without a copy.
    match bytes {
        [a] => signed(u64::from(*a), 0x80),
        [a, b] => signed(u64::from(*a) + 256 * u64::from(*b), 0x8000),
        [a, b, c] => signed(
            u64::from(*a) + 256 * (u64::from(*b) + 256 * u64::from(*c)),
            0x80_0000,
        ),
        [a, b, c, d] => signed(
            u64::from(*a) + 256 * (u64::from(*b) + 256 * (u64::from(*c) + 256 * u64::from(*d))),
            0x8000_0000,
        ),
        _ => long_integer(bytes),
    }
}

/// The number whose bits are those of n, where the highest bit, which is worth `top`, means minus.
#[inline(always)]
fn signed(n: u64, top: u64) -> Option<i64>
    requires { (n < 2 * top) × (top ≤ 2 ^ 31) }
    ensures { result ≡ (if n == top then None
        else Some (if nat_lt n top then pos n else pos n -ℤ pos (2 * top))) }
{
    if n == top {
        return None;
    }
    if n < top {
        return Some(n as i64);
    }
    Some(n as i64 - 2 * top as i64)
}

/// Two's complement of 1 to 8 bytes, by way of a copy.
#[tactic(auto, using(crate::proofs::Bytes::signed_bytes))]
fn long_integer(bytes: &[u8]) -> Option<i64>
    requires { (1 ≤ length bytes.now) × (length bytes.now ≤ 8) }
    ensures { result ≡ integer bytes.now }
{
    if unsigned(bytes) == least(bytes.len()) {
        return None;
    }
    Some(LittleEndian::read_int(bytes, bytes.len()))
}

/// The least number of this many bytes in two's complement, as the bytes say it.
#[inline]
fn least(len: usize) -> u64
    requires { (1 ≤ len) × (len ≤ 8) }
    ensures { result ≡ 2 ^ (8 * len - 1) }
{
    1 << (8 * len - 1)
}

/// Packed BCD of 1 to 6 bytes, the lowest first (type A). F as the highest digit means minus, any other
/// digit above 9 is no number.
#[inline(always)]
pub fn bcd(bytes: &[u8]) -> Option<i64>
    requires { (1 ≤ length bytes.now) × (length bytes.now ≤ 6) }
    ensures { result ≡ bcd bytes.now }
{
    let [rest @ .., top] = bytes else {
        return None;
    };
    let (high, low) = (top >> 4, top & 0x0F);
    if low > 9 {
        return None;
    }
    if high == 0xF {
        let n = digits_after(u64::from(low), rest)?;
        return Some(-(n as i64));
    }
    if high > 9 {
        return None;
    }
    let n = digits_after(u64::from(10 * high + low), rest)?;
    Some(n as i64)
}

/// The number that the digits of these bytes, the highest last, go on from n; none where a digit is above 9.
pub fn digits_after(n: u64, bytes: &[u8]) -> Option<u64>
    requires few { length bytes.now ≤ 9 }
    requires fits { n < 100 ^ (9 - length bytes.now) }
    ensures exact { result ≡ number_after n (bcd_digits bytes.now) }
    ensures small { IfSome result (λ m. m < 100 ^ 9) }
{
    let [rest @ .., top] = bytes else {
        return Some(n);
    };
    let (high, low) = (top >> 4, top & 0x0F);
    if high > 9 || low > 9 {
        return None;
    }
    digits_after(100 * n + u64::from(10 * high + low), rest)
}
