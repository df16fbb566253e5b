//! Decimal numbers and their texts.

ghost use Rattle.std.specs.Prelude.{◌≡◌, ◌+◌, ◌<◌, ◌≤◌, ◌++◌, length, drop, Some, IsAscii};
ghost use Rattle.dc_units.specs.Text.{decimal_text, magnitude_text, fraction_text, whole_text};

use crate::Value;
use crate::room::{put_byte, put_digits};
use itoa::write_digits;
use std::fmt;

/// A decimal number, `mantissa * 10^exponent`, exact to the digit.
#[derive(Clone, Copy)]
pub struct Decimal {
    pub mantissa: i64,
    pub exponent: i8,
}

impl Decimal {
    /// Writes the text so that it ends at `end`, and says where it begins.
    #[inline(always)]
    #[tactic(auto, using(crate::proofs::Ascii::sign_ascii))]
    pub(crate) fn put(&self, room: &mut [u8], end: usize) -> usize
        requires { (160 ≤ end) × (end ≤ length room.old) }
        ensures start { (result ≤ end) × (end ≤ result + 151) }
        ensures written { drop result room.new ≡ decimal_text self.now ++ drop end room.old }
        ensures ascii { IsAscii (decimal_text self.now) }
    {
        let start = put_magnitude(self.mantissa.unsigned_abs(), self.exponent, room, end);
        if self.mantissa >= 0 {
            return start;
        }
        put_byte(b'-', room, start);
        start - 1
    }
}

/// Writes n times a power of ten so that it ends at `end`, and says where it begins.
#[inline(always)]
fn put_magnitude(n: u64, exponent: i8, room: &mut [u8], end: usize) -> usize
    requires { (160 ≤ end) × (end ≤ length room.old) }
    ensures start { (0 < result) × (result ≤ end) × (end ≤ result + 150) }
    ensures written { drop result room.new ≡ magnitude_text n exponent ++ drop end room.old }
    ensures ascii { IsAscii (magnitude_text n exponent) }
{
    let power = usize::from(exponent.unsigned_abs());
    if exponent < 0 {
        put_fraction(n, power, room, end)
    } else {
        put_whole(n, power, room, end)
    }
}

/// Writes n with this many digits after the point.
#[inline(always)]
#[tactic(auto, using(crate::proofs::Ascii::fraction_ascii))]
fn put_fraction(n: u64, places: usize, room: &mut [u8], end: usize) -> usize
    requires few { places ≤ 128 }
    requires place { (160 ≤ end) × (end ≤ length room.old) }
    ensures start { (0 < result) × (result ≤ end) × (end ≤ result + 150) }
    ensures written { drop result room.new ≡ fraction_text n places ++ drop end room.old }
    ensures ascii { IsAscii (fraction_text n places) }
{
    let whole = put_digits(10, places, n, room, end);
    put_byte(b'.', room, end - places);
    write_digits(whole, room, end - places - 1)
}

/// Writes n and this many zeros, but nothing as `0`.
#[inline(always)]
#[tactic(auto, using(crate::proofs::Ascii::whole_ascii))]
fn put_whole(n: u64, zeros: usize, room: &mut [u8], end: usize) -> usize
    requires few { zeros ≤ 128 }
    requires place { (160 ≤ end) × (end ≤ length room.old) }
    ensures start { (0 < result) × (result ≤ end) × (end ≤ result + 150) }
    ensures written { drop result room.new ≡ whole_text n zeros ++ drop end room.old }
    ensures ascii { IsAscii (whole_text n zeros) }
{
    if n == 0 {
        put_byte(b'0', room, end);
        return end - 1;
    }
    put_digits(10, zeros, 0, room, end);
    write_digits(n, room, end - zeros)
}

impl fmt::Display for Decimal {
    ghost output = { λ d. Some (decimal_text d) };

    fn fmt<W: fmt::Write>(&self, f: &mut fmt::Formatter<W>) -> fmt::Result {
        Value::Number(*self).fmt(f)
    }
}
