//! Exact numbers, and their rounding.

ghost use Rattle.std.specs.Prelude.{◌^◌, ◌<◌, ◌≤◌, IfSome};
ghost use Rattle.std.specs.Option.{SomeIff};
ghost use Rattle.mbdc_audit.specs.Exact.{FitsRounded, half_up};

use crate::smallest::power_of_ten;

// Printed numbers have at most 18 digits.
const END_OF_PRINTED: u128 = 1_000_000_000_000_000_000;

/// An exact number: a fraction.
#[derive(Clone, Copy)]
pub struct Exact {
    pub is_negative: bool,
    pub num: u128,
    pub den: u128,
}

impl Exact {
    /// Its size rounded half away from zero to this many decimals, in units of the last one; `None` where what is
    /// computed on the way doesn't fit 128 bits, or where it has more than 18 digits.
    pub fn rounded(&self, decimals: u32) -> Option<u64>
        requires few { decimals ≤ 9 }
        requires fraction { 0 < self.now.den }
        ensures rounded { SomeIff result (FitsRounded self.now.num self.now.den decimals)
            (half_up self.now.num self.now.den decimals) }
        ensures few { IfSome result (λ n. n < 10 ^ 18) }
    {
        let scaled = self.num.checked_mul(power_of_ten(decimals))?;
        let doubled = scaled.checked_mul(2)?.checked_add(self.den)?;
        let rounded = doubled / self.den.checked_mul(2)?;
        if rounded < END_OF_PRINTED {
            Some(rounded as u64)
        } else {
            None
        }
    }
}
