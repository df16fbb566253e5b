//! Decimals as lines spell them, and whole numbers of the smallest unit.

ghost use Rattle.std.specs.Prelude.{◌≡◌, ◌<◌, ◌≤◌, ◌^◌, ◌*◌, IfSome, option_map, pos, ℕ};
ghost use Rattle.std.specs.List.{position};
ghost use Rattle.mbdc_audit.specs.Smallest.{decimal_in, digits_on, end_of_values, fitting};
ghost use Rattle.mbdc_audit.specs.Smallest.{is_point, of_decimal, of_spelled, parts_of};
ghost use Rattle.mbdc_audit.specs.Smallest.{ratio_in, scaled_down};
ghost use Rattle.mbdc_audit.specs.Smallest.{whole_in};

use dc_units::Decimal;

/// Values and numbers have at most 18 digits.
pub const END_OF_VALUES: u64 = 1_000_000_000_000_000_000;

/// Most decimals of a value.
pub const MOST_VALUE_DECIMALS: usize = 9;

// Ratios have at most nine digits before the point.
const END_OF_RATIOS: u128 = 1_000_000_000_000_000;

// Most digits of a ratio after the point.
const MOST_RATIO_DECIMALS: usize = 6;

// The powers of ten of 128 bits: what has at most 18 digits needs no greater one.
const MOST_POWER: u32 = 38;

/// A ratio of one, as [`ratio_in`] returns it.
pub const OF_RATIO: u64 = 1_000_000;

/// A decimal: its digits as a number, and how many of them are after the point.
#[derive(Clone, Copy)]
pub struct Spelled {
    pub digits: u64,
    pub decimals: u32,
}

/// The number that digits go on from n; none where one isn't a digit, and from 10^18 on.
pub fn digits_on(n: u64, text: &[u8]) -> Option<u64>
    requires { n < end_of_values }
    ensures value { result ≡ digits_on n text.now }
    ensures small { IfSome result (λ m. m < end_of_values) }
{
    let [digit, rest @ ..] = text else {
        return Some(n);
    };
    if *digit < b'0' || *digit > b'9' {
        return None;
    }
    let next = 10 * n + u64::from(*digit - b'0');
    if next >= END_OF_VALUES {
        return None;
    }
    digits_on(next, rest)
}

/// The whole number that a text spells: at most 18 digits, without a 0 before others.
pub fn whole_in(text: &[u8]) -> Option<u64>
    ensures value { result ≡ whole_in text.now }
    ensures small { IfSome result (λ n. n < end_of_values) }
{
    match text {
        [] => None,
        [_] => digits_on(0, text),
        [first, ..] => {
            if *first == b'0' {
                return None;
            }
            digits_on(0, text)
        }
    }
}

/// The place of the first point.
pub fn first_point(text: &[u8]) -> Option<usize>
    ensures { result ≡ position is_point text.now }
{
    text.iter().position(|byte| *byte == b'.')
}

// The digits before the point and those after it.
fn parts_of(text: &[u8]) -> (&[u8], Option<&[u8]>)
    ensures whole { result.0.now ≡ (parts_of text.now).0 }
    ensures after { option_map (λ s. s.now) result.1 ≡ (parts_of text.now).1 }
{
    match first_point(text) {
        None => (text, None),
        Some(point) => {
            let (whole, rest) = text.split_at(point);
            let (_, after) = rest.split_at(1);
            (whole, Some(after))
        }
    }
}

/// The decimal that a text spells, with at most this many decimals; without a point or with digits on both sides of it.
#[tactic(auto, unfolding(crate::specs::Smallest::decimal_in))]
pub fn decimal_in(text: &[u8], most: usize) -> Option<Spelled>
    requires { most ≤ 9 }
    ensures value { result ≡ decimal_in most text.now }
    ensures few { IfSome result (λ s. s.decimals ≤ most) }
    ensures small { IfSome result (λ s. s.digits < end_of_values) }
{
    let (whole, after) = parts_of(text);
    let before = whole_in(whole)?;
    let Some(after) = after else {
        return Some(Spelled {
            digits: before,
            decimals: 0,
        });
    };
    if after.is_empty() || after.len() > most {
        return None;
    }
    Some(Spelled {
        digits: digits_on(before, after)?,
        decimals: after.len() as u32,
    })
}

/// The ratio that a text spells, times 10^6: at most nine digits before the point, and six after it.
#[tactic(auto, unfolding(crate::specs::Smallest::ratio_in))]
pub fn ratio_in(text: &[u8]) -> Option<u64>
    ensures { result ≡ ratio_in text.now }
{
    let spelled = decimal_in(text, MOST_RATIO_DECIMALS)?;
    let scale = power_of_ten(6 - spelled.decimals);
    let ratio = u128::from(spelled.digits).checked_mul(scale)?;
    if ratio < END_OF_RATIOS {
        Some(ratio as u64)
    } else {
        None
    }
}

// A number of smallest units below 10^18.
fn fitting(units: u128) -> Option<u64>
    ensures { result ≡ fitting units }
{
    if units < u128::from(END_OF_VALUES) {
        Some(units as u64)
    } else {
        None
    }
}

/// A power of ten.
#[tactic(auto, using(crate::proofs::Powers::power_some, crate::proofs::Powers::power_fits))]
pub fn power_of_ten(power: u32) -> u128
    requires { power ≤ 38 }
    ensures value { result ≡ 10 ^ power }
    ensures some { 0 < result }
{
    10u128.pow(power)
}

// What is whole after a division by a power of ten.
fn scaled_down(units: u128, power: u32) -> Option<u64>
    requires { power ≤ 38 }
    ensures { result ≡ scaled_down units power }
{
    let divisor = power_of_ten(power);
    if units % divisor == 0 {
        fitting(units / divisor)
    } else {
        None
    }
}

/// A spelled value of units of this size as a whole number of the smallest unit below 10^18.
pub fn of_spelled(spelled: Spelled, size: u64) -> Option<u64>
    requires { spelled.decimals ≤ 9 }
    ensures { result ≡ of_spelled spelled size }
{
    scaled_down(
        u128::from(spelled.digits) * u128::from(size),
        spelled.decimals,
    )
}

/// A decimal of units of this size as a whole number of the smallest unit of at least 0 and below 10^18.
pub fn of_decimal(decimal: Decimal, size: u64) -> Option<u64>
    ensures value { result ≡ of_decimal decimal size }
    ensures digits { (n : ℕ) → decimal.mantissa ≡ pos n → n < 2 ^ 64 }
{
    if decimal.mantissa < 0 {
        return None;
    }
    let n = decimal.mantissa.unsigned_abs();
    if n == 0 {
        return Some(0);
    }
    let units = u128::from(n) * u128::from(size);
    let power = u32::from(decimal.exponent.unsigned_abs());
    if power > MOST_POWER {
        None
    } else if decimal.exponent < 0 {
        scaled_down(units, power)
    } else {
        fitting(units.checked_mul(power_of_ten(power))?)
    }
}
