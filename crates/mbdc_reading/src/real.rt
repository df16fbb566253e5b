//! REAL data (EN 13757-3, type H: IEEE 754 binary32) as decimals.
//!
//! The decimal is the first that reads back, of those with one digit, with two digits and so on: for each count of
//! digits the nearest decimal, then its neighbour on the number's other side. That it reads back is proved. That none
//! with fewer digits does is tested.

ghost use Rattle.std.specs.Prelude.{◌≡◌, ◌≢◌, ◌+◌, ◌%◌, ◌^◌, ◌<◌, ◌≤◌, IfSome, IsTrue, length, pos, neg_ℤ, ◌≤ℤ◌, ◌+ℤ◌};
ghost use Rattle.std.specs.List.{list_all};
ghost use Rattle.mbdc_reading.specs.Real.{real_of, reads_back, scaled, halved, doubled, rounds_up, candidate, tried};
ghost use Rattle.mbdc_reading.specs.Real.{first_of, is_cut};

use dc_units::{Decimal, TEXT_ROOM, Value};

/// Powers of ten, the greatest first, by which the digits of a number are cut.
pub const CUTS: [u64; 18] = [
    100_000_000_000_000_000,
    10_000_000_000_000_000,
    1_000_000_000_000_000,
    100_000_000_000_000,
    10_000_000_000_000,
    1_000_000_000_000,
    100_000_000_000,
    10_000_000_000,
    1_000_000_000,
    100_000_000,
    10_000_000,
    1_000_000,
    100_000,
    10_000,
    1_000,
    100,
    10,
    1,
];

/// The decimal of the bits of a REAL; none of a NaN or an infinity. Both zeros are 0.
pub fn real_of(bits: u32) -> Option<Decimal>
    ensures exact { result ≡ real_of bits }
    ensures reads_back { bits % 2 ^ 31 ≢ 0 → IfSome result (λ d. IsTrue (reads_back bits d)) }
{
    if bits % 0x8000_0000 == 0 {
        return Some(Decimal {
            mantissa: 0,
            exponent: 0,
        });
    }
    if bits / 0x80_0000 % 256 == 255 {
        return None;
    }
    let (digits, power) = scaled(bits);
    first_of(&CUTS, power + 17, digits, bits)
}

// The number of these bits without its sign: its first digits and a power of ten.
fn scaled(bits: u32) -> (u64, i16)
    ensures value { result ≡ scaled bits }
    ensures digits { result.0 ≤ 10 ^ 17 }
    ensures least { neg_ℤ (pos 200) ≤ℤ result.1 }
    ensures most { result.1 ≤ℤ pos 200 }
{
    let exponent = bits / 0x80_0000 % 256;
    let fraction = u64::from(bits % 0x80_0000);
    if exponent == 0 {
        let (digits, places) = halved(149, fraction, 0);
        return (digits, -(places as i16));
    }
    if exponent < 150 {
        let (digits, places) = halved(150 - exponent, fraction + 0x80_0000, 0);
        return (digits, -(places as i16));
    }
    let (digits, zeros) = doubled(exponent - 150, fraction + 0x80_0000, 0);
    (digits, zeros as i16)
}

// A number with this many places after the point, halved this often.
#[tactic(auto, unfolding(crate::specs::Real::halved))]
fn halved(count: u32, digits: u64, places: u16) -> (u64, u16)
    requires digits { digits ≤ 10 ^ 17 }
    requires places { places + count ≤ 150 }
    ensures value { result ≡ halved count digits places }
    ensures digits { result.0 ≤ 10 ^ 17 }
    ensures places { result.1 ≤ 150 }
{
    if count == 0 {
        return (digits, places);
    }
    if digits < 20_000_000_000_000_000 {
        halved(count - 1, 5 * digits, places + 1)
    } else {
        halved(count - 1, digits / 2, places)
    }
}

// A number with this many zeros after it, doubled this often.
#[tactic(auto, unfolding(crate::specs::Real::doubled))]
fn doubled(count: u32, digits: u64, zeros: u16) -> (u64, u16)
    requires digits { digits ≤ 10 ^ 17 }
    requires zeros { zeros + count ≤ 150 }
    ensures value { result ≡ doubled count digits zeros }
    ensures digits { result.0 ≤ 10 ^ 17 }
    ensures zeros { result.1 ≤ 150 }
{
    if count == 0 {
        return (digits, zeros);
    }
    if digits < 50_000_000_000_000_000 {
        doubled(count - 1, 2 * digits, zeros)
    } else {
        doubled(count - 1, digits / 5, zeros + 1)
    }
}

// Whether a number is rounded up where it is cut: to the nearest, and to an even digit at a tie.
fn rounds_up(cut: u64, digits: u64) -> bool
    requires { (0 < cut) × (digits ≤ 10 ^ 17) }
    ensures { result ≡ rounds_up cut digits }
{
    let rest = digits % cut;
    2 * rest > cut || (2 * rest == cut && digits / cut % 2 == 1)
}

// A decimal with the sign of these bits.
fn candidate(bits: u32, digits: u64, power: i16) -> Decimal
    requires digits { digits < 2 ^ 63 }
    requires least { neg_ℤ (pos 120) ≤ℤ power }
    requires most { power ≤ℤ pos 120 }
    ensures { result ≡ candidate bits digits power }
{
    let mantissa = digits as i64;
    let exponent = power as i8;
    if bits < 0x8000_0000 {
        Decimal { mantissa, exponent }
    } else {
        Decimal {
            mantissa: -mantissa,
            exponent,
        }
    }
}

// Whether the text of a decimal reads as the number with these bits.
fn reads_back(bits: u32, decimal: &Decimal) -> bool
    ensures { result ≡ reads_back bits decimal.now }
{
    let mut room = [0u8; TEXT_ROOM];
    let text = Value::Number(*decimal).write_into(&mut room);
    match fast_float::parse::<f32, _>(text) {
        Ok(number) => !number.is_nan() && number.to_bits() == bits,
        Err(_) => false,
    }
}

// The decimal of these digits without those after a cut, where it reads back: the nearest, or its neighbour.
#[tactic(auto, unfolding(crate::specs::Real::tried))]
fn tried(cut: u64, power: i16, digits: u64, bits: u32) -> Option<Decimal>
    requires { (0 < cut) × (digits ≤ 10 ^ 17) }
    ensures exact { result ≡ tried cut power digits bits }
    ensures reads_back { IfSome result (λ d. IsTrue (reads_back bits d)) }
{
    let up = rounds_up(cut, digits);
    let floor = digits / cut;
    if (floor == 0 && !up) || power < -120 || power > 120 {
        return None;
    }
    let (near, other) = if up {
        (floor + 1, floor)
    } else {
        (floor, floor + 1)
    };
    let nearest = candidate(bits, near, power);
    if reads_back(bits, &nearest) {
        return Some(nearest);
    }
    let neighbour = candidate(bits, other, power);
    if reads_back(bits, &neighbour) {
        return Some(neighbour);
    }
    None
}

// The first decimal that reads back, by cuts whose first has this power of ten.
#[tactic(auto, unfolding(crate::specs::Real::first_of))]
fn first_of(cuts: &[u64], power: i16, digits: u64, bits: u32) -> Option<Decimal>
    requires cuts { IsTrue (list_all is_cut cuts.now) }
    requires digits { digits ≤ 10 ^ 17 }
    requires least { (neg_ℤ (pos 1000) +ℤ pos (length cuts.now)) ≤ℤ power }
    requires most { power ≤ℤ pos 1000 }
    ensures exact { result ≡ first_of cuts.now power digits bits }
    ensures reads_back { IfSome result (λ d. IsTrue (reads_back bits d)) }
{
    let [cut, others @ ..] = cuts else {
        return None;
    };
    match tried(*cut, power, digits, bits) {
        Some(decimal) => Some(decimal),
        None => first_of(others, power - 1, digits, bits),
    }
}
