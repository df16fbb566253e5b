//! What a value information block says of its data: its code, changed by the VIFEs one by one.

ghost use Rattle.std.specs.Prelude.{◌≡◌, ◌-ℤ◌, ◌+ℤ◌, pos, false, neg_ℤ, ◌≤ℤ◌};
ghost use Rattle.mbdc_reading.specs.Meaning.{step, folded, scaled, replaced, power_of, fitting, with_exponent};
ghost use Rattle.mbdc_reading.specs.Meaning.{begun, is_extension, meaning_of, number_after};

use crate::codes::{Kind, code_at};
use crate::vifes::{Effect, vife_at};

/// What a block says: the power of ten and the kind of its data, the numbers of the VIFEs of its unit, of a record
/// error, of a direction and of a phase, and whether a VIFE replaced the code's kind.
#[derive(Clone, Copy)]
pub struct Meaning {
    pub exponent: i8,
    pub kind: Kind,
    pub is_replaced: bool,
    pub unit: Option<u8>,
    pub failure: Option<u8>,
    pub direction: Option<u8>,
    pub phase: Option<u8>,
}

// The power of ten of a correction.
fn power_of(number: u8) -> i16
    ensures value { result ≡ power_of number }
    ensures low { neg_ℤ (pos 6) ≤ℤ result }
    ensures high { result ≤ℤ pos 3 }
{
    if number == 0x7D {
        return 3;
    }
    i16::from(number % 8) - 6
}

/// A power of ten that a decimal has.
pub(crate) fn fitting(exponent: i16) -> Option<i8>
    ensures { result ≡ fitting exponent }
{
    if exponent < -120 {
        return None;
    }
    if exponent > 120 {
        return None;
    }
    Some(exponent as i8)
}

// A meaning with its numbers times a power of ten; none beyond what a decimal has.
fn scaled(meaning: Meaning, number: u8) -> Option<Meaning>
    ensures { result ≡ scaled meaning number }
{
    match corrected_power(meaning.exponent, number) {
        Some(exponent) => Some(with_exponent(meaning, exponent)),
        None => None,
    }
}

// A power of ten after a correction.
fn corrected_power(exponent: i8, number: u8) -> Option<i8>
    ensures { result ≡ fitting (exponent +ℤ power_of number) }
{
    fitting(i16::from(exponent) + power_of(number))
}

// A meaning with another power of ten.
fn with_exponent(meaning: Meaning, exponent: i8) -> Meaning
    ensures { result ≡ with_exponent meaning exponent }
{
    Meaning {
        exponent,
        ..meaning
    }
}

// A meaning of another kind, with the VIFE of its unit.
fn replaced(meaning: Meaning, kind: Kind, unit: Option<u8>) -> Option<Meaning>
    ensures { result ≡ replaced meaning kind unit }
{
    if meaning.is_replaced {
        return None;
    }
    Some(Meaning {
        exponent: 0,
        kind,
        is_replaced: true,
        unit,
        ..meaning
    })
}

// A meaning after one VIFE; none where what the VIFE says isn't certain.
fn step(meaning: Meaning, effect: Effect, number: u8) -> Option<Meaning>
    ensures { result ≡ step meaning effect number }
{
    match effect {
        Effect::Nothing | Effect::Tag => Some(meaning),
        Effect::Failure => match meaning.failure {
            None => Some(Meaning {
                failure: Some(number),
                ..meaning
            }),
            Some(_) => Some(meaning),
        },
        Effect::Unit => match (meaning.is_replaced, meaning.kind, meaning.unit) {
            (false, Kind::Number, None) => Some(Meaning {
                unit: Some(number),
                ..meaning
            }),
            _ => None,
        },
        Effect::Scale => match (meaning.is_replaced, meaning.kind) {
            (false, Kind::Number | Kind::Words) => scaled(meaning, number),
            _ => None,
        },
        Effect::Moment => replaced(meaning, Kind::AnyDate, None),
        Effect::Duration => replaced(meaning, Kind::Number, Some(number)),
        Effect::Count => replaced(meaning, Kind::Number, None),
        Effect::Direction => match meaning.direction {
            None => Some(Meaning {
                direction: Some(number),
                ..meaning
            }),
            Some(_) => None,
        },
        Effect::Phase => match meaning.phase {
            None => Some(Meaning {
                phase: Some(number),
                ..meaning
            }),
            Some(_) => None,
        },
        Effect::Extension | Effect::Maker | Effect::Block => None,
    }
}

/// The number of a VIFE; `after_fc` says that an FC stands before it.
pub fn number_after(after_fc: bool, vife: u8) -> u8
    ensures { result ≡ number_after after_fc vife }
{
    if after_fc {
        128 + vife % 128
    } else {
        vife % 128
    }
}

/// Whether a VIFE announces a code of the table after FC.
pub fn is_extension(after_fc: bool, vife: u8) -> bool
    ensures { result ≡ is_extension after_fc vife }
{
    !after_fc && vife == 0xFC
}

// A meaning after all VIFEs up to a manufacturer's; none where what one says isn't certain.
#[tactic(auto, unfolding(crate::specs::Meaning::folded))]
fn folded(after_fc: bool, meaning: Meaning, vifes: &[u8]) -> Option<Meaning>
    ensures { result ≡ folded after_fc meaning vifes.now }
{
    let [vife, others @ ..] = vifes else {
        return if after_fc { None } else { Some(meaning) };
    };
    if !after_fc && (*vife == 0x7F || *vife == 0xFF) {
        return Some(meaning);
    }
    if !after_fc && *vife == 0xFC {
        return folded(true, meaning, others);
    }
    let number = number_after(after_fc, *vife);
    match step(meaning, vife_at(number).effect, number) {
        Some(next) => folded(false, next, others),
        None => None,
    }
}

/// What the code with this number says with these VIFEs; none where a code or a VIFE is never read or isn't certain.
pub(crate) fn meaning_of(number: u16, vifes: &[u8]) -> Option<Meaning>
    ensures { result ≡ meaning_of number vifes.now }
{
    let code = code_at(number);
    if matches!(code.kind, Kind::Unread | Kind::Listed) {
        return None;
    }
    let begun = Meaning {
        exponent: code.exponent,
        kind: code.kind,
        is_replaced: false,
        unit: None,
        failure: None,
        direction: None,
        phase: None,
    };
    folded(false, begun, vifes)
}
