//! Units of numbers, and what is computed of them.

ghost use Rattle.std.specs.Prelude.{◌≡◌, ◌<◌, IfOk, IfSome, Some};
ghost use Rattle.mbdc_audit.specs.Number.{scale_of, times};

use crate::exact::Exact;
use crate::fault::AuditFault;
use crate::smallest::OF_RATIO;
use crate::uses::{Counted, OF_ALLOCATED, OF_CUBIC_METRE, OF_KWH, Unit};

/// A ratio's denominator.
pub const RATIO: u128 = OF_RATIO as u128;

/// How a unit is made of the smallest one: how many of them it has, times 10^6 for each ratio that is in its numerator;
/// whether amounts count by the weight of their place, and whether they are multiplied by the use's factor.
#[derive(Clone, Copy)]
pub struct Scale {
    pub den: u128,
    pub is_weighted: bool,
    pub has_factor: bool,
}

/// How a unit is made of the smallest one of a quantity; `None` of a unit that isn't one of its.
pub fn scale_in(counted: Counted, unit: Unit) -> Option<Scale>
    ensures value { result ≡ scale_of counted unit }
    ensures some { IfSome result (λ s. 0 < s.den) }
{
    let (den, is_weighted, has_factor) = match (counted, unit) {
        (_, Unit::Smallest) => (1, false, false),
        (Counted::Energy, Unit::Kwh) => (u128::from(OF_KWH), false, false),
        (Counted::Volume, Unit::CubicMetre) => (u128::from(OF_CUBIC_METRE), false, false),
        (Counted::Volume, Unit::Kwh) => (u128::from(OF_CUBIC_METRE) * RATIO, false, true),
        (Counted::Allocation, Unit::Count) => (u128::from(OF_ALLOCATED), false, false),
        (Counted::Allocation, Unit::Allocated) => (u128::from(OF_ALLOCATED) * RATIO, true, false),
        (Counted::Allocation, Unit::Kwh) => (u128::from(OF_ALLOCATED) * RATIO * RATIO, true, true),
        _ => return None,
    };
    Some(Scale {
        den,
        is_weighted,
        has_factor,
    })
}

/// A number times a ratio, divided by another number.
pub fn times(exact: Exact, ratio: u64, divisor: u128) -> Result<Exact, AuditFault>
    ensures { IfOk result (λ x. x ≡ times ratio divisor exact) }
{
    let num = exact
        .num
        .checked_mul(u128::from(ratio))
        .ok_or(AuditFault::TooLarge)?;
    let den = exact.den.checked_mul(divisor).ok_or(AuditFault::TooLarge)?;
    Ok(Exact { num, den, ..exact })
}
