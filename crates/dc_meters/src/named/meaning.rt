//! The meter that a name means in a register.

ghost use Rattle.std.specs.Prelude.{◌≡◌, ◌↔◌, IfOk, IfErr, IsTrue};
ghost use Rattle.dc_meters.specs.Means.{AreMeant, AreUnmeant, IsNameFault, Means, has_number};
ghost use Rattle.dc_meters.specs.Means.{having};

use crate::House;
use crate::named::name::Named;
use dc_address::Identity;
use mbdc_io::NoMemory;
use std::alloc::Allocator;

/// Why a name means no meter.
#[derive(Clone, Copy)]
pub enum NameFault {
    /// No registered meter has this number.
    Unknown([u8; 8]),
    /// Several registered meters have this number ([`having`]).
    Several([u8; 8]),
    /// Out of memory.
    NoMemory,
}

/// Finds the meter that a name means: an identity means itself, registered or not, and a number the only registered
/// meter that has it.
pub fn resolve<A: Allocator + Copy>(
    alloc: A,
    house: &House<A>,
    name: Named,
) -> Result<Identity, NameFault>
    ensures found { IfOk result (λ meter. Means house.now.state name meter) }
    ensures fault { IfErr result (λ fault. IsNameFault house.now.state name fault) }
{
    match name {
        Named::Identity(meter) => Ok(meter),
        Named::Number(digits) => only_with(alloc, house, digits),
    }
}

// The only registered meter with that number.
fn only_with<A: Allocator + Copy>(
    alloc: A,
    house: &House<A>,
    digits: [u8; 8],
) -> Result<Identity, NameFault>
    ensures found { IfOk result (λ meter. Means house.now.state (Named.Number digits) meter) }
    ensures fault { IfErr result (λ fault.
        IsNameFault house.now.state (Named.Number digits) fault) }
{
    let Ok(meters) = having(alloc, house, &digits) else {
        return Err(NameFault::NoMemory);
    };
    match meters.as_slice() {
        [] => Err(NameFault::Unknown(digits)),
        [meter] => Ok(*meter),
        _ => Err(NameFault::Several(digits)),
    }
}

/// The registered meters with that number, in order of identity.
pub fn having<A: Allocator + Copy>(
    alloc: A,
    house: &House<A>,
    digits: &[u8; 8],
) -> Result<Vec<Identity, A>, NoMemory>
    ensures { IfOk result (λ meters. meters.items ≡ having digits.now house.now.state) }
{
    let mut meters = Vec::new(alloc);
    'meters: for (meter, _) in house.meters() {
        if has_number(meter, digits) {
            meters.push(*meter)?;
        }
    }
    Ok(meters)
}

fn has_number(meter: &Identity, digits: &[u8; 8]) -> bool
    ensures { result ≡ has_number digits.now meter.now }
{
    meter.text().starts_with(digits)
}

/// Finds the meters that names mean, in their order.
///
/// # Errors
/// That of the first name that means none.
pub fn resolve_all<A: Allocator + Copy>(
    alloc: A,
    house: &House<A>,
    names: &[Named],
) -> Result<Vec<Identity, A>, NameFault>
    ensures found { IfOk result (λ meters. AreMeant house.now.state names.now meters.items) }
    ensures fault { IfErr result (λ fault. AreUnmeant house.now.state names.now fault) }
{
    let mut meters = Vec::new(alloc);
    let mut rest = names;
    'names: while let Some((name, more)) = rest.split_first() {
        let meter = resolve(alloc, house, *name)?;
        if meters.push(meter).is_err() {
            return Err(NameFault::NoMemory);
        }
        rest = more;
    }
    Ok(meters)
}
