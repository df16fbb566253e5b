//! What meters count, and the units of amounts.

ghost use Rattle.std.specs.Prelude.{◌≡◌, ◌<◌, ◌≤◌, ◌↔◌, IfSome, IsTrue};
ghost use Rattle.mbdc_audit.specs.Sound.{IsType};
ghost use Rattle.mbdc_audit.specs.Uses.{counted_named, size_named, size_of};
ghost use Rattle.mbdc_audit.specs.Uses.{unit_named};
ghost use Rattle.mbdc_audit.specs.View.{run_of};

use crate::curve::Run;
use crate::field::is_word;
use dc_units::Quantity;

/// What a meter counts.
#[derive(Clone, Copy)]
pub enum Counted {
    Energy,
    Volume,
    /// Units of a heat cost allocator.
    Allocation,
}

/// The unit of a published number.
#[derive(Clone, Copy)]
pub enum Unit {
    Kwh,
    CubicMetre,
    /// Units of a heat cost allocator times the weight of its place.
    Allocated,
    /// The same without the weight.
    Count,
    /// The smallest unit of any use.
    Smallest,
}

/// Smallest units of a kilowatt hour.
pub const OF_KWH: u64 = 3_600_000_000;

/// Smallest units of a cubic metre.
pub const OF_CUBIC_METRE: u64 = 1_000_000;

/// Smallest units of an allocator's unit.
pub const OF_ALLOCATED: u64 = 1_000;

impl Counted {
    /// The quantity that a word names.
    pub fn named(word: &[u8]) -> Option<Counted>
        ensures { result ≡ counted_named word.now }
    {
        if is_word(word, "energy") {
            Some(Counted::Energy)
        } else if is_word(word, "volume") {
            Some(Counted::Volume)
        } else if is_word(word, "units") {
            Some(Counted::Allocation)
        } else {
            None
        }
    }
}

impl Unit {
    /// The unit that a word names.
    pub fn named(word: &[u8]) -> Option<Unit>
        ensures { result ≡ unit_named word.now }
    {
        if is_word(word, "kWh") {
            Some(Unit::Kwh)
        } else if is_word(word, "m3") {
            Some(Unit::CubicMetre)
        } else if is_word(word, "HCA") {
            Some(Unit::Allocated)
        } else if is_word(word, "count") {
            Some(Unit::Count)
        } else if is_word(word, "smallest") {
            Some(Unit::Smallest)
        } else {
            None
        }
    }
}

/// What a quantity of the table of units counts, and the smallest units of one of its units.
pub fn size_of(quantity: Quantity) -> Option<(Counted, u64)>
    ensures size { result ≡ size_of quantity }
    ensures small { IfSome result (λ s. (0 < s.1) × (s.1 ≤ 3600000000000)) }
{
    match quantity {
        Quantity::EnergyWattHour => Some((Counted::Energy, 3_600_000)),
        Quantity::EnergyJoule => Some((Counted::Energy, 1_000)),
        Quantity::EnergyMegawattHour => Some((Counted::Energy, 3_600_000_000_000)),
        Quantity::EnergyGigajoule => Some((Counted::Energy, 1_000_000_000_000)),
        Quantity::Volume => Some((Counted::Volume, OF_CUBIC_METRE)),
        Quantity::HeatCostAllocator => Some((Counted::Allocation, OF_ALLOCATED)),
        _ => None,
    }
}

/// What the unit of a reading counts, and the smallest units of one of them.
pub fn size_named(word: &[u8]) -> Option<(Counted, u64)>
    ensures size { result ≡ size_named word.now }
    ensures small { IfSome result (λ s. (0 < s.1) × (s.1 ≤ 3600000000000)) }
{
    if is_word(word, "Wh") {
        size_of(Quantity::EnergyWattHour)
    } else if is_word(word, "kWh") {
        Some((Counted::Energy, OF_KWH))
    } else if is_word(word, "MWh") {
        size_of(Quantity::EnergyMegawattHour)
    } else if is_word(word, "J") {
        size_of(Quantity::EnergyJoule)
    } else if is_word(word, "GJ") {
        size_of(Quantity::EnergyGigajoule)
    } else if is_word(word, "m3") {
        size_of(Quantity::Volume)
    } else if is_word(word, "HCA") {
        size_of(Quantity::HeatCostAllocator)
    } else {
        None
    }
}

/// Whether a device type (EN 13757-7) counts a use, by its word. A meter of heat and cooling counts cooling where its
/// VIB is named.
pub fn is_type(name: &[u8], run: &Run<'_>) -> bool
    ensures { IsTrue result ↔ IsType name.now (run_of run.now) }
{
    match run.identity.kind {
        0x04 | 0x0C => is_word(name, "heat"),
        0x0D => is_word(name, "heat") || (is_word(name, "cooling") && !run.vib.is_empty()),
        0x0A | 0x0B => is_word(name, "cooling"),
        0x06 | 0x15 => is_word(name, "warm water"),
        0x07 | 0x16 => is_word(name, "cold water"),
        0x02 => is_word(name, "electricity"),
        0x03 => is_word(name, "gas"),
        0x08 => is_word(name, "allocator"),
        _ => false,
    }
}
