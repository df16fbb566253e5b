//! The table of units: quantities and powers of ten by value information block.

ghost use Rattle.std.specs.Prelude.{◌≡◌, [], ◌∷◌};
ghost use Rattle.dc_units.specs.Table.{unit_at};

use crate::Quantity;

/// The quantity of a value information block, and the power of ten of its values.
#[inline(always)]
#[tactic(auto, unfolding(crate::specs::Table::row_of))]
pub fn unit_at(vib: &[u8]) -> Option<(Quantity, i8)>
    ensures { result ≡ unit_at vib.now }
{
    match vib {
        [vif] => primary(*vif),
        [0xFB, code] => behind_fb(*code),
        [0xFD, 0x17] => Some((Quantity::ErrorFlags, 0)),
        _ => None,
    }
}

/// The units of VIFs that no further byte extends.
#[inline(always)]
#[tactic(auto, unfolding(crate::specs::Table::row_of))]
fn primary(vif: u8) -> Option<(Quantity, i8)>
    ensures { result ≡ unit_at (vif ∷ []) }
{
    let eighth = (vif % 8) as i8;
    let fourth = (vif % 4) as i8;
    let unit = match vif {
        0x00..=0x07 => (Quantity::EnergyWattHour, eighth - 3),
        0x08..=0x0F => (Quantity::EnergyJoule, eighth),
        0x10..=0x17 => (Quantity::Volume, eighth - 6),
        0x18..=0x1F => (Quantity::Mass, eighth - 3),
        0x28..=0x2F => (Quantity::PowerWatt, eighth - 3),
        0x30..=0x37 => (Quantity::PowerJoulePerHour, eighth),
        0x38..=0x3F => (Quantity::VolumeFlowPerHour, eighth - 6),
        0x40..=0x47 => (Quantity::VolumeFlowPerMinute, eighth - 7),
        0x48..=0x4F => (Quantity::VolumeFlowPerSecond, eighth - 9),
        0x50..=0x57 => (Quantity::MassFlow, eighth - 3),
        0x58..=0x5B => (Quantity::FlowTemperature, fourth - 3),
        0x5C..=0x5F => (Quantity::ReturnTemperature, fourth - 3),
        0x60..=0x63 => (Quantity::TemperatureDifference, fourth - 3),
        0x64..=0x67 => (Quantity::ExternalTemperature, fourth - 3),
        0x68..=0x6B => (Quantity::Pressure, fourth - 3),
        0x6C => (Quantity::Date, 0),
        0x6D => (Quantity::DateTime, 0),
        0x6E => (Quantity::HeatCostAllocator, 0),
        _ => return None,
    };
    Some(unit)
}

/// The units of the codes after FB.
#[tactic(auto, unfolding(crate::specs::Table::row_of))]
fn behind_fb(code: u8) -> Option<(Quantity, i8)>
    ensures { result ≡ unit_at (0xFB ∷ code ∷ []) }
{
    match code {
        0x00 => Some((Quantity::EnergyMegawattHour, -1)),
        0x01 => Some((Quantity::EnergyMegawattHour, 0)),
        0x08 => Some((Quantity::EnergyGigajoule, -1)),
        0x09 => Some((Quantity::EnergyGigajoule, 0)),
        0x10 => Some((Quantity::Volume, 2)),
        0x11 => Some((Quantity::Volume, 3)),
        _ => None,
    }
}
