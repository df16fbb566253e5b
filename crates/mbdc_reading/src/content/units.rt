//! Units of fixed data.

ghost use Rattle.std.specs.Prelude.{◌≡◌, map, option_map};
ghost use Rattle.mbdc_reading.specs.Units.{AreNarrow, fixed_unit, row_of, unit_in, unit_view};

/// What a counter of fixed data counts: its name, its unit, and its power of ten.
#[derive(Clone, Copy)]
pub struct FixedUnit {
    pub name: &'static str,
    pub unit: &'static str,
    pub exponent: i8,
}

/// Units of the fixed data structure (EN 13757-3): the first and the last code of a row, its name, its unit and the
/// power of ten of the first. Each further code stands for the next power of ten.
pub const FIXED_UNITS: [(u8, u8, &str, &str, i8); 9] = [
    (0x02, 0x0A, "energy", "Wh", 0),
    (0x0B, 0x13, "energy", "J", 3),
    (0x14, 0x1C, "power", "W", 0),
    (0x1D, 0x25, "power", "J/h", 3),
    (0x26, 0x2E, "volume", "m3", -6),
    (0x2F, 0x37, "volume flow", "m3/h", -6),
    (0x38, 0x38, "temperature", "C", -3),
    (0x39, 0x39, "heat cost allocation", "HCA", 0),
    (0x3F, 0x3F, "dimensionless", "", 0),
];

// The unit of a table with this code.
#[tactic(auto, unfolding(crate::specs::Units::unit_in))]
fn unit_in(mut rows: &[(u8, u8, &'static str, &'static str, i8)], code: u8) -> Option<FixedUnit>
    requires { AreNarrow (map (λ r. row_of r.0 r.1 r.2.now r.3.now r.4) rows.now) }
    ensures { option_map unit_view result
        ≡ unit_in (map (λ r. row_of r.0 r.1 r.2.now r.3.now r.4) rows.entry.now) code }
{
    while let [row, rest @ ..] = rows {
        let (first, last, name, unit, exponent) = *row;
        if first <= code && code <= last {
            let exponent = exponent + (code - first) as i8;
            return Some(FixedUnit {
                name,
                unit,
                exponent,
            });
        }
        rows = rest;
    }
    None
}

/// The unit with this code, the lowest six bits of a unit byte; none of a reserved one.
#[tactic(auto, unfolding(crate::specs::Units::fixed_unit))]
pub fn fixed_unit(code: u8) -> Option<FixedUnit>
    ensures { option_map unit_view result ≡ fixed_unit code }
{
    unit_in(&FIXED_UNITS, code)
}
