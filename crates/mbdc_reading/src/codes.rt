//! Codes of value information fields.

ghost use Rattle.std.specs.Prelude.{◌≡◌, ◌≤◌, length, map};
ghost use Rattle.mbdc_reading.specs.Codes.{AreNarrow, code_in, code_at, code_view, table_code, row_of, number_of};
ghost use Rattle.mbdc_reading.specs.Codes.{listed_at};

use dc_units::Quantity;

/// How the data of a code are read.
#[derive(Clone, Copy)]
pub enum Kind {
    Number,
    /// Characters where the data field has them, else a number.
    Words,
    /// Decimal digits, leading zeros too; else characters or a number.
    Digits,
    /// A meter's identity of eight bytes, else digits.
    Identity,
    /// The three letters of a manufacturer.
    Letters,
    Flags,
    Date,
    DateTime,
    AnyDate,
    /// As the due-date table reads it.
    Listed,
    /// Never read.
    Unread,
}

/// A code: its name, and the unit, the power of ten and the kind of its data.
#[derive(Clone, Copy)]
pub struct Code {
    pub name: &'static str,
    pub unit: &'static str,
    pub exponent: i8,
    pub kind: Kind,
}

/// Codes without bit 7 (EN 13757-3, tables of primary VIF codes and of both extensions), those after FB from FB00 on,
/// those after FD from FD00 on: the first and the last code of a row, its name, its unit, the power of ten of the
/// first, and its kind. Each further code stands for the next power of ten. The due-date table has the units of listed
/// ones.
pub const CODES: [(u16, u16, &str, &str, i8, Kind); 150] = [
    (0x00, 0x0F, "energy", "", 0, Kind::Listed),
    (0x10, 0x17, "volume", "", 0, Kind::Listed),
    (0x18, 0x1F, "mass", "", 0, Kind::Listed),
    (0x20, 0x20, "on time", "s", 0, Kind::Number),
    (0x21, 0x21, "on time", "min", 0, Kind::Number),
    (0x22, 0x22, "on time", "h", 0, Kind::Number),
    (0x23, 0x23, "on time", "d", 0, Kind::Number),
    (0x24, 0x24, "operating time", "s", 0, Kind::Number),
    (0x25, 0x25, "operating time", "min", 0, Kind::Number),
    (0x26, 0x26, "operating time", "h", 0, Kind::Number),
    (0x27, 0x27, "operating time", "d", 0, Kind::Number),
    (0x28, 0x37, "power", "", 0, Kind::Listed),
    (0x38, 0x4F, "volume flow", "", 0, Kind::Listed),
    (0x50, 0x57, "mass flow", "", 0, Kind::Listed),
    (0x58, 0x5B, "flow temperature", "", 0, Kind::Listed),
    (0x5C, 0x5F, "return temperature", "", 0, Kind::Listed),
    (0x60, 0x63, "temperature difference", "", 0, Kind::Listed),
    (0x64, 0x67, "external temperature", "", 0, Kind::Listed),
    (0x68, 0x6B, "pressure", "", 0, Kind::Listed),
    (0x6C, 0x6C, "date", "", 0, Kind::Listed),
    (0x6D, 0x6D, "date and time", "", 0, Kind::Listed),
    (0x6E, 0x6E, "heat cost allocation", "", 0, Kind::Listed),
    (0x70, 0x70, "averaging duration", "s", 0, Kind::Number),
    (0x71, 0x71, "averaging duration", "min", 0, Kind::Number),
    (0x72, 0x72, "averaging duration", "h", 0, Kind::Number),
    (0x73, 0x73, "averaging duration", "d", 0, Kind::Number),
    (0x74, 0x74, "actuality duration", "s", 0, Kind::Number),
    (0x75, 0x75, "actuality duration", "min", 0, Kind::Number),
    (0x76, 0x76, "actuality duration", "h", 0, Kind::Number),
    (0x77, 0x77, "actuality duration", "d", 0, Kind::Number),
    (0x78, 0x78, "fabrication number", "", 0, Kind::Digits),
    (0x79, 0x79, "enhanced identification", "", 0, Kind::Identity),
    (0x7A, 0x7A, "bus address", "", 0, Kind::Digits),
    (0x7B, 0x7B, "first extension", "", 0, Kind::Unread),
    (0x7C, 0x7C, "unit in plain text", "", 0, Kind::Words),
    (0x7D, 0x7D, "second extension", "", 0, Kind::Unread),
    (0x7E, 0x7E, "any VIF", "", 0, Kind::Unread),
    (0x7F, 0x7F, "manufacturer specific", "", 0, Kind::Unread),
    (0xFB00, 0xFB01, "energy", "", 0, Kind::Listed),
    (0xFB02, 0xFB03, "reactive energy", "kvarh", 0, Kind::Number),
    (0xFB04, 0xFB05, "apparent energy", "kVAh", 0, Kind::Number),
    (0xFB08, 0xFB09, "energy", "", 0, Kind::Listed),
    (0xFB0C, 0xFB0F, "energy", "Mcal", -1, Kind::Number),
    (0xFB10, 0xFB11, "volume", "", 0, Kind::Listed),
    (0xFB14, 0xFB17, "reactive power", "kvar", -3, Kind::Number),
    (0xFB18, 0xFB19, "mass", "t", 2, Kind::Number),
    (0xFB1A, 0xFB1B, "relative humidity", "%", -1, Kind::Number),
    (0xFB20, 0xFB20, "volume", "ft3", 0, Kind::Number),
    (0xFB21, 0xFB21, "volume", "ft3", -1, Kind::Number),
    (0xFB22, 0xFB22, "volume", "gal", -1, Kind::Number),
    (0xFB23, 0xFB23, "volume", "gal", 0, Kind::Number),
    (0xFB24, 0xFB24, "volume flow", "gal/min", -3, Kind::Number),
    (0xFB25, 0xFB25, "volume flow", "gal/min", 0, Kind::Number),
    (0xFB26, 0xFB26, "volume flow", "gal/h", 0, Kind::Number),
    (0xFB28, 0xFB29, "power", "MW", -1, Kind::Number),
    (
        0xFB2A,
        0xFB2A,
        "phase between voltages",
        "deg",
        -1,
        Kind::Number,
    ),
    (
        0xFB2B,
        0xFB2B,
        "phase between voltage and current",
        "deg",
        -1,
        Kind::Number,
    ),
    (0xFB2C, 0xFB2F, "frequency", "Hz", -3, Kind::Number),
    (0xFB30, 0xFB31, "power", "GJ/h", -1, Kind::Number),
    (0xFB34, 0xFB37, "apparent power", "kVA", -3, Kind::Number),
    (
        0xFB58,
        0xFB5B,
        "flow temperature",
        "F-flow",
        -3,
        Kind::Number,
    ),
    (
        0xFB5C,
        0xFB5F,
        "return temperature",
        "F-return",
        -3,
        Kind::Number,
    ),
    (
        0xFB60,
        0xFB63,
        "temperature difference",
        "F-difference",
        -3,
        Kind::Number,
    ),
    (
        0xFB64,
        0xFB67,
        "external temperature",
        "F-external",
        -3,
        Kind::Number,
    ),
    (0xFB70, 0xFB73, "temperature limit", "F", -3, Kind::Number),
    (0xFB74, 0xFB77, "temperature limit", "C", -3, Kind::Number),
    (
        0xFB78,
        0xFB7F,
        "cumulative maximum power",
        "W",
        -3,
        Kind::Number,
    ),
    (0xFD00, 0xFD03, "credit", "currency", -3, Kind::Number),
    (0xFD04, 0xFD07, "debit", "currency", -3, Kind::Number),
    (
        0xFD08,
        0xFD08,
        "unique message identification",
        "",
        0,
        Kind::Number,
    ),
    (0xFD09, 0xFD09, "device type", "", 0, Kind::Number),
    (0xFD0A, 0xFD0A, "manufacturer", "", 0, Kind::Letters),
    (
        0xFD0B,
        0xFD0B,
        "parameter set identification",
        "",
        0,
        Kind::Words,
    ),
    (0xFD0C, 0xFD0C, "model or version", "", 0, Kind::Words),
    (0xFD0D, 0xFD0D, "hardware version", "", 0, Kind::Words),
    (0xFD0E, 0xFD0E, "firmware version", "", 0, Kind::Words),
    (0xFD0F, 0xFD0F, "software version", "", 0, Kind::Words),
    (0xFD10, 0xFD10, "customer location", "", 0, Kind::Digits),
    (0xFD11, 0xFD11, "customer", "", 0, Kind::Digits),
    (0xFD12, 0xFD12, "access code of user", "", 0, Kind::Unread),
    (
        0xFD13,
        0xFD13,
        "access code of operator",
        "",
        0,
        Kind::Unread,
    ),
    (
        0xFD14,
        0xFD14,
        "access code of system operator",
        "",
        0,
        Kind::Unread,
    ),
    (
        0xFD15,
        0xFD15,
        "access code of developer",
        "",
        0,
        Kind::Unread,
    ),
    (0xFD16, 0xFD16, "password", "", 0, Kind::Unread),
    (0xFD17, 0xFD17, "error flags", "", 0, Kind::Listed),
    (0xFD18, 0xFD18, "error mask", "flags", 0, Kind::Flags),
    (0xFD19, 0xFD19, "security key", "", 0, Kind::Unread),
    (0xFD1A, 0xFD1A, "digital output", "flags", 0, Kind::Flags),
    (0xFD1B, 0xFD1B, "digital input", "flags", 0, Kind::Flags),
    (0xFD1C, 0xFD1C, "baud rate", "Bd", 0, Kind::Number),
    (
        0xFD1D,
        0xFD1D,
        "response delay time",
        "bit times",
        0,
        Kind::Number,
    ),
    (0xFD1E, 0xFD1E, "retry", "", 0, Kind::Number),
    (0xFD1F, 0xFD1F, "remote control", "", 0, Kind::Unread),
    (0xFD20, 0xFD20, "first storage number", "", 0, Kind::Number),
    (0xFD21, 0xFD21, "last storage number", "", 0, Kind::Number),
    (0xFD22, 0xFD22, "size of storage block", "", 0, Kind::Number),
    (
        0xFD23,
        0xFD23,
        "descriptor of tariff and subunit",
        "",
        0,
        Kind::Unread,
    ),
    (0xFD24, 0xFD24, "storage interval", "s", 0, Kind::Number),
    (0xFD25, 0xFD25, "storage interval", "min", 0, Kind::Number),
    (0xFD26, 0xFD26, "storage interval", "h", 0, Kind::Number),
    (0xFD27, 0xFD27, "storage interval", "d", 0, Kind::Number),
    (
        0xFD28,
        0xFD28,
        "storage interval",
        "months",
        0,
        Kind::Number,
    ),
    (0xFD29, 0xFD29, "storage interval", "years", 0, Kind::Number),
    (
        0xFD2A,
        0xFD2A,
        "operator specific data",
        "",
        0,
        Kind::Unread,
    ),
    (0xFD2B, 0xFD2B, "time point second", "s", 0, Kind::Number),
    (
        0xFD2C,
        0xFD2C,
        "duration since last readout",
        "s",
        0,
        Kind::Number,
    ),
    (
        0xFD2D,
        0xFD2D,
        "duration since last readout",
        "min",
        0,
        Kind::Number,
    ),
    (
        0xFD2E,
        0xFD2E,
        "duration since last readout",
        "h",
        0,
        Kind::Number,
    ),
    (
        0xFD2F,
        0xFD2F,
        "duration since last readout",
        "d",
        0,
        Kind::Number,
    ),
    (0xFD30, 0xFD30, "start of tariff", "", 0, Kind::AnyDate),
    (0xFD31, 0xFD31, "duration of tariff", "min", 0, Kind::Number),
    (0xFD32, 0xFD32, "duration of tariff", "h", 0, Kind::Number),
    (0xFD33, 0xFD33, "duration of tariff", "d", 0, Kind::Number),
    (0xFD34, 0xFD34, "period of tariff", "s", 0, Kind::Number),
    (0xFD35, 0xFD35, "period of tariff", "min", 0, Kind::Number),
    (0xFD36, 0xFD36, "period of tariff", "h", 0, Kind::Number),
    (0xFD37, 0xFD37, "period of tariff", "d", 0, Kind::Number),
    (
        0xFD38,
        0xFD38,
        "period of tariff",
        "months",
        0,
        Kind::Number,
    ),
    (0xFD39, 0xFD39, "period of tariff", "years", 0, Kind::Number),
    (0xFD3A, 0xFD3A, "dimensionless", "", 0, Kind::Number),
    (0xFD3B, 0xFD3B, "wireless container", "", 0, Kind::Unread),
    (
        0xFD3C,
        0xFD3C,
        "period of transmissions",
        "s",
        0,
        Kind::Number,
    ),
    (
        0xFD3D,
        0xFD3D,
        "period of transmissions",
        "min",
        0,
        Kind::Number,
    ),
    (
        0xFD3E,
        0xFD3E,
        "period of transmissions",
        "h",
        0,
        Kind::Number,
    ),
    (
        0xFD3F,
        0xFD3F,
        "period of transmissions",
        "d",
        0,
        Kind::Number,
    ),
    (0xFD40, 0xFD4F, "voltage", "V", -9, Kind::Number),
    (0xFD50, 0xFD5F, "current", "A", -12, Kind::Number),
    (0xFD60, 0xFD60, "reset counter", "", 0, Kind::Number),
    (0xFD61, 0xFD61, "cumulation counter", "", 0, Kind::Number),
    (0xFD62, 0xFD62, "control signal", "", 0, Kind::Unread),
    (0xFD63, 0xFD63, "day of week", "", 0, Kind::Number),
    (0xFD64, 0xFD64, "week number", "", 0, Kind::Number),
    (
        0xFD65,
        0xFD65,
        "time point of day change",
        "",
        0,
        Kind::Unread,
    ),
    (
        0xFD66,
        0xFD66,
        "state of parameter activation",
        "",
        0,
        Kind::Unread,
    ),
    (
        0xFD67,
        0xFD67,
        "special supplier information",
        "",
        0,
        Kind::Words,
    ),
    (
        0xFD68,
        0xFD68,
        "duration since last cumulation",
        "h",
        0,
        Kind::Number,
    ),
    (
        0xFD69,
        0xFD69,
        "duration since last cumulation",
        "d",
        0,
        Kind::Number,
    ),
    (
        0xFD6A,
        0xFD6A,
        "duration since last cumulation",
        "months",
        0,
        Kind::Number,
    ),
    (
        0xFD6B,
        0xFD6B,
        "duration since last cumulation",
        "years",
        0,
        Kind::Number,
    ),
    (
        0xFD6C,
        0xFD6C,
        "operating time of battery",
        "h",
        0,
        Kind::Number,
    ),
    (
        0xFD6D,
        0xFD6D,
        "operating time of battery",
        "d",
        0,
        Kind::Number,
    ),
    (
        0xFD6E,
        0xFD6E,
        "operating time of battery",
        "months",
        0,
        Kind::Number,
    ),
    (
        0xFD6F,
        0xFD6F,
        "operating time of battery",
        "years",
        0,
        Kind::Number,
    ),
    (
        0xFD70,
        0xFD70,
        "date of battery change",
        "",
        0,
        Kind::AnyDate,
    ),
    (0xFD71, 0xFD71, "radio level", "dBm", 0, Kind::Number),
    (0xFD72, 0xFD72, "daylight saving", "", 0, Kind::Unread),
    (0xFD73, 0xFD73, "listening window", "", 0, Kind::Unread),
    (
        0xFD74,
        0xFD74,
        "remaining battery life",
        "d",
        0,
        Kind::Number,
    ),
    (0xFD75, 0xFD75, "number of stops", "", 0, Kind::Number),
    (
        0xFD76,
        0xFD76,
        "manufacturer specific container",
        "",
        0,
        Kind::Unread,
    ),
];

// The code of a table with this number.
#[tactic(auto, unfolding(crate::specs::Codes::code_in))]
fn code_in(mut rows: &[(u16, u16, &'static str, &'static str, i8, Kind)], number: u16) -> Code
    requires { AreNarrow (map (λ r. row_of r.0 r.1 r.2.now r.3.now r.4 r.5) rows.now) }
    ensures exact { code_view result
        ≡ code_in (map (λ r. row_of r.0 r.1 r.2.now r.3.now r.4 r.5) rows.entry.now) number }
    ensures short { length result.unit.now ≤ 16 }
{
    while let [row, rest @ ..] = rows {
        let (first, last, name, unit, exponent, kind) = *row;
        if first <= number && number <= last {
            let exponent = exponent + (number - first) as i8;
            return Code {
                name,
                unit,
                exponent,
                kind,
            };
        }
        rows = rest;
    }
    Code {
        name: "reserved",
        unit: "",
        exponent: 0,
        kind: Kind::Unread,
    }
}

// The quantity that the due-date table has for a code alone, and its power of ten.
fn listed_at(number: u16) -> Option<(Quantity, i8)>
    ensures { result ≡ listed_at number }
{
    let high = (number / 256) as u8;
    let low = (number % 256) as u8;
    if high == 0 {
        dc_units::unit_at(&[low])
    } else {
        dc_units::unit_at(&[high, low])
    }
}

// The code of the table with this number.
#[tactic(auto, unfolding(crate::specs::Codes::table_code))]
fn table_code(number: u16) -> Code
    ensures exact { code_view result ≡ table_code number }
    ensures short { length result.unit.now ≤ 16 }
{
    code_in(&CODES, number)
}

/// The code with this number.
#[tactic(auto, using(crate::proofs::Units::short_unit), unfolding(crate::specs::Codes::code_at))]
pub fn code_at(number: u16) -> Code
    ensures exact { code_view result ≡ code_at number }
    ensures short { length result.unit.now ≤ 16 }
{
    let code = table_code(number);
    if !matches!(code.kind, Kind::Listed) {
        return code;
    }
    match listed_at(number) {
        Some((quantity, exponent)) => Code {
            unit: quantity.unit(),
            exponent,
            kind: match quantity {
                Quantity::Date => Kind::Date,
                Quantity::DateTime => Kind::DateTime,
                Quantity::ErrorFlags => Kind::Flags,
                _ => Kind::Number,
            },
            ..code
        },
        None => code,
    }
}

/// The number of a block's code: the VIF, or FB or FD and the byte after it, without bit 7 (EN 13757-3). EF announces a
/// table without codes.
pub fn number_of(vib: &[u8]) -> u16
    ensures { result ≡ number_of vib.now }
{
    match vib {
        [] => 0xFFFF,
        [vif @ (0xEF | 0xFB | 0xFD), code, ..] => { 256 * u16::from(*vif) + u16::from(*code % 128) }
        [vif, ..] => u16::from(*vif % 128),
    }
}
