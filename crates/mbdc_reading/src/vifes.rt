//! Combinable VIFEs.

ghost use Rattle.std.specs.Prelude.{◌≡◌, ◌≤◌, length, map};
ghost use Rattle.mbdc_reading.specs.Vifes.{AreShort, vife_in, vife_at, vife_view, row_of};

/// What a VIFE does to what its VIF says.
#[derive(Clone, Copy)]
pub enum Effect {
    Nothing,
    Tag,
    Failure,
    Unit,
    Scale,
    Moment,
    Duration,
    Count,
    Direction,
    Phase,
    Extension,
    Maker,
    Block,
}

/// A VIFE: its name, its effect, and the text of the unit, the direction or the phase that it says.
#[derive(Clone, Copy)]
pub struct Vife {
    pub name: &'static str,
    pub effect: Effect,
    pub text: &'static str,
}

/// Combinable VIFEs without bit 7 (EN 13757-3, tables of combinable VIFE codes and of the codes for record errors), up to
/// 3F: rows in rising order, each of the codes up to its last one that no earlier row has.
pub const VIFES: [(u8, &str, Effect, &str); 59] = [
    (0x00, "no error", Effect::Nothing, ""),
    (0x01, "too many DIFEs", Effect::Failure, ""),
    (0x02, "storage number not implemented", Effect::Failure, ""),
    (0x03, "unit number not implemented", Effect::Failure, ""),
    (0x04, "tariff number not implemented", Effect::Failure, ""),
    (0x05, "function not implemented", Effect::Failure, ""),
    (0x06, "data class not implemented", Effect::Failure, ""),
    (0x07, "data size not implemented", Effect::Failure, ""),
    (0x0A, "reserved", Effect::Block, ""),
    (0x0B, "too many VIFEs", Effect::Failure, ""),
    (0x0C, "illegal VIF group", Effect::Failure, ""),
    (0x0D, "illegal VIF exponent", Effect::Failure, ""),
    (0x0E, "mismatch of VIF and DIF", Effect::Failure, ""),
    (0x0F, "action not implemented", Effect::Failure, ""),
    (0x11, "reserved", Effect::Block, ""),
    (0x12, "average value", Effect::Tag, ""),
    (0x13, "inverse compact profile", Effect::Block, ""),
    (0x14, "relative deviation", Effect::Block, ""),
    (0x15, "no data available", Effect::Failure, ""),
    (0x16, "data overflow", Effect::Failure, ""),
    (0x17, "data underflow", Effect::Failure, ""),
    (0x18, "data error", Effect::Failure, ""),
    (0x1B, "reserved", Effect::Block, ""),
    (0x1C, "premature end of record", Effect::Failure, ""),
    (0x1D, "standard conform data content", Effect::Block, ""),
    (0x1E, "compact profile with register", Effect::Block, ""),
    (0x1F, "compact profile", Effect::Block, ""),
    (0x20, "per second", Effect::Unit, "/s"),
    (0x21, "per minute", Effect::Unit, "/min"),
    (0x22, "per hour", Effect::Unit, "/h"),
    (0x23, "per day", Effect::Unit, "/d"),
    (0x24, "per week", Effect::Unit, "/week"),
    (0x25, "per month", Effect::Unit, "/month"),
    (0x26, "per year", Effect::Unit, "/year"),
    (
        0x27,
        "per revolution or measurement",
        Effect::Unit,
        "/count",
    ),
    (
        0x28,
        "increment per input pulse, channel 0",
        Effect::Unit,
        "/pulse",
    ),
    (
        0x29,
        "increment per input pulse, channel 1",
        Effect::Unit,
        "/pulse",
    ),
    (
        0x2A,
        "increment per output pulse, channel 0",
        Effect::Unit,
        "/pulse",
    ),
    (
        0x2B,
        "increment per output pulse, channel 1",
        Effect::Unit,
        "/pulse",
    ),
    (0x2C, "per litre", Effect::Unit, "/l"),
    (0x2D, "per m3", Effect::Unit, "/m3"),
    (0x2E, "per kg", Effect::Unit, "/kg"),
    (0x2F, "per K", Effect::Unit, "/K"),
    (0x30, "per kWh", Effect::Unit, "/kWh"),
    (0x31, "per GJ", Effect::Unit, "/GJ"),
    (0x32, "per kW", Effect::Unit, "/kW"),
    (0x33, "per K and litre", Effect::Unit, "/(K*l)"),
    (0x34, "per V", Effect::Unit, "/V"),
    (0x35, "per A", Effect::Unit, "/A"),
    (0x36, "multiplied by s", Effect::Unit, "*s"),
    (0x37, "multiplied by s/V", Effect::Unit, "*s/V"),
    (0x38, "multiplied by s/A", Effect::Unit, "*s/A"),
    (0x39, "start of", Effect::Moment, ""),
    (0x3A, "uncorrected", Effect::Tag, ""),
    (0x3B, "forward flow only", Effect::Direction, "forward"),
    (0x3C, "backward flow only", Effect::Direction, "backward"),
    (0x3D, "non-metric units", Effect::Block, ""),
    (0x3E, "at base conditions", Effect::Tag, ""),
    (0x3F, "OBIS declaration", Effect::Block, ""),
];

/// Those of limits and durations, from 40 to 6F. A table for each part, for the checker's work grows with the cube of its
/// rows.
pub const LIMIT_VIFES: [(u8, &str, Effect, &str); 46] = [
    (0x40, "lower limit", Effect::Tag, ""),
    (0x41, "exceeds of lower limit", Effect::Count, ""),
    (
        0x42,
        "begin of first exceed of lower limit",
        Effect::Moment,
        "",
    ),
    (
        0x43,
        "end of first exceed of lower limit",
        Effect::Moment,
        "",
    ),
    (0x45, "reserved", Effect::Block, ""),
    (
        0x46,
        "begin of last exceed of lower limit",
        Effect::Moment,
        "",
    ),
    (
        0x47,
        "end of last exceed of lower limit",
        Effect::Moment,
        "",
    ),
    (0x48, "upper limit", Effect::Tag, ""),
    (0x49, "exceeds of upper limit", Effect::Count, ""),
    (
        0x4A,
        "begin of first exceed of upper limit",
        Effect::Moment,
        "",
    ),
    (
        0x4B,
        "end of first exceed of upper limit",
        Effect::Moment,
        "",
    ),
    (0x4D, "reserved", Effect::Block, ""),
    (
        0x4E,
        "begin of last exceed of upper limit",
        Effect::Moment,
        "",
    ),
    (
        0x4F,
        "end of last exceed of upper limit",
        Effect::Moment,
        "",
    ),
    (
        0x50,
        "duration of first exceed of lower limit, in s",
        Effect::Duration,
        "s",
    ),
    (
        0x51,
        "duration of first exceed of lower limit, in min",
        Effect::Duration,
        "min",
    ),
    (
        0x52,
        "duration of first exceed of lower limit, in h",
        Effect::Duration,
        "h",
    ),
    (
        0x53,
        "duration of first exceed of lower limit, in d",
        Effect::Duration,
        "d",
    ),
    (
        0x54,
        "duration of last exceed of lower limit, in s",
        Effect::Duration,
        "s",
    ),
    (
        0x55,
        "duration of last exceed of lower limit, in min",
        Effect::Duration,
        "min",
    ),
    (
        0x56,
        "duration of last exceed of lower limit, in h",
        Effect::Duration,
        "h",
    ),
    (
        0x57,
        "duration of last exceed of lower limit, in d",
        Effect::Duration,
        "d",
    ),
    (
        0x58,
        "duration of first exceed of upper limit, in s",
        Effect::Duration,
        "s",
    ),
    (
        0x59,
        "duration of first exceed of upper limit, in min",
        Effect::Duration,
        "min",
    ),
    (
        0x5A,
        "duration of first exceed of upper limit, in h",
        Effect::Duration,
        "h",
    ),
    (
        0x5B,
        "duration of first exceed of upper limit, in d",
        Effect::Duration,
        "d",
    ),
    (
        0x5C,
        "duration of last exceed of upper limit, in s",
        Effect::Duration,
        "s",
    ),
    (
        0x5D,
        "duration of last exceed of upper limit, in min",
        Effect::Duration,
        "min",
    ),
    (
        0x5E,
        "duration of last exceed of upper limit, in h",
        Effect::Duration,
        "h",
    ),
    (
        0x5F,
        "duration of last exceed of upper limit, in d",
        Effect::Duration,
        "d",
    ),
    (0x60, "duration of first, in s", Effect::Duration, "s"),
    (0x61, "duration of first, in min", Effect::Duration, "min"),
    (0x62, "duration of first, in h", Effect::Duration, "h"),
    (0x63, "duration of first, in d", Effect::Duration, "d"),
    (0x64, "duration of last, in s", Effect::Duration, "s"),
    (0x65, "duration of last, in min", Effect::Duration, "min"),
    (0x66, "duration of last, in h", Effect::Duration, "h"),
    (0x67, "duration of last, in d", Effect::Duration, "d"),
    (0x68, "during exceed of lower limit", Effect::Tag, ""),
    (0x69, "leakage", Effect::Tag, ""),
    (0x6A, "begin of first", Effect::Moment, ""),
    (0x6B, "end of first", Effect::Moment, ""),
    (0x6C, "during exceed of upper limit", Effect::Tag, ""),
    (0x6D, "overflow", Effect::Tag, ""),
    (0x6E, "begin of last", Effect::Moment, ""),
    (0x6F, "end of last", Effect::Moment, ""),
];

/// Those from 70 on, and those after FC from 80 on.
pub const LATER_VIFES: [(u8, &str, Effect, &str); 35] = [
    (0x70, "multiplicative correction 10^-6", Effect::Scale, ""),
    (0x71, "multiplicative correction 10^-5", Effect::Scale, ""),
    (0x72, "multiplicative correction 10^-4", Effect::Scale, ""),
    (0x73, "multiplicative correction 10^-3", Effect::Scale, ""),
    (0x74, "multiplicative correction 10^-2", Effect::Scale, ""),
    (0x75, "multiplicative correction 10^-1", Effect::Scale, ""),
    (0x76, "multiplicative correction 10^0", Effect::Scale, ""),
    (0x77, "multiplicative correction 10^1", Effect::Scale, ""),
    (0x78, "additive correction 10^-3", Effect::Block, ""),
    (0x79, "additive correction 10^-2", Effect::Block, ""),
    (0x7A, "additive correction 10^-1", Effect::Block, ""),
    (0x7B, "additive correction 10^0", Effect::Block, ""),
    (0x7C, "extension of combinable VIFEs", Effect::Extension, ""),
    (0x7D, "multiplied by 1000", Effect::Scale, ""),
    (0x7E, "future value", Effect::Tag, ""),
    (0x7F, "manufacturer specific", Effect::Maker, ""),
    (0x80, "reserved", Effect::Block, ""),
    (0x81, "at phase L1", Effect::Phase, "L1"),
    (0x82, "at phase L2", Effect::Phase, "L2"),
    (0x83, "at phase L3", Effect::Phase, "L3"),
    (0x84, "at neutral", Effect::Phase, "N"),
    (0x85, "between phases L1 and L2", Effect::Phase, "L1-L2"),
    (0x86, "between phases L2 and L3", Effect::Phase, "L2-L3"),
    (0x87, "between phases L3 and L1", Effect::Phase, "L3-L1"),
    (0x88, "in quadrant 1", Effect::Tag, ""),
    (0x89, "in quadrant 2", Effect::Tag, ""),
    (0x8A, "in quadrant 3", Effect::Tag, ""),
    (0x8B, "in quadrant 4", Effect::Tag, ""),
    (
        0x8C,
        "difference of import and export",
        Effect::Direction,
        "difference",
    ),
    (0x8F, "reserved", Effect::Block, ""),
    (
        0x90,
        "absolute sum of both directions",
        Effect::Direction,
        "both",
    ),
    (0x91, "data of type C", Effect::Block, ""),
    (0x92, "data of type D", Effect::Block, ""),
    (0x93, "from the partner to the meter", Effect::Tag, ""),
    (0x94, "from the meter to the partner", Effect::Tag, ""),
];

// The VIFE of a table with this number; those after the last row are reserved.
fn vife_in(mut rows: &[(u8, &'static str, Effect, &'static str)], number: u8) -> Vife
    requires { AreShort (map (λ r. row_of r.0 r.1.now r.2 r.3.now) rows.now) }
    ensures exact { vife_view result
        ≡ vife_in (map (λ r. row_of r.0 r.1.now r.2 r.3.now) rows.entry.now) number }
    ensures short { length result.text.now ≤ 16 }
{
    while let [row, rest @ ..] = rows {
        if number <= row.0 {
            let (_, name, effect, text) = *row;
            return Vife { name, effect, text };
        }
        rows = rest;
    }
    Vife {
        name: "reserved",
        effect: Effect::Block,
        text: "",
    }
}

/// The VIFE with this number.
#[tactic(auto, unfolding(crate::specs::Vifes::vife_at))]
pub fn vife_at(number: u8) -> Vife
    ensures exact { vife_view result ≡ vife_at number }
    ensures short { length result.text.now ≤ 16 }
{
    match number {
        0..=0x3F => vife_in(&VIFES, number),
        0x40..=0x6F => vife_in(&LIMIT_VIFES, number),
        _ => vife_in(&LATER_VIFES, number),
    }
}
