//! A record and what is read of it as plain numbers.

ghost use Rattle.std.specs.Prelude.{◌≡◌, ◌+◌, ◌<◌, ◌^◌, ◌≤◌, length};
ghost use Rattle.dc_records.specs.Record.{view};
ghost use Rattle.mbdc_reading.specs.Names.{summer_found};
ghost use Rattle.mbdc_library.specs.Header.{count};
ghost use Rattle.mbdc_library.specs.Plain.{data_place, error_of, how_number, is_summer, places_of, plain_record};
ghost use Rattle.mbdc_library.specs.Plain.{plain_value, type_of, unit_of};

use dc_records::Record;
use dc_units::Value;
use mbdc_reading::{Datum, Found, How, Reading, label_of, maker_of, told_of, vifes_of};

/// The numbers of a record (EN 13757-3, data record header), as C lays them out.
#[derive(Clone, Copy)]
#[repr(C)]
pub struct PlainHead {
    pub storage: u64,
    pub tariff: u64,
    pub subunit: u64,
    pub function: u64,
    /// The data field, bits 3 to 0 of the DIF.
    pub field: u64,
    /// The length byte of data field D, else 0.
    pub length: u64,
}

/// Where the parts of a record stand in a body, and how many bytes they have.
#[derive(Clone, Copy)]
#[repr(C)]
pub struct Places {
    /// The place that was asked for.
    pub at: u64,
    /// The value information block.
    pub vib_at: u64,
    pub vib_size: u64,
    /// The data.
    pub data_at: u64,
    pub data_size: u64,
    /// The text of a unit in plain text; at 0 of a unit without one.
    pub label_at: u64,
    pub label_size: u64,
    /// The VIFEs that have names.
    pub vifes_at: u64,
    pub vifes_size: u64,
    /// The manufacturer's bytes; at 0 where there are none.
    pub maker_at: u64,
    pub maker_size: u64,
    /// The place after the record.
    pub next: u64,
}

/// What is read of a record, by the numbers of names.
#[derive(Clone, Copy)]
#[repr(C)]
pub struct PlainReading {
    /// 0 where it isn't read, 1 as the due-date table reads it, 2 by its code alone, 3 by its code and its VIFEs.
    pub how: u64,
    /// The type of its value, from 1; 0 where it has none.
    pub data_type: u64,
    /// The code of its quantity.
    pub quantity: u64,
    /// The code of the unit of a number or flags.
    pub unit: u64,
    /// The VIFE of that unit.
    pub unit_suffix: u64,
    /// Why it has no value; 0 where there is no reason.
    pub error: u64,
    /// The VIFE of its phase.
    pub phase: u64,
    /// The VIFE of its direction.
    pub direction: u64,
    /// 1 where its time is summer time.
    pub summer_time: u64,
}

/// A value.
#[derive(Clone, Copy)]
#[repr(C)]
pub struct PlainValue {
    /// A number is the mantissa times a power of ten.
    pub mantissa: i64,
    pub exponent: i64,
    pub year: u64,
    pub month: u64,
    pub day: u64,
    pub hour: u64,
    pub minute: u64,
    pub second: u64,
    pub flags: u64,
}

/// A record and what is read of it, as C lays it out.
#[derive(Clone, Copy)]
#[repr(C)]
pub struct PlainRecord {
    pub head: PlainHead,
    pub places: Places,
    pub reading: PlainReading,
    pub value: PlainValue,
}

// Where the text of a unit in plain text begins in its block.
const LABEL: u64 = 2;

/// The code of a unit that isn't its quantity's.
pub(crate) const NO_UNIT: u64 = 0xFFFF;

/// The codes of fixed data stand after those of variable data.
pub(crate) const FIXED_CODES: u64 = 0x1_0000;

/// The VIFEs of record errors stand after the other reasons.
pub(crate) const RECORD_ERRORS: u64 = 0x100;

pub(crate) const NO_PLACES: Places = Places {
    at: 0,
    vib_at: 0,
    vib_size: 0,
    data_at: 0,
    data_size: 0,
    label_at: 0,
    label_size: 0,
    vifes_at: 0,
    vifes_size: 0,
    maker_at: 0,
    maker_size: 0,
    next: 0,
};

const NO_VALUE: PlainValue = PlainValue {
    mantissa: 0,
    exponent: 0,
    year: 0,
    month: 0,
    day: 0,
    hour: 0,
    minute: 0,
    second: 0,
    flags: 0,
};

// The value that stands in a record; all numbers are 0 of a record without a value, and of digits, texts and
// identities, which are their bytes.
fn plain_value(found: &Found) -> PlainValue
    ensures { result ≡ plain_value found.now }
{
    let Found::Value(_, datum) = found else {
        return NO_VALUE;
    };
    let (date, hour, minute, second) = match datum {
        Datum::Known(Value::Number(decimal)) => {
            return PlainValue {
                mantissa: decimal.mantissa,
                exponent: i64::from(decimal.exponent),
                ..NO_VALUE
            };
        }
        Datum::Known(Value::Flags { bits, .. }) => {
            return PlainValue {
                flags: *bits,
                ..NO_VALUE
            };
        }
        Datum::Known(Value::Day(date)) => (Some(*date), 0, 0, 0),
        Datum::Known(Value::Minute(date, hour, minute)) => (Some(*date), *hour, *minute, 0),
        Datum::Second(date, hour, minute, second) => (Some(*date), *hour, *minute, *second),
        Datum::Time(hour, minute, second) => (None, *hour, *minute, *second),
        _ => return NO_VALUE,
    };
    let (year, month, day) = match date {
        Some(date) => (
            u64::from(date.year()),
            u64::from(date.month()),
            u64::from(date.day()),
        ),
        None => (0, 0, 0),
    };
    PlainValue {
        year,
        month,
        day,
        hour: u64::from(hour),
        minute: u64::from(minute),
        second: u64::from(second),
        ..NO_VALUE
    }
}

// What is read of data, by the numbers of names.
#[tactic(auto, using(crate::proofs::Tags::type_tag, crate::proofs::Tags::fault_tag))]
fn plain_reading(reading: &Reading, quantity: u64, content: &[u8]) -> PlainReading
    ensures how { result.how ≡ how_number reading.now.how }
    ensures data_type { result.data_type ≡ type_of reading.now.found }
    ensures quantity { result.quantity ≡ quantity }
    ensures unit { result.unit ≡ unit_of reading.now quantity }
    ensures unit_suffix { result.unit_suffix ≡ count reading.now.unit }
    ensures error { result.error ≡ error_of reading.now.found }
    ensures phase { result.phase ≡ count reading.now.phase }
    ensures direction { result.direction ≡ count reading.now.direction }
    ensures summer_time { result.summer_time ≡ is_summer (summer_found reading.now.found content.now) }
{
    let how = match reading.how {
        How::Other => 0,
        How::Point(_) => 1,
        How::Plain => 2,
        How::Qualified => 3,
    };
    let data_type = match reading.found {
        Found::Value(data_type, _) => 1 + data_type as u64,
        _ => 0,
    };
    let error = match reading.found {
        Found::Value(_, Datum::None(fault)) => 1 + fault as u64,
        Found::Failure(number) => RECORD_ERRORS + u64::from(number),
        _ => 0,
    };
    PlainReading {
        how,
        data_type,
        quantity,
        unit: if reading.is_replaced {
            NO_UNIT
        } else {
            quantity
        },
        unit_suffix: u64::from(reading.unit.unwrap_or(0)),
        error,
        phase: u64::from(reading.phase.unwrap_or(0)),
        direction: u64::from(reading.direction.unwrap_or(0)),
        summer_time: u64::from(reading.found.summer_time(content).unwrap_or(false)),
    }
}

/// The places of the parts of a record whose value information block begins there.
pub(crate) fn places_of(at: u64, vib_at: u64, record: &Record<'_>) -> Places
    requires begins { vib_at < 2 ^ 63 }
    requires fits { data_place vib_at (view «record».now) + length «record».now.content.now < 2 ^ 64 }
    ensures { result ≡ places_of at vib_at (view «record».now) }
{
    let size = record.vib.len() as u64;
    let vifes = vifes_of(record.vib).len() as u64;
    let told = told_of(record.vib).len() as u64;
    let data_at = vib_at + size + u64::from(record.field == 0xD);
    let (label_at, label_size) = match label_of(record.vib) {
        Some(label) => (vib_at + LABEL, label.len() as u64),
        None => (0, 0),
    };
    let (maker_at, maker_size) = match maker_of(record.vib) {
        Some(maker) => (vib_at + (size - maker.len() as u64), maker.len() as u64),
        None => (0, 0),
    };
    Places {
        at,
        vib_at,
        vib_size: size,
        data_at,
        data_size: record.content.len() as u64,
        label_at,
        label_size,
        vifes_at: vib_at + (size - vifes),
        vifes_size: told,
        maker_at,
        maker_size,
        next: data_at + record.content.len() as u64,
    }
}

/// A record, its length byte, and what is read of it, by the code of its quantity.
pub(crate) fn plain_record(
    record: &Record<'_>,
    length: u8,
    quantity: u64,
    reading: &Reading,
    places: Places,
) -> PlainRecord
    ensures { result ≡ plain_record (view «record».now) length quantity reading.now places }
{
    PlainRecord {
        head: PlainHead {
            storage: record.storage,
            tariff: u64::from(record.tariff),
            subunit: u64::from(record.subunit),
            function: u64::from(record.function),
            field: u64::from(record.field),
            length: u64::from(length),
        },
        places,
        reading: plain_reading(reading, quantity, record.content),
        value: plain_value(&reading.found),
    }
}
