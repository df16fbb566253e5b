//! What is read of a record.

ghost use Rattle.std.specs.Prelude.{◌≡◌};
ghost use Rattle.dc_records.specs.Record.{view};
ghost use Rattle.mbdc_reading.specs.Reading.{reading_of, read, meant_by, read_point, reading_with};

use crate::codes::number_of;
use crate::form::{DataType, form_of, type_of};
use crate::meaning::{Meaning, meaning_of};
use crate::parts::vifes_of;
use crate::value::{Datum, NoValue, value_of};
use dc_records::Record;
use dc_units::{Point, Quantity, Seen, Value, point_of};

/// By which table a record is read.
#[derive(Clone, Copy)]
pub enum How {
    /// As the due-date table reads it.
    Point(Quantity),
    /// By its code alone.
    Plain,
    /// By its code and its VIFEs.
    Qualified,
    /// It isn't read.
    Other,
}

/// What stands in a record.
#[derive(Clone, Copy)]
pub enum Found {
    /// A record error, by the number of its VIFE.
    Failure(u8),
    Value(DataType, Datum),
    Nothing,
}

/// What is read of a record: by which table, its value, and the numbers of the VIFEs of its unit, its direction and its
/// phase. `is_replaced` says that the unit isn't the code's.
#[derive(Clone, Copy)]
pub struct Reading {
    pub how: How,
    pub found: Found,
    pub is_replaced: bool,
    pub unit: Option<u8>,
    pub direction: Option<u8>,
    pub phase: Option<u8>,
}

// A point of the due-date table; where it has no value, why.
fn read_point(record: &Record<'_>, point: &Point) -> Reading
    ensures { result ≡ read_point (view «record».now) point.now }
{
    let data_type = match point.quantity {
        Quantity::Date => DataType::Date,
        Quantity::DateTime => DataType::Minute,
        Quantity::ErrorFlags => DataType::Flags,
        _ => DataType::Number,
    };
    let form = form_of(record.field, 0, record.content.len());
    let datum = match (point.value, value_of(data_type, form, 0, record.content)) {
        (Value::None, Datum::None(fault)) => Datum::None(fault),
        (Value::None, _) => Datum::None(NoValue::Invalid),
        (value, _) => Datum::Known(value),
    };
    Reading {
        how: How::Point(point.quantity),
        found: Found::Value(data_type, datum),
        is_replaced: false,
        unit: None,
        direction: None,
        phase: None,
    }
}

// What is read of a record with this meaning, in which this stands.
fn reading_with(record: &Record<'_>, meaning: Meaning, found: Found) -> Reading
    ensures { result ≡ reading_with (view «record».now) meaning found }
{
    let how = match vifes_of(record.vib) {
        [] => How::Plain,
        _ => How::Qualified,
    };
    Reading {
        how,
        found,
        is_replaced: meaning.is_replaced,
        unit: meaning.unit,
        direction: meaning.direction,
        phase: meaning.phase,
    }
}

// A record by its code and its VIFEs, where its kind is read in data of its form.
fn meant_by(record: &Record<'_>, length: u8, meaning: Meaning) -> Option<Reading>
    ensures { result ≡ meant_by (view «record».now) length meaning }
{
    let form = form_of(record.field, length, record.content.len());
    if let Some(number) = meaning.failure {
        return Some(reading_with(record, meaning, Found::Failure(number)));
    }
    match type_of(meaning.kind, form, record.content.len()) {
        Some(data_type) => {
            let datum = value_of(data_type, form, meaning.exponent, record.content);
            Some(reading_with(record, meaning, Found::Value(data_type, datum)))
        }
        None => None,
    }
}

// What is read of a record: as the due-date table reads it, else by its code and its VIFEs.
fn read(record: &Record<'_>, length: u8) -> Option<Reading>
    ensures { result ≡ read (view «record».now) length }
{
    match point_of(record) {
        Seen::Point(point) => Some(read_point(record, &point)),
        Seen::Other => {
            let meaning = meaning_of(number_of(record.vib), vifes_of(record.vib))?;
            meant_by(record, length, meaning)
        }
    }
}

/// What is read of a record with this length byte of data field D (0 for other fields): as the due-date table reads it,
/// else by its code and its VIFEs. It isn't read where one of them isn't known, or where the data have another form.
#[tactic(auto, unfolding(crate::specs::Reading::reading_of))]
pub fn reading_of(record: &Record<'_>, length: u8) -> Reading
    ensures { result ≡ reading_of (view «record».now) length }
{
    match read(record, length) {
        Some(reading) => reading,
        None => Reading {
            how: How::Other,
            found: Found::Nothing,
            is_replaced: false,
            unit: None,
            direction: None,
            phase: None,
        },
    }
}
