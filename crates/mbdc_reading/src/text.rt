//! The texts of readings.

ghost use Rattle.std.specs.Prelude.{◌≡◌, ◌+◌, ◌*◌, ◌≤◌, ◌++◌, length, drop, option_map};
ghost use Rattle.mbdc_reading.specs.Text.{latin1_text, hex_text, datum_text, unit_text, joined};
ghost use Rattle.mbdc_reading.specs.Text.{code_unit, text_at, value_text_of, label_text, room_needed};

use crate::codes::{code_at, number_of};
use crate::form::DataType;
use crate::parts::label_of;
use crate::reading::{Found, How, Reading};
use crate::value::Datum;
use crate::vifes::vife_at;
use dc_units::{Value, put_byte, put_digits, put_piece};

/// The longest text of a reading has this many bytes at most.
pub const READING_ROOM: usize = 1024;

// Writes characters of ISO 8859-1 in UTF-8, of which the last is sent first, just before `end`, and says where they begin.
fn put_latin1(text: &[u8], room: &mut [u8], end: usize) -> usize
    requires { (2 * length text.now ≤ end) × (end ≤ length room.old) }
    ensures start { (result ≤ end) × (end ≤ result + 2 * length text.now) }
    ensures written { drop result room.new ≡ latin1_text text.now ++ drop end room.old }
{
    match text {
        [] => end,
        [byte @ 0..0x80, others @ ..] => {
            put_byte(*byte, room, end);
            put_latin1(others, room, end - 1)
        }
        [byte, others @ ..] => {
            put_byte(0x80 + byte % 64, room, end);
            put_byte(0xC0 + byte / 64, room, end - 1);
            put_latin1(others, room, end - 2)
        }
    }
}

// Writes bytes of which the last is sent first in hex digits, just before `end`, and says where they begin.
fn put_hex(bytes: &[u8], room: &mut [u8], end: usize) -> usize
    requires { (2 * length bytes.now ≤ end) × (end ≤ length room.old) }
    ensures start { (result ≤ end) × (end ≤ result + 2 * length bytes.now) }
    ensures written { drop result room.new ≡ hex_text bytes.now ++ drop end room.old }
{
    match bytes {
        [] => end,
        [byte, others @ ..] => {
            put_digits(16, 2, u64::from(*byte), room, end);
            put_hex(others, room, end - 2)
        }
    }
}

// Writes a value just before `end`, and says where it begins.
fn put_datum(datum: &Datum, content: &[u8], room: &mut [u8], end: usize) -> usize
    requires place { (room_needed ≤ end) × (end ≤ length room.old) }
    requires few { length content.now ≤ 191 }
    ensures start { result ≤ end }
    ensures written { drop result room.new ≡ datum_text datum.now content.now ++ drop end room.old }
{
    match datum {
        Datum::Known(value) => value.put(room, end),
        Datum::Second(date, hour, minute, second) => {
            put_digits(10, 2, u64::from(*second), room, end);
            put_byte(b':', room, end - 2);
            Value::Minute(*date, *hour, *minute).put(room, end - 3)
        }
        Datum::Time(hour, minute, second) => {
            put_digits(10, 2, u64::from(*second), room, end);
            put_byte(b':', room, end - 2);
            put_digits(10, 2, u64::from(*minute), room, end - 3);
            put_byte(b':', room, end - 5);
            put_digits(10, 2, u64::from(*hour), room, end - 6);
            end - 8
        }
        Datum::Digits => put_hex(content, room, end),
        Datum::Text => put_latin1(content, room, end),
        Datum::Letters(identity) => put_piece(&identity.text()[9..12], room, end),
        Datum::Identity(identity) => put_piece(&identity.text(), room, end),
        Datum::None(_) => end,
    }
}

// Writes a unit just before `end`: characters as they are sent, a text, and the text of a VIFE, which may stand alone;
// says where it begins.
fn put_joined(label: &[u8], base: &[u8], suffix: &[u8], room: &mut [u8], end: usize) -> usize
    requires place { (room_needed ≤ end) × (end ≤ length room.old) }
    requires label { length label.now ≤ 191 }
    requires base { length base.now ≤ 16 }
    requires suffix { length suffix.now ≤ 16 }
    ensures start { result ≤ end }
    ensures written { drop result room.new ≡ joined label.now base.now suffix.now ++ drop end room.old }
{
    match (label, base, suffix) {
        ([], [], [b'/', ..]) => {
            let start = put_piece(suffix, room, end);
            put_byte(b'1', room, start);
            start - 1
        }
        ([], [], [b'*', rest @ ..]) => put_piece(rest, room, end),
        ([], [], _) => put_piece(suffix, room, end),
        _ => {
            let start = put_piece(suffix, room, end);
            let start = put_piece(base, room, start);
            put_latin1(label, room, start)
        }
    }
}

// Writes a unit, and returns it.
fn write_joined<'r>(label: &[u8], base: &[u8], suffix: &[u8], room: &'r mut [u8]) -> &'r [u8]
    requires place { room_needed ≤ length room.old }
    requires label { length label.now ≤ 191 }
    requires base { length base.now ≤ 16 }
    requires suffix { length suffix.now ≤ 16 }
    ensures { result.now ≡ joined label.now base.now suffix.now }
{
    let end = room.len();
    let start = put_joined(label, base, suffix, room, end);
    let (_, text) = room.split_at(start);
    text
}

// The text of a VIFE; empty for none.
pub(crate) fn text_at(number: Option<u8>) -> &'static str
    ensures value { result.now ≡ text_at number }
    ensures short { length result.now ≤ 16 }
{
    match number {
        Some(number) => vife_at(number).text,
        None => "",
    }
}

// Writes the unit of a block's code with the text of a VIFE, or that text alone where it replaces the unit.
#[tactic(auto, unfolding(crate::specs::Text::code_unit))]
fn code_unit<'r>(replaced: bool, vib: &[u8], suffix: &[u8], room: &'r mut [u8]) -> &'r [u8]
    requires place { room_needed ≤ length room.old }
    requires suffix { length suffix.now ≤ 16 }
    ensures { result.now ≡ code_unit replaced vib.now suffix.now }
{
    if replaced {
        return write_joined(b"", b"", suffix, room);
    }
    match label_of(vib) {
        Some(label) => write_joined(label, b"", suffix, room),
        None => write_joined(b"", code_at(number_of(vib)).unit.as_bytes(), suffix, room),
    }
}

/// Writes the unit of a reading of a block into a room, and returns it; empty where it has none: numbers and flags have
/// one, unless none is known.
#[tactic(auto, using(crate::proofs::Units::short_unit), unfolding(crate::specs::Text::unit_text))]
pub fn unit_text<'r>(reading: &Reading, vib: &[u8], room: &'r mut [u8]) -> &'r [u8]
    requires { READING_ROOM ≤ length room.old }
    ensures { result.now ≡ unit_text reading.now vib.now }
{
    let suffix = text_at(reading.unit).as_bytes();
    match reading.how {
        How::Point(quantity) => write_joined(b"", quantity.unit().as_bytes(), suffix, room),
        _ => match reading.found {
            Found::Value(DataType::Number | DataType::Flags, _) => {
                code_unit(reading.is_replaced, vib, suffix, room)
            }
            _ => &[],
        },
    }
}

/// Writes the value of a reading of data into a room, and returns it; none where it has none.
#[tactic(auto, unfolding(crate::specs::Text::value_text_of))]
pub fn value_text<'r>(reading: &Reading, content: &[u8], room: &'r mut [u8]) -> Option<&'r [u8]>
    requires { READING_ROOM ≤ length room.old }
    ensures { option_map (λ s. s.now) result ≡ value_text_of reading.now content.now }
{
    if content.len() > 191 {
        return None;
    }
    match reading.found {
        Found::Value(_, Datum::None(_)) | Found::Failure(_) | Found::Nothing => None,
        Found::Value(_, datum) => {
            let end = room.len();
            let start = put_datum(&datum, content, room, end);
            let (_, text) = room.split_at(start);
            Some(text)
        }
    }
}

/// Writes decimal digits of which the last two are sent first into a room, and returns them.
pub fn digits_text<'r>(content: &[u8], room: &'r mut [u8]) -> &'r [u8]
    requires { 2 * length content.now ≤ length room.old }
    ensures { result.now ≡ hex_text content.now }
{
    let end = room.len();
    let start = put_hex(content, room, end);
    let (_, text) = room.split_at(start);
    text
}

/// Writes the text of a unit in plain text into a room, and returns it; none of another unit.
#[tactic(auto, unfolding(crate::specs::Text::label_text))]
pub fn label_text<'r>(vib: &[u8], room: &'r mut [u8]) -> Option<&'r [u8]>
    requires { READING_ROOM ≤ length room.old }
    ensures { option_map (λ s. s.now) result ≡ label_text vib.now }
{
    let label = label_of(vib)?;
    let end = room.len();
    let start = put_latin1(label, room, end);
    let (_, text) = room.split_at(start);
    Some(text)
}
