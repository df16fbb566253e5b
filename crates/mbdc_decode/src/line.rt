//! Lines in one piece, put together from their end on, so that each takes one put.

ghost use Rattle.std.specs.Prelude.{◌≡◌, ◌+◌, ◌-◌, ◌*◌, ◌≤◌, ◌++◌, codes, decimal, length, drop};
ghost use Rattle.std.specs.Prelude.{IsTrue};
ghost use Rattle.dc_units.specs.Quantity.{unit_of};
ghost use Rattle.dc_records.specs.Record.{view};
ghost use Rattle.mbdc_io.specs.Hex.{upper_hex};
ghost use Rattle.mbdc_io.specs.Words.{number_word, byte_word, hex_word};
ghost use Rattle.mbdc_decode.specs.Seen.{unit_word, seen_text};
ghost use Rattle.mbdc_decode.specs.Telegram.{record_line};

use dc_records::Record;
use dc_units::{Quantity, Seen, TEXT_ROOM, Value, point_of, put_byte, put_piece};
use itoa::write_digits;
use mbdc_io::pair_of;

// Most VIBs and data have no more bytes than these.
const FEW: usize = 16;

/// Room for the line of a record whose VIB and data have few bytes.
pub const LINE_ROOM: usize = 704;

/// Room for a line of a few words.
pub const WORDS_ROOM: usize = 80;

// Room for the digits of a number.
const DIGITS_ROOM: usize = 20;

// Room for a space and a number.
const NUMBER_ROOM: usize = 1 + DIGITS_ROOM;

// Number of bytes of a space and the longest unit.
const UNIT_ROOM: usize = 11;

// Room for a value and its unit.
const POINT_ROOM: usize = TEXT_ROOM + UNIT_ROOM;

// Each unit after a space, right-aligned, and the length of both; in the order of the quantities.
static UNITS: [([u8; UNIT_ROOM], u8); 21] = [
    (*b"         Wh", 3),
    (*b"          J", 2),
    (*b"        MWh", 4),
    (*b"         GJ", 3),
    (*b"         m3", 3),
    (*b"         kg", 3),
    (*b"          W", 2),
    (*b"        J/h", 4),
    (*b"       m3/h", 5),
    (*b"     m3/min", 7),
    (*b"       m3/s", 5),
    (*b"       kg/h", 5),
    (*b"     C-flow", 7),
    (*b"   C-return", 9),
    (*b"          K", 2),
    (*b" C-external", 11),
    (*b"        bar", 4),
    (*b"           ", 1),
    (*b"           ", 1),
    (*b"        HCA", 4),
    (*b"      flags", 6),
];

/// Whether a record's VIB and data have few bytes.
#[inline(always)]
pub fn has_few(found: &Record<'_>) -> bool
    ensures vib { IsTrue result → length found.now.vib.now ≤ FEW }
    ensures content { IsTrue result → length found.now.content.now ≤ FEW }
{
    found.vib.len() <= FEW && found.content.len() <= FEW
}

// Writes a number just before `end`, and returns where it begins.
#[inline(always)]
#[tactic(auto, using(std::proofs::lemmas::Fmt::decimal_digit))]
fn put_digits_before(number: u64, room: &mut [u8], end: usize) -> usize
    requires { (DIGITS_ROOM ≤ end) × (end ≤ length room.old) }
    ensures start { (result ≤ end) × (end ≤ result + DIGITS_ROOM) }
    ensures written { drop result room.new ≡ decimal number ++ drop end room.old }
{
    // Most numbers of a telegram have one digit.
    if number < 10 {
        put_byte(b'0' + number as u8, room, end);
        return end - 1;
    }
    write_digits(number, room, end)
}

/// Writes a space and a number just before `end`, and returns where they begin.
#[inline(always)]
pub fn put_number_before(number: u64, room: &mut [u8], end: usize) -> usize
    requires { (NUMBER_ROOM ≤ end) × (end ≤ length room.old) }
    ensures start { (result ≤ end) × (end ≤ result + NUMBER_ROOM) }
    ensures written { drop result room.new ≡ number_word number ++ drop end room.old }
{
    let start = put_digits_before(number, room, end);
    put_byte(b' ', room, start);
    start - 1
}

/// Writes a space and a byte in two capital hex digits just before `end`, and returns where they begin.
#[inline(always)]
pub fn put_byte_word_before(byte: u8, room: &mut [u8], end: usize) -> usize
    requires { (3 ≤ end) × (end ≤ length room.old) }
    ensures start { result + 3 ≡ end }
    ensures written { drop result room.new ≡ byte_word byte ++ drop end room.old }
{
    let [high, low] = pair_of(byte);
    put_piece(&[b' ', high, low], room, end)
}

// Writes bytes in capital hex digits just before `end`, the last byte first, and returns where they begin.
#[inline(always)]
fn put_hex_before(bytes: &[u8], room: &mut [u8], end: usize) -> usize
    requires { (2 * length bytes.now ≤ end) × (end ≤ length room.old) }
    ensures start { result + 2 * length bytes.now ≡ end }
    ensures written { drop result room.new ≡ upper_hex bytes.now ++ drop end room.old }
{
    'bytes: for i in 0..bytes.len() {
        let [high, low] = pair_of(bytes[bytes.len() - 1 - i]);
        put_byte(low, room, end - 2 * i);
        put_byte(high, room, end - 2 * i - 1);
    }
    end - 2 * bytes.len()
}

// Writes a space and bytes in capital hex digits, or `-` for no bytes, just before `end`, and returns where they begin.
#[inline(always)]
#[tactic(auto, using(mbdc_io::proofs::Digits::words))]
fn put_hex_word_before(bytes: &[u8], room: &mut [u8], end: usize) -> usize
    requires { (2 + 2 * length bytes.now ≤ end) × (end ≤ length room.old) }
    ensures start { (result ≤ end) × (end ≤ result + 2 + 2 * length bytes.now) }
    ensures written { drop result room.new ≡ hex_word bytes.now ++ drop end room.old }
{
    if bytes.is_empty() {
        return put_piece(b" -", room, end);
    }
    let start = put_hex_before(bytes, room, end);
    put_byte(b' ', room, start);
    start - 1
}

// The row of a quantity: its unit after a space, right-aligned, and the length of both.
#[inline(always)]
fn unit_row(quantity: Quantity) -> &'static ([u8; UNIT_ROOM], u8)
    ensures few { result.now.1 ≤ UNIT_ROOM }
    ensures text { drop (UNIT_ROOM - result.now.1) result.now.0 ≡ codes " " ++ unit_of quantity }
{
    &UNITS[quantity as usize]
}

// Writes a space and a unit just before `end`, and returns where they begin. A copy of constant size is cheaper than
// one of the unit's length.
#[inline(always)]
fn put_unit_text_before(quantity: Quantity, room: &mut [u8], end: usize) -> usize
    requires { (UNIT_ROOM ≤ end) × (end ≤ length room.old) }
    ensures start { (result ≤ end) × (end ≤ result + UNIT_ROOM) }
    ensures written { drop result room.new ≡ codes " " ++ unit_of quantity ++ drop end room.old }
{
    let (text, len) = unit_row(quantity);
    put_piece(text, room, end);
    end - usize::from(*len)
}

// Writes the unit of a number or of flags just before `end`, and returns where it begins.
#[inline(always)]
fn put_unit_before(value: &Value, quantity: Quantity, room: &mut [u8], end: usize) -> usize
    requires { (UNIT_ROOM ≤ end) × (end ≤ length room.old) }
    ensures start { (result ≤ end) × (end ≤ result + UNIT_ROOM) }
    ensures written { drop result room.new ≡ unit_word value.now quantity ++ drop end room.old }
{
    match value {
        Value::Number(_) | Value::Flags { .. } => put_unit_text_before(quantity, room, end),
        Value::Day(_) | Value::Minute(..) | Value::None => end,
    }
}

// Writes a point, or that the record has no point, just before `end`, and returns where it begins.
#[inline(always)]
#[tactic(auto, unfolding(crate::specs::Seen::point_text))]
fn put_answer_before(seen: &Seen, room: &mut [u8], end: usize) -> usize
    requires { (POINT_ROOM ≤ end) × (end ≤ length room.old) }
    ensures start { (result ≤ end) × (end ≤ result + POINT_ROOM) }
    ensures written { drop result room.new ≡ seen_text seen.now ++ drop end room.old }
{
    match seen {
        Seen::Point(point) => {
            let end = put_unit_before(&point.value, point.quantity, room, end);
            point.value.put(room, end)
        }
        Seen::Other => put_piece(b"other", room, end),
    }
}

/// Writes the line of a record with few bytes so that it ends with the room, and returns where it begins.
#[inline(always)]
#[tactic(auto, unfolding(crate::specs::Telegram::record_line, crate::specs::Telegram::record_words, crate::specs::Seen::seen_word))]
pub fn put_line_before(found: &Record<'_>, room: &mut [u8]) -> usize
    requires room { LINE_ROOM ≤ length room.old }
    requires vib { length found.now.vib.now ≤ FEW }
    requires content { length found.now.content.now ≤ FEW }
    ensures start { result ≤ length room.new }
    ensures written { drop result room.new ≡ record_line (view found.now) }
{
    let end = room.len();
    put_byte(b'\n', room, end);
    let end = put_answer_before(&point_of(found), room, end - 1);
    let end = put_piece(b" = ", room, end);
    let end = put_hex_word_before(found.content, room, end);
    let end = put_hex_word_before(found.vib, room, end);
    let end = put_number_before(u64::from(found.function), room, end);
    let end = put_number_before(u64::from(found.subunit), room, end);
    let end = put_number_before(u64::from(found.tariff), room, end);
    let end = put_number_before(found.storage, room, end);
    put_piece(b"RECORD", room, end)
}
