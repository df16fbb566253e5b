//! The values of data fields, and their texts.

ghost use Rattle.std.specs.Prelude.{◌≡◌, ◌+◌, ◌≤◌, ◌++◌, length, drop, Some, IsAscii};
ghost use Rattle.dc_units.specs.Text.{value_text, minute_text};
ghost use Rattle.dc_units.specs.Value.{day_of};

use crate::room::{TEXT_ROOM, put_byte, put_digits, put_piece};
use crate::{Date, Decimal};
use std::fmt;

/// The value of a data field (EN 13757-3).
#[derive(Clone, Copy)]
pub enum Value {
    Number(Decimal),
    /// Flags in this many bytes; bit 0 is the lowest bit of the first byte sent.
    Flags { len: u8, bits: u64 },
    /// A day.
    Day(Date),
    /// A minute of a day: the hour, 0 to 23, and the minute, 0 to 59.
    Minute(Date, u8, u8),
    /// The meter has no value to give, or none that exists.
    None,
}

impl Value {
    /// The day of a date, or of a date and time.
    pub fn day(&self) -> Option<Date>
        ensures { result ≡ day_of self.now }
    {
        match self {
            Value::Day(date) | Value::Minute(date, _, _) => Some(*date),
            _ => None,
        }
    }

    /// Writes the text, as `{}` prints it, into a room, and returns it.
    #[inline(always)]
    pub fn write_into<'r>(&self, room: &'r mut [u8]) -> &'r [u8]
        requires { TEXT_ROOM ≤ length room.old }
        ensures text { result.now ≡ value_text self.now }
        ensures ascii { IsAscii result.now }
        ensures short { length result.now ≤ TEXT_ROOM }
    {
        let end = room.len();
        let start = self.put(room, end);
        let (_, text) = room.split_at(start);
        text
    }

    /// Writes the text so that it ends at `end`, and says where it begins.
    #[inline(always)]
    #[tactic(auto, using(crate::proofs::Ascii::value_texts))]
    pub fn put(&self, room: &mut [u8], end: usize) -> usize
        requires { (TEXT_ROOM ≤ end) × (end ≤ length room.old) }
        ensures start { (result ≤ end) × (end ≤ result + TEXT_ROOM) }
        ensures written { drop result room.new ≡ value_text self.now ++ drop end room.old }
        ensures ascii { IsAscii (value_text self.now) }
    {
        match self {
            Value::Number(decimal) => decimal.put(room, end),
            Value::Flags { len, bits } => {
                let count = 2 * usize::from(*len);
                put_digits(16, count, *bits, room, end);
                end - count
            }
            Value::Day(date) => date.put(room, end),
            Value::Minute(date, hour, minute) => put_minute(date, *hour, *minute, room, end),
            Value::None => put_piece(b"none", room, end),
        }
    }
}

/// Writes a minute of a day, as `2025-01-31T23:59`.
fn put_minute(date: &Date, hour: u8, minute: u8, room: &mut [u8], end: usize) -> usize
    requires { (16 ≤ end) × (end ≤ length room.old) }
    ensures start { result + 16 ≡ end }
    ensures written { drop result room.new ≡ minute_text date.now hour minute ++ drop end room.old }
{
    put_digits(10, 2, u64::from(minute), room, end);
    put_byte(b':', room, end - 2);
    put_digits(10, 2, u64::from(hour), room, end - 3);
    put_byte(b'T', room, end - 5);
    date.put(room, end - 6)
}

impl fmt::Display for Value {
    ghost output = { λ v. Some (value_text v) };

    fn fmt<W: fmt::Write>(&self, f: &mut fmt::Formatter<W>) -> fmt::Result {
        let mut room = [0u8; TEXT_ROOM];
        match str::from_utf8(self.write_into(&mut room)) {
            Ok(text) => f.write_str(text),
            Err(_) => unreachable!(),
        }
    }
}
