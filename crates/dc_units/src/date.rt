//! Days of the calendar.

ghost use Rattle.std.specs.Prelude.{◌≡◌, ◌↔◌, ◌≤◌, ◌+◌, length, Some, pos, IfSome, IsSome, IsTrue};
ghost use Rattle.std.specs.Prelude.{ℕ, drop, ◌++◌};
ghost use Rattle.jiff.specs.Words.{IsDate};
ghost use Rattle.dc_units.specs.Date.{Day, date_of, exists};
ghost use Rattle.dc_units.specs.Text.{day_text};

use crate::Value;
use crate::pairs::pair;
use crate::room::{put_byte, put_digits};
use jiff::civil;
use std::fmt;
use std::marker::Model;

/// A day of the calendar that ISO 8601 extends to every year, in the years 0 to 9999.
#[derive(Clone, Copy, PartialEq, Eq, PartialOrd, Ord)]
pub struct Date {
    pub year: u16,
    pub month: u8,
    pub day: u8,
}

impl Model for Date {
    ghost use Rattle.std.specs.Prelude.{IsTrue};
    ghost use Rattle.dc_units.specs.Date.{Day, exists};

    ghost Value = { Day };

    ghost view = { λ d. record { year = d.year; month = d.month; day = d.day } };

    ghost invariant = { λ d. IsTrue (exists d.year d.month d.day) };

    ghost inverse = { λ d. record { year = d.year; month = d.month; day = d.day } };
}

impl Date {
    /// The date with these numbers (months and days from 1), where the calendar has it.
    pub fn new(year: u16, month: u8, day: u8) -> Option<Date>
        ensures exact { result ≡ date_of year month day }
        ensures calendar { IsSome result ↔ IsDate (pos year) (pos month) (pos day) }
    {
        if year > 9999 || month > 12 || day > 31 {
            return None;
        }
        match civil::Date::new(year as i16, month as i8, day as i8) {
            Ok(_) => Some(Date { year, month, day }),
            Err(_) => None,
        }
    }

    /// The date that a text spells, as `2024-12-31`; none where it spells none, or the calendar lacks the day. Each
    /// date has one text.
    pub fn parse_text(text: &[u8]) -> Option<Date>
        ensures found { IfSome result (λ date. text.now ≡ day_text date) }
        ensures only { (date : Day) → IsTrue (exists date.year date.month date.day)
            → text.now ≡ day_text date → result ≡ Some date }
    {
        if text.len() != 10 || text[4] != b'-' || text[7] != b'-' {
            return None;
        }
        let century = pair(text[0], text[1])?;
        let year = pair(text[2], text[3])?;
        let month = pair(text[5], text[6])?;
        let day = pair(text[8], text[9])?;
        Date::new(100 * u16::from(century) + u16::from(year), month, day)
    }

    /// The year, 0 to 9999.
    pub fn year(&self) -> u16
        ensures value { result ≡ self.now.year }
        ensures small { result ≤ 9999 }
    {
        self.year
    }

    /// The month, 1 to 12.
    pub fn month(&self) -> u8
        ensures { result ≡ self.now.month }
    {
        self.month
    }

    /// The day of the month, from 1.
    pub fn day(&self) -> u8
        ensures { result ≡ self.now.day }
    {
        self.day
    }

    /// Writes the text, as `2024-12-31`, so that it ends at `end`, and says where it begins.
    pub(crate) fn put(&self, room: &mut [u8], end: usize) -> usize
        requires { (10 ≤ end) × (end ≤ length room.old) }
        ensures start { result + 10 ≡ end }
        ensures written { drop result room.new ≡ day_text self.now ++ drop end room.old }
    {
        let Date { year, month, day } = *self;
        put_digits(10, 2, u64::from(day), room, end);
        put_byte(b'-', room, end - 2);
        put_digits(10, 2, u64::from(month), room, end - 3);
        put_byte(b'-', room, end - 5);
        put_digits(10, 4, u64::from(year), room, end - 6);
        end - 10
    }
}

impl fmt::Display for Date {
    ghost output = { λ d. Some (day_text d) };

    fn fmt<W: fmt::Write>(&self, f: &mut fmt::Formatter<W>) -> fmt::Result {
        Value::Day(*self).fmt(f)
    }
}
