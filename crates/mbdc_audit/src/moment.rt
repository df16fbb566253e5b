//! Days, and the moments at their ends.

ghost use Rattle.std.specs.Prelude.{◌≡◌, ◌↔◌, ◌+◌, IsTrue, Some};
ghost use Rattle.dc_units.specs.Date.{Day};
ghost use Rattle.mbdc_audit.specs.Moment.{date_in, end_of, minutes_in, number_of, number_of_day};

use crate::smallest::whole_in;
use dc_units::{Date, Value};

/// Seconds of a day.
pub const DAY: u64 = 86_400;

const SECONDS_OF_MINUTE: u64 = 60;

const SECONDS_OF_HOUR: u64 = 3_600;

// The number of 1 January 1970, where 1 March of the year 0 has the number 1.
const EPOCH: u64 = 719_469;

/// The offset of UTC itself: an offset counts minutes from a week behind UTC, so that none is negative.
pub const WEEK: u16 = 10_080;

// Most minutes that a field spells.
const END_OF_MINUTES: u64 = 10_000;

/// The end of a day: its number since 1970, its minutes ahead of a week behind UTC, and both fields as they are
/// spelled.
#[derive(Clone, Copy)]
pub struct DayEnd<'a> {
    pub day: u32,
    pub offset: u16,
    pub spelled: (&'a [u8], &'a [u8]),
}

/// The number of a day since 1970: years begin in March, so that a leap day is a year's last. None before 1970.
pub fn day_number(date: &Date) -> Option<u32>
    ensures { result ≡ number_of_day date.now }
{
    let (year, month) = (u64::from(date.year()), u64::from(date.month()));
    let (year, month) = if month < 3 {
        (year.saturating_sub(1), month + 9)
    } else {
        (year, month - 3)
    };
    let leap_days = (year / 4 + year / 400).saturating_sub(year / 100);
    let days = 365 * year + leap_days + (153 * month + 2) / 5 + u64::from(date.day());
    Some(days.checked_sub(EPOCH)? as u32)
}

/// Whether a date is the day after this one.
pub fn is_after(date: Option<Date>, day: u32) -> bool
    ensures { IsTrue result ↔ ((d : Day) × (date ≡ Some d) × (number_of d ≡ day + 1)) }
{
    let Some(date) = date else {
        return false;
    };
    match day_number(&date) {
        Some(number) => u64::from(number) == u64::from(day) + 1,
        None => false,
    }
}

/// The offset that a field spells: minutes, with `-` before them where they are behind UTC.
pub fn offset_in(field: &[u8]) -> Option<u64>
    ensures { result ≡ minutes_in field.now }
{
    let (is_behind, digits) = match field {
        [b'-', digits @ ..] => (true, digits),
        _ => (false, field),
    };
    let minutes = whole_in(digits)?;
    if minutes >= END_OF_MINUTES {
        return None;
    }
    let week = u64::from(WEEK);
    Some(if is_behind {
        week - minutes
    } else {
        week + minutes
    })
}

impl DayEnd<'_> {
    /// The moment at the end of the day; 0 before 1970.
    pub fn moment(self) -> u64
        ensures { result ≡ end_of self.entry }
    {
        let local = DAY * (u64::from(self.day) + 1) + SECONDS_OF_MINUTE * u64::from(WEEK);
        local.saturating_sub(SECONDS_OF_MINUTE * u64::from(self.offset))
    }
}

/// What a record of a date says: the day that it ends, and its second where it has a time. 00:00 ends the day before.
#[derive(Clone, Copy)]
pub struct Dated {
    pub day: u64,
    pub second: Option<u64>,
}

/// The day and the second of a value that is a date.
pub fn date_in(value: &Value) -> Option<Dated>
    ensures { result ≡ date_in value.now }
{
    match value {
        Value::Day(date) => Some(Dated {
            day: u64::from(day_number(date)?),
            second: None,
        }),
        Value::Minute(date, hour, minute) => {
            let day = u64::from(day_number(date)?);
            let time = SECONDS_OF_HOUR * u64::from(*hour) + SECONDS_OF_MINUTE * u64::from(*minute);
            let second = Some(day * DAY + time);
            let day = if time == 0 { day.checked_sub(1)? } else { day };
            Some(Dated { day, second })
        }
        _ => None,
    }
}
