//! The minute of a time stamp in UTC.

ghost use Rattle.std.specs.Prelude.{◌≡◌, ◌≤◌};
ghost use Rattle.mbdc_change.specs.Fields.{last_moment};
ghost use Rattle.dc_units.specs.Date.{Day};
ghost use Rattle.mbdc_shown.specs.Utc.{day_number, last_day, minute_of};

use dc_units::{Date, Value};
use jiff_core::civil;

const SECONDS_A_DAY: u64 = 86_400;

/// The minute of a second since 1970 in UTC, up to the end of the year 9999.
pub fn minute(second: u64) -> Value
    requires { second ≤ last_moment }
    ensures { result ≡ minute_of second }
{
    let day = day(second / SECONDS_A_DAY);
    let hour = second % SECONDS_A_DAY / 3600;
    let minute = second % 3600 / 60;
    Value::Minute(day, hour as u8, minute as u8)
}

// The day that is this many days after 1 January 1970.
fn day(number: u64) -> Date
    requires { number ≤ last_day }
    ensures { result ≡ day_number number }
{
    let found = match civil::Date::from_unix_epoch_day(number as i64) {
        Ok(found) => found,
        Err(_) => unreachable!(),
    };
    match Date::new(found.year as u16, found.month, found.day) {
        Some(date) => date,
        None => unreachable!(),
    }
}
