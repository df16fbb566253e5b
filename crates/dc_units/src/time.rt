//! Dates and times of data fields (types G and F).

ghost use Rattle.std.specs.Prelude.{◌≡◌, ◌≤◌, length};
ghost use Rattle.dc_units.specs.Date.{type_g, short_year, year_bits, date_in};
ghost use Rattle.dc_units.specs.Time.{type_f, century_year};
ghost use Rattle.dc_units.specs.Value.{on_day, at_minute};

use crate::{Date, Value};

/// The date of two bytes (type G), the lower first.
pub fn day(bytes: &[u8]) -> Value
    requires { length bytes.now ≡ 2 }
    ensures { result ≡ on_day (type_g bytes.now) }
{
    let (low, high) = (bytes[0], bytes[1]);
    match date_in(low, high, short_year(year_bits(low, high))) {
        Some(date) => Value::Day(date),
        None => Value::None,
    }
}

/// The date and time of four bytes (type F), the lowest first.
pub fn minute(bytes: &[u8]) -> Value
    requires { length bytes.now ≡ 4 }
    ensures { result ≡ at_minute (type_f bytes.now) }
{
    let (first, second, low, high) = (bytes[0], bytes[1], bytes[2], bytes[3]);
    let minute = first & 0x3F;
    let hour = second & 0x1F;
    if first >= 0x80 || hour > 23 || minute > 59 {
        return Value::None;
    }
    let year = century_year((second >> 5) & 3, year_bits(low, high));
    match date_in(low, high, year) {
        Some(date) => Value::Minute(date, hour, minute),
        None => Value::None,
    }
}

/// The date of two bytes, once their year is known.
fn date_in(low: u8, high: u8, year: Option<u16>) -> Option<Date>
    ensures { result ≡ date_in low high year }
{
    Date::new(year?, high & 0x0F, low & 0x1F)
}

/// The two digits of the year in two bytes.
fn year_bits(low: u8, high: u8) -> u8
    ensures { result ≡ year_bits low high }
{
    (low >> 5) + 8 * (high >> 4)
}

/// The year that two digits stand for.
fn short_year(digits: u8) -> Option<u16>
    ensures { result ≡ short_year digits }
{
    match digits {
        0..=80 => Some(2000 + u16::from(digits)),
        81..=99 => Some(1900 + u16::from(digits)),
        _ => None,
    }
}

/// The year of a date with a century.
fn century_year(century: u8, digits: u8) -> Option<u16>
    requires { century ≤ 3 }
    ensures { result ≡ century_year century digits }
{
    if century == 0 {
        return short_year(digits);
    }
    if digits > 99 {
        return None;
    }
    Some(1900 + 100 * u16::from(century) + u16::from(digits))
}
