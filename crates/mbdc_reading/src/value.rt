//! The values of data.

ghost use Rattle.std.specs.Prelude.{◌≡◌, ◌≤◌, length, IsTrue, option_map};
ghost use Rattle.mbdc_reading.specs.Form.{fits};
ghost use Rattle.mbdc_reading.specs.Value.{real_in, whole, magnitude, number_in, scaled_by, clock_fault, day_in};
ghost use Rattle.mbdc_reading.specs.Value.{minute_in};
ghost use Rattle.mbdc_reading.specs.Value.{second_in, time_in, identity_at, identity_in, letters_in};
ghost use Rattle.mbdc_reading.specs.Value.{digits_in, value_of};

use crate::form::{DataType, Form};
use crate::meaning::fitting;
use dc_address::Identity;
use dc_records::Header;
use dc_units::{Date, Decimal, Value, bcd, digits_after, integer, unsigned};

/// Why data have no value.
#[derive(Clone, Copy)]
pub enum NoValue {
    Invalid,
    Digit,
    NotANumber,
    Infinite,
    Sign,
    NoTime,
    NoDate,
    NoLetters,
    OutOfRange,
}

/// A value of data; digits and texts are the data themselves.
#[derive(Clone, Copy)]
pub enum Datum {
    /// A number, flags, a date or a minute.
    Known(Value),
    /// A second of a day: its date, hour, minute and second.
    Second(Date, u8, u8, u8),
    /// A time of day: its hour, minute and second.
    Time(u8, u8, u8),
    Digits,
    Text,
    /// The manufacturer of this identity.
    Letters(Identity),
    Identity(Identity),
    None(NoValue),
}

// A REAL of four bytes.
fn real_in(content: &[u8]) -> Result<Decimal, NoValue>
    ensures { result ≡ real_in content.now }
{
    let [a, b, c, d] = content else {
        return Err(NoValue::Invalid);
    };
    let bits = u32::from(*a) + 256 * (u32::from(*b) + 256 * (u32::from(*c) + 256 * u32::from(*d)));
    match crate::real::real_of(bits) {
        Some(decimal) => Ok(decimal),
        None => {
            if bits % 0x80_0000 == 0 {
                return Err(NoValue::Infinite);
            }
            Err(NoValue::NotANumber)
        }
    }
}

// A whole number, or why it isn't one.
fn whole(number: Option<i64>, fault: NoValue) -> Result<Decimal, NoValue>
    ensures { result ≡ whole number fault }
{
    match number {
        Some(mantissa) => Ok(Decimal {
            mantissa,
            exponent: 0,
        }),
        None => Err(fault),
    }
}

// The number of counted digits in BCD.
#[tactic(auto, using(crate::proofs::Powers::room_for_digits))]
fn magnitude(content: &[u8]) -> Option<i64>
    requires { length content.now ≤ 9 }
    ensures { result ≡ magnitude content.now }
{
    match digits_after(0, content) {
        Some(number) => Some(number as i64),
        None => None,
    }
}

// The number in data of this form.
fn number_in(form: Form, content: &[u8]) -> Result<Decimal, NoValue>
    requires { IsTrue (fits form (length content.now)) }
    ensures { result ≡ number_in form content.now }
{
    match form {
        Form::Integer => whole(integer(content), NoValue::Invalid),
        Form::Real => real_in(content),
        Form::Bcd => whole(bcd(content), NoValue::Digit),
        Form::Positive => whole(magnitude(content), NoValue::Digit),
        Form::Negative => match magnitude(content) {
            Some(number) => whole(Some(-number), NoValue::Digit),
            None => Err(NoValue::Digit),
        },
        Form::Binary => match integer(content) {
            Some(number) if number >= 0 => whole(Some(number), NoValue::Sign),
            _ => Err(NoValue::Sign),
        },
        Form::Text | Form::Other => Err(NoValue::Invalid),
    }
}

// A number times a power of ten.
fn scaled_by(exponent: i8, number: Result<Decimal, NoValue>) -> Datum
    ensures { result ≡ scaled_by exponent number }
{
    match number {
        Ok(decimal) => match fitting(i16::from(exponent) + i16::from(decimal.exponent)) {
            Some(exponent) => Datum::Known(Value::Number(Decimal {
                mantissa: decimal.mantissa,
                exponent,
            })),
            None => Datum::None(NoValue::OutOfRange),
        },
        Err(fault) => Datum::None(fault),
    }
}

// Why a time doesn't stand on a clock.
fn clock_fault(invalid: bool, hour: u8, minute: u8, second: u8) -> Option<NoValue>
    ensures { result ≡ clock_fault invalid hour minute second }
{
    if invalid {
        return Some(NoValue::Invalid);
    }
    if hour > 23 || minute > 59 || second > 59 {
        return Some(NoValue::NoTime);
    }
    None
}

// A date and time (type F).
fn minute_in(content: &[u8]) -> Datum
    requires { length content.now ≡ 4 }
    ensures { result ≡ minute_in content.now }
{
    let (first, second) = (content[0], content[1]);
    match clock_fault(first >= 0x80, second % 32, first % 64, 0) {
        Some(fault) => Datum::None(fault),
        None => match dc_units::minute(content) {
            Value::None => Datum::None(NoValue::NoDate),
            minute => Datum::Known(minute),
        },
    }
}

// A date and time with seconds (type I).
fn second_in(content: &[u8]) -> Datum
    ensures { result ≡ second_in content.now }
{
    let [first, second, third, low, high, _] = content else {
        return Datum::None(NoValue::Invalid);
    };
    let (hour, minute, seconds) = (*third % 32, *second % 64, *first % 64);
    match clock_fault(*second >= 0x80, hour, minute, seconds) {
        Some(fault) => Datum::None(fault),
        None => match dc_units::day(&[*low, *high]) {
            Value::Day(date) => Datum::Second(date, hour, minute, seconds),
            _ => Datum::None(NoValue::NoDate),
        },
    }
}

// A time of day (type J).
fn time_in(content: &[u8]) -> Datum
    ensures { result ≡ time_in content.now }
{
    let [first, second, third] = content else {
        return Datum::None(NoValue::Invalid);
    };
    let (hour, minute, seconds) = (*third % 32, *second % 64, *first % 64);
    match clock_fault(*second >= 0x80, hour, minute, seconds) {
        Some(fault) => Datum::None(fault),
        None => Datum::Time(hour, minute, seconds),
    }
}

// The identity that eight bytes name.
fn identity_at(wire: [u8; 8]) -> Option<Identity>
    ensures { result ≡ identity_at wire }
{
    let [a, b, c, d, e, f, g, h] = wire;
    match Header::read(&[a, b, c, d, e, f, g, h, 0, 0, 0, 0]) {
        Ok(header) => Some(header.identity),
        Err(_) => None,
    }
}

// An identity of eight bytes.
fn identity_in(content: &[u8]) -> Datum
    ensures { result ≡ identity_in content.now }
{
    let [a, b, c, d, e, f, g, h] = content else {
        return Datum::None(NoValue::Invalid);
    };
    match identity_at([*a, *b, *c, *d, *e, *f, *g, *h]) {
        Some(identity) => Datum::Identity(identity),
        None => match digits_after(0, &[*a, *b, *c, *d]) {
            Some(_) => Datum::None(NoValue::NoLetters),
            None => Datum::None(NoValue::Digit),
        },
    }
}

// The letters of a manufacturer in two bytes.
fn letters_in(content: &[u8]) -> Datum
    ensures { result ≡ letters_in content.now }
{
    let [low, high] = content else {
        return Datum::None(NoValue::Invalid);
    };
    match identity_at([0, 0, 0, 0, *low, *high, 0, 0]) {
        Some(identity) => Datum::Letters(identity),
        None => Datum::None(NoValue::NoLetters),
    }
}

/// The value of this type in data of this form, a number times a power of ten.
#[tactic(auto, using(crate::proofs::Powers::room_for_digits))]
pub fn value_of(data_type: DataType, form: Form, exponent: i8, content: &[u8]) -> Datum
    requires { IsTrue (fits form (length content.now)) }
    ensures { result ≡ value_of data_type form exponent content.now }
{
    match data_type {
        DataType::Number => scaled_by(exponent, number_in(form, content)),
        DataType::Flags if (1..=8).contains(&content.len()) => Datum::Known(Value::Flags {
            len: content.len() as u8,
            bits: unsigned(content),
        }),
        DataType::Digits if content.len() <= 9 => match digits_after(0, content) {
            Some(_) => Datum::Digits,
            None => Datum::None(NoValue::Digit),
        },
        DataType::Date if content.len() == 2 => match dc_units::day(content) {
            Value::None => Datum::None(NoValue::NoDate),
            day => Datum::Known(day),
        },
        DataType::Minute if content.len() == 4 => minute_in(content),
        DataType::Second => second_in(content),
        DataType::Time => time_in(content),
        DataType::Text => Datum::Text,
        DataType::Letters => letters_in(content),
        DataType::Identity => identity_in(content),
        _ => Datum::None(NoValue::Invalid),
    }
}
