//! The names of what is read.

ghost use Rattle.std.specs.Prelude.{◌≡◌, get_or, option_map};
ghost use Rattle.mbdc_reading.specs.Names.{type_name, fault_name, how_name, type_found, fault_found};
ghost use Rattle.mbdc_reading.specs.Names.{summer_found, vife_text};

use crate::form::DataType;
use crate::reading::{Found, How};
use crate::value::{Datum, NoValue};
use crate::vifes::vife_at;
use dc_units::Value;

impl How {
    /// Its name.
    pub fn name(&self) -> &'static str
        ensures { result.now ≡ how_name self.now }
    {
        match self {
            How::Point(_) => "point",
            How::Plain => "plain",
            How::Qualified => "qualified",
            How::Other => "other",
        }
    }
}

impl Found {
    /// The name of the value's type.
    pub fn type_name(&self) -> Option<&str>
        ensures { option_map (λ s. s.now) result ≡ type_found self.now }
    {
        match self {
            Found::Value(data_type, _) => Some(data_type.name()),
            _ => None,
        }
    }

    /// Why there is no value, where there could be one.
    pub fn fault_name(&self) -> Option<&str>
        ensures { option_map (λ s. s.now) result ≡ fault_found self.now }
    {
        match self {
            Found::Value(_, Datum::None(fault)) => Some(fault.name()),
            Found::Failure(number) => Some(vife_at(*number).name),
            _ => None,
        }
    }

    /// Whether these data say that their time is summer time.
    pub fn summer_time(&self, content: &[u8]) -> Option<bool>
        ensures { result ≡ summer_found self.now content.now }
    {
        match self {
            Found::Value(_, Datum::Known(Value::Minute(..))) => Some(byte_at(content, 1) >= 0x80),
            Found::Value(_, Datum::Second(..)) => Some(byte_at(content, 0) / 64 % 2 == 1),
            _ => None,
        }
    }
}

/// The byte at a place, 0 beyond the end.
pub(crate) fn byte_at(bytes: &[u8], place: usize) -> u8
    ensures { result ≡ get_or bytes.now place 0 }
{
    match bytes.get(place) {
        Some(byte) => *byte,
        None => 0,
    }
}

/// The text of a VIFE: of a unit, a direction or a phase.
pub fn vife_text(number: &Option<u8>) -> Option<&str>
    ensures { option_map (λ s. s.now) result ≡ vife_text number.now }
{
    match number {
        Some(number) => Some(vife_at(*number).text),
        None => None,
    }
}

impl DataType {
    /// Its name; letters are a text.
    pub fn name(&self) -> &'static str
        ensures { result.now ≡ type_name self.now }
    {
        match self {
            DataType::Number => "number",
            DataType::Digits => "digits",
            DataType::Flags => "flags",
            DataType::Date => "date",
            DataType::Minute => "minute",
            DataType::Second => "second",
            DataType::Time => "time",
            DataType::Text | DataType::Letters => "text",
            DataType::Identity => "identity",
        }
    }
}

impl NoValue {
    /// Its name.
    pub fn name(&self) -> &'static str
        ensures { result.now ≡ fault_name self.now }
    {
        match self {
            NoValue::Invalid => "marked invalid",
            NoValue::Digit => "digits above 9",
            NoValue::NotANumber => "not a number",
            NoValue::Infinite => "infinite",
            NoValue::Sign => "sign not known",
            NoValue::NoTime => "no such time",
            NoValue::NoDate => "no such date",
            NoValue::NoLetters => "no three letters",
            NoValue::OutOfRange => "power of ten out of range",
        }
    }
}
