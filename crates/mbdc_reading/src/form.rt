//! The forms of data fields, and the types of values in them.

ghost use Rattle.std.specs.Prelude.{◌≡◌, IsTrue};
ghost use Rattle.mbdc_reading.specs.Form.{form_of, sized, counted, type_of, numeric, digits_type, fits};

use crate::codes::Kind;

/// The form of a record's data.
#[derive(Clone, Copy)]
pub enum Form {
    /// Two's complement (type B).
    Integer,
    /// IEEE 754 (type H).
    Real,
    /// Packed BCD (type A).
    Bcd,
    /// Characters.
    Text,
    /// Packed BCD of a counted number of bytes.
    Positive,
    /// The same with a minus.
    Negative,
    /// A counted binary number.
    Binary,
    /// No data, or another form.
    Other,
}

/// The type of a value.
#[derive(Clone, Copy)]
pub enum DataType {
    Number,
    Digits,
    Flags,
    Date,
    Minute,
    Second,
    Time,
    Text,
    Letters,
    Identity,
}

// A form where data of this size fit it.
fn sized(form: Form, least: usize, most: usize, size: usize) -> Form
    ensures { result ≡ sized form least most size }
{
    if least <= size && size <= most {
        form
    } else {
        Form::Other
    }
}

// The form of data with a length byte (EN 13757-3, variable length data).
fn counted(length: u8, size: usize) -> Form
    ensures { result ≡ counted length size }
{
    match length {
        0..=0xBF => sized(Form::Text, 0, 191, size),
        0xC1..=0xC9 => sized(Form::Positive, 1, 9, size),
        0xD1..=0xD9 => sized(Form::Negative, 1, 9, size),
        0xE1..=0xE8 => sized(Form::Binary, 1, 8, size),
        _ => Form::Other,
    }
}

/// The form of data with this data field, length byte and size in bytes.
pub fn form_of(field: u8, length: u8, size: usize) -> Form
    ensures exact { result ≡ form_of field length size }
    ensures fits { IsTrue (fits result size) }
{
    match field {
        1 | 2 | 3 | 4 | 6 | 7 => sized(Form::Integer, 1, 8, size),
        5 => sized(Form::Real, 4, 4, size),
        9 | 0xA | 0xB | 0xC | 0xE => sized(Form::Bcd, 1, 6, size),
        0xD => counted(length, size),
        _ => Form::Other,
    }
}

// A number in each form that has one.
fn numeric(form: Form) -> Option<DataType>
    ensures { result ≡ numeric form }
{
    match form {
        Form::Text | Form::Other => None,
        _ => Some(DataType::Number),
    }
}

// Digits in BCD, text where there are characters, else a number.
fn digits_type(form: Form) -> Option<DataType>
    ensures { result ≡ digits_type form }
{
    match form {
        Form::Bcd | Form::Positive => Some(DataType::Digits),
        Form::Text => Some(DataType::Text),
        _ => numeric(form),
    }
}

/// The type of a value of this kind in data of this form and size; none where the kind isn't read there.
pub fn type_of(kind: Kind, form: Form, size: usize) -> Option<DataType>
    ensures { result ≡ type_of kind form size }
{
    match kind {
        Kind::Number => numeric(form),
        Kind::Words => {
            if matches!(form, Form::Text) {
                return Some(DataType::Text);
            }
            numeric(form)
        }
        Kind::Digits => digits_type(form),
        Kind::Identity => {
            if matches!(form, Form::Integer | Form::Binary) && size == 8 {
                return Some(DataType::Identity);
            }
            digits_type(form)
        }
        Kind::Letters if matches!(form, Form::Integer) && size == 2 => Some(DataType::Letters),
        Kind::Flags if matches!(form, Form::Integer | Form::Binary) => Some(DataType::Flags),
        Kind::Date | Kind::DateTime | Kind::AnyDate if matches!(form, Form::Integer) => {
            match (kind, size) {
                (Kind::Date | Kind::AnyDate, 2) => Some(DataType::Date),
                (Kind::DateTime | Kind::AnyDate, 4) => Some(DataType::Minute),
                (Kind::DateTime | Kind::AnyDate, 6) => Some(DataType::Second),
                (Kind::DateTime, 3) => Some(DataType::Time),
                _ => None,
            }
        }
        _ => None,
    }
}
