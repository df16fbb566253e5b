//! The fields of a line, and what they spell.

ghost use Rattle.std.specs.Prelude.{◌≡◌, ◌↔◌, ◌∷◌, ℕ, All, IfSome, IsTrue, None, Option, Some, codes, if◌then◌else◌};
ghost use Rattle.std.specs.Prelude.{option_map};
ghost use Rattle.std.specs.Str.{bytes_eq};
ghost use Rattle.mbdc_audit.specs.Field.{fields_of, left_fields};
ghost use Rattle.mbdc_audit.specs.Smallest.{decimal_in};
ghost use Rattle.mbdc_audit.specs.declared.smallest.Spelled.{Spelled};
ghost use Rattle.mbdc_audit.specs.Line.{IsBody, IsDayOf, IsMonth, IsNumberText, IsTypeOf, IsVibText, Reads, SaysAbove0};
ghost use Rattle.mbdc_audit.specs.Line.{is_mark, is_of, may_have, spelled};

use crate::moment::{day_number, offset_in};
use crate::smallest::{MOST_VALUE_DECIMALS, Spelled, decimal_in, ratio_in, whole_in};
use crate::uses::Counted;
use dc_address::Identity;
use dc_units::Date;
use mbdc_io::decode_hex;
use memchr::memchr;

/// Whether a field is this word.
pub(crate) fn is_word(field: &[u8], word: &str) -> bool
    ensures { result ≡ bytes_eq field.now word.now }
{
    field == word.as_bytes()
}

/// Splits off the first field of a text, and returns it with the rest, where there is one.
pub(crate) fn first_field(text: &[u8]) -> (&[u8], Option<&[u8]>)
    ensures { fields_of text.now
        ≡ result.0.now ∷ left_fields (option_map (λ s. s.now) result.1) }
{
    match memchr(b',', text) {
        Some(comma) => {
            let (field, rest) = text.split_at(comma);
            let (_, rest) = rest.split_at(1);
            (field, Some(rest))
        }
        None => (text, None),
    }
}

/// The form of a field.
#[derive(Clone, Copy)]
pub enum Kind {
    /// What is looked up.
    Any,
    /// `2`: the version.
    Two,
    /// `-`.
    Dash,
    /// `2026-10`.
    Month,
    /// The word of a use, the name of a flat, a reason.
    Use,
    Flat,
    Why,
    /// A whole number; or `-`.
    Whole,
    WholeOrNone,
    /// A ratio; one above 0; such a one or `-`.
    Ratio,
    Positive,
    PositiveOrNone,
    /// A decimal.
    Decimal,
    /// A day and, in the next field, its offset.
    Day,
    Offset,
    /// A meter, the block of the record that counts or `-`, a device type.
    Identity,
    Vib,
    Type,
    /// `energy`, `volume` or `units`.
    Quantity,
    /// `hand` or `estimated`.
    How,
    /// The bodies of telegrams: all fields that are left.
    Bodies,
    /// The text of a number; of the value of a run; what is beside it.
    Text,
    Exact,
    Beside,
}

// A number that a field spells.
fn number(number: Option<u64>) -> Option<Option<Spelled>>
    ensures { result ≡ option_map spelled number }
{
    Some(Some(Spelled {
        digits: number?,
        decimals: 0,
    }))
}

// The same, where it is above 0.
fn above_0(ratio: Option<u64>) -> Option<Option<Spelled>>
    ensures found { IfSome result (SaysAbove0 ratio) }
    ensures only { (said : Option Spelled) → SaysAbove0 ratio said → result ≡ Some said }
{
    if ratio? == 0 {
        return None;
    }
    number(ratio)
}

// What a field spells, where a word spells nothing.
fn unless(word: &str, field: &[u8], otherwise: Option<Option<Spelled>>) -> Option<Option<Spelled>>
    ensures { result ≡ if bytes_eq field.now word.now then Some None else otherwise }
{
    if is_word(field, word) {
        Some(None)
    } else {
        otherwise
    }
}

// A decimal of a value.
fn decimal(field: &[u8]) -> Option<Option<Spelled>>
    ensures { result ≡ option_map Some (decimal_in 9 field.now) }
{
    Some(Some(decimal_in(field, MOST_VALUE_DECIMALS)?))
}

// The number of a day.
fn day_in(field: &[u8]) -> Option<u64>
    ensures found { IfSome result (IsDayOf field.now) }
    ensures only { (n : ℕ) → IsDayOf field.now n → result ≡ Some n }
{
    Some(u64::from(day_number(&Date::parse_text(field)?)?))
}

// A device type, in two capital hex digits.
fn type_in(field: &[u8]) -> Option<u64>
    ensures found { IfSome result (IsTypeOf field.now) }
    ensures only { (n : ℕ) → IsTypeOf field.now n → result ≡ Some n }
{
    if field.len() != 2 || !is_body(field) {
        return None;
    }
    let mut byte = [0u8];
    decode_hex(field, &mut byte)?;
    Some(u64::from(byte[0]))
}

// Whether a value was put as an estimate.
fn how_in(field: &[u8]) -> Option<u64>
    ensures { result ≡ if bytes_eq field.now (codes "hand") then Some 0
        else if bytes_eq field.now (codes "estimated") then Some 1 else None }
{
    if is_word(field, "hand") {
        Some(0)
    } else if is_word(field, "estimated") {
        Some(1)
    } else {
        None
    }
}

impl Kind {
    // Whether a field of letters may have this byte.
    #[tactic(auto, unfolding(crate::specs::Line::may_have))]
    fn may_have(self, byte: u8) -> bool
        ensures { result ≡ may_have self byte }
    {
        match self {
            Kind::Use => byte.is_ascii_digit()
                || byte.is_ascii_lowercase()
                || byte == b' '
                || byte == b'-',
            Kind::Flat => {
                byte.is_ascii_alphanumeric()
                    || byte == b'.'
                    || byte == b'/'
                    || byte == b'_'
                    || byte == b'-'
            }
            Kind::Why => b' ' <= byte && byte <= b'~',
            _ => byte.is_ascii_digit() || (b'A' <= byte && byte <= b'F'),
        }
    }

    // Whether a field has these letters: at least one, at most that number.
    fn is_of(self, field: &[u8], most: usize) -> bool
        ensures { result ≡ is_of self most field.now }
    {
        if field.is_empty() || field.len() > most {
            return false;
        }
        field.iter().all(|byte| self.may_have(*byte))
    }

    /// What a field spells: nothing, or a number with its decimals; `None` where it isn't of this form.
    #[tactic(none)]
    pub fn read(self, field: &[u8]) -> Option<Option<Spelled>>
        ensures found { IfSome result (Reads self field.now) }
        ensures only { (said : Option Spelled) → Reads self field.now said → result ≡ Some said }
    {
        match self {
            Kind::Any | Kind::Beside => Some(None),
            Kind::Two => is_word(field, "2").then_some(None),
            Kind::Dash => is_word(field, "-").then_some(None),
            Kind::Month => is_month(field).then_some(None),
            Kind::Use => self.is_of(field, 32).then_some(None),
            Kind::Flat => self.is_of(field, 12).then_some(None),
            Kind::Why => self.is_of(field, 60).then_some(None),
            Kind::Vib => is_vib(field).then_some(None),
            Kind::Bodies => are_bodies(field).then_some(None),
            Kind::Identity => Identity::parse_text(field).is_ok().then_some(None),
            Kind::Quantity => Counted::named(field).is_some().then_some(None),
            Kind::Text => is_text(field).then_some(None),
            Kind::Whole => number(whole_in(field)),
            Kind::WholeOrNone => unless("-", field, number(whole_in(field))),
            Kind::Ratio => number(ratio_in(field)),
            Kind::Positive => above_0(ratio_in(field)),
            Kind::PositiveOrNone => unless("-", field, above_0(ratio_in(field))),
            Kind::Decimal => decimal(field),
            Kind::Exact => unless("?", field, decimal(field)),
            Kind::Day => number(day_in(field)),
            Kind::Offset => number(offset_in(field)),
            Kind::Type => number(type_in(field)),
            Kind::How => number(how_in(field)),
        }
    }
}

// Whether a label is a month, as `2026-10`.
fn is_month(label: &[u8]) -> bool
    ensures { IsTrue result ↔ IsMonth label.now }
{
    let mut day = *b"0000-00-01";
    if label.len() != 7 {
        return false;
    }
    day[..7].copy_from_slice(label);
    Date::parse_text(&day).is_some()
}

// Whether a field is some bytes, in two capital hex digits a byte.
fn is_body(body: &[u8]) -> bool
    ensures { IsTrue result ↔ IsBody body.now }
{
    if body.len() % 2 != 0 {
        return false;
    }
    Kind::Bodies.is_of(body, body.len())
}

// Whether a field is a hyphen, or a body of at most eleven bytes.
fn is_vib(field: &[u8]) -> bool
    ensures { IsTrue result ↔ IsVibText field.now }
{
    if is_word(field, "-") {
        return true;
    }
    if field.len() > 22 {
        return false;
    }
    is_body(field)
}

// Whether each of fields is a body.
#[tactic(none)]
fn are_bodies(fields: &[u8]) -> bool
    ensures { IsTrue result ↔ All IsBody (fields_of fields.now) }
{
    let (mut body, mut rest) = first_field(fields);
    'bodies: while is_body(body) {
        let Some(left) = rest else {
            return true;
        };
        (body, rest) = first_field(left);
    }
    false
}

// Whether a text is `-`, `?` with zeros for the decimals, or a decimal of at most three decimals, with or without a
// sign.
fn is_text(text: &[u8]) -> bool
    ensures { IsTrue result ↔ IsNumberText text.now }
{
    let is_mark = is_word(text, "-")
        || is_word(text, "?")
        || is_word(text, "?.0")
        || is_word(text, "?.00")
        || is_word(text, "?.000");
    if is_mark || decimal_in(text, 3).is_some() {
        return true;
    }
    match text {
        [b'-', digits @ ..] => decimal_in(digits, 3).is_some(),
        _ => false,
    }
}
