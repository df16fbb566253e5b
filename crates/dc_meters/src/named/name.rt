//! The name of a meter, as a person spells it.

ghost use Rattle.std.specs.Prelude.{◌≡◌, ℕ, List, IfSome, IfNone, Some, length};
ghost use Rattle.std.specs.Char.{is_ascii_digit};
ghost use Rattle.std.specs.List.{list_all};
ghost use Rattle.dc_address.specs.Text.{text_of};
ghost use Rattle.dc_address.specs.declared.identity.Identity.{Identity as Meter};
ghost use Rattle.mbdc_change.specs.Fields.{IsOfBytes};
ghost use Rattle.dc_meters.specs.Name.{IsName, Spells, SpellsNumber, capital, capitals};
ghost use Rattle.dc_meters.specs.declared.named.name.Named.{Named as Name};

use dc_address::Identity;

/// The name of a meter.
#[derive(Clone, Copy)]
pub enum Named {
    /// Its identity.
    Identity(Identity),
    /// The eight digits of its identification number.
    Number([u8; 8]),
}

impl Named {
    /// Parses an identity, as `12345678.PAD.01.07` or `12345678.pad.01.07`, or a number alone, as `12345678`.
    pub fn parse(word: &[u8]) -> Option<Named>
        ensures found { IfSome result (Spells word.now) }
        ensures none { IfNone result ((name : Name) → IsName name → ¬ (Spells word.now name)) }
    {
        if let Some(meter) = identity_of(word) {
            return Some(Named::Identity(meter));
        }
        let digits = number_of(word)?;
        Some(Named::Number(digits))
    }
}

fn capital(byte: u8) -> u8
    ensures { result ≡ capital byte }
{
    match byte {
        b'a'..=b'z' => byte - 32,
        _ => byte,
    }
}

/// Parses an identity, in capitals or small letters.
pub fn identity_of(word: &[u8]) -> Option<Identity>
    ensures found { IfSome result (λ meter. capitals word.now ≡ text_of meter) }
    ensures only { (meter : Meter) → IsOfBytes meter → capitals word.now ≡ text_of meter
        → result ≡ Some meter }
{
    let (text, rest) = word.split_first_chunk::<18>()?;
    if !rest.is_empty() {
        return None;
    }
    identity_in(text)
}

fn identity_in(text: &[u8; 18]) -> Option<Identity>
    ensures found { IfSome result (λ meter. capitals text.now ≡ text_of meter) }
    ensures only { (meter : Meter) → IsOfBytes meter → capitals text.now ≡ text_of meter
        → result ≡ Some meter }
{
    Identity::parse_text(&capitals_of(text)).ok()
}

fn capitals_of(text: &[u8; 18]) -> [u8; 18]
    ensures { result ≡ capitals text.now }
{
    text.map(capital)
}

// The eight digits that a word is.
fn number_of(word: &[u8]) -> Option<[u8; 8]>
    ensures found { IfSome result (SpellsNumber word.now) }
    ensures none { IfNone result ((digits : List ℕ) → length digits ≡ 8
        → ¬ (SpellsNumber word.now digits)) }
{
    let (digits, rest) = word.split_first_chunk::<8>()?;
    if !rest.is_empty() || !are_digits(digits) {
        return None;
    }
    Some(*digits)
}

fn are_digits(digits: &[u8; 8]) -> bool
    ensures { result ≡ list_all is_ascii_digit digits.now }
{
    digits.iter().all(|digit| digit.is_ascii_digit())
}
