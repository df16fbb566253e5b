//! What a selection asks for.

ghost use Rattle.std.specs.Prelude.{◌≡◌, Some, map};
ghost use Rattle.std.specs.List.{list_all};
ghost use Rattle.dc_address.specs.Mask.{all_fit, code_or_wildcard, digit_or_wildcard, fits};
ghost use Rattle.dc_address.specs.Mask.{is_sent, nibble_of, value_or_wildcard};

use crate::Identity;
use crate::digits::{digits_of, packed, unpacked};
use byteorder::{ByteOrder, LittleEndian};
use std::marker::Model;

/// What a selection asks for: eight digits of the identification number, a manufacturer, a version and
/// a device type, each a value or a wildcard (EN 13757-3, editions of 2004 and 2013: selection; since
/// 2018 EN 13757-7).
#[derive(Clone, Copy)]
pub struct Mask {
    digits: [Option<u8>; 8],
    maker: Option<u16>,
    version: Option<u8>,
    kind: Option<u8>,
}

impl Model for Mask {
    ghost use Rattle.dc_address.specs.Mask.{MaskParts, IsMask};

    ghost Value = { MaskParts };

    ghost view = { λ m. record {
      digits = m.digits;
      maker = m.maker;
      version = m.version;
      kind = m.kind;
    } };

    ghost invariant = { λ m. IsMask (record {
      digits = m.digits;
      maker = m.maker;
      version = m.version;
      kind = m.kind;
    }) };

    ghost inverse = { λ p. record {
      digits = p.digits;
      maker = p.maker;
      version = p.version;
      kind = p.kind;
    } };
}

/// A byte of an identity as a mask asks for it: FF is the wildcard.
fn value_or_wildcard(byte: u8) -> Option<u8>
    ensures { result ≡ value_or_wildcard byte }
{
    if byte == 0xFF { None } else { Some(byte) }
}

/// A manufacturer as a mask asks for it: FFFF is the wildcard.
fn code_or_wildcard(code: u16) -> Option<u16>
    ensures { result ≡ code_or_wildcard code }
{
    if code == 0xFFFF { None } else { Some(code) }
}

/// A digit as a mask asks for it: F is the wildcard.
fn digit_or_wildcard(nibble: u8) -> Option<u8>
    ensures { result ≡ digit_or_wildcard nibble }
{
    if nibble == 0xF { None } else { Some(nibble) }
}

/// Whether each half of a byte is one that a mask sends: a digit, or F.
fn are_sent(nibbles: &[u8; 8]) -> bool
    ensures { result ≡ list_all is_sent nibbles.now }
{
    nibbles.iter().all(|nibble| *nibble < 10 || *nibble == 0xF)
}

/// Eight digits as a mask asks for them.
fn places_of(nibbles: [u8; 8]) -> [Option<u8>; 8]
    ensures { result ≡ map digit_or_wildcard nibbles }
{
    nibbles.map(digit_or_wildcard)
}

/// Eight digits, each fixed.
fn fixed(digits: [u8; 8]) -> [Option<u8>; 8]
    ensures { result ≡ map Some digits }
{
    digits.map(Some)
}

/// A digit as a mask sends it: F for the wildcard.
fn nibble_of(wanted: Option<u8>) -> u8
    ensures { result ≡ nibble_of wanted }
{
    wanted.unwrap_or(0xF)
}

/// Eight digits as a mask sends them.
fn nibbles_of(digits: [Option<u8>; 8]) -> [u8; 8]
    ensures { result ≡ map nibble_of digits }
{
    digits.map(nibble_of)
}

/// Whether each digit is asked for at its place.
fn all_fit(wanted: &[Option<u8>; 8], digits: &[u8; 8]) -> bool
    ensures { result ≡ all_fit wanted.now digits.now }
{
    wanted
        .iter()
        .zip(digits)
        .all(|(wanted, digit)| byte_fits(*wanted, *digit))
}

/// Whether a value is asked for.
fn fits(wanted: Option<u16>, value: u16) -> bool
    ensures { result ≡ fits wanted value }
{
    wanted.is_none_or(|wanted| wanted == value)
}

/// The same for a byte.
fn byte_fits(wanted: Option<u8>, value: u8) -> bool
    ensures { result ≡ fits wanted value }
{
    wanted.is_none_or(|byte| byte == value)
}

impl Mask {
    ghost use Rattle.std.specs.Prelude.{◌≡◌, ◌<◌, IsTrue, SomeIff};
    ghost use Rattle.dc_address.specs.Mask.{are_sent, mask_at, mask_of_all, mask_of, with_digit};
    ghost use Rattle.dc_address.specs.Mask.{matches, mask_wire};

    /// All wildcards: every meter matches.
    pub fn all() -> Mask
        ensures { result ≡ mask_of_all }
    {
        Mask {
            digits: [None; 8],
            maker: None,
            version: None,
            kind: None,
        }
    }

    /// The mask that asks for this identity. As FF on the wire is the wildcard, a version or type of FF
    /// is asked for by a wildcard, and then other meters match too.
    pub fn of(identity: &Identity) -> Mask
        ensures { result ≡ mask_of identity.now }
    {
        Mask {
            digits: fixed(digits_of(identity.number)),
            maker: Some(identity.maker),
            version: value_or_wildcard(identity.version),
            kind: value_or_wildcard(identity.kind),
        }
    }

    /// This mask with one digit fixed. Place 0 is the most significant.
    pub fn with_digit(mut self, place: usize, digit: u8) -> Mask
        requires place { place < 8 }
        requires digit { digit < 10 }
        ensures { result ≡ with_digit self place digit }
    {
        self.digits[place] = Some(digit);
        self
    }

    /// Whether a meter of this identity answers the selection.
    #[tactic(auto, unfolding(crate::specs::Mask::matches))]
    pub fn matches(&self, identity: &Identity) -> bool
        ensures { result ≡ matches self.now identity.now }
    {
        all_fit(&self.digits, &digits_of(identity.number))
            && fits(self.maker, identity.maker)
            && byte_fits(self.version, identity.version)
            && byte_fits(self.kind, identity.kind)
    }

    /// The eight bytes that a selection sends: a wildcard is F in a digit, FFFF for the manufacturer,
    /// FF for version and type.
    #[tactic(auto, unfolding(crate::specs::Mask::mask_wire))]
    pub fn wire(&self) -> [u8; 8]
        ensures { result ≡ mask_wire self.now }
    {
        let [first, second, third, fourth] = packed(nibbles_of(self.digits));
        let version = self.version.unwrap_or(0xFF);
        let kind = self.kind.unwrap_or(0xFF);
        let mut wire = [first, second, third, fourth, 0, 0, version, kind];
        LittleEndian::write_u16(&mut wire[4..6], self.maker.unwrap_or(0xFFFF));
        wire
    }
    /// The mask that a selection's eight bytes send; none where half of a byte is neither a digit nor F.
    #[tactic(auto, unfolding(crate::specs::Mask::mask_at))]
    pub fn from_wire(wire: &[u8; 8]) -> Option<Mask>
        ensures { SomeIff result (IsTrue (are_sent wire.now)) (mask_at wire.now) }
    {
        let [first, second, third, fourth, low, high, version, kind] = *wire;
        let nibbles = unpacked([first, second, third, fourth]);
        if !are_sent(&nibbles) {
            return None;
        }
        Some(Mask {
            digits: places_of(nibbles),
            maker: code_or_wildcard(LittleEndian::read_u16(&[low, high])),
            version: value_or_wildcard(version),
            kind: value_or_wildcard(kind),
        })
    }
}
