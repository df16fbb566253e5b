//! A meter's identity, its eight bytes and its printed text.

ghost use Rattle.std.specs.Prelude.{◌<◌};
ghost use Rattle.dc_address.specs.Maker.{IsMaker};

use crate::IdentityFault;
use crate::digits::{digits_of, number_of, packed, unpacked};
use crate::maker::{is_maker, letters_of, maker_of};
use crate::text::{are_dots, byte_of_hex, codes_of, hex_code, number_of_codes};
use byteorder::{ByteOrder, LittleEndian};

// The codes of AAA and ZZZ.
const LEAST_MAKER: u16 = 0x0421;

const GREATEST_MAKER: u16 = 0x6B5A;

/// A meter's identity: the identification number of eight decimal digits, the manufacturer's code of
/// three letters, the version and the device type, as in the fixed data header of EN 13757-3.
///
/// Identities are ordered by their fields in this order.
#[derive(Clone, Copy, PartialEq, Eq, PartialOrd, Ord, Hash)]
pub struct Identity {
    /// The identification number, below 10^8.
    pub number: u32,
    /// The manufacturer's code: five bits a letter, A being 1, the first letter in the highest bits.
    pub maker: u16,
    /// The version (generation) of the meter.
    pub version: u8,
    /// The device type (medium).
    pub kind: u8,
    ghost has_eight_digits: { number < 100_000_000 },
    ghost has_letters: { IsMaker maker },
}

impl Identity {
    ghost use Rattle.std.specs.Prelude.{◌≡◌, ◌≢◌, ◌<◌, IfSome, is_some, IfOk, MatchResult, Some};
    ghost use Rattle.std.specs.Prelude.{None, Ok};
    ghost use Rattle.dc_address.specs.Identity.{IsWire, identity_cmp, is_identity, wire_of};
    ghost use Rattle.std.specs.declared.cmp.Ordering.TheVariants.{Greater};
    ghost use Rattle.dc_address.specs.Text.{IsText, identity_fault, text_of};
    ghost use Rattle.dc_address.specs.declared.identity.Identity.{Identity};

    /// The least of all: nothing but zeros and `AAA`.
    pub fn least() -> Identity
        ensures { (other : Identity) → identity_cmp result other ≢ Greater }
    {
        Identity {
            number: 0,
            maker: LEAST_MAKER,
            version: 0,
            kind: 0,
        }
    }

    /// The greatest of all: nothing but nines, `ZZZ` and FF.
    pub fn greatest() -> Identity
        ensures { (other : Identity) → other.version < 256 → other.kind < 256
            → identity_cmp other result ≢ Greater }
    {
        Identity {
            number: 99_999_999,
            maker: GREATEST_MAKER,
            version: 0xFF,
            kind: 0xFF,
        }
    }

    /// The eight bytes that name the meter in a telegram's header and in a selection.
    #[tactic(auto, using(crate::proofs::Wires::nibbles), unfolding(crate::specs::Identity::wire_of))]
    pub fn wire(&self) -> [u8; 8]
        ensures { result ≡ wire_of self.now }
    {
        let [first, second, third, fourth] = packed(digits_of(self.number));
        let mut wire = [first, second, third, fourth, 0, 0, self.version, self.kind];
        LittleEndian::write_u16(&mut wire[4..6], self.maker);
        wire
    }

    /// The identity that eight bytes name; none where a digit is above 9 or the manufacturer isn't
    /// three letters.
    pub fn from_wire(wire: &[u8; 8]) -> Option<Identity>
        ensures found { IfSome result (λ identity. IsWire wire.now identity) }
        ensures only { (identity : Identity) → IsWire wire.now identity → result ≡ Some identity }
        ensures test { is_some result ≡ is_identity wire.now }
    {
        let [first, second, third, fourth, low, high, version, kind] = *wire;
        let number = number_of(&unpacked([first, second, third, fourth]))?;
        let maker = LittleEndian::read_u16(&[low, high]);
        if !is_maker(maker) {
            return None;
        }
        Some(Identity {
            number,
            maker,
            version,
            kind,
        })
    }

    /// The identity as it is printed: `12345678.PAD.01.07`.
    #[tactic(auto, using(crate::proofs::Texts::codes), unfolding(crate::specs::Text::text_of))]
    pub fn text(&self) -> [u8; 18]
        ensures { result ≡ text_of self.now }
    {
        let Identity {
            number,
            maker,
            version,
            kind,
        } = *self;
        let [a, b, c, d, e, f, g, h] = codes_of(digits_of(number));
        let [first, second, third] = letters_of(maker);
        let [version_high, version_low] = [hex_code(version / 16), hex_code(version % 16)];
        let [kind_high, kind_low] = [hex_code(kind / 16), hex_code(kind % 16)];
        [
            a,
            b,
            c,
            d,
            e,
            f,
            g,
            h,
            b'.',
            first,
            second,
            third,
            b'.',
            version_high,
            version_low,
            b'.',
            kind_high,
            kind_low,
        ]
    }

    /// The identity that a text such as `12345678.PAD.01.07` prints, else the first fault that stands.
    pub fn parse_text(text: &[u8]) -> Result<Identity, IdentityFault>
        ensures found { IfOk result (λ identity. IsText text.now identity) }
        ensures only { (identity : Identity) → identity.version < 256 → identity.kind < 256
            → IsText text.now identity → result ≡ Ok identity }
        ensures fault { MatchResult result (λ _. identity_fault text.now ≡ None)
            (λ fault. identity_fault text.now ≡ Some fault) }
    {
        let Some((codes, rest)) = text.split_first_chunk::<8>() else {
            return Err(IdentityFault::Length);
        };
        let &[
            dot,
            first,
            second,
            third,
            dot_2,
            high,
            low,
            dot_3,
            high_2,
            low_2,
        ] = rest
        else {
            return Err(IdentityFault::Length);
        };
        let Some(number) = number_of_codes(codes) else {
            return Err(IdentityFault::Digit);
        };
        let Some(maker) = maker_of(first, second, third) else {
            return Err(IdentityFault::Letter);
        };
        let Some(version) = byte_of_hex(high, low) else {
            return Err(IdentityFault::Hex);
        };
        let Some(kind) = byte_of_hex(high_2, low_2) else {
            return Err(IdentityFault::Hex);
        };
        if !are_dots([dot, dot_2, dot_3]) {
            return Err(IdentityFault::Dot);
        }
        Ok(Identity {
            number,
            maker,
            version,
            kind,
        })
    }
}
