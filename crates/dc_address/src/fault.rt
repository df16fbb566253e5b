//! Why a text is no identity.

use std::fmt;
use thiserror::Error;

/// Why a text is no identity: the first of these that stands. It prints as its number and its name.
#[derive(Clone, Copy, Debug, Error)]
pub enum IdentityFault {
    /// Not 18 bytes.
    Length,
    /// One of the first eight bytes isn't a digit.
    Digit,
    /// A manufacturer's letter isn't A to Z.
    Letter,
    /// Version or device type isn't two hexadecimal digits in capitals.
    Hex,
    /// A dot is missing between the parts.
    Dot,
}

impl fmt::Display for IdentityFault {
    fn fmt<W: fmt::Write>(&self, f: &mut fmt::Formatter<W>) -> fmt::Result {
        write!(f, "{} {}", self.number(), self.name())
    }
}

impl IdentityFault {
    ghost use Rattle.std.specs.Prelude.{◌≡◌};
    ghost use Rattle.dc_address.specs.Text.{number_of, name_of};

    /// The fault's number, from 1 in the order in which they are looked for.
    pub fn number(self) -> u8
        ensures { result ≡ number_of self }
    {
        match self {
            IdentityFault::Length => 1,
            IdentityFault::Digit => 2,
            IdentityFault::Letter => 3,
            IdentityFault::Hex => 4,
            IdentityFault::Dot => 5,
        }
    }

    /// The fault's name, as printed.
    pub fn name(self) -> &'static str
        ensures { result.now ≡ name_of self }
    {
        match self {
            IdentityFault::Length => "Length",
            IdentityFault::Digit => "Digit",
            IdentityFault::Letter => "Letter",
            IdentityFault::Hex => "Hex",
            IdentityFault::Dot => "Dot",
        }
    }
}
