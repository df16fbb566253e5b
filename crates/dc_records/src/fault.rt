//! Why a telegram's body is refused.

ghost use Rattle.std.specs.Prelude.{◌≡◌};
ghost use Rattle.dc_records.specs.Fault.{number_of, name_of};

use std::fmt;
use thiserror::Error;

/// What is wrong with a body. It prints as its number and its name.
#[derive(Clone, Copy, Debug, Error)]
pub enum BodyFault {
    /// Fewer bytes than a header has.
    Short,
    /// A digit above 9, or a manufacturer that isn't three letters.
    BadIdentity,
    /// A security mode other than 0.
    Encrypted,
    /// A special DIF that isn't manufacturer data, more to follow or the filler.
    ReservedDif,
    /// A tenth DIFE that announces another.
    TooManyDife,
    /// A tenth VIFE that announces another.
    TooManyVife,
    /// A length byte from F0 on.
    BadLength,
    /// VIF FC, whose text stands after the VIFEs.
    PlainTextExtension,
    /// The body ends within a record.
    Cut,
}

impl fmt::Display for BodyFault {
    fn fmt<W: fmt::Write>(&self, f: &mut fmt::Formatter<W>) -> fmt::Result {
        write!(f, "{} {}", self.number(), self.name())
    }
}

impl BodyFault {
    /// The fault's number, from 1.
    pub fn number(self) -> u8
        ensures { result ≡ number_of self }
    {
        match self {
            BodyFault::Short => 1,
            BodyFault::BadIdentity => 2,
            BodyFault::Encrypted => 3,
            BodyFault::ReservedDif => 4,
            BodyFault::TooManyDife => 5,
            BodyFault::TooManyVife => 6,
            BodyFault::BadLength => 7,
            BodyFault::PlainTextExtension => 8,
            BodyFault::Cut => 9,
        }
    }

    /// The fault's name.
    pub fn name(self) -> &'static str
        ensures { result.now ≡ name_of self }
    {
        match self {
            BodyFault::Short => "Short",
            BodyFault::BadIdentity => "BadIdentity",
            BodyFault::Encrypted => "Encrypted",
            BodyFault::ReservedDif => "ReservedDif",
            BodyFault::TooManyDife => "TooManyDife",
            BodyFault::TooManyVife => "TooManyVife",
            BodyFault::BadLength => "BadLength",
            BodyFault::PlainTextExtension => "PlainTextExtension",
            BodyFault::Cut => "Cut",
        }
    }
}
