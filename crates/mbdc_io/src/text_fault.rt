//! The faults of a program over lines.

ghost use Rattle.std.specs.Prelude.{◌≡◌};
ghost use Rattle.mbdc_io.specs.Fault.{number_of, name_of};
ghost use Rattle.mbdc_io.specs.declared.text_fault.TextFault.TheVariants.{NoMemory};

use crate::NoMemory;
use thiserror::Error;

/// Why an input wasn't printed (this product).
#[derive(Clone, Copy, Debug, Error)]
pub enum TextFault {
    /// A read failed.
    #[error("the input can't be read")]
    Read,
    /// The input has more than 1 MiB.
    #[error("the input is longer than 1 MiB")]
    TooLong,
    /// A write failed.
    #[error("the output can't be written")]
    Write,
    /// Out of memory.
    #[error("memory was refused")]
    NoMemory,
}

impl TextFault {
    /// The fault's number, 1 to 4.
    pub fn number(&self) -> u8
        ensures { result ≡ number_of self.now }
    {
        match self {
            TextFault::Read => 1,
            TextFault::TooLong => 2,
            TextFault::Write => 3,
            TextFault::NoMemory => 4,
        }
    }

    /// The variant's name.
    pub fn name(&self) -> &'static str
        ensures { result.now ≡ name_of self.now }
    {
        match self {
            TextFault::Read => "Read",
            TextFault::TooLong => "TooLong",
            TextFault::Write => "Write",
            TextFault::NoMemory => "NoMemory",
        }
    }
}

impl From<NoMemory> for TextFault {
    ghost from_gives = { λ _ fault. fault ≡ NoMemory };

    fn from(_refused: NoMemory) -> TextFault {
        TextFault::NoMemory
    }
}
