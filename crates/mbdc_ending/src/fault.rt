//! The faults of the program's engines.

ghost use Rattle.std.specs.Prelude.{◌≡◌};
ghost use Rattle.mbdc_ending.specs.Fault.{number_of, name_of, stopped_by};
ghost use Rattle.mbdc_ending.specs.declared.fault.ProgramFault.TheVariants.{NoMemory};

use mbdc_io::{NoMemory, TextFault};
use mbdc_log::OpenFault;
use thiserror::Error;

/// Why an engine of the program stopped (this product).
#[derive(Clone, Copy, Debug, Error)]
pub enum ProgramFault {
    /// A read failed.
    #[error("the input can't be read")]
    Read,
    /// The input has more than 1 MiB.
    #[error("the input is longer than 1 MiB")]
    TooLong,
    /// A write failed.
    #[error("the output can't be written")]
    Write,
    /// Out of memory.
    #[error("memory was refused")]
    NoMemory,
    /// The image wasn't opened.
    #[error("the image isn't opened: {0}")]
    Open(OpenFault),
}

impl ProgramFault {
    /// The fault's number, 1 to 5.
    pub fn number(&self) -> u8
        ensures { result ≡ number_of self.now }
    {
        match self {
            ProgramFault::Read => 1,
            ProgramFault::TooLong => 2,
            ProgramFault::Write => 3,
            ProgramFault::NoMemory => 4,
            ProgramFault::Open(_) => 5,
        }
    }

    /// The variant's name.
    pub fn name(&self) -> &'static str
        ensures { result.now ≡ name_of self.now }
    {
        match self {
            ProgramFault::Read => "Read",
            ProgramFault::TooLong => "TooLong",
            ProgramFault::Write => "Write",
            ProgramFault::NoMemory => "NoMemory",
            ProgramFault::Open(_) => "Open",
        }
    }
}

impl From<NoMemory> for ProgramFault {
    ghost from_gives = { λ _ fault. fault ≡ NoMemory };

    fn from(_refused: NoMemory) -> ProgramFault {
        ProgramFault::NoMemory
    }
}

impl From<TextFault> for ProgramFault {
    ghost from_gives = { λ fault made. made ≡ stopped_by fault };

    fn from(fault: TextFault) -> ProgramFault {
        match fault {
            TextFault::Read => ProgramFault::Read,
            TextFault::TooLong => ProgramFault::TooLong,
            TextFault::Write => ProgramFault::Write,
            TextFault::NoMemory => ProgramFault::NoMemory,
        }
    }
}
