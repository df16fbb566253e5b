//! Why a reply isn't written, with the numbers and names of the faults.

ghost use Rattle.std.specs.Prelude.{◌≡◌};
ghost use Rattle.dc_upload.specs.Fault.{name_of, number_of};
ghost use Rattle.dc_upload.specs.declared.fault.ReplyFault.TheVariants.{NoMemory, Write};

use mbdc_io::IoFault;
use thiserror::Error;

/// Why a reply wasn't written.
#[derive(Clone, Copy, Debug, Error)]
pub enum ReplyFault {
    /// Out of memory for the table of a REPORT; nothing was written.
    #[error("{} {}", self.number(), self.name())]
    NoMemory,
    /// A write failed.
    #[error("{} {}", self.number(), self.name())]
    Write,
}

impl ReplyFault {
    /// The fault's number.
    pub fn number(&self) -> u8
        ensures { result ≡ number_of self.now }
    {
        match self {
            ReplyFault::NoMemory => 1,
            ReplyFault::Write => 2,
        }
    }

    /// The fault's name.
    pub fn name(&self) -> &'static str
        ensures { result.now ≡ name_of self.now }
    {
        match self {
            ReplyFault::NoMemory => "NoMemory",
            ReplyFault::Write => "Write",
        }
    }
}

impl From<IoFault> for ReplyFault {
    ghost from_gives = { λ _ fault. fault ≡ Write };

    fn from(_failed: IoFault) -> ReplyFault {
        ReplyFault::Write
    }
}

impl From<mbdc_io::NoMemory> for ReplyFault {
    ghost from_gives = { λ _ fault. fault ≡ NoMemory };

    fn from(_refused: mbdc_io::NoMemory) -> ReplyFault {
        ReplyFault::NoMemory
    }
}
