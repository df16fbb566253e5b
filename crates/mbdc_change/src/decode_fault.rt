//! The faults of decoding.

ghost use Rattle.std.specs.Prelude.{◌≡◌};
ghost use Rattle.mbdc_change.specs.DecodeFault.{number_of, name_of};
ghost use Rattle.mbdc_change.specs.declared.decode_fault.DecodeFault.TheVariants.{NoMemory};

use std::alloc::{AllocError, AllocFailed};
use thiserror::Error;

/// Why bytes can't be decoded.
#[derive(Clone, Copy, Debug, Error)]
pub enum DecodeFault {
    /// The bytes don't spell the expected value.
    #[error("{} {}", self.number(), self.name())]
    Bad,
    /// Out of memory.
    #[error("{} {}", self.number(), self.name())]
    NoMemory,
}

impl DecodeFault {
    /// The fault's number.
    pub fn number(&self) -> u8
        ensures { result ≡ number_of self.now }
    {
        match self {
            DecodeFault::Bad => 1,
            DecodeFault::NoMemory => 2,
        }
    }

    /// The fault's name.
    pub fn name(&self) -> &'static str
        ensures { result.now ≡ name_of self.now }
    {
        match self {
            DecodeFault::Bad => "Bad",
            DecodeFault::NoMemory => "NoMemory",
        }
    }
}

impl From<mbdc_io::NoMemory> for DecodeFault {
    ghost from_gives = { λ _ e. e ≡ NoMemory };

    fn from(_error: mbdc_io::NoMemory) -> DecodeFault {
        DecodeFault::NoMemory
    }
}

impl From<AllocError> for DecodeFault {
    ghost from_gives = { λ _ e. e ≡ NoMemory };

    fn from(_error: AllocError) -> DecodeFault {
        DecodeFault::NoMemory
    }
}

impl<T: Drop> From<AllocFailed<T>> for DecodeFault {
    ghost from_gives = { λ _ e. e ≡ NoMemory };

    fn from(_error: AllocFailed<T>) -> DecodeFault {
        DecodeFault::NoMemory
    }
}
