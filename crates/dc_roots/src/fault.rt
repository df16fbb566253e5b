//! The faults of roots, with their numbers and names.

ghost use Rattle.std.specs.Prelude.{◌≡◌};
ghost use Rattle.dc_roots.specs.RootsFault.{number_of, name_of};

use thiserror::Error;

/// Why no root was chosen or written.
#[derive(Clone, Copy, Debug, Error)]
#[error("{} {}", self.number(), self.name())]
pub enum RootFault {
    /// No slot has a valid root. The value is the first unreadable slot, if any.
    NoRoot(Option<u32>),
    /// The generation is exhausted: it is `u64::MAX`, and no next root exists.
    Worn,
    /// The disk failed, and counted the failure.
    Device,
}

impl RootFault {
    /// The fault's number, from 1.
    pub fn number(&self) -> u8
        ensures { result ≡ number_of self.now }
    {
        match self {
            RootFault::NoRoot(_) => 1,
            RootFault::Worn => 2,
            RootFault::Device => 3,
        }
    }

    /// The fault's name.
    pub fn name(&self) -> &'static str
        ensures { result.now ≡ name_of self.now }
    {
        match self {
            RootFault::NoRoot(_) => "NoRoot",
            RootFault::Worn => "Worn",
            RootFault::Device => "Device",
        }
    }
}
