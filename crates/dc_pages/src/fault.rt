//! The faults of a group, with their numbers and names.

ghost use Rattle.std.specs.Prelude.{◌≡◌};
ghost use Rattle.dc_pages.specs.PagesFault.{number_of, name_of};

use thiserror::Error;

/// Why no group was read.
#[derive(Clone, Copy, Debug, Error)]
#[error("{} {}", self.number(), self.name())]
pub enum GroupFault {
    /// The group isn't complete. The value is the first sector that doesn't fit, or the number
    /// after the half's last sector if the half ends first.
    Incomplete(u32),
    /// The disk failed, and counted the failure.
    Device,
    /// Out of memory.
    NoMemory,
}

impl GroupFault {
    /// The fault's number, from 1.
    pub fn number(&self) -> u8
        ensures { result ≡ number_of self.now }
    {
        match self {
            GroupFault::Incomplete(_) => 1,
            GroupFault::Device => 2,
            GroupFault::NoMemory => 3,
        }
    }

    /// The fault's name.
    pub fn name(&self) -> &'static str
        ensures { result.now ≡ name_of self.now }
    {
        match self {
            GroupFault::Incomplete(_) => "Incomplete",
            GroupFault::Device => "Device",
            GroupFault::NoMemory => "NoMemory",
        }
    }
}
