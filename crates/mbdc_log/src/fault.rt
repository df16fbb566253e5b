//! The store's faults, with their numbers and names.

ghost use Rattle.std.specs.Prelude.{◌≡◌};
ghost use Rattle.mbdc_log.specs.Fault.{open_number, open_name, format_number, format_name};
ghost use Rattle.mbdc_log.specs.Fault.{store_number, store_name};

use std::fmt;
use thiserror::Error;

/// Why an image wasn't opened: the first fault in the order of the steps of opening.
#[derive(Clone, Copy, Debug, Error)]
pub enum OpenFault {
    /// The disk has fewer than 131 sectors, or both root slots are readable and neither has a root.
    NotImage,
    /// The image can't be read from that sector on.
    Damaged(u32),
    /// The version of the root in force is neither 1 nor 2.
    Version,
    /// A counter is exhausted: the generation or the session is `u64::MAX`; or the image has
    /// version 1, and the generation is `u64::MAX - 1` or the next sequence is `u64::MAX` or above.
    /// Nothing was written.
    Worn,
    /// The disk failed, and counted the failure.
    Device,
    /// Out of memory.
    NoMemory,
}

impl fmt::Display for OpenFault {
    fn fmt<W: fmt::Write>(&self, f: &mut fmt::Formatter<W>) -> fmt::Result {
        write!(f, "{} {}", self.number(), self.name())
    }
}

impl OpenFault {
    /// The fault's number, from 1.
    pub fn number(&self) -> u8
        ensures { result ≡ open_number self.now }
    {
        match self {
            OpenFault::NotImage => 1,
            OpenFault::Damaged(_) => 2,
            OpenFault::Version => 3,
            OpenFault::Worn => 4,
            OpenFault::Device => 5,
            OpenFault::NoMemory => 6,
        }
    }

    /// The fault's name.
    pub fn name(&self) -> &'static str
        ensures { result.now ≡ open_name self.now }
    {
        match self {
            OpenFault::NotImage => "NotImage",
            OpenFault::Damaged(_) => "Damaged",
            OpenFault::Version => "Version",
            OpenFault::Worn => "Worn",
            OpenFault::Device => "Device",
            OpenFault::NoMemory => "NoMemory",
        }
    }
}

/// Why a disk wasn't formatted.
#[derive(Clone, Copy, Debug, Error)]
pub enum FormatFault {
    /// The disk has fewer than 131 sectors.
    TooSmall,
    /// The disk has a valid root.
    AlreadyFormatted,
    /// The disk failed, and counted the failure.
    Device,
}

impl fmt::Display for FormatFault {
    fn fmt<W: fmt::Write>(&self, f: &mut fmt::Formatter<W>) -> fmt::Result {
        write!(f, "{} {}", self.number(), self.name())
    }
}

impl FormatFault {
    /// The fault's number, from 1.
    pub fn number(&self) -> u8
        ensures { result ≡ format_number self.now }
    {
        match self {
            FormatFault::TooSmall => 1,
            FormatFault::AlreadyFormatted => 2,
            FormatFault::Device => 3,
        }
    }

    /// The fault's name.
    pub fn name(&self) -> &'static str
        ensures { result.now ≡ format_name self.now }
    {
        match self {
            FormatFault::TooSmall => "TooSmall",
            FormatFault::AlreadyFormatted => "AlreadyFormatted",
            FormatFault::Device => "Device",
        }
    }
}

/// Why a store didn't write.
#[derive(Clone, Copy, Debug, Error)]
pub enum StoreFault {
    /// The disk failed, and counted the failure. The store is stopped from then on.
    Device,
    /// A counter is exhausted: the sequence or the generation has no next value; nothing was
    /// written.
    Worn,
    /// A failure of the disk stopped the store; it must be opened again.
    Stopped,
}

impl fmt::Display for StoreFault {
    fn fmt<W: fmt::Write>(&self, f: &mut fmt::Formatter<W>) -> fmt::Result {
        write!(f, "{} {}", self.number(), self.name())
    }
}

impl StoreFault {
    /// The fault's number, from 1.
    pub fn number(&self) -> u8
        ensures { result ≡ store_number self.now }
    {
        match self {
            StoreFault::Device => 1,
            StoreFault::Worn => 2,
            StoreFault::Stopped => 3,
        }
    }

    /// The fault's name.
    pub fn name(&self) -> &'static str
        ensures { result.now ≡ store_name self.now }
    {
        match self {
            StoreFault::Device => "Device",
            StoreFault::Worn => "Worn",
            StoreFault::Stopped => "Stopped",
        }
    }
}
