//! The concentrator's refusals, with their numbers and names.

ghost use Rattle.std.specs.Prelude.{◌≡◌};
ghost use Rattle.dc_core.specs.declared.pending.fault.TakeFault.{TakeFault};
ghost use Rattle.dc_core.specs.Fault.{start_number, start_name, hear_number, hear_name};
ghost use Rattle.dc_core.specs.Fault.{commit_number, commit_name, hear_fault};

use crate::pending::TakeFault;
use std::fmt;
use thiserror::Error;

/// Why no session was started: the first of NoLine, Stopped, Unknown, Busy that applies.
#[derive(Clone, Copy, Debug, Error)]
pub enum StartFault {
    /// The line doesn't exist.
    NoLine,
    /// The meter isn't registered on that line.
    Unknown,
    /// The line has a session.
    Busy,
    /// A failure of the disk has stopped the concentrator; it must be opened again.
    Stopped,
}

impl fmt::Display for StartFault {
    fn fmt<W: fmt::Write>(&self, f: &mut fmt::Formatter<W>) -> fmt::Result {
        write!(f, "{} {}", self.number(), self.name())
    }
}

impl StartFault {
    /// The fault's number, from 1.
    pub fn number(&self) -> u8
        ensures { result ≡ start_number self.now }
    {
        match self {
            StartFault::NoLine => 1,
            StartFault::Unknown => 2,
            StartFault::Busy => 3,
            StartFault::Stopped => 4,
        }
    }

    /// The fault's name.
    pub fn name(&self) -> &'static str
        ensures { result.now ≡ start_name self.now }
    {
        match self {
            StartFault::NoLine => "NoLine",
            StartFault::Unknown => "Unknown",
            StartFault::Busy => "Busy",
            StartFault::Stopped => "Stopped",
        }
    }
}

/// Why an answer wasn't taken: the first of NoLine, Stopped, Idle, and for a new telegram then
/// PendingFull, Full, NoMemory that applies. The request can be answered again.
#[derive(Clone, Copy, Debug, Error)]
pub enum HearFault {
    /// The line doesn't exist.
    NoLine,
    /// The line has no request out.
    Idle,
    /// The register has no room for the telegram.
    Full,
    /// Out of memory.
    NoMemory,
    /// The maximum number of changes is pending.
    PendingFull,
    /// A failure of the disk has stopped the concentrator; it must be opened again.
    Stopped,
}

impl fmt::Display for HearFault {
    fn fmt<W: fmt::Write>(&self, f: &mut fmt::Formatter<W>) -> fmt::Result {
        write!(f, "{} {}", self.number(), self.name())
    }
}

impl HearFault {
    /// The fault's number, from 1.
    pub fn number(&self) -> u8
        ensures { result ≡ hear_number self.now }
    {
        match self {
            HearFault::NoLine => 1,
            HearFault::Idle => 2,
            HearFault::Full => 3,
            HearFault::NoMemory => 4,
            HearFault::PendingFull => 5,
            HearFault::Stopped => 6,
        }
    }

    /// The fault's name.
    pub fn name(&self) -> &'static str
        ensures { result.now ≡ hear_name self.now }
    {
        match self {
            HearFault::NoLine => "NoLine",
            HearFault::Idle => "Idle",
            HearFault::Full => "Full",
            HearFault::NoMemory => "NoMemory",
            HearFault::PendingFull => "PendingFull",
            HearFault::Stopped => "Stopped",
        }
    }
}

impl From<TakeFault> for HearFault {
    ghost from_gives = { λ fault made. made ≡ hear_fault fault };

    fn from(fault: TakeFault) -> HearFault
        ensures { result ≡ hear_fault fault }
    {
        match fault {
            TakeFault::PendingFull => HearFault::PendingFull,
            TakeFault::Full => HearFault::Full,
            TakeFault::NoMemory => HearFault::NoMemory,
        }
    }
}

/// Why a commit failed; the changes stay pending.
#[derive(Clone, Copy, Debug, Error)]
pub enum CommitFault {
    /// The disk failed, and counted the failure. The concentrator is stopped from then on.
    Device,
    /// The sequence or the generation is exhausted; nothing was written.
    Worn,
    /// A failure of the disk has stopped the concentrator; it must be opened again.
    Stopped,
}

impl fmt::Display for CommitFault {
    fn fmt<W: fmt::Write>(&self, f: &mut fmt::Formatter<W>) -> fmt::Result {
        write!(f, "{} {}", self.number(), self.name())
    }
}

impl CommitFault {
    /// The fault's number, from 1.
    pub fn number(&self) -> u8
        ensures { result ≡ commit_number self.now }
    {
        match self {
            CommitFault::Device => 1,
            CommitFault::Worn => 2,
            CommitFault::Stopped => 3,
        }
    }

    /// The fault's name.
    pub fn name(&self) -> &'static str
        ensures { result.now ≡ commit_name self.now }
    {
        match self {
            CommitFault::Device => "Device",
            CommitFault::Worn => "Worn",
            CommitFault::Stopped => "Stopped",
        }
    }
}

/// The writer failed, and counted the failure.
#[derive(Clone, Copy, Debug, Error)]
#[error("writing failed")]
pub struct WriteFault;
