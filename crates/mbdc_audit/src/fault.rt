//! Why a file's lines spell no house, and what stops the audit.

ghost use Rattle.std.specs.Prelude.{◌≡◌};
ghost use Rattle.mbdc_audit.specs.Fault.{name_of, number_of};
ghost use Rattle.mbdc_audit.specs.declared.fault.Stop.TheVariants.{Fault as OfFault, NoMemory, Write};

use crate::evidence::Refusal;
use mbdc_io::IoFault;
use std::alloc::{AllocError, AllocFailed};

/// Why a line spells nothing (this product). Numbers 4 and 5 were used until version 1.
#[derive(Clone, Copy)]
pub enum AuditFault {
    /// The first line isn't the header of version 2.
    Header,
    /// The line has no known word, or its fields aren't of their forms.
    Row,
    /// The line can't follow the one before it.
    Order,
    /// The unit isn't one of the use's.
    Unit,
    /// A fact isn't declared, or twice.
    Fact,
    /// There are more than the limit.
    TooMany,
    /// What is computed of a number doesn't fit 128 bits, or the file is longer than the limit.
    TooLarge,
    /// The last line isn't `end`.
    End,
}

impl AuditFault {
    /// The fault's number, and the variant's name.
    pub fn told(self) -> (u8, &'static str)
        ensures number { result.0 ≡ number_of self }
        ensures name { result.1.now ≡ name_of self }
    {
        match self {
            AuditFault::Header => (1, "Header"),
            AuditFault::Row => (2, "Row"),
            AuditFault::Order => (3, "Order"),
            AuditFault::Unit => (6, "Unit"),
            AuditFault::Fact => (7, "Fact"),
            AuditFault::TooMany => (8, "TooMany"),
            AuditFault::TooLarge => (9, "TooLarge"),
            AuditFault::End => (10, "End"),
        }
    }
}

/// What stops the audit, or the search for a value's evidence.
#[derive(Clone, Copy)]
pub(crate) enum Stop {
    Fault(AuditFault),
    Refused(Refusal),
    NoMemory,
    Write,
}

impl From<AuditFault> for Stop {
    ghost from_gives = { λ fault stop. stop ≡ OfFault fault };

    fn from(fault: AuditFault) -> Stop {
        Stop::Fault(fault)
    }
}

impl From<AllocError> for Stop {
    ghost from_gives = { λ _ stop. stop ≡ NoMemory };

    fn from(_refused: AllocError) -> Stop {
        Stop::NoMemory
    }
}

impl<T: Drop> From<AllocFailed<T>> for Stop {
    ghost from_gives = { λ _ stop. stop ≡ NoMemory };

    fn from(_refused: AllocFailed<T>) -> Stop {
        Stop::NoMemory
    }
}

impl From<IoFault> for Stop {
    ghost from_gives = { λ _ stop. stop ≡ Write };

    fn from(_failed: IoFault) -> Stop {
        Stop::Write
    }
}
