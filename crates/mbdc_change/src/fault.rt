//! Why a change is refused.

ghost use Rattle.std.specs.Prelude.{◌≡◌};
ghost use Rattle.mbdc_change.specs.Fault.{number_of, name_of};

use std::fmt;
use thiserror::Error;

/// Why a change is refused.
#[derive(Clone, Copy, Debug, Error)]
pub enum ChangeFault {
    /// No such meter, or a part that is neither the first nor the next.
    Unknown,
    /// The new meter is already registered.
    Known,
    /// Another meter has this primary address on the bus line.
    AddressTaken,
    /// The confirmed serial hasn't been given yet.
    Beyond,
    /// The state would exceed its budget, or the serials are exhausted.
    Full,
}

impl fmt::Display for ChangeFault {
    fn fmt<W: fmt::Write>(&self, f: &mut fmt::Formatter<W>) -> fmt::Result {
        write!(f, "{} {}", self.number(), self.name())
    }
}

impl ChangeFault {
    /// The fault's number.
    pub fn number(&self) -> u8
        ensures { result ≡ number_of self.now }
    {
        match self {
            ChangeFault::Unknown => 1,
            ChangeFault::Known => 2,
            ChangeFault::AddressTaken => 3,
            ChangeFault::Beyond => 4,
            ChangeFault::Full => 5,
        }
    }

    /// The fault's name.
    pub fn name(&self) -> &'static str
        ensures { result.now ≡ name_of self.now }
    {
        match self {
            ChangeFault::Unknown => "Unknown",
            ChangeFault::Known => "Known",
            ChangeFault::AddressTaken => "AddressTaken",
            ChangeFault::Beyond => "Beyond",
            ChangeFault::Full => "Full",
        }
    }
}
