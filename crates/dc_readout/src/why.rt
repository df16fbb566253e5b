//! Why a readout failed.

ghost use Rattle.std.specs.Prelude.{◌≡◌};
ghost use Rattle.dc_readout.specs.Why.{number_of, name_of};

use dc_records::BodyFault;
use std::fmt;
use thiserror::Error;

/// Why a readout failed. The first that stands, in this order, is answered.
#[derive(Clone, Copy, Debug, Error)]
pub enum Why {
    /// The third try was answered by no byte, or by no readable frame.
    NoAnswer,
    /// The third try was answered by another frame than the one asked for.
    WrongFrame,
    /// The third try was answered from another primary address.
    WrongAddress,
    /// The meter answered an application error.
    ApplicationError,
    /// The telegram's body is refused.
    Content(BodyFault),
    /// The telegram is another meter's.
    Stranger,
    /// The 32nd part says that more follow.
    TooManyParts,
}

impl fmt::Display for Why {
    fn fmt<W: fmt::Write>(&self, f: &mut fmt::Formatter<W>) -> fmt::Result {
        write!(f, "{} {}", self.number(), self.name())?;
        match self {
            Why::Content(fault) => write!(f, " {fault}"),
            _ => Ok(()),
        }
    }
}

impl Why {
    /// The reason's number, from 1.
    pub fn number(&self) -> u8
        ensures { result ≡ number_of self.now }
    {
        match self {
            Why::NoAnswer => 1,
            Why::WrongFrame => 2,
            Why::WrongAddress => 3,
            Why::ApplicationError => 4,
            Why::Content(_) => 5,
            Why::Stranger => 6,
            Why::TooManyParts => 7,
        }
    }

    /// The reason's name; that of a body's fault is the fault's own.
    pub fn name(&self) -> &'static str
        ensures { result.now ≡ name_of self.now }
    {
        match self {
            Why::NoAnswer => "NoAnswer",
            Why::WrongFrame => "WrongFrame",
            Why::WrongAddress => "WrongAddress",
            Why::ApplicationError => "ApplicationError",
            Why::Content(_) => "Content",
            Why::Stranger => "Stranger",
            Why::TooManyParts => "TooManyParts",
        }
    }
}
