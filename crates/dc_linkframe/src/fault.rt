//! Why bytes are no link frame.

ghost use Rattle.std.specs.Prelude.{◌≡◌};
ghost use Rattle.dc_linkframe.specs.Fault.{number_of, name_of};

use std::fmt;
use thiserror::Error;

/// Why bytes are no link frame. The first that stands, in this order, is answered.
#[derive(Clone, Copy, Debug, Error)]
pub enum FrameFault {
    /// There is no byte.
    Empty,
    /// The first byte begins no frame.
    Start,
    /// There are fewer bytes than the frame has.
    Truncated,
    /// The two lengths of a long frame differ or are below 3, or the start isn't repeated.
    Lengths,
    /// Bytes follow the frame.
    Trailing,
    /// The last byte isn't the stop byte.
    Stop,
    /// The checksum isn't the sum of the bytes that it covers.
    Checksum,
}

impl fmt::Display for FrameFault {
    fn fmt<W: fmt::Write>(&self, f: &mut fmt::Formatter<W>) -> fmt::Result {
        write!(f, "{} {}", self.number(), self.name())
    }
}

impl FrameFault {
    /// The fault's number, from 1.
    pub fn number(self) -> u8
        ensures { result ≡ number_of self }
    {
        match self {
            FrameFault::Empty => 1,
            FrameFault::Start => 2,
            FrameFault::Truncated => 3,
            FrameFault::Lengths => 4,
            FrameFault::Trailing => 5,
            FrameFault::Stop => 6,
            FrameFault::Checksum => 7,
        }
    }

    /// The fault's name.
    pub fn name(self) -> &'static str
        ensures { result.now ≡ name_of self }
    {
        match self {
            FrameFault::Empty => "Empty",
            FrameFault::Start => "Start",
            FrameFault::Truncated => "Truncated",
            FrameFault::Lengths => "Lengths",
            FrameFault::Trailing => "Trailing",
            FrameFault::Stop => "Stop",
            FrameFault::Checksum => "Checksum",
        }
    }
}
