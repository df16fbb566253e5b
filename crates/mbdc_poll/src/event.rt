//! The events of a poll.

use crate::brought::Brought;
use crate::end::Refusal;
use crate::last_part::LastPart;
use dc_address::Identity;
use dc_readout::Why;
use mbdc_shown::Bodies;

/// An event of a poll.
#[derive(Drop)]
pub enum Event<'a> {
    /// A meter was read.
    Read {
        /// The meter.
        meter: Identity,
        /// The serial of its reading.
        serial: u64,
        /// The bodies of the reading's telegrams.
        bodies: Bodies<'a>,
        /// The last telegram, if the register holds the reading.
        last: Option<LastPart<'a>>,
    },
    /// The last readout of a meter failed.
    Failed {
        /// The line, from 1.
        line: u8,
        /// The meter.
        meter: Identity,
        /// Why that readout failed.
        why: Why,
        /// What its tries brought.
        brought: Brought,
    },
    /// The readout of a meter was refused.
    Refused {
        /// The meter.
        meter: Identity,
        /// The call that refused, and its fault.
        refusal: Refusal,
    },
    /// The bus of a line was lost.
    Lost {
        /// The line, from 1.
        line: u8,
    },
    /// Late answers were dropped on a line.
    Late {
        /// The line, from 1.
        line: u8,
        /// How many, at least 1.
        answers: u64,
    },
    /// The poll has ended.
    End {
        /// Number of meters that were read.
        read: u64,
        /// Number of meters that weren't read.
        failed: u64,
    },
}
