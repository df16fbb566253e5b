//! The phase of a line's readout between two steps.

use crate::end::End;
use mbdc_bus::AnswerBuf;

/// The phase of the readout of a line's current meter.
#[derive(Clone, Copy)]
pub enum Phase {
    /// No readout is running.
    Free,
    /// A readout is running, with at most this many requests left.
    Busy(u8),
    /// A readout is running, with at most this many requests left, and its telegram is pending.
    Pending(u8),
    /// A readout has ended, and its end isn't told yet.
    Over(End),
}

/// The state of a line's request.
#[derive(Drop)]
pub enum Request {
    /// No request is out.
    Quiet,
    /// A request was sent.
    Sent,
    /// The answer to the request.
    Answered(AnswerBuf),
}
