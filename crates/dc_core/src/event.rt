//! The events of a concentrator: its calls, with their arguments.

use dc_address::Identity;

/// An event of a concentrator: a call, with its arguments.
#[derive(Clone, Copy)]
pub enum Event<'a> {
    /// The readout of a meter begins on its line.
    Start {
        line: u8,
        meter: Identity,
    },
    /// The request of a line is asked for.
    Ask {
        line: u8,
    },
    /// An answer is received on a line, with its time stamp. No byte is silence.
    Hear {
        line: u8,
        moment: u64,
        answer: &'a [u8],
    },
    /// The pending changes are written.
    Commit,
    /// A line of the billing office, without its line end.
    Office {
        text: &'a [u8],
    },
}
