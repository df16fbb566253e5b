//! A bus line through a transparent level converter: the raw bytes of EN 13757-2, in which nothing
//! marks the end of an answer.
//!
//! A [`Wire`] sends bytes and returns what has arrived so far; no call waits. A [`Line`] is a wire on
//! which one request at most is under way, until it fails: a request goes out on a quiet line, after an
//! answer that it doesn't repeat, or as the repeat of one whose acknowledgement is overdue; it waits for
//! that within [`hear`](mbdc_bus::HalfBus::hear). The reset of all selected meters doesn't wait if it is the first
//! request. An answer
//! is the first whole frame, or all bytes before the silence, at most 300
//! ([`AnswerBuf`](mbdc_bus::AnswerBuf)), without the echo of the request that some converters send.
//! After a request that several meters may answer it is all that comes while one of them may begin.
//! A line is a [`HalfBus`](mbdc_bus::HalfBus), so one thread can serve several.
//!
//! [`PollWire`] is the wire over a descriptor, of a TCP stream or a terminal; its bytes aren't
//! known to contracts. [`Tape`] is a wire in memory.
#![tactic(auto)]

mod hearing;
mod laws;
mod line;
pub mod links;
mod listening;
mod logged_clock;
mod pace;
mod poll_wire;
mod polling;
mod state;
mod tape;
mod wire;

pub use hearing::Hearing;
pub use laws::{
    a_wire_waits_by_its_clock, what_a_line_gives_is_heard, what_is_heard_depends_on_the_bytes_alone,
};
pub use line::{Gone, Held, Line};
pub use listening::{drain, gather, hear, without_echo};
pub use pace::Pace;
pub use poll_wire::{GAP, GivenUp, Link, PollWire, Until};
pub use state::{Kind, State};
pub use tape::{Event, Tape};
pub use wire::{Asking, Came, Wire};
