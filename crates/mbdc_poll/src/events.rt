//! What a poll prints: tellers of its events.
//!
//! [`Printer`] prints a line of text for each event, or a JSON object (RFC 8259); `specs/Text.antt` and
//! `specs/Object.antt` define them. The object of a meter that was read has what its last telegram reports.
//! [`Unfailing`] goes on without output where another teller fails. [`Progress`] shows a terminal how many meters are
//! done with, and [`put_reason`] writes what the tries of a failed readout brought. [`put_note`] writes the line of an
//! event in an image's journal; what takes such lines ([`Notes`]) changes nothing of the poll.

mod content;
mod laws;
mod note;
mod objects;
mod printer;
mod progress;
mod reason;
mod tally;
mod text;
mod unfailing;

pub use laws::{events_are_printed, events_are_taken_up_to_a_failure};
pub use note::{Notes, put_command_note, put_note};
pub use objects::put_object;
pub use printer::{Form, Printer};
pub use progress::{Progress, Shown};
pub use reason::put_reason;
pub use tally::Tally;
pub use text::put_line;
pub use unfailing::Unfailing;
