//! The command `decode`: the text of link frames and telegrams, from any source to any sink of
//! bytes.
//!
//! [`decode_lines`] reads lines of hex digits and writes the content of their frames (link frames
//! of EN 13757-2, telegrams of EN 13757-3): one line of text for each fact, and the decoded value
//! after a record's data. The text is the one that `specs/Text.antt` defines for the whole input,
//! byte for byte, and the result states whether a fault is in that text.
//!
//! Read and write faults are returned only if that end counted a failure, and an input over 1 MiB
//! is rejected. The input is read, and all memory allocated, before anything is written.
//! `decode_lines` writes many small pieces: callers pass it a buffered sink, such as
//! [`Buffered`](mbdc_io::Buffered).
//!
//! [`put_lines`] does the same for an input that is at hand, and needs no memory of its own.
//!
//! `decode --json` and `decode --explain` write the same frames in another form: a [`LineForm`] is
//! called by one loop over lines and frames, [`put_lines_as`] for an input that is at hand, and
//! [`Input`] for one that is read. Other crates that read frames use [`first_frame`] and
//! [`read_frame`].
//!
//! Theorem: [`frames_are_told_in_turn`]. A line's bytes split into texts without loss, and
//! consecutive frames are printed one by one.
#![tactic(auto)]

mod decode;
mod form;
mod frames;
mod input;
mod laws;
mod line;
mod lines;
pub mod objects;
mod seen;
mod telegram;
mod text;
pub mod tokens;

pub use decode::{decode_lines, put_lines};
pub use form::LineForm;
pub use frames::{first_frame, read as read_frame};
pub use input::Input;
pub use laws::frames_are_told_in_turn;
pub use lines::put_lines_as;
pub use seen::put_point;
pub use text::put_frames;
