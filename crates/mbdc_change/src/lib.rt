//! The changes of a house's meter register (this product): the billing office's commands and their
//! lines, meters' telegrams, and the encoding of changes and states. The register itself is in
//! dc_meters.
//!
//! A meter is on a bus line, has a primary address or is read by secondary addressing, and belongs
//! to a flat. Its telegrams (EN 13757-3) come in parts; the part after which no more follow
//! completes a reading, which gets a serial and the meter's flat at that time. The office
//! registers, moves, replaces and removes meters, and confirms the readings that it has. The
//! definitions (`specs/`) state what a state is, which changes it accepts and the state after them.
//!
//! Proved: a command has one line, a line spells at most one command, and [`Command::parse_line`]
//! parses it; a line spells at most one change, a command or a telegram, and [`Change::parse_line`]
//! parses it. Changes and states have one encoding ([`one_spelling`]), and no change's encoding is
//! a prefix of another's. [`encode_change`] writes a change's encoding; [`decode_changes`] reads
//! all encodings of lists of changes, and rejects nothing else.
#![tactic(auto)]

mod body;
mod change;
mod change_line;
mod command;
mod command_bytes;
mod command_line;
mod decode_fault;
mod decoding;
mod encoding;
mod fault;
mod flat;
mod kept;
mod laws;
mod limits;
mod moment;
pub mod pieces;
mod words;
pub mod writing;

pub use body::Body;
pub use change::Change;
pub use change_line::a_line_has_one_change;
pub use command::{Command, Numbered, a_line_has_one_command};
pub use command_line::CommandLine;
pub use decode_fault::DecodeFault;
pub use decoding::{change_at, decode_changes};
pub use encoding::{address_number, encode_change};
pub use fault::ChangeFault;
pub use flat::Flat;
pub use laws::{acceptance_goes_by_parts, after_goes_by_parts, length_of_spelling, one_spelling};
pub use limits::{
    END_OF_NUMBERS, LAST_MOMENT, LONGEST_BODY, LONGEST_CHANGE_LINE, LONGEST_FLAT, LONGEST_LINE,
};
pub use moment::Moment;
pub use words::{a_text_has_one_first_word, parse_number, split_word};
