//! Frames and telegrams as JSON Lines (RFC 8259), from any source to any sink of bytes.
//!
//! [`json_lines`] reads lines of hex digits, as [`decode_lines`](crate::decode_lines) does, and
//! writes one JSON object for each frame and for each fault, with the fields of link frames (EN
//! 13757-2) and telegrams (EN 13757-3). Its text is the one that `specs/Text.antt` defines for the
//! whole input, byte for byte: each object is the compact text of the value that `specs/Frame.antt`
//! defines. [`put_json_lines`] does the same for an input that is at hand, and takes no memory.
//!
//! [`put_body_line`] writes the object of a body without a frame around it.
//!
//! A row of cells with names ([`Cell`]) is written as the fields of an object, as an object or as a line; other crates
//! write a meter's identity, a status byte, a value and a unit as here.

mod body;
mod content;
mod frame;
mod lines;
mod meter;
mod record;
mod row;
mod telegram;

pub use body::put_body_line;
pub use content::put_content;
pub use lines::{json_lines, put_json_lines};
pub use meter::{put_meter, put_status_object};
pub use record::{put_counter, put_record, put_value};
pub use row::{Cell, put_line, put_object, put_row};
