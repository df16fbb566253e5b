//! The decoder over two slices, under the names by which C and WebAssembly know it.
//!
//! **As text.** [`mbdc_decode_text`] writes the text that `decode` prints for an input to the front of a slice,
//! [`mbdc_decode_json`] the lines of `decode --json`, and [`mbdc_decode_body`] the JSON line of a body without a frame.
//!
//! **As numbers.** [`mbdc_next_frame`] goes over the link frames of bytes, [`mbdc_header`] writes what stands before
//! the records of a body, and [`mbdc_next_record`] goes over its records with what mbdc_reading reads of each: names by
//! the numbers that [`mbdc_name`] has a name for, parts by their places. [`mbdc_value_text`] writes a value as text.
//!
//! A slice is two arguments in C, its address and its length. Nothing here takes memory or keeps a state, so it runs
//! where there is no host: `tools/library` makes libmbdc of it, and a module for web pages.
#![tactic(auto)]

mod body;
mod frames;
mod header;
mod json;
mod names;
mod plain;
mod results;
mod text;
mod texts;
mod walk;

pub use body::mbdc_decode_body;
pub use frames::{PlainFrame, mbdc_next_frame};
pub use header::{PlainHeader, mbdc_header};
pub use json::mbdc_decode_json;
pub use names::mbdc_name;
pub use plain::{Places, PlainHead, PlainReading, PlainRecord, PlainValue};
pub use results::{DONE, END, FAULT, MORE, OTHER};
pub use text::mbdc_decode_text;
pub use texts::mbdc_value_text;
pub use walk::mbdc_next_record;
