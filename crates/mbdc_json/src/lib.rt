//! What the meters of a house stand at as JSON Lines, and the output of `decode` as a table for readers.
//!
//! [`put_value_objects`] writes what the meters of a house stand at, an object per meter (`specs/Values.antt`).
//! Each object is the compact text of the value that this defines.
//!
//! [`explain_lines`] writes the frames of lines of hex digits in words and aligned, with the place
//! of each fault and what was expected there. Its text has no contract.
#![tactic(auto)]

mod explain;
pub mod journal;
pub mod latest;
mod overview;
mod place;
pub mod status;
mod table;
mod text;
mod values;

pub use explain::explain_lines;
pub use overview::put_overview;
pub use values::put_value_objects;
