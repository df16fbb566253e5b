//! A second reading of records, for what the due-date table leaves as other (EN 13757-3).
//!
//! **Codes and VIFEs** stand in tables, [`CODES`], and [`VIFES`], [`LIMIT_VIFES`] and [`LATER_VIFES`], with their names,
//! units, powers of ten and effects. What a block says is its code, changed by its VIFEs from left to right; a VIFE whose
//! meaning isn't certain leaves the record unread, and a manufacturer's VIFE ends what is interpreted.
//!
//! **Values.** A record that the due-date table has is read as its point. Else its data are read as its code's kind
//! says, where their form has one: a number, flags, digits, a text, a date or a time, an identity; else
//! there is a reason why not.
//!
//! Nothing here takes memory.
#![tactic(auto)]

mod codes;
pub mod content;
mod form;
mod front;
mod laws;
mod meaning;
mod names;
mod parts;
mod reading;
pub mod real;
mod sent;
mod text;
mod value;
mod vifes;

pub use codes::{CODES, Code, Kind, code_at, number_of};
pub use form::{DataType, Form};
pub use laws::{
    as_in_a_telegram, as_the_table_reads, corrections_add_up, each_vife_is_told,
    no_error_changes_nothing, nothing_unknown_is_read,
};
pub use meaning::{Meaning, is_extension, number_after};
pub use names::vife_text;
pub use parts::{label_of, maker_of, told_of, vifes_of};
pub use reading::{Found, How, Reading, reading_of};
pub use sent::{Sent, SentRecords, end_of};
pub use text::{READING_ROOM, digits_text, label_text, unit_text, value_text};
pub use value::{Datum, NoValue, value_of};
pub use vifes::{Effect, LATER_VIFES, LIMIT_VIFES, VIFES, Vife, vife_at};
