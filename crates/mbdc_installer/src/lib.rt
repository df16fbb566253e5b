//! The commands of an installer on one bus, without an image: a search for meters, the readout of
//! one meter, and a new primary address for one.
//!
//! Nothing is stored. [`read`] prints each telegram before the meter is asked for the next one. [`scan`] is the
//! wildcard search, and [`scan_primary`] asks each primary address; [`Course`] follows how far they are, and
//! [`put_unread`] says how many of their answers can't be read.
//! [`set_address`] changes an address only where the new one is silent and one meter answers, at its old one or
//! selected.
#![tactic(auto)]

mod address;
pub mod bench;
mod confirming;
mod course;
mod hearing;
mod laws;
mod number;
mod other;
mod primary;
mod reading;
mod unread;
mod wildcards;

pub use address::{Addressing, Target, put_addressing, set_address};
pub use course::Course;
pub use laws::{
    a_closed_wildcard_hides_no_meter, a_confirmed_meter_is_known, a_course_counts_the_answers,
    any_wildcard_may_be_closed,
};
pub use number::{Numbered, find_number, put_unfound};
pub use primary::{Asked, GREATEST, ask_address, identify, judge, scan_primary, sender_at};
pub use reading::{Readout, read};
pub use unread::{is_all_read, put_unread};
pub use wildcards::{Count, ScanFault, scan};
