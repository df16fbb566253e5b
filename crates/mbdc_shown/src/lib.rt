//! What several commands print alike: the fields of a reading as JSON, the minute of a time stamp, and the room left.
//!
//! [`put_reported`] writes what the telegrams of a reading report as the fields of a reading of `values --json`
//! (`specs/Reported.antt`); [`Headline`] and [`Listed`] go through the records of these fields. [`Bodies`] are the
//! telegrams' bodies, of an image, a poll or a journal. [`readings_left`] says how many more readings an image has room
//! for (`specs/Room.antt`).
//!
//! Proved: the days of `specs/Utc.antt` are those of the calendar ([`minute`] finds them by the kit's dates).
#![tactic(auto)]

mod bodies;
mod reported;
mod room;
mod stand;
mod utc;

pub use bodies::{Bodies, MOST_BODIES};
pub use reported::put_reported;
pub use room::{EMPTY, put_number, readings_left};
pub use stand::{Current, Headline, Listed};
pub use utc::minute;
