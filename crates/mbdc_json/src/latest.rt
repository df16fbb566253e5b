//! What the meters of a house stand at: the text of `mbdc values`.
//!
//! [`put_values`] writes, for each registered meter by flat, the moment of the last reading that the register holds (in
//! UTC), the status that the meter reported in it, and its current values with their units (EN 13757-3: storage number
//! 0, instantaneous). A reading that the billing office has confirmed is no longer held: where the journal's is later
//! than what is held, it writes that, of the telegrams that its line has.
//!
//! Proved: the text is exactly the one that `specs/Latest.antt` defines of the register's state and the journal. The
//! minutes are those of [`minute`](mbdc_shown::minute).

mod lines;
mod reading;
mod status;

pub use lines::put_values;
pub(crate) use lines::{put_names, put_word};
pub(crate) use reading::{Shown, last_reading, part_in, shown_of};
pub(crate) use status::put_byte_words;
