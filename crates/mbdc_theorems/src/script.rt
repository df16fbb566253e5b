//! Theorems: a `POLL` of a meter that follows the standard ends in one whole reading.
//!
//! Each `POLL` of a script is a poll of the definitions and ends, whatever its bus answers (the
//! contract of `poll` in dc_poller). Where the meters of the line follow the standard, the bus
//! isn't lost, nothing is lost three times in a row, the disk doesn't fail and memory is available,
//! it ends in one reading more, with the meter's telegrams, whole and in order
//! ([`a_poll_ends_in_a_reading`]). Such a poll exists of each meter that may be read
//! ([`a_poll_may_be_served`]).

mod laws;

pub use laws::{a_poll_ends_in_a_reading, a_poll_may_be_served};
