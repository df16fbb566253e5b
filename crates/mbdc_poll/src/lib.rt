//! The readout of many meters on up to eight lines at once, round after round.
//!
//! The meters of a line are read in passes: the first goes through all, in order, each later one through those that
//! failed in the one before it. In a round each line takes one step: it begins its next meter and asks, or
//! asks. Then time passes, what is complete of the answers is heard, one commit writes all that was accepted, and
//! each readout that ended gives an event ([`read_all`]).
//!
//! Events go to a [`Teller`]. [`events`] has tellers that print them as text and as JSON.
#![tactic(auto)]

mod addressing;
mod brought;
mod clock;
mod confirming;
mod end;
mod event;
pub mod events;
mod filtered;
mod image;
mod last_part;
mod laws;
mod lines;
mod newest;
mod outcome;
mod phase;
mod readout;
mod recounting;
mod remembering;
mod retrying;
mod sparing;
mod station;
mod stepping;
mod teller;
mod telling;
mod timer;
mod waiting;

pub use addressing::{Addressed, Addressing};
pub use brought::Brought;
pub use end::{End, Refusal};
pub use event::Event;
pub use filtered::{Filter, Filtered, PollBus, with_filters};
pub use image::{Plan, poll_image};
pub use last_part::LastPart;
pub use laws::{
    a_busy_meter_is_asked_again, a_dropped_telegram_is_asked_for_again,
    a_meter_is_read_by_its_address, a_queue_goes_in_passes, a_readout_that_differs_begins_anew,
    a_silent_meter_gets_one_question, what_a_failed_readout_brought_is_told,
    what_is_read_is_committed,
};
pub use outcome::{Counts, Outcome};
pub use phase::{Phase, Request};
pub use readout::read_all;
pub use recounting::{Count, Known, Recounting};
pub use remembering::Remembering;
pub use retrying::Retrying;
pub use sparing::{Doubt, Fate, Sparing};
pub use station::Station;
pub use teller::Teller;
pub use timer::Timer;
pub use waiting::is_awaited;
