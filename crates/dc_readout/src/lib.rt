//! The readout of one meter, as a session on its line: what is asked, how an answer is judged, and when the
//! frame count bit changes (EN 13757-2; selection after EN 13757-3 in its editions of 2004 and 2013, since 2018
//! EN 13757-7).
//!
//! A meter goes on to its next telegram when the bit changes. So a [`Session`] asks for the next telegram only
//! after the last one was settled, which is the caller's word that it is kept. What is asked next, how an answer
//! is judged and the bit are functions of the session's past: of the answers that were heard and the telegrams
//! that were settled, and of nothing else.
//!
//! [`play`] plays the sessions of a concentrator that may crash, with simulated meters on one line that loses and
//! garbles: each reading that is held is one whole readout.
//!
//! Nothing here takes memory but for `play`.
#![tactic(auto)]

mod answers;
mod heard;
mod laws;
pub mod misses;
mod session;
mod stage;
mod why;
pub mod world;

pub use heard::Heard;
pub use laws::{
    a_readout_makes_few_requests, a_taken_telegram_was_asked_for, nothing_more_is_asked,
    requests_are_repeated, requests_differ_by_the_parity_of_what_is_settled,
    the_bit_changes_with_a_settled_telegram, the_summary_follows_the_past,
};
pub use session::Session;
pub use why::Why;
pub use world::{
    Bodies, Body, Held, MeterScript, Outcome, Reply, SimulatedMeter, WorldEvent,
    a_meter_goes_on_from_what_is_committed, are_regular, play, what_is_held_is_whole,
};
