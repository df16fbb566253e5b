//! The data concentrator of a house: eight bus lines, a register on a disk, and one commit for the pending changes
//! (this product; the frame count bit is that of EN 13757-2).
//!
//! A meter discards a telegram once the frame count bit of the request is toggled. So a
//! [`Concentrator`] requests the next telegram only after the last one is on the disk: a received
//! telegram is pending, a [`Concentrator::commit`] writes all pending changes with one sync, and
//! only then do its lines go on.
//!
//! The billing office is answered from what is on the disk: [`Concentrator::office`] commits the
//! pending changes before it judges a line, and a command before it acknowledges it.
//!
//! Proved: each call is a step of the definition in `specs/Step.antt`, in each state that the
//! concentrator may be in. After a crash before or within any call of the disk, opening returns the
//! register after a prefix of what was accepted, which has every telegram after which another
//! request was sent on its line, every command acknowledged and every reading shown to the office,
//! and all that was accepted before a commit that returned a number (in one clause:
//! [`Concentrator::open`], `the_headline`; [`what_is_promised_is_committed`],
//! [`what_the_office_is_told_is_kept`], [`Concentrator::run`]).
//!
//! Only [`Concentrator::open`] uses memory, [`Concentrator::hear`] for a new telegram, and
//! [`Concentrator::office`] for a new command.
#![tactic(auto)]

mod concentrator;
mod event;
mod fault;
mod laws;
mod line_heard;
pub mod pending;
mod running;
mod telling;

pub use concentrator::Concentrator;
pub use event::Event;
pub use fault::{CommitFault, HearFault, StartFault, WriteFault};
pub use laws::{
    a_settled_telegram_toggles_the_bit, an_image_of_a_life_may_be_opened,
    no_telegram_asked_for_is_unknown, what_is_promised_is_committed,
    what_the_office_is_told_is_kept,
};
pub use line_heard::LineHeard;
pub use telling::{put_asked, put_committed, put_heard, put_started};
