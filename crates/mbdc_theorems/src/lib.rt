//! Theorems: the readout of a meter that follows the standard ends in one whole reading (EN
//! 13757-2, frame count bit; EN 13757-3 until 2013, since then EN 13757-7, selection).
//!
//! A readout goes round by round: a request is sent, the line's answer is received, and the pending
//! changes are committed. If nothing is lost, it ends after one request for each telegram of the
//! meter and one or two commands before them ([`an_undisturbed_readout_ends_in_a_reading`]). Each
//! loss costs at most one more round, as long as nothing is lost three times in a row
//! ([`a_readout_ends_in_a_reading`]). The register then has one more reading, with the meter's
//! telegrams, whole and in order. The premises can be met ([`a_meter_may_be_read`]).
//!
//! Other lines may be read meanwhile ([`a_readout_beside_others_ends_in_a_reading`]), as in a run
//! of the concentrator from its opening on ([`each_readout_of_a_run_ends_in_a_reading`]).
//!
//! That a gateway answers, that the disk doesn't fail and that memory is available are premises.
#![tactic(auto)]

pub mod counter;
pub mod house;
pub mod in_time;
mod laws;
pub mod poll;
pub mod script;
pub mod searching;

pub use laws::{
    a_concentrator_keeps_its_lines, a_meter_may_be_read, a_readout_beside_others_ends_in_a_reading,
    a_readout_ends_in_a_reading, an_undisturbed_readout_ends_in_a_reading,
    each_readout_of_a_run_ends_in_a_reading,
};
