//! Theorems: a search on a bus whose meters each answer within the window finds every meter.
//!
//! `search_windows` of mbdc_bus asks as `IsAskedAll` of its contract says. Where meters answered in the windows of that
//! run, it made the selections of the walk over them, so that it found every meter whose number no other has, and every
//! number of several meters ([`every_meter_is_found`]). [`a_search_may_be_answered`] shows such a run.

mod laws;

pub use laws::{a_search_may_be_answered, every_meter_is_found};
