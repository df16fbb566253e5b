//! A counter in the store: an example of what a store keeps, beside the house.
//!
//! A state is a number of eight bytes, a change a number to add. Proved: a [`Counter`] is what
//! [`Kept`](mbdc_io::kept::Kept) asks, so each clause of the store is one of counters too. No program uses it.

mod counter;
mod reopen;

pub use counter::{Counter, Counting};
pub use reopen::reopened;
