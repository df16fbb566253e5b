//! The wildcard search for meters on a wired M-Bus (EN 13757-3, editions of 2004 and 2013, selection
//! with wildcards; EN 13757-2, frames).
//!
//! A search selects all meters first. Where the answers of more than one meter collide, it selects the
//! ten masks with the next digit of the identification number, deeper ones first. A meter that answers
//! alone is found; where all eight digits are fixed and answers still collide, the number is shared.
//!
//! [`Search`] does no I/O: [`Search::next`] returns the next step, [`Step::request`] the frame to
//! send for it, and [`Search::heard`] takes the answer. Their definition is a rule on the masks
//! due, what was found and the selections made. [`sweep`] runs a search on a list of meters: within
//! the budget it finds every meter whose number is unique and every number of several meters, both
//! ascending, with at most forty selections a meter and one more.
//!
//! [`put_search`] writes the result of a search as text.
//!
//! Memory grows with the depth of the walk and the number of meters found, not with the selections.
#![tactic(auto)]

mod answer;
mod branch;
pub mod bus;
mod fault;
mod found;
mod laws;
mod search;
mod step;

pub use answer::meter_of;
pub use branch::Branch;
pub use bus::sweep;
pub use fault::SearchFault;
pub use found::{put_search, put_search_after};
pub use laws::searches_end;
pub use search::Search;
pub use step::Step;
