//! What a store asks of what it keeps.
//!
//! [`Language`] has ghost types for states and changes, and what the proofs of a store need of them; [`Kept`] the calls
//! that read and write them.

mod fault;
mod kept;

pub use fault::DecodeFault;
pub use kept::{Kept, KeptIn, Language, Subject};
