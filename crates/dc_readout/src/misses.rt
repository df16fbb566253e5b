//! What the failed tries of a readout brought.
//!
//! A try of a request fails by silence, by bytes that are no frame, or by a frame that isn't the answer. [`Misses`]
//! counts each kind, and [`put_misses`] writes the counts as a sentence, which names a cause better than
//! `NoAnswer` does. [`put_reason`] writes the line of a failed readout with it.

mod laws;
mod misses;
mod missing;
mod reason;
mod text;

pub use laws::misses_are_counted;
pub use misses::{Misses, is_noise};
pub use missing::is_missing;
pub use reason::{Owner, put_reason};
pub use text::put_misses;
