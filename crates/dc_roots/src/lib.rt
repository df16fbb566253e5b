//! The two root sectors of an image, which locate the store's data.
//!
//! This product's own format. Sectors 1 and 2 are the root slots: the root of generation g is in slot
//! 1 + g mod 2, so that the next root never overwrites the one in force, and names the session, the
//! half that is in use and the sequence of its base group.
//!
//! [`choose`] returns the valid root of the greater generation, and [`read_slot`] the contents of
//! one slot. [`write_next`] writes the next root into the other slot and nothing else; it doesn't
//! sync.
#![tactic(auto)]

mod chooser;
mod fault;
mod format;
mod root;
mod writer;

pub use chooser::{Held, choose, read_slot};
pub use fault::RootFault;
pub use root::Root;
pub use writer::write_next;
