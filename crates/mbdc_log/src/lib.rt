//! The store: a state on a disk, through every crash. What it keeps implements `mbdc_io::kept::Kept`.
//!
//! This product's own format. After two root slots an image has two halves. The root in force names
//! one; it begins with a base group that spells a whole state, and groups of changes with
//! consecutive sequences follow as long as they are complete. Together they give the state that the
//! image reads as. The image stands for that state if it is fresh too: no sector carries a session
//! or a sequence that is still to come.
//!
//! Proved, of any disk that keeps the disk model: [`Log::open`] returns exactly the state that
//! the image reads as, or why it reads as no state; and no image of any moment of a format that
//! ended, an open, an append or a compaction stands for another state than the one before or the
//! one after. So a crash within any call of the disk leaves an image that is opened as one of the
//! two, and what was acknowledged with `Ok` is there.
//!
//! An image of version 1 opens too: after the session's root it is compacted into an image of
//! version 2, which is what every store keeps. It can't be converted back.
//!
//! What a crash leaves stands for a state. Other images may have lost a sector after its sync. Where a later sector is
//! left, [`first_ahead`] finds it before the image is opened: opening would go on from an older state. A lost
//! last group looks like one that a crash kept from its sync.
//!
//! An append is a group and one sync. A compaction is the whole state as a base group in the other half, a
//! sync, the next root and a sync. An open reads each sector that it needs once; a look before it also reads both
//! halves.
#![tactic(auto)]

mod appending;
mod compacting;
mod fault;
mod formatting;
mod freshness;
mod greatest;
mod halves;
mod laws;
mod opening;
mod reading;
mod rescuing;
mod rooting;
mod sites;
mod store;
mod writing;

pub use fault::{FormatFault, OpenFault, StoreFault};
pub use freshness::{first_ahead, settled_ahead};
pub use greatest::{Greatest, Peak, greatest_of};
pub use halves::{FEWEST_SECTORS, half_end, half_len_of, half_start};
pub use laws::{
    a_refused_image_is_not_read, an_unread_image_is_not_read, one_first_ahead, one_refusal,
    reads_as_one_state,
};
pub use opening::is_spent;
pub use reading::{Found, read_chain, read_image};
pub use rescuing::{RenewFault, Rescued, Source, renew, rescue};
pub use store::Log;
