//! Groups of stamped sectors: what is written together is read together, or not at all.
//!
//! This product's own format. A group is pages of 488 bytes of payload and a commit sector after
//! them, all stamped with one session and one sequence. The stamps alone decide whether a group is
//! complete, so that one sync makes the whole group durable. A [`Site`] names a group and its
//! place.
//!
//! [`GroupWriter`] streams a payload into sectors through a buffer of one page. It uses no memory
//! and doesn't sync. Its contracts state for every moment which sectors a crash may leave; and
//! [`complete_as_written`] states of such an image that a group is complete there only as it was
//! before, or with each of its sectors as written. [`GroupSink`] is that writer with its disk, as a
//! sink for encoders.
//!
//! [`read_group`] returns the payload exactly if a group is complete, and otherwise names the first
//! sector that doesn't fit. [`stamp_of`] returns the stamp of any one sector.
#![tactic(auto)]

mod fault;
mod head;
mod laws;
mod reader;
mod site;
mod stamp;
mod streaming;
mod writer;

pub use fault::GroupFault;
pub use head::{BASE, CHANGES, PAYLOAD};
pub use laws::{
    complete_as_written, cut_is_incomplete, one_cut_at_a_place, one_group_at_a_place,
    part_is_incomplete,
};
pub use reader::{Group, read_group};
pub use site::Site;
pub use stamp::{Stamp, stamp_of};
pub use streaming::GroupSink;
pub use writer::GroupWriter;
