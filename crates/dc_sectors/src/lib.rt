//! The disk model: what a disk of sectors reads, and its possible contents after a crash.
//!
//! This product's own model. A sector has 512 bytes. Until a sync succeeds, each sector that was
//! written may read, after a crash, as it did at the last sync, as any content written since, or as
//! unreadable, each sector independently; what is synced stays. A write that failed counts as
//! written.
//!
//! [`Disk`] is that model as a contract: what each sector reads now, its possible contents after a
//! crash at this moment, the images that a crash at any earlier moment could leave, and a count of
//! failures. What a read returns is stated under the premise that the disk `keeps` the model: all
//! its reads so far returned what the model states. Everything else needs no premise. A crash may
//! come within a call: within a write the possible contents are those after it, within a sync those
//! before it.
//!
//! [`MemoryDisk`] always keeps the model. It derives the possible contents and images from a record
//! of its writes and syncs, fails where a test says so, and its crash leaves the image that was
//! picked: one of those that the model allows, and the only one from then on.
//!
//! [`FileDisk`] is a disk over a file. Its contract states which call of the file each of its calls
//! makes, and what it returns for that call's result: the file's calls are in a history that only
//! clauses read. No contract can state what a file keeps, so the disk model is a hypothesis on that
//! history, `KeepsRule` of specs/File: that is its `keeps`. The file's contents before the first
//! call are a value that only clauses read, and of which nothing is known. Each fault of the file is a counted
//! failure, and after a sync that failed every call fails.
//!
//! A file may be over another one, which it asks for what it returns (specs/Over). It keeps the disk model if the inner
//! one does, but for failures of its own ([`a_file_over_another_keeps_its_rule`]).
//!
//! Callers state the images that they leave for every moment, and prove them from the trait alone.
//! The lemmas for that are `proofs/Moments` on sequences of calls and `specs/Images` on possible
//! contents.
//!
//! [`u16_at`] .. [`put_u64`] read and write numbers of several bytes at a place in a sector,
//! little-endian: the layout that root sectors and pages of the image share.
#![tactic(auto)]

pub mod call_log;
mod calls;
mod device;
mod event;
mod fields;
mod file;
mod file_calls;
mod laws;
mod logged;
mod memory;
mod pick;
mod scan;
mod sector;
pub mod snapshot;

pub use device::Disk;
pub use fields::{put_u16, put_u32, put_u64, u16_at, u32_at, u64_at};
pub use file::{DiskOver, FileDisk};
pub use file_calls::FileCalls;
pub use laws::{
    a_cut_between_two_files, a_file_over_another_keeps_its_rule, what_is_left_may_be_opened,
};
pub use logged::Logged;
pub use memory::MemoryDisk;
pub use pick::Pick;
pub use sector::{Failed, ReadFault, Sector};
