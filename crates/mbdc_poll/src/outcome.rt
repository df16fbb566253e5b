//! The counts of a poll, and how it ended.

use dc_core::CommitFault;

/// The numbers of meters that a poll has read and not read so far.
#[derive(Clone, Copy)]
pub struct Counts {
    /// Number of meters that were read.
    pub read: u64,
    /// Number of meters that weren't read.
    pub failed: u64,
}

/// How a poll ended.
#[derive(Clone, Copy)]
pub struct Outcome {
    /// Number of meters that were read.
    pub read: u64,
    /// Number of meters that weren't read.
    pub failed: u64,
    /// The fault of the commit that ended it, if one did.
    pub fault: Option<CommitFault>,
}
