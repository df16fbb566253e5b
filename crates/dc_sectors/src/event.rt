//! The record of a disk in memory.

/// An event that a disk in memory recorded.
#[derive(Clone, Copy)]
pub enum Event {
    /// A write, and whether it succeeded.
    Write {
        at: u32,
        bytes: [u8; 512],
        done: bool,
    },
    /// A sync that succeeded.
    Sync,
}
