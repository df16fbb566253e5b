//! The site of a group.

/// The site of a group: which one it is, and its place on the disk.
#[derive(Clone, Copy)]
pub struct Site {
    /// The kind of its pages.
    pub kind: u8,
    /// The version of its sectors.
    pub version: u8,
    /// The group's sequence number, which is used once.
    pub sequence: u64,
    /// Its first sector.
    pub first: u32,
    /// The sector before which its half ends.
    pub limit: u32,
}
