//! The contents of a sector after a crash.

/// The contents, after a crash, of a sector that was written since the sync.
#[derive(Clone, Copy)]
pub enum Pick {
    /// What the sector read at the last sync.
    Old,
    /// The bytes of one of the writes since, counted from 0.
    Written(usize),
    /// Unreadable.
    Unreadable,
}
