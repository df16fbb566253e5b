//! A reading's serial under an index key.

/// A serial under a key: ordered by key, and by serial for equal keys.
#[derive(Clone, Copy, PartialEq, Eq, PartialOrd, Ord)]
pub struct Filed<K> {
    /// The key.
    pub key: K,
    /// The serial.
    pub serial: u64,
}
