//! Why bytes can't be decoded.

/// Why bytes can't be decoded.
#[derive(Clone, Copy)]
pub enum DecodeFault {
    /// The bytes don't spell the expected value.
    Bad,
    /// Out of memory.
    NoMemory,
}
