//! What the front of a stream needs.

/// What the frame at the front of some bytes needs.
#[derive(Clone, Copy)]
pub enum Need {
    /// At least this many bytes are missing.
    More(usize),
    /// The frame is whole: its length in bytes.
    Whole(usize),
    /// No frame begins so.
    Bad,
}
