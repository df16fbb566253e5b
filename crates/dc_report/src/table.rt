//! A table and the number of its rows.

use std::alloc::Allocator;

/// A table's text, and the number of its rows, without the header.
#[derive(Drop)]
pub struct Table<A: Allocator> {
    /// The text.
    pub bytes: Vec<u8, A>,
    /// Number of rows.
    pub rows: usize,
}
