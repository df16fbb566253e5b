//! JSON tokens (RFC 8259), written straight into any sink of bytes.
//!
//! The text of tokens is the one that the toolchain's crate json defines (its `specs/Print.antt`):
//! no space, and the shortest escapes. A row of text is written as its pieces ([`put_pieces`]). Nothing here takes
//! memory.

mod pieces;
mod plain;
mod writer;

pub use pieces::{Piece, put_pieces};
pub use writer::TokenWriter;
