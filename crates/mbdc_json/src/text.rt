//! A writer of text that keeps its failure.

use mbdc_decode::tokens::{Piece, put_pieces};
use mbdc_io::Sink;

/// Writes text to a sink. After a write that failed nothing more is written, and `has_failed` says so.
///
/// A function that writes many pieces to it has one exit: a `?` after each would make its proof dear.
#[derive(Drop)]
pub(crate) struct TextWriter<'w, W: Sink> {
    /// The sink.
    pub(crate) out: &'w mut W,
    /// Whether a write has failed.
    pub(crate) has_failed: bool,
}

impl<'w, W: Sink> TextWriter<'w, W> {
    /// Writes bytes.
    pub(crate) fn put(&mut self, bytes: &[u8]) {
        self.has_failed = self.has_failed || self.out.put(bytes).is_err();
    }

    /// Writes the pieces of a row.
    pub(crate) fn put_row(&mut self, pieces: &[Piece<'_>]) {
        self.has_failed = self.has_failed || put_pieces(self.out, pieces).is_err();
    }
}
