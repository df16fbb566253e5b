//! The system, as the commands see it.

use crate::why::Why;

/// The system, and the record of its failed calls.
#[derive(Clone, Copy)]
pub struct Host<'h, R> {
    /// The system.
    pub rt: &'h R,
    /// The record of the calls that failed.
    pub why: &'h Why,
    /// Whether standard error is a terminal.
    pub is_watched: bool,
}
