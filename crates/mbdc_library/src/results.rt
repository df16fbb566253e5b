//! What the calls that go on from place to place return.

/// One was found.
pub const DONE: u64 = 0;

/// No more follow.
pub const END: u64 = 1;

/// No more follow here, but more records in the next telegram.
pub const MORE: u64 = 2;

/// A body after this CI byte isn't read.
pub const OTHER: u64 = 3;

/// A fault: this, and its number.
pub const FAULT: u64 = 16;

/// No structure has this CI byte, nor one from there on.
pub(crate) const NO_CI: u64 = 0xFF;
