//! The pending changes (this product): the telegrams that were taken and aren't on the disk yet,
//! and the sessions on the eight bus lines.
//!
//! [`take`] takes a telegram: adds it to the register, and its encoded change to a buffer of fixed
//! size. [`write_waiting`] writes all pending changes as one group, or, if that doesn't fit, the
//! register's whole state. [`Lines`] has the session on each line; [`Lines::settle`] acknowledges
//! the telegrams that were written.
//!
//! Proved: a telegram is refused if the maximum number of changes is pending or the register
//! refuses it; otherwise it is taken, or memory ran out and nothing has changed. A write is on the
//! disk whole or not at all, whenever a crash comes.
//!
//! Only [`take`] uses memory, and only the register's: no commit can run out of memory.

mod fault;
mod lines;
mod taking;
mod waiting;
mod writing;

pub use fault::TakeFault;
pub use lines::{Lines, is_line};
pub use taking::take;
pub use waiting::Waiting;
pub use writing::{write_changes, write_waiting};
