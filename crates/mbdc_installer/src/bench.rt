//! The commands of an installer on one bus line, once its link is open: a search for meters, the readout of one meter,
//! and a new primary address for one.
//!
//! [`work_over`] does the [`Work`] on a bus that the caller has connected, prints to a [`Printer`], and returns how the
//! command ends. [`put_remark`] writes what standard error says of it, and [`Progress`] shows a terminal how far a
//! search is. Nothing here opens a file or a socket.

mod command;
mod ending;
mod listening;
mod listing;
mod printer;
mod progress;
mod reading;
mod remark;

pub use crate::Target;
pub use crate::other::{Format, Noting, Other};
pub use command::{Done, Listing, MeterName, Scan, Work, run_over, work_over};
pub use printer::Printer;
pub use progress::{Progress, Show};
pub use remark::put_remark;
