//! The commands `poll` and `run`, once their files and links are open: the poll or the script goes over what the
//! caller has opened, is printed, and ends. And the words of the command line, which ask for them and for all other
//! commands ([`words`]).
//!
//! [`poll_over`] reads the meters of an image over the buses of their lines, and [`run_over`] runs a script over one.
//! [`poll_ending`] says which exit status results. A [`Waits`] waits for the buses that are awaited.
#![tactic(auto)]

mod connecting;
mod ending;
mod fit;
mod guard;
mod known;
mod known_sink;
mod known_source;
mod poll;
mod rescue;
mod run;
mod timer;
mod waiting;
pub mod words;

pub use connecting::links_of;
pub use ending::{look_ending, poll_ending, run_result};
pub use fit::fit_over;
pub use poll::{Printing, poll_over};
pub use rescue::{put_rescued, rescue_over, rescue_to};
pub use run::run_over;
pub use timer::HostTimer;
pub use waiting::{FilteredWatch, Waits, add_awaited};
