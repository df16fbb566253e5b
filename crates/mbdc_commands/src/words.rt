//! The words of the command line, read with `clap`: what the program is asked to do.
//!
//! [`call_of`] makes a [`Call`] of the words, which has a [`Task`]. A bus line's link is named by a
//! word such as `1=tcp://10.0.0.7:10001` ([`Links`], [`LinkName`]). What is wrong with the words is a
//! [`WordsFault`].

mod call;
mod fault;
mod help;
mod link;
mod links;
mod near;
mod rows;
mod silence;
mod task;

pub use call::call_of;
pub use fault::{LinkFault, WordsFault};
pub use link::LinkName;
pub use links::Links;
pub use near::nearest;
pub use task::{BusTask, Call, Engine, Form, Layout, OrderTask, PollTask, RunTask, Task, Turn};
