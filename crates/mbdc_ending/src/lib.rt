//! How a run of the program ends: what stopped an engine, the exit status, and the line on standard
//! error.
//!
//! A [`ProgramFault`] is what stops an engine of the program. An [`Ending`] is the exit status of a
//! run and its one line on standard error; [`ending_of`] derives it from an engine's result. A
//! control character of a file's name is written as Rust's `escape_default` writes it.
#![tactic(auto)]

mod ending;
mod escape;
mod fault;

pub use ending::{Ending, STREAM, ending_of};
pub use fault::ProgramFault;
