//! Ways to reach the meters of a bus, as traits, and a search over any of them.
//!
//! A [`Bus`] takes a request and returns its answer, at most 300 bytes ([`AnswerBuf`]); a lost one
//! is silent. [`search_over`] searches one, and [`search_windows`] one on which several meters may
//! answer a request: it repeats what is silent, and reads each telegram twice. A [`HalfBus`] sends a request first, and
//! its answer is taken once it is complete, so that one thread can serve several. [`Both`] makes one bus of the
//! halves.
//!
//! Nothing here waits, and an answer uses no heap memory.
#![tactic(auto)]

mod answer_buf;
pub mod blocks;
mod both;
mod bus;
mod half;
pub mod trace;
mod windows;
pub mod world;

pub use answer_buf::{AnswerBuf, MOST_ANSWER};
pub use both::{Both, Pause};
pub use bus::{Bus, search_over};
pub use half::HalfBus;
pub use windows::{TRIES, bytes_of_noise, insist, read_twice, search_windows};
