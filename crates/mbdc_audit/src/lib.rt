//! The command `audit`: checks published numbers of a house against the telegrams that they come from.
//!
//! [`audit`] reads a file into a house, and walks over it: has each value evidence, is it a sound house, is each number
//! what is defined, with its mark. It prints what isn't.
#![tactic(auto)]

mod apart;
pub mod consumption;
mod curve;
mod engine;
mod evidence;
mod exact;
mod fault;
mod field;
mod grade;
mod house;
mod index;
mod laws;
mod line;
mod moment;
mod number;
mod numbers;
mod reader;
mod readings;
mod smallest;
mod sound;
mod teller;
mod totals;
mod uses;
mod values;

pub use engine::{audit, fill};
pub use laws::{a_sound_house_adds_up, amounts_are_of_telegrams, worked_examples};
