//! The billing office's lines and the replies to them (this product).
//!
//! The office sends numbered commands that change the register, and asks for readings and for the
//! meters. Each of its lines is parsed ([`parse_line`]), judged on the house ([`judge`]) and
//! answered by that verdict ([`write_reply`]).
#![tactic(auto)]

mod code;
mod fault;
mod line;
mod register;
mod reply;
mod verdict;
mod window;
mod words;

pub use code::Code;
pub use fault::ReplyFault;
pub use line::{OfficeLine, a_text_spells_one_line, parse_line};
pub use register::write_meters;
pub use reply::{write_answer, write_refusal, write_reply};
pub use verdict::{Verdict, a_done_command_is_repeated, judge};
