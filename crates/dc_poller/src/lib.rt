//! The engines of the program `mbdc` that work on an image, over any source and any sink of bytes.
//!
//! [`run_script_over`] reads the lines of a script ([`ScriptLine`]), opens an image and executes
//! them: a line is one event of a concentrator, the poll of a meter over the gateway, which is bus line 1, or a search
//! for meters over it. The gateway is any [`Bus`](mbdc_bus::Bus); [`run_script`] makes one of a reader and a writer of
//! blocks. What it writes, and what it leaves of the image at every moment, is what the
//! run of these events writes and leaves (`specs/Script.antt`, `specs/Poll.antt`,
//! `specs/Search.antt`, `specs/ImageRun.antt`). Over the gateway go the exchanges of the
//! lines in their order, and nothing else (`specs/Traffic.antt`).
//!
//! Read and write faults are returned only if that end counted a failure, and a script over 1 MiB
//! is rejected. The script is read before the image is opened.
//!
//! [`fold_lines`] works without an image: it applies lines of telegrams and of the billing office
//! to an empty register, and writes an answer to each line and then the register
//! (`specs/Fold.antt`).
//!
//! Theorems: [`a_script_line_asks_for_one_thing`], [`a_run_is_one_life`],
//! [`an_input_has_one_fold`].
#![tactic(auto)]

mod decode;
mod fold;
mod halt;
mod laws;
mod loss;
mod notes;
mod poll;
mod quiet;
mod register;
mod run;
mod script;
mod script_line;
mod searching;
mod told;

pub use decode::decode_lines;
pub use fold::fold_lines;
pub use halt::Halt;
pub use laws::{a_run_is_one_life, a_script_line_asks_for_one_thing, an_input_has_one_fold};
pub use mbdc_bus::AnswerBuf;
pub use mbdc_bus::blocks::{Talk, exchange};
pub use mbdc_ending::ProgramFault;
pub use notes::CommandNotes;
pub use run::{run_script, run_script_over};
pub use script_line::ScriptLine;
pub use searching::search;
