//! Link frames of the wired M-Bus: EN 13757-2, frame format class FT 1.2.
//!
//! A frame is an acknowledgement (`E5`), a short frame (`10 C A checksum 16`) or a long one
//! (`68 L L 68 C A CI body checksum 16`, with L counting C, A, CI and body), and each frame has exactly
//! one spelling.
//!
//! [`parse`] answers a frame exactly where the whole text spells it, and else the first fault that
//! stands in the text. [`need`] says of the bytes that came so far how many more the frame at their
//! front needs, or where it ends. [`write_short`] and [`write_long`] leave a frame's spelling in a
//! [`FrameBuf`], so that `parse` of it gives the frame again. [`control`] has the bytes by which a master's
//! requests and a meter's answers are known, and writes the requests.
//!
//! Nothing here takes memory.
#![tactic(auto)]

mod buffer;
mod checksum;
pub mod control;
mod fault;
mod frame;
mod laws;
mod needs;
mod parser;
mod stream;
mod writer;

pub use buffer::FrameBuf;
pub use fault::FrameFault;
pub use frame::{ACK, Frame};
pub use laws::{
    control_bytes_are_the_standards, frames_are_read_as_spelled, need_agrees_with_parse,
    spellings_differ,
};
pub use needs::Need;
pub use parser::parse;
pub use stream::need;
pub use writer::{write_long, write_short};
