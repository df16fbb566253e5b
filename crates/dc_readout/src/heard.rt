//! What `hear` answers.

use crate::why::Why;
use dc_records::Telegram;

/// What an answer was.
#[derive(Clone, Copy)]
pub enum Heard<'a> {
    /// It failed, and the same request goes out once more.
    Again,
    /// It was the one expected, and the next request goes out.
    Ready,
    /// It was the readout's next telegram, which waits to be settled; parts count from 1.
    New { part: u8, telegram: Telegram<'a> },
    /// It ended the session.
    Failed(Why),
}
