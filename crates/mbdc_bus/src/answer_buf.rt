//! The bytes of one answer, without heap memory.

ghost use Rattle.std.specs.Prelude.{◌≡◌, ◌≤◌, ◌++◌, [], length, take};
ghost use Rattle.mbdc_bus.specs.Limits.{most_answer};

use std::marker::Model;

/// Maximum number of bytes kept of an answer: more than the longest frame has.
pub const MOST_ANSWER: usize = 300;

/// The bytes of one answer, at most 300; no byte is silence.
#[derive(Drop)]
pub struct AnswerBuf {
    bytes: [u8; MOST_ANSWER],
    len: usize,
}

impl Model for AnswerBuf {
    ghost use Rattle.std.specs.Prelude.{ℕ, List, ◌≤◌, take};
    ghost use Rattle.mbdc_bus.specs.Limits.{most_answer};

    ghost Value = { List ℕ };

    ghost view = { λ buf. take buf.len buf.bytes };

    ghost invariant = { λ buf. buf.len ≤ most_answer };
}

impl AnswerBuf {
    /// Returns an empty answer.
    pub fn new() -> AnswerBuf
        ensures { result ≡ [] }
    {
        AnswerBuf {
            bytes: [0; MOST_ANSWER],
            len: 0,
        }
    }

    /// The answer's bytes.
    pub fn as_slice(&self) -> &[u8]
        ensures bytes { result.now ≡ self.now }
        ensures fits { length self.now ≤ most_answer }
    {
        &self.bytes[..self.len]
    }

    /// Appends bytes. Those that don't fit are dropped.
    pub fn append(&mut self, more: &[u8])
        ensures { self.new ≡ take most_answer (self.old ++ more.now) }
    {
        let count = more.len().min(MOST_ANSWER - self.len);
        let (kept, _) = more.split_at(count);
        let room = &mut self.bytes[..];
        room[self.len..self.len + count].copy_from_slice(kept);
        self.len += count;
    }
}

impl Default for AnswerBuf {
    ghost is_default = { λ buf. buf ≡ [] };

    fn default() -> AnswerBuf {
        AnswerBuf::new()
    }
}
