//! The bytes of one frame, without memory.

ghost use Rattle.std.specs.Prelude.{◌≡◌, ◌+◌, ◌≤◌, ◌++◌, [], length};
ghost use Rattle.dc_linkframe.specs.Buffer.{capacity};

use std::marker::Model;

// The longest frame: six bytes round 255.
const CAPACITY: usize = 261;

/// The bytes of one frame, at most 261.
#[derive(Clone, Copy)]
pub struct FrameBuf {
    bytes: [u8; CAPACITY],
    len: u16,
}

impl Model for FrameBuf {
    ghost use Rattle.std.specs.Prelude.{ℕ, List, length, take};
    ghost use Rattle.dc_linkframe.specs.Buffer.{padded, IsBuffer};

    ghost Value = { List ℕ };

    ghost view = { λ buf. take buf.len buf.bytes };

    ghost invariant = { λ buf. IsBuffer buf.bytes buf.len };

    ghost inverse = { λ bytes. record { bytes = padded bytes; len = length bytes } };

    ghost inverse_ok = { λ buf h i. record { bytes = h.zeros i; len = h.counted i } };
}

impl FrameBuf {
    /// A buffer without bytes.
    pub fn new() -> FrameBuf
        ensures { result ≡ [] }
    {
        FrameBuf {
            bytes: [0; CAPACITY],
            len: 0,
        }
    }

    /// Its bytes.
    pub fn as_slice(&self) -> &[u8]
        ensures bytes { result.now ≡ self.now }
        ensures fits { length self.now ≤ capacity }
    {
        &self.bytes[..usize::from(self.len)]
    }

    // Adds bytes at the end.
    pub(crate) fn append(&mut self, more: &[u8])
        requires { length self.old + length more.now ≤ capacity }
        ensures { self.new ≡ self.old ++ more.now }
    {
        let len = usize::from(self.len);
        self.bytes[len..len + more.len()].copy_from_slice(more);
        self.len += more.len() as u16;
    }
}

impl Default for FrameBuf {
    ghost is_default = { λ buf. buf ≡ [] };

    fn default() -> FrameBuf {
        FrameBuf::new()
    }
}
