//! The pending changes, in the encoding in which they are written.

ghost use Rattle.std.specs.Prelude.{◌≡◌, ◌+◌, ◌≤◌, ◌<◌, ◌++◌, [], length, nat_le};
ghost use Rattle.mbdc_change.specs.declared.change.Change.{Change};
ghost use Rattle.mbdc_change.specs.Encoding.{change_bytes};
ghost use Rattle.mbdc_change.specs.Valid.{IsChange};
ghost use Rattle.dc_core.specs.Waiting.{Waiting, most_waiting};

use mbdc_change::{Change, encode_change};
use mbdc_io::{FixedSink, IoFault};
use std::marker::Model;

// Maximum number of pending changes.
const MOST: u8 = 4;

// Room for that many of the longest change.
const ROOM: usize = 1052;

/// The pending changes, at most [`MOST`], encoded one after the other in a buffer of fixed size.
#[derive(Drop)]
pub struct Waiting {
    bytes: FixedSink<ROOM>,
    count: u8,
}

impl Model for Waiting {
    ghost use Rattle.dc_core.specs.Waiting.{Waiting as Encoded, IsWaiting};

    ghost Value = { Encoded };

    ghost view = { λ w. record { bytes = w.bytes.bytes; count = w.count } };

    ghost invariant = { λ w. IsWaiting w.bytes w.count };
}

impl Waiting {
    /// Returns an empty buffer.
    pub fn new() -> Waiting
        ensures { result ≡ record { bytes = []; count = 0 } }
    {
        Waiting {
            bytes: FixedSink::new(),
            count: 0,
        }
    }

    /// Number of pending changes.
    pub fn count(&self) -> usize
        ensures count { result ≡ self.now.count }
        ensures most { result ≤ most_waiting }
        ensures some { self.now.count ≤ length self.now.bytes }
    {
        usize::from(self.count)
    }

    /// Whether the maximum number of changes is pending.
    pub fn is_full(&self) -> bool
        ensures { result ≡ nat_le most_waiting self.now.count }
    {
        self.count >= MOST
    }

    /// The encodings of the pending changes, one after the other.
    pub fn as_slice(&self) -> &[u8]
        ensures { result.now ≡ self.now.bytes }
    {
        self.bytes.as_slice()
    }

    /// Appends a change, for which there must be room.
    pub fn push(&mut self, change: &Change<'_>)
        requires room { self.old.count < most_waiting }
        requires is_change { IsChange change.now }
        ensures { self.new ≡ record {
          bytes = self.old.bytes ++ change_bytes change.now;
          count = self.old.count + 1;
        } }
    {
        match encode_change(change, &mut self.bytes) {
            Ok(()) => {}
            Err(IoFault) => unreachable!(),
        }
        self.count += 1;
    }

    /// Removes all changes.
    pub fn clear(&mut self)
        ensures { self.new ≡ record { bytes = []; count = 0 } }
    {
        *self = Waiting::new();
    }
}
