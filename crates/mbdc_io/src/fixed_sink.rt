//! A sink of fixed capacity, which uses no heap memory.

ghost use Rattle.std.specs.Prelude.{◌≡◌, ◌+◌, ◌-◌, ◌^◌, ◌≤◌, ◌<◌, min, ◌++◌, [], length, Some};

use crate::one_failure_more;
use crate::stream::{IoFault, Sink};
use std::marker::Model;

/// A sink of at most `N` bytes, in the order in which they were put.
#[derive(Drop)]
pub struct FixedSink<const N: usize> {
    room: [u8; N],
    len: usize,
    failures: u64,
}

impl<const N: usize> Model for FixedSink<N> {
    ghost use Rattle.std.specs.Prelude.{◌≤◌, take};
    ghost use Rattle.mbdc_io.specs.Bytes.{Filled};

    ghost Value = { Filled };

    ghost view = { λ s. record { bytes = take s.len s.room; failures = s.failures } };

    ghost invariant = { λ s. s.len ≤ N };
}

impl<const N: usize> FixedSink<N> {
    /// Returns an empty sink.
    pub fn new() -> Self
        ensures { result ≡ record { bytes = []; failures = 0 } }
    {
        FixedSink {
            room: [0; N],
            len: 0,
            failures: 0,
        }
    }

    /// The bytes that were put.
    pub fn as_slice(&self) -> &[u8]
        ensures bytes { result.now ≡ self.now.bytes }
        ensures fits { length self.now.bytes ≤ N }
    {
        &self.room[..self.len]
    }

    /// Drops the bytes. The count of failures is kept.
    pub fn clear(&mut self)
        ensures { self.new ≡ record self.old { bytes = [] } }
    {
        self.len = 0;
    }
}

impl<const N: usize> Sink for FixedSink<N> {
    ghost written = { λ s. Some s.bytes };

    ghost put_failures = { λ s. s.failures };

    // A put fails exactly when its bytes don't all fit. It then adds nothing, and is counted.
    ghost puts = { λ old bytes new. (length old.bytes + length bytes ≤ N)
        × (new ≡ record old { bytes = old.bytes ++ bytes }) };

    ghost breaks = { λ old bytes new. (N < length old.bytes + length bytes)
        × (new ≡ record old { failures = min (old.failures + 1) (2 ^ 64 - 1) }) };

    #[tactic(auto, using(crate::proofs::Pieces::told))]
    fn put(&mut self, bytes: &[u8]) -> Result<(), IoFault> {
        if bytes.len() > N - self.len {
            self.failures = one_failure_more(self.failures);
            return Err(IoFault);
        }
        let end = self.len + bytes.len();
        let room = &mut self.room[..];
        room[self.len..end].copy_from_slice(bytes);
        self.len = end;
        Ok(())
    }
}
