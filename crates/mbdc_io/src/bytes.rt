//! Bytes in memory, as a source and as a sink.

ghost use Rattle.std.specs.Prelude.{◌≡◌, ◌+◌, ◌-◌, ◌^◌, ◌<◌, ◌≤◌, min, ◌++◌, [], length, take};
ghost use Rattle.std.specs.Prelude.{drop, Some, Ok, IfOk, OnOk, OnErr};
ghost use Rattle.mbdc_io.specs.Stream.{Takes, PutsFront, IsAtEnd};

use crate::stream::{IoFault, Sink, Source};
use crate::{NoMemory, one_failure_more};
use std::alloc::Allocator;
use std::marker::Model;

/// A queue of bytes in memory: a put appends, and a take reads on from where the last one ended.
/// Bytes that were taken stay in [`Bytes::as_slice`].
#[derive(Drop)]
pub struct Bytes<A: Allocator> {
    items: Vec<u8, A>,
    taken: usize,
    failures: u64,
}

impl<A: Allocator> Model for Bytes<A> {
    ghost use Rattle.std.specs.Prelude.{◌≤◌, vec_len};
    ghost use Rattle.mbdc_io.specs.Bytes.{Stored};

    ghost Value = { Stored };

    ghost view = { λ b. record { bytes = b.items.items; taken = b.taken; failures = b.failures } };

    ghost invariant = { λ b. b.taken ≤ vec_len b.items };
}

impl<A: Allocator> Bytes<A> {
    /// Returns an empty queue, which uses no memory.
    pub fn new(alloc: A) -> Self
        ensures { result ≡ record { bytes = []; taken = 0; failures = 0 } }
    {
        Bytes {
            items: Vec::new(alloc),
            taken: 0,
            failures: 0,
        }
    }

    /// Returns a copy of these bytes, none of them taken.
    pub fn from_slice(alloc: A, bytes: &[u8]) -> Result<Self, NoMemory>
        ensures { IfOk result (λ b. b ≡ record { bytes = bytes.now; taken = 0; failures = 0 }) }
    {
        let mut copy = Bytes::new(alloc);
        copy.items.extend_from_slice(bytes)?;
        Ok(copy)
    }

    /// All bytes that were put, taken or not.
    pub fn as_slice(&self) -> &[u8]
        ensures { result.now ≡ self.now.bytes }
    {
        &self.items
    }
}

impl<A: Allocator> Source for Bytes<A> {
    ghost left = { λ b. Some (drop b.taken b.bytes) };

    ghost take_failures = { λ _. 0 };

    fn take(&mut self, room: &mut [u8]) -> Result<usize, IoFault>
        ensures count { IfOk result (λ n. n ≤ length room.old) }
        ensures bytes { IfOk result (λ n. Takes (Some (drop self.old.taken self.old.bytes))
            (Some (drop self.new.taken self.new.bytes)) (take n room.new)) }
        ensures end { IfOk result (λ n.
            n ≡ 0 → 0 < length room.old → IsAtEnd (Some (drop self.new.taken self.new.bytes))) }

        // It never fails, copies as many bytes as are left and fit, and changes nothing outside the
        // room.
        ensures always { result ≡ Ok (min (length self.old.bytes - self.old.taken)
            (length room.old)) }
        ensures moved { IfOk result (λ n.
            self.new ≡ record self.old { taken = self.old.taken + n }) }
    {
        let (_, left) = self.items.split_at(self.taken);
        let count = left.len().min(room.len());
        let (given, _) = left.split_at(count);
        room[..count].copy_from_slice(given);
        self.taken += count;
        Ok(count)
    }
}

impl<A: Allocator> Sink for Bytes<A> {
    ghost written = { λ b. Some b.bytes };

    ghost put_failures = { λ b. b.failures };

    ghost puts = { λ old bytes new. new ≡ record old { bytes = old.bytes ++ bytes } };

    ghost breaks = { λ old _ new. new
        ≡ record old { failures = min (old.failures + 1) (2 ^ 64 - 1) } };

    #[tactic(auto, using(crate::proofs::Pieces::told))]
    fn put(&mut self, bytes: &[u8]) -> Result<(), IoFault>
        ensures ok { OnOk result (self.new
            ≡ record self.old { bytes = self.old.bytes ++ bytes.now }) }

        // A failed put adds nothing, and is counted.
        ensures err { OnErr result (self.new
            ≡ record self.old { failures = min (self.old.failures + 1) (2 ^ 64 - 1) }) }
        ensures front { OnErr result (PutsFront (Some self.old.bytes)
            (Some self.new.bytes) bytes.now) }
    {
        if self.items.extend_from_slice(bytes).is_err() {
            self.failures = one_failure_more(self.failures);
            return Err(IoFault);
        }
        Ok(())
    }
}
