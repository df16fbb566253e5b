//! Sources and sinks of bytes.

ghost use Rattle.std.specs.Prelude.{◌≡◌, ℕ, ◌≤◌, ◌<◌, List, Option, length, take, IfOk, OnOk};
ghost use Rattle.std.specs.Prelude.{OnErr};
ghost use Rattle.mbdc_io.specs.Failures.{HasRisen};
ghost use Rattle.mbdc_io.specs.Stream.{Takes, Puts, PutsFront, IsAtEnd};

use thiserror::Error;

/// A read or a write failed.
#[derive(Clone, Copy, Debug, Error)]
#[error("reading or writing failed")]
pub struct IoFault;

/// A source of bytes.
pub trait Source {
    // The bytes that are left to read, or `None` where they aren't known.
    ghost left: { Self → Option (List ℕ) };

    // Number of takes that failed.
    ghost take_failures: { Self → ℕ };

    /// Reads into the first bytes of `room` and returns how many; 0 means the end, unless `room` is
    /// empty.
    fn take(&mut self, room: &mut [u8]) -> Result<usize, IoFault>
        ensures count { IfOk result (λ n. n ≤ length room.old) }
        ensures bytes { IfOk result (λ n. Takes (left self.old) (left self.new) (take n room.new)) }
        ensures end { IfOk result (λ n. n ≡ 0 → 0 < length room.old → IsAtEnd (left self.new)) }
        ensures well { OnOk result (take_failures self.new ≡ take_failures self.old) }

        // A failed take reads nothing, and is counted.
        ensures err { OnErr result (left self.new ≡ left self.old) }
        ensures failed { OnErr result (HasRisen (take_failures self.old)
            (take_failures self.new)) };
}

/// A sink of bytes.
pub trait Sink {
    // The bytes that were written, or `None` where they aren't known.
    ghost written: { Self → Option (List ℕ) };

    // Number of puts that failed.
    ghost put_failures: { Self → ℕ };

    // What a put that succeeds, and one that fails, does to the sink besides its bytes. An
    // implementation states it here; the contracts of writers of several pieces pass it on to their
    // callers.
    ghost puts: { Self → List ℕ → Self → Type 0 } = { λ _ _ _. Unit {0} };

    ghost breaks: { Self → List ℕ → Self → Type 0 } = { λ _ _ _. Unit {0} };

    /// Writes all of the bytes.
    fn put(&mut self, bytes: &[u8]) -> Result<(), IoFault>
        ensures bytes { OnOk result (Puts (written self.old) (written self.new) bytes.now) }
        ensures well { OnOk result (put_failures self.new ≡ put_failures self.old) }

        // After a failed put a prefix of the old bytes and these is written. The failure is
        // counted.
        ensures err { OnErr result (PutsFront (written self.old) (written self.new) bytes.now) }
        ensures failed { OnErr result (HasRisen (put_failures self.old) (put_failures self.new)) }

        // What the implementation states of a put.
        ensures step { OnOk result (puts self.old bytes.now self.new) }
        ensures broken { OnErr result (breaks self.old bytes.now self.new) };
}
