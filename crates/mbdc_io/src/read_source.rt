//! A reader of std as a source, whose bytes no contract knows.

ghost use Rattle.std.specs.Prelude.{◌≡◌, ◌≤◌, None, length, IfOk, OnOk, OnErr};
ghost use Rattle.std.specs.Io.KnownBytes.{Keeps, ReadConsumes};
ghost use Rattle.mbdc_io.specs.Failures.{HasRisen};

use crate::one_failure_more;
use crate::stream::{IoFault, Source};
use std::io::{ErrorKind, Read};

/// A reader of std as a source.
#[derive(Drop)]
pub struct ReadSource<R: Read + Drop> {
    /// The reader.
    pub reader: R,
    /// Number of takes that failed.
    pub failures: u64,
}

impl<R: Read + Drop> ReadSource<R> {
    /// Wraps the reader, with no failures counted.
    pub fn new(reader: R) -> Self
        ensures { result ≡ record { reader = reader; failures = 0 } }
    {
        ReadSource {
            reader,
            failures: 0,
        }
    }
}

impl<R: Read + Drop> Source for ReadSource<R> {
    ghost left = { λ _. None };

    ghost take_failures = { λ s. s.failures };

    // The last clause states of the reader what the trait's clauses don't.
    fn take(&mut self, room: &mut [u8]) -> Result<usize, IoFault>
        ensures count { IfOk result (λ n. n ≤ length room.old) }
        ensures well { OnOk result (self.new.failures ≡ self.old.failures) }
        ensures failed { OnErr result (HasRisen self.old.failures self.new.failures) }
        ensures reader { ReadConsumes (R.remaining self.old.reader)
            (R.remaining self.new.reader) result room.new }
    {
        let taken = read_some(&mut self.reader, room);
        if taken.is_err() {
            self.failures = one_failure_more(self.failures);
        }
        taken
    }
}

// One read, retried if a signal interrupts it.
fn read_some<R: Read>(reader: &mut R, room: &mut [u8]) -> Result<usize, IoFault>
    ensures count { IfOk result (λ n. n ≤ length room.old) }
    ensures bytes { ReadConsumes (R.remaining reader.old) (R.remaining reader.new) result room.new }
{
    for _ in 0..u64::MAX {
        match reader.read(room) {
            Ok(count) => return Ok(count),
            Err(error) => {
                if error.kind() != ErrorKind::Interrupted {
                    break;
                }
            }
        }
    }
    Err(IoFault)
}
