//! A sink over a borrowed slice, which uses no memory of its own.

ghost use Rattle.std.specs.Prelude.{◌≡◌, ◌+◌, ◌<◌, ◌≤◌, length, Some, OnErr};

use crate::buffered::place;
use crate::one_failure_more;
use crate::stream::{IoFault, Sink};

/// A sink that fills a borrowed slice from its first byte on.
///
/// A put that doesn't fit fills the slice, and keeps the first byte that has no place: what was
/// written to a sink that has failed is longer than the slice. Clauses see the slice's ghost name
/// before the bytes, so that whoever lent the slice knows after a chain of puts that this one was
/// filled.
#[derive(Drop)]
pub struct SliceSink<'a> {
    /// The slice.
    pub room: &'a mut [u8],
    /// Number of bytes in the slice.
    pub len: usize,
    /// The first byte that had no place, if a put failed.
    pub past: u8,
    /// Number of puts that failed.
    pub failures: u64,
    pub ghost within: { len ≤ length room.now },
    pub ghost full: { 0 < failures → len ≡ length room.now },
}

impl<'a> SliceSink<'a> {
    /// Returns an empty sink over the slice.
    pub fn new(room: &'a mut [u8]) -> SliceSink<'a>
        ensures same { result.room.ghost_name ≡ room.entry.ghost_name }
        ensures room { result.room.now ≡ room.old }
        ensures empty { result.len ≡ 0 }
        ensures well { result.failures ≡ 0 }
    {
        SliceSink {
            room,
            len: 0,
            past: 0,
            failures: 0,
        }
    }
}

impl Sink for SliceSink<'_> {
    ghost use Rattle.mbdc_io.specs.Slice.{slice_written};

    ghost written = { λ s. Some (slice_written s.room.ghost_name s.room.now s.len s.failures s.past) };

    ghost put_failures = { λ s. s.failures };

    fn put(&mut self, bytes: &[u8]) -> Result<(), IoFault> {
        let free = self.room.len() - self.len;
        if self.failures > 0 {
            self.failures = one_failure_more(self.failures);
            return Err(IoFault);
        }
        if bytes.len() > free {
            let (front, more) = bytes.split_at(free);
            place(self.room, self.len, front);
            self.len = self.room.len();
            self.past = more[0];
            self.failures = 1;
            return Err(IoFault);
        }
        place(self.room, self.len, bytes);
        self.len += bytes.len();
        Ok(())
    }
}
