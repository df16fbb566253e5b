//! A group as a sink of bytes.

ghost use Rattle.std.specs.Prelude.{◌≡◌, ◌≤◌, ◌+◌, ◌↔◌, ℕ, None, IsTrue};
ghost use Rattle.mbdc_io.specs.Failures.{HasRisen};
ghost use Rattle.dc_pages.specs.Draft.{HasRoom};
ghost use Rattle.dc_pages.specs.Streaming.{GoesInto, BreaksOff};

use crate::GroupWriter;
use dc_sectors::{Disk, Failed};
use mbdc_io::{IoFault, Sink, one_failure_more};

/// A group writer and its disk, as one sink: bytes that are put go into the group. It uses no
/// memory and doesn't sync.
///
/// A put fails if the disk failed, or if the group has no room for all of its bytes.
#[derive(Drop)]
pub struct GroupSink<'a, D: Disk> {
    /// The disk that the group is written to.
    pub disk: &'a mut D,
    /// The group so far.
    pub writer: GroupWriter,
    /// Number of puts for which the group had no room; it saturates at `u64::MAX`. A failed call of
    /// the disk is counted only by the disk.
    pub refused: u64,
}

impl<D: Disk> Sink for GroupSink<'_, D> {
    ghost written = { λ _. None };

    ghost put_failures = { λ sink. D.failures sink.disk.now + sink.refused };

    ghost puts = { λ old bytes new.
        GoesInto D.Disk old.disk.now new.disk.now old.writer new.writer bytes
        × (new.disk.ghost_name ≡ old.disk.ghost_name) };

    ghost breaks = { λ old bytes new.
        BreaksOff D.Disk old.disk.now new.disk.now old.writer bytes
        × (new.disk.ghost_name ≡ old.disk.ghost_name) };

    #[tactic(auto, using(mbdc_io::proofs::Pieces::told))]
    fn put(&mut self, bytes: &[u8]) -> Result<(), IoFault> {
        if !self.writer.has_room(bytes.len()) || self.writer.limit() > self.disk.count() {
            self.refused = one_failure_more(self.refused);
            return Err(IoFault);
        }
        match self.writer.put(self.disk, bytes) {
            Ok(()) => Ok(()),
            Err(Failed) => Err(IoFault),
        }
    }
}
