//! A sink that buffers small puts and writes large pieces to its writer.

ghost use Rattle.std.specs.Prelude.{◌≡◌, ◌+◌, ◌≤◌, ◌↔◌, ◌++◌, [], length, take, IsTrue, IfOk};
ghost use Rattle.std.specs.Prelude.{OnOk, OnErr};
ghost use Rattle.std.specs.Io.KnownBytes.{append_known};
ghost use Rattle.mbdc_io.specs.Failures.{HasRisen};
ghost use Rattle.mbdc_io.specs.Stream.{Puts, PutsFront};
ghost use Rattle.mbdc_io.specs.Written.{Wrote};

use crate::{IoFault, NoMemory, Sink, room};
use std::alloc::Allocator;
use std::marker::Model;

/// A buffered writer: bytes are held back until the buffer is full or [`Buffered::flush`] or
/// [`Buffered::finish`] is called.
///
/// If a put to the writer fails, the held bytes are dropped.
#[derive(Drop)]
pub struct Buffered<W: Sink + Drop, A: Allocator> {
    writer: W,
    room: Vec<u8, A>,
    used: usize,
}

impl<W: Sink + Drop, A: Allocator> Model for Buffered<W, A> {
    ghost use Rattle.std.specs.Prelude.{◌≤◌, take, vec_len};
    ghost use Rattle.mbdc_io.specs.Buffered.{Holding};

    ghost Value = { Holding W };

    ghost view = { λ b. record {
      writer = b.writer;
      held = take b.used b.room.items;
      capacity = vec_len b.room;
    } };

    ghost invariant = { λ b. b.used ≤ vec_len b.room };
}

impl<W: Sink + Drop, A: Allocator> Buffered<W, A> {
    /// Returns a buffer of `capacity` bytes over the writer.
    ///
    /// # Errors
    /// Out of memory; the writer is then dropped.
    pub fn new(alloc: A, capacity: usize, writer: W) -> Result<Self, NoMemory>
        ensures { IfOk result (λ b. b ≡ record { writer = writer; held = []; capacity = capacity }) }
    {
        let room = room(alloc, capacity)?;
        Ok(Buffered {
            writer,
            room,
            used: 0,
        })
    }

    /// Writes the held bytes to the writer.
    pub fn flush(&mut self) -> Result<(), IoFault>
        ensures wrote { Wrote W.Sink result self.old.writer self.new.writer
            self.old.held }
        ensures empty { self.new.held ≡ [] }
    {
        let (waiting, _) = self.room.as_slice().split_at(self.used);
        let put = self.writer.put(waiting);
        self.used = 0;
        put
    }

    /// Writes the held bytes, and returns the writer with the result.
    pub fn finish(self) -> (W, Result<(), IoFault>)
        ensures { Wrote W.Sink result.1 self.writer result.0 self.held }
    {
        let mut all = self;
        let put = all.flush();
        let Buffered { writer, .. } = all;
        (writer, put)
    }

    // Whether this many more bytes fit.
    #[inline]
    fn has_place(&self, count: usize) -> bool
        ensures { IsTrue result ↔ (length self.now.held + count ≤ self.now.capacity) }
    {
        count <= self.room.len() - self.used
    }

    // Holds back a piece that fits.
    #[inline]
    fn hold(&mut self, piece: &[u8])
        requires { length self.old.held + length piece.now ≤ self.old.capacity }
        ensures { self.new ≡ record self.old { held = self.old.held ++ piece.now } }
    {
        place(self.room.as_mut_slice(), self.used, piece);
        self.used += piece.len();
    }

    // Writes the held bytes, and then a piece that didn't fit after them.
    #[cold]
    #[tactic(auto, using(crate::proofs::Pieces::written))]
    fn put_past(&mut self, piece: &[u8]) -> Result<(), IoFault>
        ensures bytes { OnOk result (Puts (append_known (W.written self.old.writer) self.old.held)
            (append_known (W.written self.new.writer) self.new.held) piece.now) }
        ensures well { OnOk result
            (W.put_failures self.new.writer ≡ W.put_failures self.old.writer) }
        ensures err { OnErr result
            (PutsFront (append_known (W.written self.old.writer) self.old.held)
            (append_known (W.written self.new.writer) self.new.held) piece.now) }
        ensures failed { OnErr result
            (HasRisen (W.put_failures self.old.writer) (W.put_failures self.new.writer)) }
    {
        self.flush()?;
        if self.has_place(piece.len()) {
            self.hold(piece);
            return Ok(());
        }
        self.writer.put(piece)
    }
}

impl<W: Sink + Drop, A: Allocator> Sink for Buffered<W, A> {
    ghost written = { λ b. append_known (W.written b.writer) b.held };

    ghost put_failures = { λ b. W.put_failures b.writer };

    #[inline]
    fn put(&mut self, piece: &[u8]) -> Result<(), IoFault> {
        if self.has_place(piece.len()) {
            self.hold(piece);
            return Ok(());
        }
        self.put_past(piece)
    }
}

/// Places a piece after the first `at` bytes.
#[inline]
pub(crate) fn place(bytes: &mut [u8], at: usize, piece: &[u8])
    requires { at + length piece.now ≤ length bytes.old }
    ensures { take (at + length piece.now) bytes.new ≡ take at bytes.old ++ piece.now }
{
    let (_, free) = bytes.split_at_mut(at);
    let (front, _) = free.split_at_mut(piece.len());
    front.copy_from_slice(piece);
}
