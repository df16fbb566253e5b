//! A clock of std with the history of the moments that it has shown, and of what was written right before each.

ghost use Rattle.std.specs.Prelude.{◌≡◌, ℕ, List, [], ◌∷◌};
ghost use Rattle.std.specs.Borrow.{ftrue};
ghost use Rattle.std.specs.declared.time.Instant.{Instant as Moment};

use std::io;
use std::io::Write;
use std::marker::{Model, PhantomData};
use std::rt::Clock;
use std::time::Instant;

/// The moments that a clock told so far, the newest first, and for each the bytes that were written right before it, if
/// any: ghost data, which only clauses read. They use no memory.
#[derive(Drop)]
pub struct ClockLog {
    marker: PhantomData<u8>,
    pub ghost told: { List Moment },
    pub ghost written: { List (List ℕ) },
}

impl Model for ClockLog {
    ghost also_owns = { λ _. ftrue };
}

impl ClockLog {
    pub(crate) fn new() -> ClockLog
        ensures { result.told ≡ [] }
    {
        ClockLog {
            marker: PhantomData,
        }
    }

    // Adds a moment, and the bytes that were written right before it: only this file can.
    fn note(&mut self, _at: &Instant, _written: &[u8])
        ensures { self.new ≡ record self.old {
          told = _at.now ∷ self.old.told;
          written = _written.now ∷ self.old.written;
        } }
    {}
}

/// A clock of std with the history of the moments that it has shown, and of what was written right before each.
///
/// [`now`](LoggedClock::now) reads the clock once, adds the moment to the history, and does nothing else.
/// [`write_then_now`](LoggedClock::write_then_now) writes, and then does the same. No contract of std says what a clock
/// returns, or when it is read, so both methods are to be read. Nothing is assumed of the moments: a clock may go back.
#[derive(Drop)]
pub struct LoggedClock<C: Clock + Drop> {
    pub(crate) clock: C,
    pub(crate) log: ClockLog,
}

impl<C: Clock + Drop> LoggedClock<C> {
    ghost use Rattle.std.specs.Prelude.{IfOk, OnErr, OnOk};
    ghost use Rattle.std.specs.Io.KnownBytes.{Appends};

    // Returns the time of the clock.
    pub(crate) fn now(&mut self) -> io::Result<Instant>
        ensures told { IfOk result (λ at.
            self.new ≡ record self.old {
              log = record self.old.log {
                told = at ∷ self.old.log.told;
                written = [] ∷ self.old.log.written;
              };
            }) }
        ensures failed { OnErr result (self.new ≡ self.old) }
    {
        let at = Instant::now(&self.clock)?;
        self.log.note(&at, &[]);
        Ok(at)
    }

    // Writes these bytes, and then returns the time of the clock.
    pub(crate) fn write_then_now<W: Write>(
        &mut self,
        writer: &mut W,
        bytes: &[u8],
    ) -> io::Result<Instant>
        ensures written { OnOk result (Appends (W.contents writer.old) (W.contents writer.new) bytes.now) }
        ensures told { IfOk result (λ at.
            self.new ≡ record self.old {
              log = record self.old.log {
                told = at ∷ self.old.log.told;
                written = bytes.now ∷ self.old.log.written;
              };
            }) }
        ensures failed { OnErr result (self.new ≡ self.old) }
    {
        writer.write_all(bytes)?;
        let at = Instant::now(&self.clock)?;
        self.log.note(&at, bytes);
        Ok(at)
    }
}
