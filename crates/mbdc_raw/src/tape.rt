//! A wire in memory that plays a script.

ghost use Rattle.std.specs.Prelude.{◌≡◌, ◌≤◌, ◌<◌, length};
ghost use Rattle.mbdc_raw.specs.Looks.{most_looks};
ghost use Rattle.mbdc_raw.specs.Tape.{TapeHears, tape_waits};
ghost use Rattle.mbdc_raw.specs.Wire.{FitsRoom, Wanes, sound_of};

use crate::wire::{Asking, Came, Wire};
use mbdc_io::{IoFault, one_failure_more};
use std::marker::Model;

/// An event of a tape.
#[derive(Clone, Copy)]
pub enum Event {
    /// This many bytes, in any pieces in which they are read.
    Bytes(usize),
    /// Nothing yet.
    Nothing,
    /// Nothing for as long as ends an answer.
    Gap,
    /// Nothing for as long as a repeat waits.
    Overdue,
    /// Nothing for the whole time-out.
    Silence,
    /// The next call fails.
    Loss,
}

/// Bytes, and the events in which they arrive; silence follows the last event.
#[derive(Drop)]
pub struct Tape<'a> {
    bytes: &'a [u8],
    events: &'a [Event],
    // Number of bytes of the first event already taken.
    came: usize,
    failures: u64,
}

impl<'a> Model for Tape<'a> {
    ghost use Rattle.std.specs.Prelude.{◌≤◌, length};
    ghost use Rattle.mbdc_raw.specs.Looks.{most_looks};
    ghost use Rattle.mbdc_raw.specs.Tape.{Taped};

    ghost Value = { Taped };

    ghost view = { λ tape. record {
      bytes = tape.bytes.now;
      events = tape.events.now;
      failures = tape.failures;
    } };

    ghost invariant = { λ tape. length tape.events.now ≤ most_looks };
}

impl<'a> Tape<'a> {
    /// Returns a tape of these bytes and events.
    pub fn new(bytes: &'a [u8], events: &'a [Event]) -> Tape<'a>
        requires { length events.now ≤ most_looks }
        ensures { result ≡ record { bytes = bytes.now; events = events.now; failures = 0 } }
    {
        Tape {
            bytes,
            events,
            came: 0,
            failures: 0,
        }
    }

    // Plays the first bytes of the first event, and removes the event once it is over.
    fn play(&mut self, room: &mut [u8], count: usize, more: &'a [Event]) -> Came
        requires { length more.now < length self.old.events }
        ensures fits { FitsRoom result (length room.old) }
        ensures step { TapeHears self.old (sound_of result room.new) self.new }
        ensures fewer { Wanes result (tape_waits self.old) (tape_waits self.new) }
        ensures well { self.new.failures ≡ self.old.failures }
    {
        let left = count.saturating_sub(self.came);
        let given = left.min(room.len()).min(self.bytes.len());
        if given == 0 {
            self.events = more;
            self.came = 0;
            return Came::Nothing;
        }
        let (front, rest) = self.bytes.split_at(given);
        room[..given].copy_from_slice(front);
        self.bytes = rest;
        if given == left {
            self.events = more;
            self.came = 0;
        } else {
            self.came += given;
        }
        Came::Bytes(given)
    }
}

impl<'a> Wire for Tape<'a> {
    ghost use Rattle.std.specs.Prelude.{length};
    ghost use Rattle.std.proofs.Math.Nat.{min-le_right};
    ghost use Rattle.mbdc_raw.specs.Looks.{most_looks};
    ghost use Rattle.mbdc_raw.specs.Tape.{TapeHears, TapeReopens, TapeSends, tape_waits};

    ghost failures = { λ tape. tape.failures };

    ghost waits_left = { tape_waits };

    ghost few = { λ tape. min-le_right (length tape.events) most_looks };

    ghost sends = { TapeSends };

    ghost hears = { TapeHears };

    ghost reopens = { TapeReopens };

    fn reopen(&mut self) -> bool {
        false
    }

    fn send(&mut self, _bytes: &[u8], _asking: Asking) -> Result<(), IoFault> {
        match self.events.first() {
            Some(Event::Loss) => {
                self.failures = one_failure_more(self.failures);
                Err(IoFault)
            }
            _ => Ok(()),
        }
    }

    fn hear(&mut self, room: &mut [u8]) -> Result<Came, IoFault> {
        let Some((event, more)) = self.events.split_first() else {
            return Ok(Came::Silence);
        };
        match *event {
            Event::Bytes(count) => Ok(self.play(room, count, more)),
            Event::Nothing => {
                self.events = more;
                Ok(Came::Nothing)
            }
            Event::Gap => {
                self.events = more;
                Ok(Came::Gap)
            }
            Event::Overdue => {
                self.events = more;
                Ok(Came::Overdue)
            }
            Event::Silence => {
                self.events = more;
                Ok(Came::Silence)
            }
            Event::Loss => {
                self.failures = one_failure_more(self.failures);
                Err(IoFault)
            }
        }
    }
}
