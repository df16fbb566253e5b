//! Runs of events, with the text of their answers.

ghost use Rattle.std.specs.Prelude.{◌≡◌, ◌<◌, ◌+◌, ℕ, List, All, length, take, map, OnOk, OnErr};
ghost use Rattle.mbdc_io.specs.Failures.{HasRisen};
ghost use Rattle.mbdc_io.specs.Written.{PutsInto, Wrote};
ghost use Rattle.mbdc_change.specs.State.{State};
ghost use Rattle.dc_core.specs.Core.{Core, opened};
ghost use Rattle.dc_core.specs.Transcript.{Turn, leads, IsChain};
ghost use Rattle.dc_core.specs.Images.{IsAt};
ghost use Rattle.dc_core.specs.Run.{event_of, IsInTime, Turned, Ran, FailedInLast};

use crate::telling::{put_asked, put_committed, put_heard, put_started};
use crate::{Concentrator, Event, WriteFault};
use dc_sectors::Disk;
use mbdc_io::{IoFault, Sink};
use std::alloc::Allocator;

impl<D: Disk + Drop, A: Allocator + Copy> Concentrator<D, A> {
    /// Does the events in order, and writes the text of each answer.
    ///
    /// # Errors
    /// `WriteFault` if the writer failed. The event at which it did is done, and none after it; how
    /// much of the text was written isn't known.
    pub fn run<W: Sink>(&mut self, events: &[Event<'_>], out: &mut W) -> Result<(), WriteFault>
        requires { All IsInTime events.now }
        // After whatever went before in this life, the events make a chain of steps, and what is written is its text.
        ensures ran { (origin : D) (state : State) (before : List Turn)
            → IsChain self.old.house.budget (opened state) before
            → IsAt D.Disk origin self.old (leads (opened state) before)
            → OnOk result (Ran D.Disk origin self.old.house.budget state before
            (map event_of events.now)
            (PutsInto W.Sink out.old out.new) self.old self.new) }
        // With a fault, so do those up to one of them, in whose text the first put failed.
        ensures ended { (origin : D) (state : State) (before : List Turn)
            → IsChain self.old.house.budget (opened state) before
            → IsAt D.Disk origin self.old (leads (opened state) before)
            → OnErr result ((last : ℕ) × (last < length events.now)
            × (ran : Ran D.Disk origin self.old.house.budget state before
            (map event_of (take (last + 1) events.now)) (λ text. Unit {0}) self.old self.new)
            × FailedInLast W.Sink ran.turns out.old out.new) }
        ensures fault { OnErr result (HasRisen (W.put_failures out.old) (W.put_failures out.new)) }
        ensures well { OnOk result (W.put_failures out.new ≡ W.put_failures out.old) }
        ensures budget { self.new.house.budget ≡ self.old.house.budget }
    {
        for event in events {
            match self.turn(event, out) {
                Ok(()) => {}
                Err(IoFault) => return Err(WriteFault),
            }
        }
        Ok(())
    }

    // One event, and the text of its answer.
    fn turn<W: Sink>(&mut self, event: &Event<'_>, out: &mut W) -> Result<(), IoFault>
        requires { IsInTime event.now }
        ensures turned { (origin : D) (core : Core) → IsAt D.Disk origin self.old core
            → Turned D.Disk origin self.old.house.budget core (event_of event.now)
            (Wrote W.Sink result out.old out.new) self.old self.new }
        ensures count { D.sectors self.new.store.disk ≡ D.sectors self.old.store.disk }
        ensures budget { self.new.house.budget ≡ self.old.house.budget }
        ensures fault { OnErr result (HasRisen (W.put_failures out.old) (W.put_failures out.new)) }
        ensures well { OnOk result (W.put_failures out.new ≡ W.put_failures out.old) }
    {
        match *event {
            Event::Start { line, meter } => {
                let answer = self.start(line, &meter);
                put_started(out, answer)
            }
            Event::Ask { line } => {
                let answer = self.ask(line);
                put_asked(out, answer)
            }
            Event::Hear {
                line,
                moment,
                answer: bytes,
            } => {
                let answer = self.hear(line, moment, bytes);
                put_heard(out, answer)
            }
            Event::Commit => {
                let answer = self.commit();
                put_committed(out, answer)
            }
            Event::Office { text } => match self.office(text, out) {
                Ok(()) => Ok(()),
                Err(WriteFault) => Err(IoFault),
            },
        }
    }
}
