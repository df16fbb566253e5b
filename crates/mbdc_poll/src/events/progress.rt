//! The progress of a poll, on a terminal.

use crate::events::note::Notes;
use crate::events::reason::put_reason;
use crate::events::tally::Tally;
use crate::{Event, Phase, Station, Teller};
use mbdc_bus::HalfBus;
use mbdc_io::{FixedSink, IoFault};
use std::cell::Cell;
use std::rt::Clock;
use std::time::Instant;
use std::{io, str};

// Back to the first column, and nothing after it.
const CLEAR: &str = "\r\u{1b}[K";

/// The line on standard error that shows the progress of a poll: `37 of 120 meters, 2 failed, 41
/// s`. It is shown only on a terminal.
#[derive(Drop)]
pub struct Progress<'h, R> {
    rt: &'h R,
    is_terminal: bool,
    begun: Option<Instant>,
    // Number of meters to read; none before the first round.
    meters: Cell<u64>,
    tally: Cell<Tally>,
    // The meters and the seconds that are on the terminal.
    shown: Cell<Option<(u64, u64)>>,
}

impl<'h, R: Clock + Eprint> Progress<'h, R> {
    /// Begins with no progress shown. It shows none where standard error is no terminal.
    pub fn new(rt: &'h R, is_terminal: bool) -> Self {
        Progress {
            rt,
            is_terminal,
            begun: Instant::now(rt).ok(),
            meters: Cell::new(0),
            tally: Cell::new(Tally { done: 0, failed: 0 }),
            shown: Cell::new(None),
        }
    }

    /// Shows the progress, if it isn't what the terminal shows.
    pub fn show<B: HalfBus + Drop>(&self, stations: &[Station<'_, B>]) {
        if !self.is_terminal {
            return;
        }
        let Tally { done, failed } = self.tally.get();
        if self.meters.get() == 0 {
            let mut meters = done;
            for station in stations {
                let over = u64::from(matches!(station.phase, Phase::Over(_)));
                let left = (station.left.len() as u64).saturating_add(over);
                meters = meters.saturating_add(left);
            }
            self.meters.set(meters);
        }
        let seconds = match self.begun {
            Some(begun) => match begun.elapsed(self.rt) {
                Ok(elapsed) => elapsed.as_secs(),
                Err(_) => 0,
            },
            None => 0,
        };
        if self.shown.get() != Some((done, seconds)) {
            let meters = self.meters.get().max(done);
            let _ = eprint!(self.rt;
                "{}{done} of {meters} meters, {failed} failed, {seconds} s",
                CLEAR
            );
            self.shown.set(Some((done, seconds)));
        }
    }

    /// Clears the line, before another one is written to the terminal.
    pub fn clear(&self) {
        if self.shown.get().is_some() {
            let _ = self.rt.eprint(CLEAR);
            self.shown.set(None);
        }
    }
}

// Room for the longest lines of a failed readout.
const LONGEST_REASON: usize = 320;

/// Hands events on to a teller, and to the journal. The progress counts them, and its line is cleared before.
#[derive(Drop)]
pub struct Shown<'p, 'h, R, N: Teller + Drop, J: Notes + Drop> {
    /// The teller.
    pub teller: N,
    /// The journal.
    pub notes: J,
    /// The progress.
    pub progress: &'p Progress<'h, R>,
    /// Whether standard error says what the tries of a failed readout brought.
    pub explains: bool,
}

impl<R: Clock + Eprint, N: Teller + Drop, J: Notes + Drop> Teller for Shown<'_, '_, R, N, J> {
    ghost takes = { λ old event new. N.takes old.teller event new.teller };

    ghost breaks = { λ old event new. N.breaks old.teller event new.teller };

    ghost failures = { λ shown. N.failures shown.teller };

    fn tell(&mut self, event: &Event<'_>) -> Result<(), IoFault> {
        self.progress.clear();
        let tally = &self.progress.tally;
        tally.set(tally.get().after(event));
        self.notes.note(event);
        let told = self.teller.tell(event);
        let mut reason: FixedSink<LONGEST_REASON> = FixedSink::new();
        if self.explains
            && put_reason(&mut reason, event).is_ok()
            && let Ok(line) = str::from_utf8(reason.as_slice())
            && !line.is_empty()
        {
            let _ = self.progress.rt.eprint(line);
        }
        told
    }
}
