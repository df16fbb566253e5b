//! What a journal says of the meters.

ghost use Rattle.std.specs.Prelude.{◌≡◌, Some, false, IfOk, OnOk};
ghost use Rattle.dc_address.specs.declared.identity.Identity.{Identity as Meter};
ghost use Rattle.mbdc_io.specs.Lines.{lines_of};
ghost use Rattle.mbdc_json.specs.Journal.{IsJournal, after_entry, bodies_after, moment_of, no_notes, noted_in};
ghost use Rattle.mbdc_json.specs.Journal.{sent_in};

use crate::journal::entry::{Line, Said, read_line};
use crate::journal::kept::Kept;
use crate::journal::noted::Noted;
use dc_address::Identity;
use json::Scratch;
use mbdc_io::{NoMemory, first_line};
use mbdc_shown::Bodies;
use std::alloc::Allocator;
use std::collections::BTreeMap;
use std::marker::Model;

/// What a journal says of the meters, by identity.
#[derive(Drop)]
pub struct Journal<A: Allocator + Copy> {
    is_there: bool,
    notes: BTreeMap<Identity, Noted, A>,
    // The bodies of the last reading of each.
    sent: BTreeMap<Identity, Kept<A>, A>,
}

impl<A: Allocator + Copy> Model for Journal<A> {
    ghost use Rattle.mbdc_json.specs.Journal.{Notes};

    ghost Value = { Notes };

    ghost view = { λ j. record {
      is_there = j.is_there;
      notes = j.notes.entries;
      sent = j.sent.entries;
    } };
}

impl<A: Allocator + Copy> Journal<A> {
    /// No journal.
    pub fn none(alloc: A) -> Journal<A>
        ensures { result ≡ no_notes false }
    {
        Journal {
            is_there: false,
            notes: BTreeMap::new(alloc),
            sent: BTreeMap::new(alloc),
        }
    }

    /// Whether there is one.
    pub fn is_there(&self) -> bool
        ensures { result ≡ self.now.is_there }
    {
        self.is_there
    }

    /// What it says of a meter.
    pub fn of(&self, meter: &Identity) -> Noted
        ensures { result ≡ noted_in self.now.notes meter.now }
    {
        match self.notes.get(meter) {
            Some(noted) => *noted,
            None => Noted {
                read: None,
                failing: None,
            },
        }
    }

    /// The bodies of a meter's last reading.
    pub fn bodies_of(&self, meter: &Identity) -> Bodies<'_>
        ensures { result ≡ sent_in self.now.sent meter.now }
    {
        match self.sent.get(meter) {
            Some(kept) => kept.bodies(),
            None => Bodies::none(),
        }
    }

    // Takes a line, unless it is of a later moment than the clock's.
    fn take_line(&mut self, line: Line<A>, now: u64) -> Result<(), NoMemory>
        ensures noted { OnOk result ((meter : Meter) → noted_in self.new.notes meter
            ≡ after_entry now meter (Some line.entry) (noted_in self.old.notes meter)) }
        ensures kept { OnOk result ((meter : Meter) → sent_in self.new.sent meter
            ≡ bodies_after now meter line.entry line.bodies (sent_in self.old.sent meter)) }
        ensures there { self.new.is_there ≡ self.old.is_there }
    {
        let Line { entry, bodies } = line;
        if moment_of(entry.said) > now {
            return Ok(());
        }
        let noted = self.of(&entry.meter).after(entry.said);
        let _ = self.notes.insert(entry.meter, noted)?;
        match bodies {
            Some(kept) => {
                let _ = self.sent.insert(entry.meter, kept)?;
                Ok(())
            }
            None => Ok(()),
        }
    }
}

fn moment_of(said: Said) -> u64
    ensures { result ≡ moment_of said }
{
    match said {
        Said::Read { moment, .. } => moment,
        Said::Failed { at, .. } => at,
    }
}

/// Reads the lines of a journal, at this second since 1970.
pub fn read_journal<A: Allocator + Copy>(
    alloc: A,
    lines: &[u8],
    now: u64,
) -> Result<Journal<A>, NoMemory>
    ensures { IfOk result (λ journal. IsJournal now (lines_of lines.now) journal) }
{
    let mut journal = Journal {
        is_there: true,
        notes: BTreeMap::new(alloc),
        sent: BTreeMap::new(alloc),
    };
    let mut scratch = Scratch::new(alloc);
    let mut rest = lines;
    'lines: while !rest.is_empty() {
        let (line, after) = first_line(rest);
        match read_line(alloc, line, &mut scratch)? {
            Some(line) => journal.take_line(line, now)?,
            None => {}
        }
        rest = after;
    }
    Ok(journal)
}
