//! Telegrams: checked, and kept as parts of a readout.

ghost use Rattle.std.specs.Prelude.{◌≡◌, ℕ, ◌+◌, ◌≤◌, Some, ◌&&◌, ◌-◌, ◌<◌, true, false, OnOk};
ghost use Rattle.std.specs.Prelude.{OnErr};
ghost use Rattle.mbdc_change.specs.State.{row_of};
ghost use Rattle.mbdc_change.specs.Apply.{told, heard};
ghost use Rattle.mbdc_change.specs.Accepts.{refused_by, telegram_refusal, continues};
ghost use Rattle.mbdc_change.specs.Size.{size_of};
ghost use Rattle.mbdc_change.specs.Valid.{IsTelegram, IsPart};
ghost use Rattle.mbdc_change.specs.Fields.{end_of_numbers};

use super::House;
use crate::orders::Ended;
use crate::{Meter, Part};
use dc_address::Identity;
use mbdc_change::{Body, ChangeFault, END_OF_NUMBERS};
use mbdc_io::NoMemory;
use std::alloc::Allocator;

impl<A: Allocator + Copy> House<A> {
    pub(super) fn check_telegram(&self, part: u8, body: &Body<'_>) -> Result<(), ChangeFault>
        ensures { (moment : ℕ) → result
            ≡ refused_by (telegram_refusal self.now.budget part moment body.now self.now.state) }
    {
        let Some(row) = self.meter(&body.meter()) else {
            return Err(ChangeFault::Unknown);
        };
        if part != 1 && usize::from(part) != row.parts().len() + 1 {
            return Err(ChangeFault::Unknown);
        }
        let is_last = !body.more_follows();
        if self.size_with(row, part, body) > u64::from(self.budget())
            || (is_last && self.next_serial() >= END_OF_NUMBERS)
        {
            return Err(ChangeFault::Full);
        }
        Ok(())
    }

    /// The size after a telegram of this meter.
    fn size_with(&self, row: &Meter<A>, part: u8, body: &Body<'_>) -> u64
        requires { row_of body.now.meter self.now.state ≡ Some row.now }
        ensures { (moment : ℕ) → result ≡ size_of (told part moment body.now self.now.state) }
    {
        let dropped = row.dropped_size(part);
        let grown = 9 + body.as_slice().len() as u64;
        let read = u64::from(row.read_size(body.more_follows()));
        u64::from(self.size - dropped) + grown + read
    }

    /// Applies a telegram: keeps its part.
    pub(super) fn hear(&mut self, number: u8, moment: u64, body: &Body<'_>) -> Result<(), NoMemory>
        requires telegram { IsTelegram number moment body.now }
        requires continues { continues number (row_of body.now.meter self.old.state) ≡ true }
        requires room { size_of (told number moment body.now self.old.state) ≤ self.old.budget }
        requires serial { body.now.more ≡ false → self.old.state.next_serial < end_of_numbers }
        ensures ok { OnOk result (self.new
            ≡ record self.old { state = told number moment body.now self.old.state }) }
        ensures err { OnErr result (self.new ≡ self.old) }
    {
        let part = Part::new(self.alloc, moment, body.as_slice())?;
        if body.more_follows() {
            self.keep_open(body.meter(), number, part)
        } else {
            self.finish(body.meter(), number, part)
        }
    }

    /// Adds a part that isn't the last: it stays open.
    fn keep_open(&mut self, meter: Identity, number: u8, part: Part<A>) -> Result<(), NoMemory>
        requires continues { continues number (row_of meter self.old.state) ≡ true }
        requires part_is { IsPart part }
        requires room { size_of (heard meter true number part
            (row_of meter self.old.state) self.old.state) ≤ self.old.budget }
        ensures ok { OnOk result (self.new ≡ record self.old {
          state = heard meter true number part (row_of meter self.old.state) self.old.state;
        }) }
        ensures err { OnErr result (self.new ≡ self.old) }
    {
        let Some(row) = self.meters.get(&meter) else {
            unreachable!()
        };
        let before = row.size();
        let after = self.meters.join(self.alloc, &meter, number, part)?;
        self.size = self.size - before + after;
        Ok(())
    }

    /// Adds the part that ends a readout: a new reading, with the meter's flat at that time.
    fn finish(&mut self, meter: Identity, number: u8, part: Part<A>) -> Result<(), NoMemory>
        requires continues { continues number (row_of meter self.old.state) ≡ true }
        requires part_is { IsPart part }
        requires room { size_of (heard meter false number part
            (row_of meter self.old.state) self.old.state) ≤ self.old.budget }
        requires serial { self.old.state.next_serial < end_of_numbers }
        ensures ok { OnOk result (self.new ≡ record self.old {
          state = heard meter false number part (row_of meter self.old.state) self.old.state;
        }) }
        ensures err { OnErr result (self.new ≡ self.old) }
    {
        let Some(row) = self.meters.get(&meter) else {
            unreachable!()
        };
        let (before, after) = (row.size(), row.closed_size());
        let ended = Ended {
            meter,
            serial: self.next_serial,
        };
        let read = self
            .meters
            .finish(self.alloc, number, part, ended, &mut self.readings)?;
        self.size = self.size - before + after + read;
        self.next_serial += 1;
        Ok(())
    }
}
