//! The register of a house's meters and their readings.

ghost use Rattle.std.specs.Prelude.{◌≡◌, ◌≤◌, option_copied};
ghost use Rattle.mbdc_change.specs.State.{empty_state, row_of};
ghost use Rattle.mbdc_change.specs.Size.{size_of, empty_size};
ghost use Rattle.mbdc_change.specs.Valid.{IsState};
ghost use Rattle.std.specs.VecDeque.Iter.{deque_iter_rest};
ghost use Rattle.dc_meters.specs.Orders.{readings_from, reading_of, serials_of, due_serials};
ghost use Rattle.dc_meters.specs.Places.{by_flat};

mod change;
mod command;
mod decode;
mod encode;
mod kept;
mod replay;
mod telegram;

use crate::{Meter, MeterMap, Place, Reading, ReadingList, Serials};
use dc_address::Identity;
use dc_units::Date;
use mbdc_change::CommandLine;
use std::alloc::Allocator;
use std::collections::btree_map::Iter;
use std::collections::{VecDeque, btree_set, vec_deque};
use std::marker::Model;

/// The size of a state without meters and readings.
const EMPTY_SIZE: u32 = 153;

/// The register of a house's meters, and their readings.
#[derive(Drop)]
pub struct House<A: Allocator + Copy> {
    alloc: A,
    meters: MeterMap<A>,
    readings: ReadingList<A>,
    next_serial: u64,
    confirmed: u64,
    last_number: u64,
    last_line: CommandLine,
    size: u32,
    budget: u32,
}

impl<A: Allocator + Copy> Model for House<A> {
    ghost use Rattle.mbdc_change.specs.State.{Held};
    ghost use Rattle.dc_meters.specs.Kept.{IsKept};

    ghost Value = { Held };

    ghost view = { λ h. record {
      state = record {
        meters = h.meters.entries;
        readings = h.readings.items;
        next_serial = h.next_serial;
        confirmed =
            h.confirmed;
        last_number = h.last_number;
        last_line = h.last_line;
      };
      budget = h.budget;
    } };

    ghost invariant = { λ h. IsKept h.size h.budget (record {
      meters = h.meters.entries;
      readings = h.readings.items;
      next_serial = h.next_serial;
      confirmed = h.confirmed;
      last_number =
          h.last_number;
      last_line = h.last_line;
    }) };
}

impl<A: Allocator + Copy> House<A> {
    /// Returns a house without meters and readings, whose states stay within the budget.
    pub fn new(alloc: A, budget: u32) -> House<A>
        requires { empty_size ≤ budget }
        ensures { result ≡ record { state = empty_state; budget = budget } }
    {
        House {
            alloc,
            meters: MeterMap::new(alloc),
            readings: ReadingList::new(alloc),
            next_serial: 1,
            confirmed: 0,
            last_number: 0,
            last_line: CommandLine::empty(),
            size: EMPTY_SIZE,
            budget,
        }
    }

    /// The size of the state in bytes: 153, 12 and the flat's name for a meter, 18 and the flat's
    /// name for a reading, 9 and the body for a part.
    pub fn size(&self) -> u32
        ensures size { result ≡ size_of self.now.state }
        ensures is_state { IsState self.now.budget self.now.state }
    {
        self.size
    }

    /// The maximum size of the state in bytes.
    pub fn budget(&self) -> u32
        ensures budget { result ≡ self.now.budget }
        ensures is_state { IsState self.now.budget self.now.state }
    {
        self.budget
    }

    /// The number of the last command; 0 before the first.
    pub fn last_number(&self) -> u64
        ensures number { result ≡ self.now.state.last_number }
        ensures is_state { IsState self.now.budget self.now.state }
    {
        self.last_number
    }

    /// The line of the last command; empty before the first.
    pub fn last_line(&self) -> &[u8]
        ensures line { result.now ≡ self.now.state.last_line }
        ensures is_state { IsState self.now.budget self.now.state }
    {
        self.last_line.as_slice()
    }

    /// The serial of the next reading.
    pub fn next_serial(&self) -> u64
        ensures serial { result ≡ self.now.state.next_serial }
        ensures is_state { IsState self.now.budget self.now.state }
    {
        self.next_serial
    }

    /// The last serial that the office has confirmed; 0 at first.
    pub fn confirmed(&self) -> u64
        ensures serial { result ≡ self.now.state.confirmed }
        ensures is_state { IsState self.now.budget self.now.state }
    {
        self.confirmed
    }

    /// The row of a registered meter.
    pub fn meter(&self, meter: &Identity) -> Option<&Meter<A>>
        ensures { option_copied result ≡ row_of meter.now self.now.state }
    {
        self.meters.get(meter)
    }

    /// The registered meters, by identity.
    pub fn meters(&self) -> Iter<'_, Identity, Meter<A>>
        ensures meters { result ≡ self.now.state.meters }
        ensures is_state { IsState self.now.budget self.now.state }
    {
        self.meters.iter()
    }

    /// The registered meters' places, ordered by the bytes of the flat and then by identity. It
    /// uses no memory.
    pub fn meters_by_flat(&self) -> btree_set::Iter<'_, Place>
        ensures places { result ≡ by_flat self.now.state.meters }
        ensures is_state { IsState self.now.budget self.now.state }
    {
        self.meters.by_flat()
    }

    /// The readings that aren't confirmed, by serial.
    pub fn readings(&self) -> &VecDeque<Reading<A>, A>
        ensures readings { result.now.items ≡ self.now.state.readings }
        ensures is_state { IsState self.now.budget self.now.state }
    {
        self.readings.all()
    }

    /// The readings from a serial on, by serial. Earlier readings aren't visited.
    pub fn from(&self, serial: u64) -> vec_deque::Iter<'_, Reading<A>>
        ensures { deque_iter_rest result ≡ readings_from serial self.now.state.readings }
    {
        self.readings.from(serial)
    }

    /// The reading with a serial.
    pub fn reading(&self, serial: u64) -> Option<&Reading<A>>
        ensures { option_copied result ≡ reading_of serial self.now.state.readings }
    {
        self.readings.reading(serial)
    }

    /// The serials of a meter's readings, ascending, whether it is registered or not.
    pub fn serials_of(&self, meter: &Identity) -> Serials<'_, Identity>
        ensures { result ≡ serials_of meter.now self.now.state.readings }
    {
        self.readings.serials_of(*meter)
    }

    /// The serials of the readings that have a due-date value for a date, ascending.
    pub fn due(&self, date: Date) -> Serials<'_, Date>
        ensures serials { result ≡ due_serials date self.now.state.readings }
        ensures is_state { IsState self.now.budget self.now.state }
    {
        self.readings.due(date)
    }
}
