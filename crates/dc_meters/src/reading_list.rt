//! The unconfirmed readings, and their indexes.

ghost use Rattle.std.specs.Prelude.{◌≡◌, ◌+◌, ◌-◌, ◌<◌, ◌≤◌, ◌^◌, [], ◌∷◌, ◌++◌, All, OnOk, OnErr};
ghost use Rattle.std.specs.Prelude.{IfOk, IfSome, IfNone, length, slice_get, map, filter, nat_lt};
ghost use Rattle.std.specs.Prelude.{sum_by, option_copied};
ghost use Rattle.std.specs.List.Sorted.{IsStrictlySortedBy};
ghost use Rattle.std.specs.Ordering.{nat_cmp};
ghost use Rattle.std.specs.VecDeque.Iter.{deque_iter_rest};
ghost use Rattle.mbdc_change.specs.Size.{reading_size};
ghost use Rattle.mbdc_change.specs.Valid.{IsReading};
ghost use Rattle.dc_meters.specs.Orders.{readings_from, reading_of, serials_of, due_serials};

use crate::due::due_days_of;
use crate::orders::{Ended, Orders};
use crate::{Meter, Reading, Serials};
use dc_address::Identity;
use dc_units::Date;
use mbdc_io::NoMemory;
use std::alloc::Allocator;
use std::collections::VecDeque;
use std::collections::vec_deque::Iter;
use std::marker::Model;

/// The unconfirmed readings by serial, and their serials by meter and by due date.
#[derive(Drop)]
pub(crate) struct ReadingList<A: Allocator + Copy> {
    items: VecDeque<Reading<A>, A>,
    orders: Orders<A>,
}

impl<A: Allocator + Copy> Model for ReadingList<A> {
    ghost use Rattle.dc_meters.specs.Orders.{ReadingRows, AreOrdered};

    ghost Value = { ReadingRows };

    ghost view = { λ r. record { items = r.items.items } };

    ghost invariant = { λ r. AreOrdered r.orders.by_meter.keys r.orders.by_day.keys r.items.items };
}

impl<A: Allocator + Copy> ReadingList<A> {
    /// Returns an empty list.
    pub(crate) fn new(alloc: A) -> ReadingList<A>
        ensures { result.items ≡ [] }
    {
        ReadingList {
            items: VecDeque::new(alloc),
            orders: Orders::new(alloc),
        }
    }

    /// Appends a reading.
    pub(crate) fn push(&mut self, reading: Reading<A>) -> Result<(), NoMemory>
        requires later { All (λ r. r.serial < reading.serial) self.old.items }
        ensures ok { OnOk result (self.new.items ≡ self.old.items ++ reading ∷ []) }
        ensures err { OnErr result (self.new ≡ self.old) }
    {
        self.items.reserve(1)?;
        let ended = Ended {
            meter: reading.meter(),
            serial: reading.serial(),
        };
        self.orders.file(ended, reading.due_days())?;
        self.items.push_back_reserved(reading);
        Ok(())
    }

    /// Makes a meter's open parts the last reading, and returns the reading's size. If memory runs
    /// out, the meter keeps its parts.
    pub(crate) fn close(
        &mut self,
        alloc: A,
        ended: Ended,
        row: &mut Meter<A>,
    ) -> Result<u32, NoMemory>
        requires later { All (λ r. r.serial < ended.serial) self.old.items }
        requires fits { ended.serial < 2 ^ 64 }
        ensures ok { OnOk result (self.new.items ≡ self.old.items ++ record {
          serial = ended.serial;
          meter = ended.meter;
          flat = row.old.flat;
          parts = row.old.parts;
        } ∷ []) }
        ensures closed { OnOk result (row.new ≡ record row.old { parts = [] }) }
        ensures size { IfOk result (λ size. size ≡ reading_size (record {
          serial = ended.serial;
          meter = ended.meter;
          flat = row.old.flat;
          parts = row.old.parts;
        })) }
        ensures is_reading { OnOk result (IsReading (record {
          serial = ended.serial;
          meter = ended.meter;
          flat = row.old.flat;
          parts = row.old.parts;
        })) }
        ensures err { OnErr result (self.new ≡ self.old) }
        ensures open { OnErr result (row.new ≡ row.old) }
    {
        let due_days = due_days_of(alloc, row.parts())?;
        self.items.reserve(1)?;
        self.orders.file(ended, &due_days)?;
        let reading = row.close(alloc, ended, due_days);
        let size = reading.size();
        self.items.push_back_reserved(reading);
        Ok(size)
    }

    /// Drops the readings up to a serial, and returns their size. Later readings aren't visited.
    pub(crate) fn forget(&mut self, serial: u64) -> u32
        requires { sum_by reading_size self.old.items < 2 ^ 32 }
        ensures kept { self.new.items ≡ filter (λ r. nat_lt serial r.serial) self.old.items }
        ensures size { result + sum_by reading_size self.new.items
            ≡ sum_by reading_size self.old.items }
    {
        let mut size = 0;
        while let Some(reading) = self.pop_up_to(serial) {
            size += reading.size();
        }
        size
    }

    /// Removes the first reading, if its serial is at most this one.
    fn pop_up_to(&mut self, serial: u64) -> Option<Reading<A>>
        ensures first { IfSome result (λ r. self.old.items ≡ r ∷ self.new.items) }
        ensures low { IfSome result (λ r. r.serial ≤ serial) }
        ensures none { IfNone result (self.new ≡ self.old) }
        ensures stay { IfNone result (filter (λ r.
            nat_lt serial r.serial) self.old.items ≡ self.old.items) }
    {
        if self.items.front()?.serial() > serial {
            return None;
        }
        let reading = self.items.pop_front()?;
        let ended = Ended {
            meter: reading.meter(),
            serial: reading.serial(),
        };
        self.orders.unfile(ended, reading.due_days());
        Some(reading)
    }

    /// The last reading.
    pub(crate) fn last(&self) -> Option<&Reading<A>>
        ensures { option_copied result ≡ slice_get self.now.items (length self.now.items - 1) }
    {
        self.items.back()
    }

    /// All of them, by serial.
    pub(crate) fn all(&self) -> &VecDeque<Reading<A>, A>
        ensures { result.now.items ≡ self.now.items }
    {
        &self.items
    }

    /// The readings from a serial on. Earlier readings aren't visited.
    pub(crate) fn from(&self, serial: u64) -> Iter<'_, Reading<A>>
        ensures readings { deque_iter_rest result ≡ readings_from serial self.now.items }
        ensures ascend { IsStrictlySortedBy nat_cmp (map (λ r. r.serial) self.now.items) }
    {
        let first = self
            .items
            .partition_point(|reading| reading.serial() < serial);
        self.items.range(first..)
    }

    /// The reading with a serial.
    pub(crate) fn reading(&self, serial: u64) -> Option<&Reading<A>>
        ensures { option_copied result ≡ reading_of serial self.now.items }
    {
        let reading = self.from(serial).next()?;
        if reading.serial() == serial {
            Some(reading)
        } else {
            None
        }
    }

    /// The serials of a meter's readings, ascending.
    pub(crate) fn serials_of(&self, meter: Identity) -> Serials<'_, Identity>
        ensures { result ≡ serials_of meter self.now.items }
    {
        Serials::under(&self.orders.by_meter, meter)
    }

    /// The serials of the readings that have a due-date value for a date, ascending.
    pub(crate) fn due(&self, date: Date) -> Serials<'_, Date>
        ensures { result ≡ due_serials date self.now.items }
    {
        Serials::under(&self.orders.by_day, date)
    }
}
