//! A finished readout.

ghost use Rattle.std.specs.Prelude.{◌≡◌, ◌≤◌};
ghost use Rattle.mbdc_change.specs.Size.{reading_size};
ghost use Rattle.mbdc_change.specs.Valid.{IsReading};
ghost use Rattle.dc_meters.specs.Due.{due_days};
ghost use Rattle.dc_meters.specs.Points.{points_of};

use crate::Part;
use crate::part::parts_size;
use dc_address::Identity;
use dc_units::Date;
use mbdc_change::Flat;
use std::alloc::Allocator;
use std::marker::Model;

/// A finished readout.
#[derive(Drop)]
pub struct Reading<A: Allocator> {
    serial: u64,
    meter: Identity,
    flat: Flat,
    parts: Vec<Part<A>, A>,
    days: Vec<Date, A>,
}

impl<A: Allocator> Model for Reading<A> {
    ghost use Rattle.mbdc_change.specs.State.{ReadingRow};
    ghost use Rattle.mbdc_change.specs.Valid.{IsReading};
    ghost use Rattle.dc_meters.specs.Orders.{IsDated};

    ghost Value = { ReadingRow };

    ghost view = { λ r. record {
      serial = r.serial;
      meter = r.meter;
      flat = r.flat;
      parts = r.parts.items;
    } };

    ghost invariant = { λ r. IsDated r.days.items
        (record { serial = r.serial; meter = r.meter; flat = r.flat; parts = r.parts.items }) };
}

impl<A: Allocator> Reading<A> {
    pub(crate) fn new(
        serial: u64,
        meter: Identity,
        flat: Flat,
        parts: Vec<Part<A>, A>,
        days: Vec<Date, A>,
    ) -> Reading<A>
        requires reading { IsReading (record {
          serial = serial;
          meter = meter;
          flat = flat;
          parts = parts.items;
        }) }
        requires dated { days.items ≡ due_days (points_of parts.items) }
        ensures { result ≡ record {
          serial = serial;
          meter = meter;
          flat = flat;
          parts = parts.items;
        } }
    {
        Reading {
            serial,
            meter,
            flat,
            parts,
            days,
        }
    }

    /// The reading's serial, from 1; no serial is given twice.
    pub fn serial(&self) -> u64
        ensures serial { result ≡ self.now.serial }
        ensures is_reading { IsReading self.now }
    {
        self.serial
    }

    /// The meter that was read.
    pub fn meter(&self) -> Identity
        ensures { result ≡ self.now.meter }
    {
        self.meter
    }

    /// The meter's flat when the readout ended.
    pub fn flat(&self) -> Flat
        ensures { result ≡ self.now.flat }
    {
        self.flat
    }

    /// The parts, in order.
    pub fn parts(&self) -> &[Part<A>]
        ensures parts { result.now ≡ self.now.parts }
        ensures is_reading { IsReading self.now }
    {
        &self.parts
    }

    /// The days for which it has a due-date value: the day of each of its points, so a day may
    /// occur more than once.
    pub(crate) fn due_days(&self) -> &[Date]
        ensures { result.now ≡ due_days (points_of self.now.parts) }
    {
        &self.days
    }

    pub(crate) fn size(&self) -> u32
        ensures size { result ≡ reading_size self.now }
        ensures bound { result ≤ 66600 }
    {
        18 + u32::from(self.flat.len()) + parts_size(&self.parts)
    }
}
