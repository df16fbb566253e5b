//! A registered meter.

ghost use Rattle.std.specs.Prelude.{◌≡◌, ◌+◌, ◌≤◌, ◌==◌, if◌then◌else◌, length, [], Some, true};
ghost use Rattle.std.specs.Prelude.{OnOk, OnErr, IfOk, ◌∷◌, ◌++◌, ◌<◌, ◌^◌, All};
ghost use Rattle.mbdc_change.specs.Apply.{joined};
ghost use Rattle.mbdc_change.specs.Accepts.{continues};
ghost use Rattle.mbdc_change.specs.Size.{meter_size, parts_size, reading_size};
ghost use Rattle.mbdc_change.specs.Flat.{IsFlat};
ghost use Rattle.mbdc_change.specs.Valid.{IsMeter, IsPart, IsReading};
ghost use Rattle.mbdc_change.specs.Fields.{most_parts};
ghost use Rattle.dc_meters.specs.Due.{due_days};
ghost use Rattle.dc_meters.specs.Points.{points_of};

use crate::orders::Ended;
use crate::part::parts_size;
use crate::reading_list::ReadingList;
use crate::{Part, Reading};
use dc_address::Primary;
use dc_units::Date;
use mbdc_change::Flat;
use mbdc_io::NoMemory;
use std::alloc::Allocator;
use std::marker::Model;
use std::mem::replace;

/// A registered meter.
#[derive(Drop)]
pub struct Meter<A: Allocator> {
    line: u8,
    address: Option<Primary>,
    flat: Flat,
    parts: Vec<Part<A>, A>,
}

impl<A: Allocator> Model for Meter<A> {
    ghost use Rattle.mbdc_change.specs.State.{MeterRow};
    ghost use Rattle.mbdc_change.specs.Valid.{IsMeter};

    ghost Value = { MeterRow };

    ghost view = { λ m. record {
      line = m.line;
      address = m.address;
      flat = m.flat;
      parts = m.parts.items;
    } };

    ghost invariant = { λ m. IsMeter
        (record { line = m.line; address = m.address; flat = m.flat; parts = m.parts.items }) };
}

impl<A: Allocator> Meter<A> {
    /// Returns a meter without open parts.
    pub(crate) fn new(alloc: A, line: u8, address: Option<Primary>, flat: Flat) -> Meter<A>
        requires { IsMeter (record { line = line; address = address; flat = flat; parts = [] }) }
        ensures row { result ≡ record { line = line; address = address; flat = flat; parts = [] } }
        ensures is_meter { IsMeter result }
    {
        Meter {
            line,
            address,
            flat,
            parts: Vec::new(alloc),
        }
    }

    /// Returns a meter with these open parts.
    pub(crate) fn with_parts(
        line: u8,
        address: Option<Primary>,
        flat: Flat,
        parts: Vec<Part<A>, A>,
    ) -> Meter<A>
        requires { IsMeter (record {
          line = line;
          address = address;
          flat = flat;
          parts = parts.items;
        }) }
        ensures { result ≡ record {
          line = line;
          address = address;
          flat = flat;
          parts = parts.items;
        } }
    {
        Meter {
            line,
            address,
            flat,
            parts,
        }
    }

    /// The meter's bus line, from 1 to 8.
    pub fn line(&self) -> u8
        ensures line { result ≡ self.now.line }
        ensures is_meter { IsMeter self.now }
    {
        self.line
    }

    /// The meter's primary address; `None` for secondary addressing.
    pub fn address(&self) -> Option<Primary>
        ensures address { result ≡ self.now.address }
        ensures is_meter { IsMeter self.now }
    {
        self.address
    }

    /// The meter's flat.
    pub fn flat(&self) -> Flat
        ensures flat { result ≡ self.now.flat }
        ensures is_meter { IsMeter self.now }
    {
        self.flat
    }

    /// The parts of an unfinished readout, in order.
    pub fn parts(&self) -> &[Part<A>]
        ensures parts { result.now ≡ self.now.parts }
        ensures is_meter { IsMeter self.now }
    {
        &self.parts
    }

    pub(crate) fn size(&self) -> u32
        ensures size { result ≡ meter_size self.now }
        ensures bound { result ≤ 66600 }
        ensures is_meter { IsMeter self.now }
    {
        12 + u32::from(self.flat.len()) + parts_size(&self.parts)
    }

    /// The meter's size once it has no open part.
    pub(crate) fn closed_size(&self) -> u32
        ensures size { result ≡ meter_size (record self.now { parts = [] }) }
        ensures bound { result ≤ 24 }
        ensures is_meter { IsMeter (record self.now { parts = [] }) }
    {
        12 + u32::from(self.flat.len())
    }

    /// The size of the parts that this part replaces: part 1 drops the open ones.
    pub(crate) fn dropped_size(&self, number: u8) -> u32
        ensures size { result ≡ (if number == 1 then parts_size self.now.parts else 0) }
        ensures bound { result ≤ 66600 }
    {
        if number == 1 {
            parts_size(&self.parts)
        } else {
            0
        }
    }

    /// The size that a reading adds to its parts, if the readout ends.
    pub(crate) fn read_size(&self, more_follows: bool) -> u32
        ensures size { result ≡ (if more_follows then 0 else 18 + length self.now.flat) }
        ensures bound { result ≤ 30 }
    {
        if more_follows {
            0
        } else {
            18 + u32::from(self.flat.len())
        }
    }

    /// Assigns the meter to another flat.
    pub(crate) fn set_flat(&mut self, flat: Flat)
        requires { IsFlat flat }
        ensures flat { self.new ≡ record self.old { flat = flat } }
        ensures is_meter { IsMeter self.new }
    {
        self.flat = flat;
    }

    /// Adds a part; part 1 starts the readout anew.
    pub(crate) fn join(&mut self, alloc: A, number: u8, part: Part<A>) -> Result<(), NoMemory>
        requires continues { continues number (Some self.old) ≡ true }
        requires part_is { IsPart part }
        ensures ok { OnOk result (self.new
            ≡ record self.old { parts = joined number part self.old.parts }) }
        ensures err { OnErr result (self.new ≡ self.old) }
    {
        if number == 1 {
            self.begin(alloc, part)
        } else {
            self.push(part)
        }
    }

    /// Keeps only this part.
    fn begin(&mut self, alloc: A, part: Part<A>) -> Result<(), NoMemory>
        requires { IsPart part }
        ensures ok { OnOk result (self.new ≡ record self.old { parts = part ∷ [] }) }
        ensures err { OnErr result (self.new ≡ self.old) }
    {
        let mut parts = Vec::new(alloc);
        parts.push(part)?;
        self.parts = parts;
        Ok(())
    }

    /// Appends a part.
    fn push(&mut self, part: Part<A>) -> Result<(), NoMemory>
        requires part_is { IsPart part }
        requires room { length self.old.parts + 1 ≤ most_parts }
        ensures ok { OnOk result (self.new
            ≡ record self.old { parts = self.old.parts ++ part ∷ [] }) }
        ensures err { OnErr result (self.new ≡ self.old) }
    {
        self.parts.push(part)?;
        Ok(())
    }

    /// Takes the parts for a reading, and leaves none.
    pub(crate) fn close(&mut self, alloc: A, ended: Ended, days: Vec<Date, A>) -> Reading<A>
        requires { days.items ≡ due_days (points_of self.old.parts) }
        ensures reading { result ≡ record {
          serial = ended.serial;
          meter = ended.meter;
          flat = self.old.flat;
          parts = self.old.parts;
        } }
        ensures after { self.new ≡ record self.old { parts = [] } }
        ensures is_reading { IsReading result }
        ensures is_meter { IsMeter self.new }
    {
        let parts = replace(&mut self.parts, Vec::new(alloc));
        Reading::new(ended.serial, ended.meter, self.flat, parts, days)
    }
}

impl<A: Allocator + Copy> Meter<A> {
    /// Ends the readout with this part: the open parts and this one become a reading, with the
    /// meter's flat at that time. Returns the reading's size. If memory runs out, nothing has
    /// changed.
    pub(crate) fn finish(
        &mut self,
        alloc: A,
        number: u8,
        part: Part<A>,
        ended: Ended,
        readings: &mut ReadingList<A>,
    ) -> Result<u32, NoMemory>
        requires continues { continues number (Some self.old) ≡ true }
        requires part_is { IsPart part }
        requires later { All (λ r. r.serial < ended.serial) readings.old.items }
        requires fits { ended.serial < 2 ^ 64 }
        ensures ok { OnOk result (readings.new.items ≡ readings.old.items ++ record {
          serial = ended.serial;
          meter = ended.meter;
          flat = self.old.flat;
          parts = joined number part self.old.parts;
        } ∷ []) }
        ensures closed { OnOk result (self.new ≡ record self.old { parts = [] }) }
        ensures size { IfOk result (λ size. size ≡ reading_size (record {
          serial = ended.serial;
          meter = ended.meter;
          flat = self.old.flat;
          parts = joined number part self.old.parts;
        })) }
        ensures err { OnErr result (self.new ≡ self.old) }
        ensures is_reading { OnOk result (IsReading (record {
          serial = ended.serial;
          meter = ended.meter;
          flat = self.old.flat;
          parts = joined number part self.old.parts;
        })) }
        ensures unread { OnErr result (readings.new ≡ readings.old) }
        ensures is_meter { IsMeter self.new }
    {
        if number == 1 {
            // The open parts are dropped only once the reading exists.
            let mut anew = Meter::new(alloc, self.line, self.address, self.flat);
            anew.push(part)?;
            let size = readings.close(alloc, ended, &mut anew)?;
            *self = anew;
            return Ok(size);
        }
        self.push(part)?;
        match readings.close(alloc, ended, self) {
            Ok(size) => Ok(size),
            Err(refused) => {
                self.parts.pop();
                Err(refused)
            }
        }
    }
}
