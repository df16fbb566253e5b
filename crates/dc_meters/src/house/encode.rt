//! Encodes a house as bytes.

ghost use Rattle.std.specs.Prelude.{◌≡◌, ◌*◌, ◌≤◌, ◌<◌, ◌^◌, length, OnOk, OnErr};
ghost use Rattle.std.specs.List.{flat_map};
ghost use Rattle.mbdc_change.specs.Encoding.{state_bytes, head_bytes, meters_bytes, readings_bytes};
ghost use Rattle.mbdc_change.specs.Encoding.{meter_bytes, reading_bytes};
ghost use Rattle.mbdc_io.specs.Written.{IsWritten, IsStopped};

use super::House;
use crate::parts::put_parts;
use crate::{Meter, Reading};
use dc_address::Identity;
use mbdc_change::address_number;
use mbdc_change::writing::{put_byte, put_count, put_counted, put_identity, put_long};
use mbdc_io::{IoFault, Sink};
use std::alloc::Allocator;
use std::collections::{BTreeMap, VecDeque};

impl<A: Allocator + Copy> House<A> {
    /// Writes the state: numbers, the last line, the meters by identity, the readings by serial. It
    /// stops at the first failed put, and uses no memory.
    pub fn encode<S: Sink>(&self, sink: &mut S) -> Result<(), IoFault>
        ensures ok { OnOk result (IsWritten S.Sink sink.old sink.new
            (state_bytes self.now.state)) }
        ensures err { OnErr result (IsStopped S.Sink sink.old
            sink.new (state_bytes self.now.state)) }
    {
        let _ = self.size(); // its clause bounds the numbers of meters and readings
        self.put_head(sink)?;
        put_meters(sink, self.meters.rows())?;
        put_readings(sink, self.readings.all())?;
        Ok(())
    }

    fn put_head<S: Sink>(&self, sink: &mut S) -> Result<(), IoFault>
        ensures ok { OnOk result (IsWritten S.Sink sink.old sink.new
            (head_bytes self.now.state)) }
        ensures err { OnErr result (IsStopped S.Sink sink.old
            sink.new (head_bytes self.now.state)) }
    {
        put_long(sink, self.next_serial())?;
        put_long(sink, self.confirmed())?;
        put_long(sink, self.last_number())?;
        put_counted(sink, self.last_line())?;
        Ok(())
    }
}

fn put_meters<S: Sink, A: Allocator>(
    sink: &mut S,
    meters: &BTreeMap<Identity, Meter<A>, A>,
) -> Result<(), IoFault>
    requires { length meters.now.entries < 2 ^ 32 }
    ensures ok { OnOk result (IsWritten S.Sink sink.old sink.new
        (meters_bytes meters.now.entries)) }
    ensures err { OnErr result (IsStopped S.Sink sink.old sink.new
        (meters_bytes meters.now.entries)) }
{
    put_count(sink, meters.len() as u32)?;
    put_each_meter(sink, meters)?;
    Ok(())
}

fn put_each_meter<S: Sink, A: Allocator>(
    sink: &mut S,
    meters: &BTreeMap<Identity, Meter<A>, A>,
) -> Result<(), IoFault>
    ensures ok { OnOk result (IsWritten S.Sink sink.old sink.new
        (flat_map meter_bytes meters.now.entries)) }
    ensures err { OnErr result (IsStopped S.Sink sink.old sink.new
        (flat_map meter_bytes meters.now.entries)) }
{
    for (meter, row) in meters {
        put_meter(sink, meter, row)?;
    }
    Ok(())
}

fn put_meter<S: Sink, A: Allocator>(
    sink: &mut S,
    meter: &Identity,
    row: &Meter<A>,
) -> Result<(), IoFault>
    ensures ok { OnOk result (IsWritten S.Sink sink.old sink.new
        (meter_bytes (meter.now, row.now))) }
    ensures err { OnErr result (IsStopped S.Sink sink.old sink.new
        (meter_bytes (meter.now, row.now))) }
{
    put_identity(sink, meter)?;
    put_byte(sink, row.line())?;
    put_byte(sink, address_number(row.address()))?;
    put_counted(sink, row.flat().as_slice())?;
    put_parts(sink, row.parts())?;
    Ok(())
}

fn put_readings<S: Sink, A: Allocator>(
    sink: &mut S,
    readings: &VecDeque<Reading<A>, A>,
) -> Result<(), IoFault>
    requires { length readings.now.items < 2 ^ 32 }
    ensures ok { OnOk result (IsWritten S.Sink sink.old sink.new
        (readings_bytes readings.now.items)) }
    ensures err { OnErr result (IsStopped S.Sink sink.old sink.new
        (readings_bytes readings.now.items)) }
{
    put_count(sink, readings.len() as u32)?;
    put_each_reading(sink, readings)?;
    Ok(())
}

fn put_each_reading<S: Sink, A: Allocator>(
    sink: &mut S,
    readings: &VecDeque<Reading<A>, A>,
) -> Result<(), IoFault>
    ensures ok { OnOk result (IsWritten S.Sink sink.old sink.new
        (flat_map reading_bytes readings.now.items)) }
    ensures err { OnErr result (IsStopped S.Sink sink.old sink.new
        (flat_map reading_bytes readings.now.items)) }
{
    for reading in readings {
        put_reading(sink, reading)?;
    }
    Ok(())
}

fn put_reading<S: Sink, A: Allocator>(sink: &mut S, reading: &Reading<A>) -> Result<(), IoFault>
    ensures ok { OnOk result (IsWritten S.Sink sink.old sink.new
        (reading_bytes reading.now)) }
    ensures err { OnErr result (IsStopped S.Sink sink.old sink.new
        (reading_bytes reading.now)) }
{
    put_long(sink, reading.serial())?;
    put_identity(sink, &reading.meter())?;
    put_counted(sink, reading.flat().as_slice())?;
    put_parts(sink, reading.parts())?;
    Ok(())
}
