//! Writes the meters for the billing office.

ghost use Rattle.std.specs.Prelude.{◌≡◌, ◌++◌, codes};
ghost use Rattle.mbdc_change.specs.Fields.{address_word};
ghost use Rattle.mbdc_io.specs.Written.{Wrote};
ghost use Rattle.dc_upload.specs.Register.{meter_line, meter_lines, place_words};

use crate::words::put_word;
use dc_address::{Identity, Primary};
use dc_meters::{House, Meter};
use mbdc_io::{IoFault, Sink, put_number_word};
use std::alloc::Allocator;

/// Writes a line for each meter, by identity: `METER ident line addr flat open`; `open` is the
/// number of its open parts.
#[tactic(auto, using(mbdc_io::proofs::Pieces::written))]
pub fn write_meters<A: Allocator + Copy, W: Sink>(
    house: &House<A>,
    out: &mut W,
) -> Result<(), IoFault>
    ensures { Wrote W.Sink result out.old out.new (meter_lines house.now.state) }
{
    for (meter, row) in house.meters() {
        write_meter(meter, row, out)?;
    }
    Ok(())
}

#[tactic(auto, using(mbdc_io::proofs::Pieces::written), unfolding(crate::specs::Register::meter_line))]
fn write_meter<A: Allocator, W: Sink>(
    meter: &Identity,
    row: &Meter<A>,
    out: &mut W,
) -> Result<(), IoFault>
    ensures { Wrote W.Sink result out.old out.new
        (meter_line (meter.now, row.now)) }
{
    out.put(b"METER")?;
    put_place(out, meter, row)?;
    put_word(out, row.flat().as_slice())?;
    put_number_word(out, row.parts().len() as u64)?;
    out.put(b"\n")
}

// Writes the meter, its bus line and its address.
#[tactic(auto, using(mbdc_io::proofs::Pieces::written), unfolding(crate::specs::Register::place_words))]
fn put_place<A: Allocator, W: Sink>(
    out: &mut W,
    meter: &Identity,
    row: &Meter<A>,
) -> Result<(), IoFault>
    ensures { Wrote W.Sink result out.old out.new
        (place_words meter.now row.now) }
{
    put_word(out, &meter.text())?;
    put_number_word(out, u64::from(row.line()))?;
    put_address(out, row.address())
}

#[tactic(auto, using(mbdc_io::proofs::Pieces::written))]
fn put_address<W: Sink>(out: &mut W, address: Option<Primary>) -> Result<(), IoFault>
    ensures { Wrote W.Sink result out.old out.new
        (codes " " ++ address_word address) }
{
    match address {
        Some(address) => put_number_word(out, u64::from(address.get())),
        None => put_word(out, b"S"),
    }
}
