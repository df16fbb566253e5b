//! The text of a register.

ghost use Rattle.mbdc_io.specs.Written.{Wrote};
ghost use Rattle.dc_poller.specs.Register.{register_text};

use dc_meters::House;
use dc_upload::write_meters;
use mbdc_io::{IoFault, Sink, put_number_word};
use std::alloc::Allocator;

/// Writes the register: a line for each meter, the number of readings, and the size.
#[tactic(auto, using(mbdc_io::proofs::Pieces::written), unfolding(crate::specs::Register::register_text))]
pub fn put_register<A: Allocator + Copy, W: Sink>(
    house: &House<A>,
    out: &mut W,
) -> Result<(), IoFault>
    ensures { Wrote W.Sink result out.old out.new
        (register_text house.now.state) }
{
    write_meters(house, out)?;
    out.put(b"READINGS")?;
    put_number_word(out, house.readings().len() as u64)?;
    out.put(b"\nSIZE")?;
    put_number_word(out, u64::from(house.size()))?;
    out.put(b"\n")
}
