//! Faults by number and name.

ghost use Rattle.mbdc_io.specs.Written.{Wrote};
ghost use Rattle.mbdc_io.specs.Words.{fault_text, fault_line};

use crate::number::put_number;
use crate::{IoFault, Sink};

/// Writes a fault as its number and its name: `n Name`.
#[tactic(auto, using(crate::proofs::Pieces::written), unfolding(crate::specs::Words::fault_text))]
pub fn put_fault<W: Sink>(out: &mut W, number: u8, name: &str) -> Result<(), IoFault>
    ensures { Wrote W.Sink result out.old out.new (fault_text number name.now) }
{
    put_number(out, u64::from(number))?;
    out.put(b" ")?;
    out.put(name.as_bytes())
}

/// Writes the fault line of an input: `WHAT n Name`.
#[tactic(auto, using(crate::proofs::Pieces::written), unfolding(crate::specs::Words::fault_line))]
pub fn put_fault_line<W: Sink>(
    out: &mut W,
    what: &[u8],
    number: u8,
    name: &str,
) -> Result<(), IoFault>
    ensures { Wrote W.Sink result out.old out.new
        (fault_line what.now number name.now) }
{
    out.put(what)?;
    out.put(b" ")?;
    put_fault(out, number, name)?;
    out.put(b"\n")
}
