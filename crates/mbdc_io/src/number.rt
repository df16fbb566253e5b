//! Numbers in decimal.

ghost use Rattle.std.specs.Prelude.{decimal};
ghost use Rattle.mbdc_io.specs.Written.{Wrote};
ghost use Rattle.mbdc_io.specs.Words.{number_word};

use crate::{IoFault, Sink};
use itoa::Buffer;

/// Writes a number in decimal.
pub fn put_number<W: Sink>(out: &mut W, number: u64) -> Result<(), IoFault>
    ensures { Wrote W.Sink result out.old out.new (decimal number) }
{
    let mut digits = Buffer::new();
    out.put(digits.format(number).as_bytes())
}

/// Writes a space and a number in decimal.
#[tactic(auto, using(crate::proofs::Pieces::written, std::proofs::lemmas::Fmt::decimal_digit))]
pub fn put_number_word<W: Sink>(out: &mut W, number: u64) -> Result<(), IoFault>
    ensures { Wrote W.Sink result out.old out.new (number_word number) }
{
    // Most numbers of a telegram have one digit.
    if number < 10 {
        return out.put(&[b' ', b'0' + number as u8]);
    }
    out.put(b" ")?;
    put_number(out, number)
}
