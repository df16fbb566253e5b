//! The text of a trace.

ghost use Rattle.std.specs.Prelude.{◌≡◌, codes};
ghost use Rattle.mbdc_io.specs.Written.{Wrote};
ghost use Rattle.mbdc_bus.specs.Line.{mark_of, trace_line, what_of};

use dc_linkframe::{Frame, parse};
use mbdc_io::{IoFault, Sink, put_hex_word, put_number, put_number_word};

/// Which way bytes went.
#[derive(Clone, Copy)]
pub enum Direction {
    /// From the master to the meters: a request.
    Out,
    /// From a meter: an answer.
    In,
}

/// Writes the line of a request or an answer: the moment in milliseconds, the bus line, `>` or `<`, its bytes in hex
/// digits (`-` for none), and what they are: `frame`, `E5`, `no frame` or `silence`.
#[tactic(auto, using(mbdc_io::proofs::Pieces::written), unfolding(crate::specs::Line::trace_line))]
pub fn put_line<W: Sink>(
    out: &mut W,
    moment: u64,
    line: u8,
    direction: Direction,
    bytes: &[u8],
) -> Result<(), IoFault>
    ensures { Wrote W.Sink result out.old out.new (trace_line moment line direction bytes.now) }
{
    put_number(out, moment)?;
    put_number_word(out, u64::from(line))?;
    out.put(mark_of(direction))?;
    put_hex_word(out, bytes)?;
    put_end(out, bytes)
}

#[tactic(auto, using(mbdc_io::proofs::Pieces::written))]
fn put_end<W: Sink>(out: &mut W, bytes: &[u8]) -> Result<(), IoFault>
    ensures { Wrote W.Sink result out.old out.new (what_of bytes.now) }
{
    out.put(what_of(bytes))
}

// The mark of a direction.
fn mark_of(direction: Direction) -> &'static [u8]
    ensures { result.now ≡ mark_of direction }
{
    match direction {
        Direction::Out => b" >",
        Direction::In => b" <",
    }
}

// What bytes are, and the end of the line.
#[tactic(auto, unfolding(crate::specs::Line::what_of))]
fn what_of(bytes: &[u8]) -> &'static [u8]
    ensures { result.now ≡ what_of bytes.now }
{
    if bytes.is_empty() {
        return b" silence\n";
    }
    match parse(bytes) {
        Ok(Frame::Ack) => b" E5\n",
        Ok(_) => b" frame\n",
        Err(_) => b" no frame\n",
    }
}
