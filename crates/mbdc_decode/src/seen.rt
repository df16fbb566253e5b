//! The data point of a record, after its data.

ghost use Rattle.std.specs.Prelude.{◌≡◌, ◌≤◌, length, OnOk, OnErr};
ghost use Rattle.dc_records.specs.Record.{view};
ghost use Rattle.mbdc_io.specs.Written.{Wrote};
ghost use Rattle.mbdc_decode.specs.Seen.{point_text, seen_word};

use dc_records::Record;
use dc_units::{Point, Seen, TEXT_ROOM, Value, point_of};
use mbdc_io::{IoFault, Sink};

// Writes a point's value and its unit. Clearing a room for each value would cost more than the value: the caller has
// one.
#[tactic(auto, using(mbdc_io::proofs::Pieces::written), unfolding(crate::specs::Seen::point_text))]
fn put_point_in<W: Sink>(point: &Point, room: &mut [u8], out: &mut W) -> Result<(), IoFault>
    requires { TEXT_ROOM ≤ length room.old }
    ensures { Wrote W.Sink result out.old out.new (point_text point.now) }
{
    out.put(point.value.write_into(room))?;
    match point.value {
        Value::Number(_) | Value::Flags { .. } => {
            out.put(b" ")?;
            out.put(point.quantity.unit().as_bytes())
        }
        Value::Day(_) | Value::Minute(..) | Value::None => Ok(()),
    }
}

/// Writes a point's value and its unit.
pub fn put_point<W: Sink>(point: &Point, out: &mut W) -> Result<(), IoFault>
    ensures { Wrote W.Sink result out.old out.new (point_text point.now) }
{
    put_point_in(point, &mut [0u8; TEXT_ROOM], out)
}

/// Writes the decoded value of a record's data. `room` is room for its text.
#[tactic(auto, using(mbdc_io::proofs::Pieces::written), unfolding(crate::specs::Seen::seen_word))]
pub fn put_seen<W: Sink>(found: &Record<'_>, room: &mut [u8], out: &mut W) -> Result<(), IoFault>
    requires { TEXT_ROOM ≤ length room.old }
    ensures { Wrote W.Sink result out.old out.new (seen_word (view found.now)) }
{
    out.put(b" = ")?;
    match point_of(found) {
        Seen::Point(point) => put_point_in(&point, room, out),
        Seen::Other => out.put(b"other"),
    }
}
