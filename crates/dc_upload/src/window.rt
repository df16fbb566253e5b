//! Writes readings for the billing office.

ghost use Rattle.std.specs.Prelude.{flat_map, take};
ghost use Rattle.std.specs.VecDeque.Iter.{deque_iter_rest};
ghost use Rattle.mbdc_io.specs.Written.{Wrote};
ghost use Rattle.dc_upload.specs.Reply.{window_text};
ghost use Rattle.dc_upload.specs.Window.{owner_words, part_line, part_lines, reading_line};
ghost use Rattle.dc_upload.specs.Window.{reading_lines};

use crate::reply::write_end;
use crate::words::put_word;
use dc_meters::{House, Part, Reading};
use mbdc_io::{IoFault, Sink, put_hex, put_number_word};
use std::alloc::Allocator;
use std::collections::vec_deque::Iter;

/// Writes the readings from a serial on, at most this many, with their parts, and their number.
/// Earlier readings aren't visited.
#[tactic(auto, using(mbdc_io::proofs::Pieces::written), unfolding(crate::specs::Reply::window_text))]
pub fn write_window<A: Allocator + Copy, W: Sink>(
    house: &House<A>,
    from: u64,
    count: u8,
    out: &mut W,
) -> Result<(), IoFault>
    ensures { Wrote W.Sink result out.old out.new
        (window_text from count house.now.state) }
{
    let readings = house.from(from);
    let shown = readings.len().min(usize::from(count));
    write_readings(readings, shown, out)?;
    write_end(shown, out)
}

// Writes the first of the readings, this many.
#[tactic(auto, using(mbdc_io::proofs::Pieces::written))]
fn write_readings<A: Allocator, W: Sink>(
    mut readings: Iter<'_, Reading<A>>,
    count: usize,
    out: &mut W,
) -> Result<(), IoFault>
    ensures { Wrote W.Sink result out.old out.new
        (flat_map reading_lines (take count (deque_iter_rest readings.entry))) }
{
    for _ in 0..count {
        let Some(reading) = readings.next() else {
            break;
        };
        write_reading(reading, out)?;
    }
    Ok(())
}

#[tactic(auto, using(mbdc_io::proofs::Pieces::written), unfolding(crate::specs::Window::reading_lines))]
fn write_reading<A: Allocator, W: Sink>(reading: &Reading<A>, out: &mut W) -> Result<(), IoFault>
    ensures { Wrote W.Sink result out.old out.new (reading_lines reading.now) }
{
    write_head(reading, out)?;
    write_parts(reading.parts(), out)
}

// Writes the reading's own line.
#[tactic(auto, using(mbdc_io::proofs::Pieces::written), unfolding(crate::specs::Window::reading_line))]
fn write_head<A: Allocator, W: Sink>(reading: &Reading<A>, out: &mut W) -> Result<(), IoFault>
    ensures { Wrote W.Sink result out.old out.new (reading_line reading.now) }
{
    out.put(b"READING")?;
    put_number_word(out, reading.serial())?;
    put_owner(out, reading)?;
    out.put(b"\n")
}

// Writes the meter, its flat, and the number of parts of the reading.
#[tactic(auto, using(mbdc_io::proofs::Pieces::written), unfolding(crate::specs::Window::owner_words))]
fn put_owner<A: Allocator, W: Sink>(out: &mut W, reading: &Reading<A>) -> Result<(), IoFault>
    ensures { Wrote W.Sink result out.old out.new (owner_words reading.now) }
{
    put_word(out, &reading.meter().text())?;
    put_word(out, reading.flat().as_slice())?;
    put_number_word(out, reading.parts().len() as u64)
}

#[tactic(auto, using(mbdc_io::proofs::Pieces::written))]
fn write_parts<A: Allocator, W: Sink>(parts: &[Part<A>], out: &mut W) -> Result<(), IoFault>
    ensures { Wrote W.Sink result out.old out.new (part_lines 1 parts.now) }
{
    for (i, part) in parts.iter().enumerate() {
        write_part(i + 1, part, out)?;
    }
    Ok(())
}

#[tactic(auto, using(mbdc_io::proofs::Pieces::written), unfolding(crate::specs::Window::part_line))]
fn write_part<A: Allocator, W: Sink>(
    place: usize,
    part: &Part<A>,
    out: &mut W,
) -> Result<(), IoFault>
    ensures { Wrote W.Sink result out.old out.new (part_line place part.now) }
{
    out.put(b"PART")?;
    put_number_word(out, place as u64)?;
    put_number_word(out, part.moment())?;
    out.put(b" ")?;
    put_hex(out, part.body())?;
    out.put(b"\n")
}
