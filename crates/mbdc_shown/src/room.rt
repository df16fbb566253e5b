//! How many more readings an image has room for.

ghost use Rattle.std.specs.Prelude.{◌≡◌};
ghost use Rattle.mbdc_io.specs.Written.{Wrote};
ghost use Rattle.mbdc_shown.specs.Room.{bytes_a_reading, number_line, readings_left};

use dc_meters::House;
use mbdc_decode::tokens::{Piece, put_pieces};
use mbdc_io::{IoFault, Sink};
use std::alloc::Allocator;

/// The size of a register without meters and readings.
pub const EMPTY: u32 = 153;

// The number of bytes that a reading takes, of those that are held; 0 where none is.
fn bytes_a_reading<A: Allocator + Copy>(house: &House<A>) -> u64
    ensures { result ≡ bytes_a_reading house.now.state }
{
    let held = house.readings().len() as u64;
    if held == 0 {
        return 0;
    }
    u64::from(house.size() - EMPTY) / held
}

/// How many more readings of the size of those that are held there is room for; none where none is held.
pub fn readings_left<A: Allocator + Copy>(house: &House<A>) -> Option<u64>
    ensures { result ≡ readings_left house.now.budget house.now.state }
{
    let each = bytes_a_reading(house);
    if each == 0 {
        return None;
    }
    Some(u64::from(house.budget() - house.size()) / each)
}

/// Writes a number after its name, a line.
#[tactic(auto, unfolding(crate::specs::Room::number_line))]
pub fn put_number<W: Sink>(
    out: &mut W,
    name: &'static [u8],
    number: Option<u64>,
) -> Result<(), IoFault>
    ensures { Wrote W.Sink result out.old out.new (number_line name.now number) }
{
    match number {
        Some(number) => put_pieces(
            out,
            &[Piece::Text(name), Piece::Word(number), Piece::Text(b"\n")],
        ),
        None => put_pieces(out, &[Piece::Text(name), Piece::Text(b" NONE\n")]),
    }
}
