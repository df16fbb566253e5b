//! Writes the contents of an image as text.

ghost use Rattle.std.specs.Prelude.{◌≡◌, ◌≤◌, option_map};
ghost use Rattle.mbdc_io.specs.Written.{Wrote};
ghost use Rattle.mbdc_log.specs.Halves.{half_start, half_end, longest_half};
ghost use Rattle.mbdc_decode.specs.Pieces.{piece_text};
ghost use Rattle.mbdc_looks.specs.Look.{IsPlaced, seen_of};
ghost use Rattle.mbdc_looks.specs.Text.{image_text, number_line, place_text};
ghost use Rattle.mbdc_looks.specs.Text.{refused_line, seen_text, serial_word, slot_line, summary_text};

use crate::look::{Look, Slots};
use crate::summary::{Summary, summary_of};
use dc_meters::House;
use dc_roots::Held;
use mbdc_decode::tokens::{Piece, put_pieces};
use mbdc_io::{IoFault, Sink};
use mbdc_log::{Found, OpenFault, half_end, half_start};
use std::alloc::Allocator;

/// Writes a line of a name and a number.
#[tactic(auto, unfolding(crate::specs::Text::number_line))]
pub(crate) fn put_number_line<W: Sink>(out: &mut W, name: &[u8], number: u64) -> Result<(), IoFault>
    ensures { Wrote W.Sink result out.old out.new (number_line name.now number) }
{
    put_pieces(
        out,
        &[Piece::Text(name), Piece::Word(number), Piece::Text(b"\n")],
    )
}

// Writes the line of a root slot.
#[tactic(auto, unfolding(crate::specs::Text::slot_line))]
fn put_slot<W: Sink>(out: &mut W, slot: u8, held: &Held) -> Result<(), IoFault>
    ensures { Wrote W.Sink result out.old out.new (slot_line slot held.now) }
{
    let slot = u64::from(slot);
    match held {
        Held::Valid(root) => put_pieces(
            out,
            &[
                Piece::Text(b"ROOT"),
                Piece::Word(slot),
                Piece::Word(u64::from(root.version)),
                Piece::Word(root.generation),
                Piece::Word(root.session),
                Piece::Word(u64::from(root.half)),
                Piece::Text(b"\n"),
            ],
        ),
        Held::Other => put_pieces(
            out,
            &[
                Piece::Text(b"ROOT"),
                Piece::Word(slot),
                Piece::Text(b" NONE\n"),
            ],
        ),
        Held::Lost => put_pieces(
            out,
            &[
                Piece::Text(b"ROOT"),
                Piece::Word(slot),
                Piece::Text(b" UNREADABLE\n"),
            ],
        ),
    }
}

// Writes the place of the groups that lead to the state.
#[tactic(auto, unfolding(crate::specs::Text::place_text))]
fn put_place<A: Allocator + Copy, W: Sink>(
    out: &mut W,
    half_len: u32,
    found: &Found<House<A>>,
) -> Result<(), IoFault>
    requires most { half_len ≤ longest_half }
    requires half { found.now.root.half ≤ 1 }
    requires from { half_start half_len found.now.root.half ≤ found.now.place }
    requires within { found.now.place ≤ half_end half_len found.now.root.half }
    ensures { Wrote W.Sink result out.old out.new
        (place_text half_len found.now.root found.now.last found.now.place) }
{
    let Found {
        root,
        place,
        last,
        ..
    } = found;
    let used = *place - half_start(half_len, root.half);
    let free = half_end(half_len, root.half) - *place;
    put_pieces(
        out,
        &[
            Piece::Text(b"VERSION"),
            Piece::Word(u64::from(root.version)),
            Piece::Text(b"\nHALF"),
            Piece::Word(u64::from(root.half)),
            Piece::Text(b"\nGROUPS"),
            Piece::Word(last.saturating_sub(root.base_sequence)),
            Piece::Text(b"\nSECTORS"),
            Piece::Word(u64::from(used)),
            Piece::Word(u64::from(free)),
            Piece::Text(b"\n"),
        ],
    )
}

// The word of a serial, if there is one.
fn serial_piece(serial: Option<u64>) -> Piece<'static>
    ensures { piece_text result ≡ serial_word serial }
{
    match serial {
        Some(serial) => Piece::Word(serial),
        None => Piece::Text(b""),
    }
}

// Writes the summary of a state.
#[tactic(auto, unfolding(crate::specs::Text::summary_text))]
fn put_summary<W: Sink>(out: &mut W, sum: &Summary) -> Result<(), IoFault>
    ensures { Wrote W.Sink result out.old out.new (summary_text sum.now) }
{
    put_pieces(
        out,
        &[
            Piece::Text(b"SIZE"),
            Piece::Word(u64::from(sum.size)),
            Piece::Word(u64::from(sum.budget)),
            Piece::Text(b"\nMETERS"),
            Piece::Word(sum.meters as u64),
            Piece::Text(b"\nREADINGS"),
            Piece::Word(sum.readings as u64),
            serial_piece(sum.first),
            serial_piece(sum.last),
            Piece::Text(b"\nMARK"),
            Piece::Word(sum.confirmed),
            Piece::Text(b"\nCOMMAND"),
            Piece::Word(sum.command),
            Piece::Text(b"\n"),
        ],
    )
}

/// Writes why an image doesn't open.
#[tactic(auto, unfolding(crate::specs::Text::refused_line))]
pub(crate) fn put_refused_line<W: Sink>(out: &mut W, fault: OpenFault) -> Result<(), IoFault>
    ensures { Wrote W.Sink result out.old out.new (refused_line fault) }
{
    let number = u64::from(fault.number());
    match fault {
        OpenFault::Damaged(sector) => put_pieces(
            out,
            &[
                Piece::Text(b"REFUSED"),
                Piece::Word(number),
                Piece::Text(b" "),
                Piece::Text(fault.name().as_bytes()),
                Piece::Word(u64::from(sector)),
                Piece::Text(b"\n"),
            ],
        ),
        _ => put_pieces(
            out,
            &[
                Piece::Text(b"REFUSED"),
                Piece::Word(number),
                Piece::Text(b" "),
                Piece::Text(fault.name().as_bytes()),
                Piece::Text(b"\n"),
            ],
        ),
    }
}

// Writes the state that an image reads as, if it reads.
#[tactic(auto, using(mbdc_io::proofs::Pieces::written))]
fn put_found<A: Allocator + Copy, W: Sink>(
    out: &mut W,
    half_len: u32,
    found: &Option<Found<House<A>>>,
) -> Result<(), IoFault>
    requires most { half_len ≤ longest_half }
    requires placed { IsPlaced half_len found.now }
    ensures { Wrote W.Sink result out.old out.new
        (seen_text half_len (option_map seen_of found.now)) }
{
    match found {
        None => Ok(()),
        Some(found) => {
            put_place(out, half_len, found)?;
            put_summary(out, &summary_of(&found.house))
        }
    }
}

/// Writes the text of an image after the line of its disk.
#[tactic(auto, using(mbdc_io::proofs::Pieces::written), unfolding(crate::specs::Text::image_text))]
pub(crate) fn put_image<A: Allocator + Copy, W: Sink>(
    out: &mut W,
    half_len: u32,
    slots: &Slots,
    look: &Look<A>,
) -> Result<(), IoFault>
    requires most { half_len ≤ longest_half }
    requires placed { IsPlaced half_len look.now.found }
    ensures { Wrote W.Sink result out.old out.new
        (image_text half_len slots.now.first slots.now.second
        (option_map seen_of look.now.found) look.now.outlook) }
{
    put_slot(out, 1, &slots.first)?;
    put_slot(out, 2, &slots.second)?;
    put_found(out, half_len, &look.found)?;
    match look.outlook.ahead {
        Some(sector) => put_number_line(out, b"AHEAD", u64::from(sector))?,
        None => {}
    }
    match look.outlook.refusal {
        Some(fault) => put_refused_line(out, fault),
        None => Ok(()),
    }
}
