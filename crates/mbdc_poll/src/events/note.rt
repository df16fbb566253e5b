//! The lines of an image's journal: the events of a poll, and the commands that were done.

ghost use Rattle.mbdc_io.specs.Written.{Wrote};
ghost use Rattle.mbdc_poll.specs.Note.{command_note, note_of};

use crate::Event;
use mbdc_decode::objects::{Cell, put_line};
use mbdc_decode::tokens::{Piece, put_pieces};
use mbdc_io::{IoFault, Sink};

/// Takes the events of a poll beside its output. What becomes of them changes nothing of the poll.
pub trait Notes {
    /// Takes the next event.
    fn note(&mut self, event: &Event<'_>);
}

/// Writes the journal's line of an event with this object ([`put_object`](crate::events::put_object)), at this second
/// since 1970, of a meter in this flat; an empty flat is left out.
#[tactic(auto, using(std::proofs::lemmas::List::drop_min), unfolding(crate::specs::Note::note_of))]
pub fn put_note<'t, W: Sink>(
    out: &mut W,
    at: u64,
    flat: &'t [u8],
    object: &'t [u8],
) -> Result<(), IoFault>
    ensures { Wrote W.Sink result out.old out.new (note_of at flat.now object.now) }
{
    // The object's first byte is its bracket.
    let (_, members) = object.split_at(1_usize.min(object.len()));
    if flat.is_empty() {
        put_pieces(
            out,
            &[
                Piece::Text(b"{\"at\":"),
                Piece::Number(at),
                Piece::Text(b","),
                Piece::Text(members),
            ],
        )
    } else {
        put_pieces(
            out,
            &[
                Piece::Text(b"{\"at\":"),
                Piece::Number(at),
                Piece::Text(b",\"flat\":\""),
                Piece::Text(flat),
                Piece::Text(b"\","),
                Piece::Text(members),
            ],
        )
    }
}

/// Writes the journal's line of a command that was done, at this second since 1970: its number and its line.
#[tactic(auto, unfolding(crate::specs::Note::command_note))]
pub fn put_command_note<W: Sink>(
    out: &mut W,
    at: u64,
    number: u64,
    line: &[u8],
) -> Result<(), IoFault>
    ensures { Wrote W.Sink result out.old out.new (command_note at number line.now) }
{
    put_line(
        out,
        &[
            Cell::Number("at", at),
            Cell::Text("event", b"command"),
            Cell::Number("number", number),
            Cell::Text("line", line),
        ],
    )
}
