//! A row of text: its pieces, one after the other.

ghost use Rattle.mbdc_io.specs.Written.{Wrote};
ghost use Rattle.mbdc_decode.specs.Pieces.{piece_text, pieces_text};

use mbdc_io::{IoFault, Sink, put_number, put_number_word};

/// A piece of a row of text.
#[derive(Clone, Copy)]
pub enum Piece<'a> {
    /// A text, given as its bytes.
    Text(&'a [u8]),
    /// A number in decimal.
    Number(u64),
    /// A space and a number in decimal.
    Word(u64),
}

// Writes a piece.
fn put_piece<W: Sink>(out: &mut W, piece: &Piece<'_>) -> Result<(), IoFault>
    ensures { Wrote W.Sink result out.old out.new (piece_text piece.now) }
{
    match piece {
        Piece::Text(text) => out.put(text),
        Piece::Number(number) => put_number(out, *number),
        Piece::Word(number) => put_number_word(out, *number),
    }
}

/// Writes the pieces of a row, one after the other.
pub fn put_pieces<W: Sink>(out: &mut W, pieces: &[Piece<'_>]) -> Result<(), IoFault>
    ensures { Wrote W.Sink result out.old out.new (pieces_text pieces.now) }
{
    match pieces {
        [] => Ok(()),
        [piece, rest @ ..] => {
            put_piece(out, piece)?;
            put_pieces(out, rest)
        }
    }
}
