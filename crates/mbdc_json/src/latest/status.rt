//! The status byte of a meter in words (EN 13757-3, long data header).

ghost use Rattle.std.specs.Prelude.{◌≡◌};
ghost use Rattle.mbdc_io.specs.Written.{Wrote};
ghost use Rattle.mbdc_json.specs.LatestValues.{bit_words, byte_words, status_line};

use dc_records::names::application_name;
use mbdc_decode::tokens::{Piece, put_pieces};
use mbdc_io::{IoFault, Sink, put_byte_word};

// The words of a bit, where it is set.
#[tactic(auto, unfolding(crate::specs::LatestValues::bit_words))]
fn bit_words(bit: u8, words: &'static [u8]) -> &'static [u8]
    ensures { result.now ≡ bit_words bit words.now }
{
    if bit % 2 == 1 { words } else { b"" }
}

/// Writes what a status byte says.
#[tactic(auto, using(mbdc_io::proofs::Pieces::written), unfolding(crate::specs::LatestValues::byte_words, crate::specs::LatestValues::bits_words))]
pub(crate) fn put_byte_words<W: Sink>(out: &mut W, status: u8) -> Result<(), IoFault>
    ensures { Wrote W.Sink result out.old out.new (byte_words status) }
{
    put_pieces(
        out,
        &[
            Piece::Text(b" "),
            Piece::Text(application_name(status).as_bytes()),
            Piece::Text(bit_words(status / 4, b", power low")),
            Piece::Text(bit_words(status / 8, b", permanent error")),
            Piece::Text(bit_words(status / 16, b", temporary error")),
        ],
    )
}

/// Writes the line of a status byte, in hex and in words.
#[tactic(auto, using(mbdc_io::proofs::Pieces::written), unfolding(crate::specs::LatestValues::status_line))]
pub(crate) fn put_status<W: Sink>(out: &mut W, status: u8) -> Result<(), IoFault>
    ensures { Wrote W.Sink result out.old out.new (status_line status) }
{
    out.put(b"STATUS")?;
    put_byte_word(out, status)?;
    put_byte_words(out, status)?;
    out.put(b"\n")
}
