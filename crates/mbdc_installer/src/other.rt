//! Meters that answer with a frame of another CI than 72.
//!
//! Such a frame that comes twice, with nothing beside it, closes the wildcard that was selected: the search goes no
//! deeper there, and notes the frame. It hides no meter of CI 72: its CI has a bit that 72 lacks, and answers in step
//! come as their AND (EN 13757-2). A CI without such a bit, as an application error (70), may be the AND of several,
//! and is a collision. If no digit is open, any CI closes.

ghost use Rattle.std.specs.Prelude.{◌≡◌, ◌≢◌, ◌≤◌, true, false, Some, List, length};
ghost use Rattle.mbdc_installer.specs.Other.{Looks, closing, digits_of, format_of, is_closed, number_in};
ghost use Rattle.mbdc_installer.specs.Other.{other_line, others_text};
ghost use Rattle.mbdc_io.specs.Written.{Wrote};
ghost use Rattle.mbdc_installer.specs.declared.other.Other.{Other as Noted};

use crate::confirming::is_open;
use crate::primary::ask_data;
use dc_linkframe::control::{SELECTED, VARIABLE_DATA, is_rsp_ud};
use dc_linkframe::{Frame, parse};
use mbdc_bus::{AnswerBuf, Bus, bytes_of_noise};
use mbdc_decode::tokens::{Piece, put_pieces};
use mbdc_io::{IoFault, Sink, pair_of};

/// Maximum number of frames that are noted: more meters than a bus line has.
pub const MOST_OTHERS: usize = 250;

// CI of the fixed data structure, which begins with the meter's number.
const FIXED_DATA: u8 = 0x73;

/// What a response says of its meter that isn't CI 72.
#[derive(Clone, Copy, PartialEq, Default)]
pub struct Format {
    /// The CI.
    pub ci: u8,
    /// The number that the fixed data structure (CI 73) begins with: eight digits, the lowest two first.
    pub number: Option<[u8; 4]>,
}

/// A wildcard that a frame of another CI closed.
#[derive(Clone, Copy, Default)]
pub struct Other {
    /// The eight bytes of the selection.
    pub wire: [u8; 8],
    /// What came.
    pub format: Format,
}

/// What came of the request for data after a selection.
#[derive(Drop)]
pub(crate) enum Looked {
    /// A frame of another CI, twice.
    Closed(Format),
    /// Anything else.
    Kept(AnswerBuf),
}

/// A bus that notes which wildcards it closed.
pub trait Noting: Bus {
    ghost others: { Self → List Noted };

    /// The frames of another CI that came, in order.
    fn others(&self) -> &[Other]
        ensures { result.now ≡ others self.now };
}

/// Requests the data of whoever was selected by these eight bytes, and once more where a frame closes the wildcard.
pub(crate) fn look<B: Bus>(bus: &mut B, wire: &[u8; 8]) -> Looked
    ensures { Looks B.asks_all wire.now bus.old result bus.new }
{
    let first = ask_data(bus, SELECTED);
    let Some(format) = closing(wire, &first) else {
        return Looked::Kept(first);
    };
    let again = ask_data(bus, SELECTED);
    if is_from(wire, &again, &format) {
        Looked::Closed(format)
    } else {
        Looked::Kept(bytes_of_noise())
    }
}

/// Whether the wildcard of these eight bytes is closed.
pub(crate) fn is_closed(wire: &[u8; 8], others: &[Other]) -> bool
    ensures { result ≡ is_closed wire.now others.now }
{
    others.iter().any(|other| other.wire == *wire)
}

// What an answer says, if it closes the wildcard of these eight bytes.
fn closing(wire: &[u8; 8], answer: &AnswerBuf) -> Option<Format>
    ensures { result ≡ closing wire.now answer.now }
{
    let format = format_of(answer.as_slice())?;
    if format.ci & VARIABLE_DATA != format.ci || !is_open(wire, 7) {
        Some(format)
    } else {
        None
    }
}

// Whether an answer closes the wildcard, and says this.
fn is_from(wire: &[u8; 8], answer: &AnswerBuf, format: &Format) -> bool
    ensures yes { result ≡ true → closing wire.now answer.now ≡ Some format.now }
    ensures no { result ≡ false → closing wire.now answer.now ≢ Some format.now }
{
    match closing(wire, answer) {
        Some(other) => other == *format,
        None => false,
    }
}

/// What a response of another CI than 72 says of its meter.
#[tactic(auto, unfolding(crate::specs::Other::format_of))]
pub(crate) fn format_of(bytes: &[u8]) -> Option<Format>
    ensures { result ≡ format_of bytes.now }
{
    match parse(bytes) {
        Ok(
            Frame::Long {
                control,
                ci,
                body,
                ..
            },
        ) if is_rsp_ud(control) && ci != VARIABLE_DATA => Some(Format {
            ci,
            number: number_in(ci, body),
        }),
        _ => None,
    }
}

// The number that a body of the fixed data structure begins with.
fn number_in(ci: u8, body: &[u8]) -> Option<[u8; 4]>
    ensures { result ≡ number_in ci body.now }
{
    if ci != FIXED_DATA {
        return None;
    }
    let (number, _) = body.split_first_chunk::<4>()?;
    Some(*number)
}

// ---- texts

/// Prints each wildcard that was closed: `OTHER 12FFFFFF CI 78`, and of CI 73 the number that was sent.
#[tactic(auto, using(mbdc_io::proofs::Pieces::written))]
pub(crate) fn put_others<W: Sink>(others: &[Other], out: &mut W) -> Result<(), IoFault>
    ensures { Wrote W.Sink result out.old out.new (others_text others.now) }
{
    let Some((other, rest)) = others.split_first() else {
        return Ok(());
    };
    put_other(other, out)?;
    put_others(rest, out)
}

/// Prints a wildcard that was closed.
pub(crate) fn put_other<W: Sink>(other: &Other, out: &mut W) -> Result<(), IoFault>
    ensures { Wrote W.Sink result out.old out.new (other_line other.now) }
{
    let digits = digits_of(&other.wire);
    let ci = pair_of(other.format.ci);
    match &other.format.number {
        Some(number) => put_pieces(
            out,
            &[
                Piece::Text(b"OTHER "),
                Piece::Text(&digits),
                Piece::Text(b" CI "),
                Piece::Text(&ci),
                Piece::Text(b" "),
                Piece::Text(&digits_of(number)),
                Piece::Text(b"\n"),
            ],
        ),
        None => put_pieces(
            out,
            &[
                Piece::Text(b"OTHER "),
                Piece::Text(&digits),
                Piece::Text(b" CI "),
                Piece::Text(&ci),
                Piece::Text(b"\n"),
            ],
        ),
    }
}

/// The eight digits of four bytes, the last byte first: F is a wildcard.
#[tactic(auto, unfolding(crate::specs::Other::digits_of))]
pub(crate) fn digits_of(bytes: &[u8]) -> [u8; 8]
    requires { 4 ≤ length bytes.now }
    ensures { result ≡ digits_of bytes.now }
{
    let [first, second] = pair_of(bytes[3]);
    let [third, fourth] = pair_of(bytes[2]);
    let [fifth, sixth] = pair_of(bytes[1]);
    let [seventh, eighth] = pair_of(bytes[0]);
    [first, second, third, fourth, fifth, sixth, seventh, eighth]
}
