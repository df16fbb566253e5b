//! The events of a poll as text.

ghost use Rattle.mbdc_io.specs.Written.{Wrote};
ghost use Rattle.mbdc_poll.specs.Text.{failed_line, line_of, refused_line, why_end};

use crate::{Event, Refusal};
use dc_address::Identity;
use dc_readout::Why;
use mbdc_decode::tokens::Piece::{Text, Word};
use mbdc_decode::tokens::put_pieces;
use mbdc_io::{IoFault, Sink};

/// Writes the line of an event:
///
/// | event | line |
/// |---|---|
/// | read | `READ ident serial parts` |
/// | failed | `FAILED ident n Name` |
/// | refused | `REFUSED ident n Name` |
/// | lost | `LINE n LOST` |
/// | late | `LATE line n` |
/// | end | `END read failed` |
pub fn put_line<W: Sink>(out: &mut W, event: &Event<'_>) -> Result<(), IoFault>
    ensures { Wrote W.Sink result out.old out.new (line_of event.now) }
{
    match event {
        Event::Read {
            meter,
            serial,
            bodies,
            ..
        } => put_pieces(
            out,
            &[
                Text(b"READ "),
                Text(&meter.text()),
                Word(*serial),
                Word(bodies.len() as u64),
                Text(b"\n"),
            ],
        ),
        Event::Failed { meter, why, .. } => put_failed(out, meter, *why),
        Event::Refused { meter, refusal } => put_refused(out, meter, *refusal),
        Event::Lost { line } => put_pieces(
            out,
            &[Text(b"LINE"), Word(u64::from(*line)), Text(b" LOST\n")],
        ),
        Event::Late { line, answers } => put_pieces(
            out,
            &[
                Text(b"LATE"),
                Word(u64::from(*line)),
                Word(*answers),
                Text(b"\n"),
            ],
        ),
        Event::End { read, failed } => put_pieces(
            out,
            &[Text(b"END"), Word(*read), Word(*failed), Text(b"\n")],
        ),
    }
}

// Writes the line of a failed readout; after a fault of content stands the fault of the body.
#[tactic(auto, using(mbdc_io::proofs::Pieces::written), unfolding(crate::specs::Text::failed_line))]
fn put_failed<W: Sink>(out: &mut W, meter: &Identity, why: Why) -> Result<(), IoFault>
    ensures { Wrote W.Sink result out.old out.new (failed_line meter.now why) }
{
    put_pieces(
        out,
        &[
            Text(b"FAILED "),
            Text(&meter.text()),
            Word(u64::from(why.number())),
            Text(b" "),
        ],
    )?;
    put_why_end(out, why)
}

// Writes the name of what failed, and of a fault of content the fault of the body.
#[tactic(auto, unfolding(crate::specs::Text::why_end))]
fn put_why_end<W: Sink>(out: &mut W, why: Why) -> Result<(), IoFault>
    ensures { Wrote W.Sink result out.old out.new (why_end why) }
{
    let name = why.name().as_bytes();
    match why {
        Why::Content(fault) => put_pieces(
            out,
            &[
                Text(name),
                Word(u64::from(fault.number())),
                Text(b" "),
                Text(fault.name().as_bytes()),
                Text(b"\n"),
            ],
        ),
        _ => put_pieces(out, &[Text(name), Text(b"\n")]),
    }
}

// Writes the line of a meter that was refused.
#[tactic(auto, using(mbdc_io::proofs::Pieces::written), unfolding(crate::specs::Text::refused_line))]
fn put_refused<W: Sink>(out: &mut W, meter: &Identity, refusal: Refusal) -> Result<(), IoFault>
    ensures { Wrote W.Sink result out.old out.new (refused_line meter.now refusal) }
{
    let (number, name) = refusal.code();
    put_pieces(
        out,
        &[
            Text(b"REFUSED "),
            Text(&meter.text()),
            Word(u64::from(number)),
            Text(b" "),
        ],
    )?;
    put_pieces(out, &[Text(name.as_bytes()), Text(b"\n")])
}
