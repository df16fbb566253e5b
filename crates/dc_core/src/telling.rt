//! Writes the line of text of each answer.

ghost use Rattle.std.specs.Prelude.{◌≡◌, ◌++◌, codes};
ghost use Rattle.mbdc_io.specs.Written.{Wrote};
ghost use Rattle.mbdc_io.specs.Words.{fault_text};
ghost use Rattle.dc_core.specs.declared.line_heard.LineHeard.TheVariants.{Accepted};
ghost use Rattle.dc_core.specs.Text.{started_text, asked_text, failed_text, line_text, heard_text};
ghost use Rattle.dc_core.specs.Text.{committed_text, refused_text};

use crate::{CommitFault, HearFault, LineHeard, StartFault};
use dc_linkframe::FrameBuf;
use dc_readout::Why;
use mbdc_io::{IoFault, Sink, put_fault, put_fault_line, put_hex, put_number_word};

fn put_refused<W: Sink>(out: &mut W, number: u8, name: &str) -> Result<(), IoFault>
    ensures { Wrote W.Sink result out.old out.new (refused_text number name.now) }
{
    put_fault_line(out, b"REFUSED", number, name)
}

/// Writes the line of the answer to [`Concentrator::start`](crate::Concentrator::start).
pub fn put_started<W: Sink>(out: &mut W, answer: Result<(), StartFault>) -> Result<(), IoFault>
    ensures { Wrote W.Sink result out.old out.new (started_text answer) }
{
    match answer {
        Ok(()) => out.put(b"STARTED\n"),
        Err(fault) => put_refused(out, fault.number(), fault.name()),
    }
}

/// Writes the line of the answer to [`Concentrator::ask`](crate::Concentrator::ask).
#[tactic(auto, using(mbdc_io::proofs::Pieces::written))]
pub fn put_asked<W: Sink>(out: &mut W, answer: Option<FrameBuf>) -> Result<(), IoFault>
    ensures { Wrote W.Sink result out.old out.new (asked_text answer) }
{
    let Some(request) = answer else {
        return out.put(b"NONE\n");
    };
    out.put(b"SEND ")?;
    put_hex(out, request.as_slice())?;
    out.put(b"\n")
}

#[tactic(auto, using(mbdc_io::proofs::Pieces::written), unfolding(mbdc_io::specs::Words::fault_line))]
fn put_failed<W: Sink>(out: &mut W, why: Why) -> Result<(), IoFault>
    ensures { Wrote W.Sink result out.old out.new (failed_text why) }
{
    let Why::Content(fault) = why else {
        return put_fault_line(out, b"FAILED", why.number(), why.name());
    };
    put_failure(out, why.number(), why.name())?;
    put_fault_line(out, b"", fault.number(), fault.name())
}

#[tactic(auto, using(mbdc_io::proofs::Pieces::written))]
fn put_failure<W: Sink>(out: &mut W, number: u8, name: &str) -> Result<(), IoFault>
    ensures { Wrote W.Sink result out.old out.new
        (codes "FAILED " ++ fault_text number name.now) }
{
    out.put(b"FAILED ")?;
    put_fault(out, number, name)
}

#[tactic(auto, using(mbdc_io::proofs::Pieces::written))]
fn put_part<W: Sink>(out: &mut W, part: u8, more: bool) -> Result<(), IoFault>
    ensures { Wrote W.Sink result out.old out.new
        (line_text (Accepted part more)) }
{
    out.put(b"PART")?;
    put_number_word(out, u64::from(part))?;
    if more {
        out.put(b" MORE\n")
    } else {
        out.put(b" LAST\n")
    }
}

/// Writes the line of the answer to [`Concentrator::hear`](crate::Concentrator::hear).
pub fn put_heard<W: Sink>(out: &mut W, answer: Result<LineHeard, HearFault>) -> Result<(), IoFault>
    ensures { Wrote W.Sink result out.old out.new (heard_text answer) }
{
    match answer {
        Ok(LineHeard::Again) => out.put(b"AGAIN\n"),
        Ok(LineHeard::Ready) => out.put(b"READY\n"),
        Ok(LineHeard::Accepted { part, more }) => put_part(out, part, more),
        Ok(LineHeard::Failed(why)) => put_failed(out, why),
        Err(fault) => put_refused(out, fault.number(), fault.name()),
    }
}

/// Writes the line of the answer to [`Concentrator::commit`](crate::Concentrator::commit).
#[tactic(auto, using(mbdc_io::proofs::Pieces::written))]
pub fn put_committed<W: Sink>(
    out: &mut W,
    answer: Result<usize, CommitFault>,
) -> Result<(), IoFault>
    ensures { Wrote W.Sink result out.old out.new (committed_text answer) }
{
    let count = match answer {
        Ok(count) => count,
        Err(fault) => return put_refused(out, fault.number(), fault.name()),
    };
    out.put(b"COMMITTED")?;
    put_number_word(out, count as u64)?;
    out.put(b"\n")
}
