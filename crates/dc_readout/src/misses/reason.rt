//! The line on standard error that says why a readout failed.

ghost use Rattle.std.specs.Prelude.{◌≡◌, ◌++◌, codes};
ghost use Rattle.mbdc_io.specs.Written.{Wrote};
ghost use Rattle.dc_readout.specs.Reason.{has_none, line_of, number_after, owner_text, reason_line};
ghost use Rattle.dc_readout.specs.Reason.{reason_text, sentence_line};

use crate::misses::misses::Misses;
use crate::misses::text::put_misses;
use dc_address::Identity;
use mbdc_io::{IoFault, Sink, put_number};

/// Whose failed tries these are.
#[derive(Clone, Copy)]
pub enum Owner {
    /// A meter's, on the one bus of a command.
    Meter(Identity),
    /// Those at a primary address, on the one bus of a command.
    Address(u8),
    /// Those of the meters with a number, of eight digits in ASCII, on the one bus of a command.
    Number([u8; 8]),
    /// A meter's, on a bus line.
    OnLine {
        /// The line, from 1.
        line: u8,
        /// The meter.
        meter: Identity,
    },
}

/// Writes what the failed tries of a failed readout brought, as a line:
/// `mbdc: line 2: 12345678.PAD.01.07: 3 tries failed: 2 silent, 1 unreadable`. Where no try failed, it writes nothing:
/// the reason of the failure says all.
#[tactic(auto, unfolding(crate::specs::Reason::reason_text))]
pub fn put_reason<W: Sink>(out: &mut W, owner: &Owner, misses: &Misses) -> Result<(), IoFault>
    ensures { Wrote W.Sink result out.old out.new (reason_text owner.now misses.now) }
{
    if has_none(misses) {
        return Ok(());
    }
    put_line(out, owner, misses)
}

// Whether no try failed.
fn has_none(misses: &Misses) -> bool
    ensures { result ≡ has_none misses.now }
{
    misses.silent == 0 && misses.noise == 0 && misses.others == 0
}

#[tactic(auto, using(mbdc_io::proofs::Pieces::written), unfolding(crate::specs::Reason::reason_line))]
fn put_line<W: Sink>(out: &mut W, owner: &Owner, misses: &Misses) -> Result<(), IoFault>
    ensures { Wrote W.Sink result out.old out.new (reason_line owner.now misses.now) }
{
    out.put(b"mbdc: ")?;
    put_owner(out, owner)?;
    put_sentence_line(out, misses)
}

#[tactic(auto, using(mbdc_io::proofs::Pieces::written), unfolding(crate::specs::Reason::sentence_line))]
fn put_sentence_line<W: Sink>(out: &mut W, misses: &Misses) -> Result<(), IoFault>
    ensures { Wrote W.Sink result out.old out.new (sentence_line misses.now) }
{
    out.put(b": ")?;
    put_misses(out, misses)?;
    out.put(b"\n")
}

#[tactic(auto, using(mbdc_io::proofs::Pieces::written))]
fn put_owner<W: Sink>(out: &mut W, owner: &Owner) -> Result<(), IoFault>
    ensures { Wrote W.Sink result out.old out.new (owner_text owner.now) }
{
    match owner {
        Owner::Meter(meter) => out.put(&meter.text()),
        Owner::Address(address) => put_number_after(out, b"address ", *address),
        Owner::Number(digits) => out.put(digits),
        Owner::OnLine { line, meter } => put_on_line(out, *line, meter),
    }
}

#[tactic(auto, using(mbdc_io::proofs::Pieces::written), unfolding(crate::specs::Reason::line_of))]
fn put_on_line<W: Sink>(out: &mut W, line: u8, meter: &Identity) -> Result<(), IoFault>
    ensures { Wrote W.Sink result out.old out.new (line_of line meter.now) }
{
    put_number_after(out, b"line ", line)?;
    out.put(b": ")?;
    out.put(&meter.text())
}

#[tactic(auto, using(mbdc_io::proofs::Pieces::written), unfolding(crate::specs::Reason::number_after))]
fn put_number_after<W: Sink>(out: &mut W, before: &[u8], number: u8) -> Result<(), IoFault>
    ensures { Wrote W.Sink result out.old out.new (number_after before.now number) }
{
    out.put(before)?;
    put_number(out, u64::from(number))
}
