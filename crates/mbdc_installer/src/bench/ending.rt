//! How a command over a bus ends.

ghost use Rattle.std.specs.Prelude.{◌≡◌, ◌++◌, OnOk, OnErr};
ghost use Rattle.mbdc_io.specs.Failures.{HasRisen};
ghost use Rattle.mbdc_io.specs.Written.{PutsInto, Wrote};
ghost use Rattle.mbdc_installer.specs.Command.{fault_of, late_in};
ghost use Rattle.mbdc_installer.specs.Ending.{EndsOver, late_text};
ghost use Rattle.mbdc_installer.specs.Other.{others_text};

use crate::bench::command::{Done, Work};
use crate::bench::printer::Printer;
use crate::bench::progress::Progress;
use crate::other::{Other, put_others};
use crate::{Addressing, Readout, ScanFault};
use mbdc_bus::Bus;
use mbdc_decode::tokens::{Piece, put_pieces};
use mbdc_ending::{Ending, STREAM};
use mbdc_io::{IoFault, Sink};
use std::rt::Clock;

/// Prints last the wildcards that were closed, and how often bytes came that nothing on the bus could have sent. Writes
/// out what is held back.
#[tactic(auto, using(mbdc_io::proofs::Pieces::written))]
pub(crate) fn finish<W: Printer>(others: &[Other], late: u64, out: &mut W) -> Result<(), IoFault>
    ensures text { OnOk result (PutsInto W.Sink out.old out.new (others_text others.now ++ late_text late)) }
    ensures failed { OnErr result (HasRisen (W.put_failures out.old) (W.put_failures out.new)) }
{
    put_others(others, out)?;
    put_late(late, out)?;
    out.flush()
}

#[tactic(auto, unfolding(crate::specs::Ending::late_line))]
fn put_late<W: Sink>(late: u64, out: &mut W) -> Result<(), IoFault>
    ensures { Wrote W.Sink result out.old out.new (late_text late) }
{
    match late {
        0 => Ok(()),
        _ => put_pieces(
            out,
            &[Piece::Text(b"LATE"), Piece::Word(late), Piece::Text(b"\n")],
        ),
    }
}

/// How often late bytes came: those of a search at primary addresses count, unless the bus was lost, and is silent.
pub(crate) fn late_in<B: Bus>(bus: &B, done: &Done) -> u64
    ensures { result ≡ late_in (B.lost bus.now) (B.late bus.now) done.now }
{
    match done {
        Done::Asked(late) if !bus.is_lost() => bus.late().saturating_add(*late),
        _ => bus.late(),
    }
}

/// The ending of a command, by what came of it. Says on standard error what is to be known of that, unless the bus was
/// lost, which comes before a fault.
pub(crate) fn conclude<'a, R: Clock + Eprint, B: Bus>(
    work: &Work,
    outcome: &Result<Done, ScanFault>,
    bus: &B,
    progress: &Progress<'_, R>,
) -> Ending<'a>
    ensures { EndsOver (B.lost bus.now) (fault_of (B.late bus.now) outcome.now) result }
{
    let done = match outcome {
        Ok(done) => done,
        Err(ScanFault::Write) => return Ending::File(STREAM),
        Err(ScanFault::NoMemory) => return Ending::Memory,
    };
    if bus.is_lost() {
        return Ending::Gateway;
    }
    progress.remark(work, done);
    match done {
        Done::Searched(_) | Done::Asked(_) if late_in(bus, done) != 0 => Ending::Faulty,
        Done::ReadOut(Readout::Failed(_)) => Ending::Faulty,
        Done::Searched(_) | Done::Asked(_) | Done::ReadOut(Readout::Whole) => Ending::Clean,
        Done::Addressed(Addressing::Set(_)) => Ending::Clean,
        Done::Addressed(_) => Ending::Faulty,
    }
}
