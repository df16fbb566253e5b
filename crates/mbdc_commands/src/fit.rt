//! The commands `fit`, `swap`, `move` and `out` over an image that is open.

ghost use Rattle.std.specs.Prelude.{◌≡◌, is_some};
ghost use Rattle.mbdc_ending.specs.Unopened.{Stands};
ghost use Rattle.mbdc_io.specs.Written.{Wrote};
ghost use Rattle.mbdc_commands.specs.FitOver.{FitEnds, FitsOver, commit_fault, outcome_text};
ghost use Rattle.mbdc_commands.specs.Guard.{Guards};

use crate::guard::guarded;
use crate::known::Known;
use crate::known_sink::{KnownSink, is_written_out};
use dc_core::CommitFault;
use dc_poller::CommandNotes;
use dc_sectors::Disk;
use mbdc_change::Command;
use mbdc_ending::{Ending, STREAM};
use mbdc_fit::list::{Plan, Wish};
use mbdc_fit::{FitFault, fit_on};
use mbdc_io::{IoFault, Sink};
use mbdc_log::{OpenFault, StoreFault};
use std::alloc::Global;
use std::io::{LineWriter, Write};
use std::marker::Brand;

/// Looks at the image, adds the meters of a list to its register or does one command, notes what was done, then prints
/// it, and says how that ended. No clause names the notes, since all that is promised here holds whatever becomes of
/// them.
pub fn fit_over<'a, D, O, N>(
    alloc: Global,
    disk: D,
    wish: &Wish<'_>,
    out: O,
    notes: &mut N,
) -> (D, Ending<'a>)
where
    D: Disk + Drop,
    O: Write + Drop,
    N: CommandNotes,
    // All that is asked is done or nothing of it, whatever became of the image before.
    ensures { Guards D.Disk disk result.0 result.1 (λ ready.
        FitsOver D.Disk wish.now O.contents out ready result.0 result.1) }
{
    let mut disk = disk;
    match guarded(alloc, &mut disk) {
        Ok(()) => {}
        Err(ending) => return (disk, ending),
    }
    fit_printed::<D, O, N, Brand>(alloc, disk, wish, out, notes)
}

// Does what is asked, notes it, and then prints what comes of it.
fn fit_printed<'a, D, O, N, K>(
    alloc: Global,
    disk: D,
    wish: &Wish<'_>,
    out: O,
    notes: &mut N,
) -> (D, Ending<'a>)
where
    D: Disk + Drop,
    O: Write + Drop,
    N: CommandNotes,
    K: Known,
    requires known { K.writes ≡ is_some (O.contents out) }
    requires stands { Stands D.Disk disk }
    ensures { FitsOver D.Disk wish.now O.contents out disk result.0 result.1 }
{
    let Ok(out) = LineWriter::new(alloc, out) else {
        return (disk, Ending::Memory);
    };
    let mut out: KnownSink<LineWriter<O>, K> = KnownSink::new(out);
    let (disk, outcome) = fit_on(alloc, disk, wish);
    // The commands that were done are those of a plan in which nothing is wrong.
    if let Ok(plan) = &outcome
        && !plan.is_wrong()
    {
        for line in plan.commands() {
            if let Some(done) = Command::parse_line(line.as_slice()) {
                notes.note(&done);
            }
        }
    }
    // What isn't put is known by the sink, too.
    let _ = put_outcome(&outcome, &mut out);
    let is_printed = is_written_out(out);
    (disk, fit_ending(&outcome, is_printed))
}

// Writes what was done or what is wrong; nothing where the image wasn't opened or written.
fn put_outcome<W: Sink>(
    outcome: &Result<Plan<Global>, FitFault>,
    out: &mut W,
) -> Result<(), IoFault>
    ensures { Wrote W.Sink result out.old out.new (outcome_text outcome.now) }
{
    match outcome {
        Ok(plan) => plan.print(out),
        Err(_) => Ok(()),
    }
}

// The ending of `fit`, by its outcome and by whether all was printed.
fn fit_ending<'a>(outcome: &Result<Plan<Global>, FitFault>, is_printed: bool) -> Ending<'a>
    ensures { FitEnds outcome.now is_printed result }
{
    match outcome {
        Ok(_) if !is_printed => Ending::File(STREAM),
        Ok(plan) if plan.is_wrong() => Ending::Faulty,
        Ok(_) => Ending::Clean,
        Err(FitFault::NoMemory | FitFault::Open(OpenFault::NoMemory)) => Ending::Memory,
        Err(FitFault::Open(fault)) => Ending::Open(*fault),
        Err(FitFault::Disk(fault)) => Ending::Disk(commit_fault(*fault)),
    }
}

/// A fault of the store as that of a commit.
pub(crate) fn commit_fault(fault: StoreFault) -> CommitFault
    ensures { result ≡ commit_fault fault }
{
    match fault {
        StoreFault::Device => CommitFault::Device,
        StoreFault::Worn => CommitFault::Worn,
        StoreFault::Stopped => CommitFault::Stopped,
    }
}
