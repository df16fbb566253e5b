//! The command `run` over an image and buses that are open.

ghost use Rattle.std.specs.Prelude.{◌≡◌, Bool, IsErrOf, IsTrue, Result, is_some};
ghost use Rattle.std.specs.Io.Buffered.{line_writer_contents};
ghost use Rattle.std.specs.Io.KnownBytes.{Keeps};
ghost use Rattle.dc_poller.specs.Link.{link_of};
ghost use Rattle.mbdc_commands.specs.Guard.{Guards};
ghost use Rattle.mbdc_ending.specs.Outcome.{EndsAs};
ghost use Rattle.mbdc_ending.specs.declared.fault.ProgramFault.{ProgramFault};
ghost use Rattle.mbdc_ending.specs.Unopened.{Stands};
ghost use Rattle.mbdc_commands.specs.RunOver.{OverGateway, RunsOver};

use crate::ending::run_result;
use crate::guard::guarded;
use crate::known::Known;
use crate::known_sink::{KnownSink, is_written_out};
use crate::known_source::KnownSource;
use dc_poller::{CommandNotes, run_script_over};
use dc_sectors::Disk;
use mbdc_bus::Bus;
use mbdc_ending::{Ending, ProgramFault};
use mbdc_files::Why;
use std::alloc::Global;
use std::io::{LineWriter, Read, Write};
use std::marker::Brand;

/// Looks at the image, runs the lines of a file over it, with its gateway, and says how that ended. Each
/// line of text is printed as it is whole: a readout takes seconds, and what was committed is printed also where the
/// run is killed later. Each command that is done is noted; no clause names the notes, since all that is promised here
/// holds whatever becomes of them.
pub fn run_over<'a, D, F, O, B, N>(
    alloc: Global,
    why: &Why,
    disk: D,
    lines: F,
    out: O,
    gateway: &mut Option<B>,
    notes: &mut N,
    script: &'a str,
) -> (D, Ending<'a>)
where
    D: Disk + Drop,
    F: Read + Drop,
    O: Write + Drop,
    B: Bus + Drop,
    N: CommandNotes,
    // One run of the script, whatever became of the image before, gives the disk, the text, the traffic and the ending.
    ensures { Guards D.Disk disk result.0 result.1 (λ ready.
        (ran : Result Bool ProgramFault) × EndsAs ran script.now result.1
        × RunsOver D.Disk (link_of B.lost gateway.old) (F.remaining lines)
        (OverGateway B.lost B.asks gateway.old gateway.new) O.contents out ready result.0 ran) }
{
    let mut disk = disk;
    match guarded(alloc, &mut disk) {
        Ok(()) => {}
        Err(ending) => return (disk, ending),
    }
    let (disk, outcome) = run_lines::<D, F, O, B, N, Brand>(
        alloc, disk, lines, out, gateway, notes,
    );
    (disk, why.ended(outcome, script))
}

// Runs the lines, of which contracts know the bytes where they know the reader's.
fn run_lines<D, F, O, B, N, K>(
    alloc: Global,
    disk: D,
    lines: F,
    out: O,
    gateway: &mut Option<B>,
    notes: &mut N,
) -> (D, Result<bool, ProgramFault>)
where
    D: Disk + Drop,
    F: Read + Drop,
    O: Write + Drop,
    B: Bus + Drop,
    N: CommandNotes,
    K: Known,
    requires reads { K.reads ≡ is_some (F.remaining lines) }
    requires writes { K.writes ≡ is_some (O.contents out) }
    requires stands { Stands D.Disk disk }
    ensures { RunsOver D.Disk (link_of B.lost gateway.old) (F.remaining lines)
        (OverGateway B.lost B.asks gateway.old gateway.new) O.contents out
        disk result.0 result.1 }
{
    let Ok(out) = LineWriter::new(alloc, out) else {
        return (disk, Err(ProgramFault::NoMemory));
    };
    let mut reader: KnownSource<F, K> = KnownSource::new(lines);
    let mut writer: KnownSink<LineWriter<O>, K> = KnownSink::new(out);
    let (disk, outcome) = run_script_over(alloc, disk, &mut reader, &mut writer, gateway, notes);
    let is_written = is_written(&outcome, writer);
    (disk, run_result(outcome, is_written))
}

// Whether what is held back was written out. Where a write failed nothing more is written.
fn is_written<O: Write + Drop, K: Known>(
    outcome: &Result<bool, ProgramFault>,
    writer: KnownSink<LineWriter<O>, K>,
) -> bool
    ensures well { IsTrue result → ¬ (IsErrOf outcome.now ProgramFault.Write)
        → writer.sink.failures ≡ 0 }
    ensures left { IsTrue result → ¬ (IsErrOf outcome.now ProgramFault.Write) → (left : O)
        × Keeps (line_writer_contents O.contents writer.sink.writer) (O.contents left) }
{
    matches!(outcome, Err(ProgramFault::Write)) || is_written_out(writer)
}
