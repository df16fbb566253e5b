//! The command `poll` over an image and buses that are open.

ghost use Rattle.std.specs.Prelude.{◌≡◌, ◌<◌, IsTrue, false, is_some};
ghost use Rattle.std.specs.Io.KnownBytes.{Keeps};
ghost use Rattle.std.specs.Io.Buffered.{line_writer_contents};
ghost use Rattle.mbdc_poll.specs.Printed.{events_as};
ghost use Rattle.mbdc_poll.specs.Telling.{TakesAll};
ghost use Rattle.mbdc_commands.specs.Bytes.{IsPrinted};
ghost use Rattle.mbdc_commands.specs.Guard.{Guards};
ghost use Rattle.mbdc_ending.specs.Unopened.{Stands};
ghost use Rattle.mbdc_commands.specs.PollOver.{ArePolled, PollLeaves, PollsOver};

use crate::ending::poll_ending;
use crate::guard::guarded;
use crate::known::Known;
use crate::known_sink::{KnownSink, is_written_out};
use crate::timer::HostTimer;
use crate::waiting::Waits;
use dc_sectors::Disk;
use mbdc_bus::HalfBus;
use mbdc_change::Moment;
use mbdc_ending::{Ending, ProgramFault};
use mbdc_poll::events::{
    Form, Notes, Printer, Progress, Shown, Unfailing, events_are_printed,
    events_are_taken_up_to_a_failure,
};
use mbdc_poll::{Outcome, Plan, Teller, poll_image};
use std::alloc::Global;
use std::io::{LineWriter, Write};
use std::marker::Brand;
use std::rt::Clock;

/// How a poll is printed, and when it begins.
#[derive(Clone, Copy)]
pub struct Printing {
    /// The time at which it begins, which stamps the readings as long as the clock has no other time.
    pub begun: Moment,
    /// The form of its events. Beside text, standard error says what the failed tries of a failed readout brought.
    pub form: Form,
    /// Whether standard error shows the progress.
    pub is_shown: bool,
}

/// Looks at the image, reads the meters of the plan, prints their events line by line, and says how that ended. Where
/// they can't be printed, the poll goes on without. The journal takes each event, too; no clause names it, since all
/// that is promised here holds whatever becomes of it.
pub fn poll_over<'h, 'a, D, B, W, R, O, J>(
    alloc: Global,
    rt: &'h R,
    disk: D,
    plan: Plan<'_, Global, B>,
    waits: W,
    out: O,
    printing: Printing,
    notes: J,
    image: &'a str,
) -> (D, Ending<'a>)
where
    D: Disk + Drop,
    B: HalfBus + Drop,
    W: Waits<B> + Drop,
    R: Clock + Eprint,
    O: Write + Drop,
    J: Notes + Drop,
    requires { 0 < plan.tries }
    // One poll of the image, whatever became of it before, gives the disk, the text and the ending.
    ensures { Guards D.Disk disk result.0 result.1 (λ ready. PollsOver R D.Disk B.HalfBus O.contents
        plan.entry.buses.items plan.entry.only.now plan.entry.tries waits out printing.form image.now
        ready result.0 result.1) }
{
    let mut disk = disk;
    match guarded(alloc, &mut disk) {
        Ok(()) => {}
        Err(ending) => return (disk, ending),
    }
    let (disk, outcome, is_printed) = poll_printed::<D, B, W, R, O, J, Brand>(
        alloc, rt, disk, plan, waits, out, printing, notes,
    );
    (disk, poll_ending(outcome, is_printed, image))
}

// Reads the meters of the plan and prints their events. The last value is whether all was printed.
fn poll_printed<D, B, W, R, O, J, K>(
    alloc: Global,
    rt: &R,
    disk: D,
    plan: Plan<'_, Global, B>,
    waits: W,
    out: O,
    printing: Printing,
    notes: J,
) -> (D, Result<Outcome, ProgramFault>, bool)
where
    D: Disk + Drop,
    B: HalfBus + Drop,
    W: Waits<B> + Drop,
    R: Clock + Eprint,
    O: Write + Drop,
    J: Notes + Drop,
    K: Known,
    requires tries { 0 < plan.tries }
    requires known { K.writes ≡ is_some (O.contents out) }
    requires stands { Stands D.Disk disk }
    ensures { PollLeaves D.Disk (ArePolled R B.HalfBus plan.entry.buses.items plan.entry.only.now
        plan.entry.tries waits (λ events.
        IsPrinted O.contents out result.2 (events_as printing.form events)))
        disk result.0 result.1 }
{
    events_are_printed::<KnownSink<LineWriter<O>, K>>();
    let Ok(out) = LineWriter::new(alloc, out) else {
        return (disk, Err(ProgramFault::NoMemory), false);
    };
    let out: KnownSink<LineWriter<O>, K> = KnownSink::new(out);
    let progress = Progress::new(rt, printing.is_shown);
    let timer = HostTimer::new(rt, printing.begun, &progress, waits);
    let printer = Printer {
        out,
        form: printing.form,
    };
    let explains = matches!(printing.form, Form::Text);
    let (disk, outcome, done) = poll(
        alloc, disk, plan, timer, &progress, printer, notes, explains,
    );
    let is_printed = is_printed(done.has_failed, done.teller.out);
    (disk, outcome, is_printed)
}

// Reads the meters of the plan. The teller gets their events up to its first failure.
fn poll<'p, 'h, D, B, W, R, N, J>(
    alloc: Global,
    disk: D,
    plan: Plan<'_, Global, B>,
    timer: HostTimer<'p, 'h, R, W>,
    progress: &'p Progress<'h, R>,
    teller: N,
    notes: J,
    explains: bool,
) -> (D, Result<Outcome, ProgramFault>, Unfailing<N>)
where
    D: Disk + Drop,
    B: HalfBus + Drop,
    W: Waits<B> + Drop,
    R: Clock + Eprint,
    N: Teller + Drop,
    J: Notes + Drop,
    requires tries { 0 < plan.tries }
    requires stands { Stands D.Disk disk }
    ensures { PollLeaves D.Disk (ArePolled R B.HalfBus plan.entry.buses.items plan.entry.only.now
        plan.entry.tries timer.entry.waits (λ events. result.2.has_failed ≡ false
        → TakesAll N.takes teller result.2.teller events)) disk result.0 result.1 }
{
    events_are_taken_up_to_a_failure::<N>();
    let mut timer = timer;
    let mut shown = Shown {
        teller: Unfailing::new(teller),
        notes,
        progress,
        explains,
    };
    let (disk, outcome) = poll_image(alloc, disk, plan, &mut timer, &mut shown);
    progress.clear();
    let Shown { teller, .. } = shown;
    (disk, outcome, teller)
}

// Whether all was printed, once what is held back is written out.
fn is_printed<O: Write + Drop, K: Known>(has_failed: bool, out: KnownSink<LineWriter<O>, K>) -> bool
    ensures took { IsTrue result → has_failed ≡ false }
    ensures well { IsTrue result → out.sink.failures ≡ 0 }
    ensures left { IsTrue result → (left : O)
        × Keeps (line_writer_contents O.contents out.sink.writer) (O.contents left) }
{
    !has_failed && is_written_out(out)
}
