//! The commands over one bus: a search, a readout, a new address.

ghost use Rattle.std.specs.Prelude.{◌≡◌, ◌⊎◌, true, IfOk, IfErr, OnOk};
ghost use Rattle.mbdc_io.specs.Written.{PutsInto};
ghost use Rattle.mbdc_installer.specs.Command.{DoesOrStops, Greets, IsDone, RunsOver, Works, WorksUnseen, is_text};
ghost use Rattle.mbdc_installer.specs.Ending.{IsStopped};

use crate::bench::ending::{conclude, finish, late_in};
use crate::bench::listening::{Listening, MOST_NOISE};
use crate::bench::listing::list_over;
use crate::bench::printer::Printer;
use crate::bench::progress::{Cleared, Progress};
use crate::bench::reading::read_named;
use crate::hearing::Wildcard;
use crate::other::Noting;
use crate::{
    Addressing, Count, GREATEST, Readout, ScanFault, Target, put_addressing, scan, scan_primary,
    set_address,
};
use dc_address::Identity;
use dc_linkframe::FrameBuf;
use dc_linkframe::control::write_reset;
use mbdc_bus::{Bus, TRIES, insist};
use mbdc_ending::Ending;
use mbdc_io::{IoFault, Sink, WriteSink};
use std::alloc::Global;
use std::io::{LineWriter, Write};
use std::rt::Clock;

/// The address that all meters answer to (EN 13757-2).
pub(crate) const ALL: u8 = 254;

// What 16 answers without a frame mean.
const NOISE: &str =
    "mbdc: 16 answers, none of them a frame: given up. Are speed and parity right? Is another master on the bus?\n";

/// How meters are searched for on a bus without an image.
#[derive(Clone, Copy)]
pub enum Scan {
    /// By wildcards, with at most this many selections.
    Wildcards(u32),
    /// At each primary address.
    Primary,
}

/// How what a search finds is printed.
#[derive(Clone, Copy)]
pub enum Listing {
    /// Lines of words.
    Text,
    /// A list of the meters of that bus line, as `fit` takes it, with the flats left out.
    Csv(u8),
    /// JSON Lines: an object a meter, and one for all else.
    Json,
}

/// How a meter is named on a bus.
#[derive(Clone, Copy)]
pub enum MeterName {
    /// By its identity: it is selected.
    Identity(Identity),
    /// By its primary address; 0 is that of a meter that got none.
    Address(u8),
    /// By the eight digits of its number alone: all with that number are selected.
    Number([u8; 8]),
}

/// What is done on a bus.
#[derive(Clone, Copy)]
pub enum Work {
    /// A search for meters.
    Search(Scan),
    /// The readout of a meter.
    Read(MeterName),
    /// A new primary address for the meter that is reached so.
    Address(Target, u8),
}

/// What came of it.
#[derive(Clone, Copy)]
pub enum Done {
    /// How much a search by wildcards found.
    Searched(Count),
    /// At how many primary addresses late bytes came.
    Asked(u64),
    /// The end of a readout.
    ReadOut(Readout),
    /// What came of setting an address.
    Addressed(Addressing),
}

/// Does the work on a bus, prints it line by line, and says on standard error what is to be known of it. Returns how
/// the command ends. A search may be listed in another form. One that hears noise alone is given up, and prints no
/// more: after 16 answers, none of which is a frame.
pub fn run_over<'a, R, B, O>(
    alloc: Global,
    work: Work,
    listing: Listing,
    mut bus: B,
    out: O,
    progress: &Progress<'_, R>,
) -> Ending<'a>
where
    R: Clock + Eprint,
    B: Bus + Drop,
    O: Write + Drop,
    ensures { (result ≡ Ending.Memory) ⊎ RunsOver B.Bus work bus result }
{
    let out = Cleared {
        writer: out,
        progress,
    };
    let Ok(out) = LineWriter::new(alloc, out) else {
        return Ending::Memory;
    };
    greet(&work, &mut bus);
    let is_search = matches!(work, Work::Search(_));
    let mut bus = Listening {
        bus,
        left: is_search.then_some(MOST_NOISE),
        wildcard: Wildcard::new(is_search),
        is_hushed: &progress.is_hushed,
    };
    let mut out = WriteSink::new(out);
    let ending = work_over(alloc, work, listing, &mut bus, &mut out, progress);
    if !bus.is_given_up() {
        return ending;
    }
    match ending {
        Ending::Gateway => {
            progress.say(NOISE.as_bytes());
            Ending::Faulty
        }
        _ => ending,
    }
}

// Before a search at primary addresses resets the one that all meters answer to: where the lowest of their own is great,
// nobody would answer for so long that the bus is given up.
fn greet<B: Bus>(work: &Work, bus: &mut B)
    ensures { Greets B.Bus work.now bus.old bus.new }
{
    if let Work::Search(Scan::Primary) = work {
        let mut request = FrameBuf::new();
        write_reset(ALL, &mut request);
        insist(bus, &request, TRIES);
    }
}

/// Does the work on a bus, and prints it; what a search finds may be listed in another form. Returns how the command
/// ends: a search is at fault where bytes came that nothing on the bus could have sent, for it may have missed a meter;
/// a readout where it failed; and an address where the meter doesn't answer at the new one.
pub fn work_over<'a, R, B, W>(
    alloc: Global,
    work: Work,
    listing: Listing,
    bus: &mut B,
    out: &mut W,
    progress: &Progress<'_, R>,
) -> Ending<'a>
where
    R: Clock + Eprint,
    B: Noting,
    W: Printer,
    ensures printed { is_text work listing ≡ true
        → Works B.Bus B.others W.Sink work bus.old bus.new out.old out.new result }
    ensures done { WorksUnseen B.Bus work bus.old bus.new result }
{
    let outcome = match (work, listing) {
        (Work::Search(scan), Listing::Csv(_) | Listing::Json) => {
            list_over(alloc, scan, listing, bus, out, progress)
        }
        _ => do_and_finish(alloc, work, bus, out),
    };
    conclude(&work, &outcome, bus, progress)
}

// Does the work, and prints what comes last.
fn do_and_finish<B: Noting, W: Printer>(
    alloc: Global,
    work: Work,
    bus: &mut B,
    out: &mut W,
) -> Result<Done, ScanFault>
    ensures { DoesOrStops B.Bus B.others W.Sink work bus.old bus.new out.old out.new result }
{
    let done = do_work(alloc, work, bus, out)?;
    finish(bus.others(), late_in(bus, &done), out)?;
    Ok(done)
}

fn do_work<B: Bus, W: Sink>(
    alloc: Global,
    work: Work,
    bus: &mut B,
    out: &mut W,
) -> Result<Done, ScanFault>
    ensures done { IfOk result (λ done. IsDone B.Bus (PutsInto W.Sink out.old out.new) work
        bus.old bus.new done) }
    ensures well { OnOk result (W.put_failures out.new ≡ W.put_failures out.old) }
    ensures stopped { IfErr result (IsStopped W.Sink out.old out.new) }
{
    match work {
        Work::Search(what) => match what {
            Scan::Wildcards(budget) => match scan(alloc, budget, bus, out) {
                Ok(count) => Ok(Done::Searched(count)),
                Err(fault) => Err(fault),
            },
            Scan::Primary => match scan_primary(1, GREATEST, bus, out) {
                Ok(late) => Ok(Done::Asked(late)),
                Err(IoFault) => Err(ScanFault::Write),
            },
        },
        Work::Read(meter) => match read_named(bus, &meter, out) {
            Ok(readout) => Ok(Done::ReadOut(readout)),
            Err(IoFault) => Err(ScanFault::Write),
        },
        Work::Address(target, to) => {
            let outcome = set_address(bus, &target, to);
            match put_addressing(&target, to, &outcome, out) {
                Ok(()) => Ok(Done::Addressed(outcome)),
                Err(IoFault) => Err(ScanFault::Write),
            }
        }
    }
}
