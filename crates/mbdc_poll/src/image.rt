//! The engine of `poll`: the registered meters of an image are read over the buses of their lines.

ghost use Rattle.std.specs.Prelude.{◌≡◌, ◌<◌, ◌≤◌, ◌-◌, ◌^◌, IfErr, IfOk, IsErrOf, OnOk, []};
ghost use Rattle.std.specs.Prelude.{MatchResult, length, map, min};
ghost use Rattle.mbdc_io.specs.Failures.{HasRisen};
ghost use Rattle.mbdc_ending.specs.Fault.{IfOpen, IsOfImage};
ghost use Rattle.mbdc_log.specs.Halves.{half_of};
ghost use Rattle.dc_core.specs.PendingImages.{IsRefused, EachStands, StandsForOne};
ghost use Rattle.mbdc_log.specs.Refusal.{TellsOfImage};
ghost use Rattle.mbdc_log.specs.declared.fault.OpenFault.TheVariants.{NotImage, Worn, Device};
ghost use Rattle.mbdc_poll.specs.ImagePoll.{ImageTurned, PlanPolled};
ghost use Rattle.mbdc_poll.specs.Planned.{AreQueues, AreStations, asked_for, has_bus, is_wanted};
ghost use Rattle.mbdc_poll.specs.Planned.{queue_on};
ghost use Rattle.mbdc_poll.specs.Planned.{refusal_event, refusal_of, refused_count, refused_events};
ghost use Rattle.mbdc_poll.specs.Round.{Runs, most_lines};
ghost use Rattle.mbdc_poll.specs.Telling.{CountsFailures, HasTold, TakesAll};
ghost use Rattle.dc_sectors.specs.Runs.{LeavesOnly};

use crate::clock::compare_clock;
use crate::end::Refusal;
use crate::event::Event;
use crate::lines::line_at;
use crate::outcome::{Counts, Outcome};
use crate::readout::read_all;
use crate::station::Station;
use crate::teller::Teller;
use crate::telling::tell_one;
use crate::timer::Timer;
use dc_address::Identity;
use dc_core::{Concentrator, StartFault};
use dc_meters::House;
use dc_sectors::Disk;
use mbdc_bus::HalfBus;
use mbdc_ending::ProgramFault;
use mbdc_io::{IoFault, NoMemory};
use std::alloc::Allocator;

// There are eight lines.
const MOST_LINES: usize = 8;

/// The meters to read, and the buses.
#[derive(Drop)]
pub struct Plan<'a, A: Allocator, B: HalfBus + Drop> {
    /// The buses of lines 1, 2 and so on, of which eight are used. A bus that is lost from the
    /// start counts as none.
    pub buses: Vec<B, A>,
    /// The meters to read; if empty, all of the register.
    pub only: &'a [Identity],
    /// Maximum number of starts of each meter, at least 1.
    pub tries: u8,
}

/// Opens the image, reads its registered meters over the buses of their lines, each line's in order of identity, and
/// closes it. The events are those of [`read_all`](crate::read_all). Before them, each meter that is to be read and
/// can't be gives [`Event::Refused`], with [`StartFault::Unknown`] where it isn't registered and
/// [`StartFault::NoLine`] where its line has no bus; these count as failed. To be read are the meters that are named,
/// or if none is, all of the register. A line without a bus never gives [`Event::Lost`]. Before
/// anything is asked the timer is warned where its moment lies before the newest time stamp of the
/// register. The disk comes back whatever happens.
///
/// # Errors
/// [`ProgramFault::Open`] where the image wasn't opened, and [`ProgramFault::NoMemory`], both before anything is
/// asked or told; [`ProgramFault::Write`] where the teller couldn't take an event.
pub fn poll_image<D: Disk + Drop, A: Allocator + Copy, B: HalfBus + Drop, T: Timer<B>, N: Teller>(
    alloc: A,
    disk: D,
    plan: Plan<'_, A, B>,
    timer: &mut T,
    teller: &mut N,
) -> (D, Result<Outcome, ProgramFault>)
    requires tries { 0 < plan.tries }
    // Where each image of the disk stands for some state, the turns of the poll are a run of the concentrator that was
    // opened, and the image is left as that run leaves it.
    ensures polled { (D.keeps disk → EachStands (half_of D.Disk disk) (D.choices disk))
        → IfOk result.1 (λ outcome. ImageTurned D.Disk (λ core happened.
        PlanPolled B.HalfBus T.tells T.passes T.warns N.takes plan.entry.buses.items
        plan.entry.only.now plan.entry.tries timer.old timer.new teller.old teller.new outcome core
        happened) disk result.0) }
    ensures cut { (D.keeps disk → EachStands (half_of D.Disk disk) (D.choices disk))
        → IsErrOf result.1 ProgramFault.Write
        → ImageTurned D.Disk (λ core happened. Unit {0}) disk result.0 }
    ensures starved { (D.keeps disk → EachStands (half_of D.Disk disk) (D.choices disk))
        → IsErrOf result.1 ProgramFault.NoMemory
        → (teller.new ≡ teller.old) × ImageTurned D.Disk (λ core happened. happened ≡ []) disk result.0 }

    // A refusal is that of the store; an image that stands for a state is refused only for an
    // exhausted counter.
    ensures small { D.sectors disk < 131
        → MatchResult result.1 (λ outcome. ⊥)
        (λ fault. IfOpen fault (λ e. (e ≡ NotImage) × (result.0 ≡ disk))) }
    ensures refused { D.keeps result.0 → 131 ≤ D.sectors disk
        → IfErr result.1 (λ fault. IfOpen fault (IsRefused (half_of D.Disk disk) (D.reads disk))) }
    ensures premise { D.keeps result.0 → 131 ≤ D.sectors disk
        → EachStands (half_of D.Disk disk) (D.choices disk)
        → IfErr result.1 (λ fault. IfOpen fault (λ e. TellsOfImage e → e ≡ Worn)) }
    ensures unwritten { IfErr result.1 (λ fault.
        IfOpen fault (λ e. TellsOfImage e → D.reads result.0 ≡ D.reads disk)) }
    ensures device { IfErr result.1 (λ fault. IfOpen fault (λ e. e ≡ Device
        → HasRisen (D.failures disk) (D.failures result.0))) }
    ensures any_moment { D.keeps result.0 → EachStands (half_of D.Disk disk) (D.choices disk)
        → IfErr result.1 (λ fault. IfOpen fault (λ e. LeavesOnly D.Disk disk result.0
        (StandsForOne (half_of D.Disk disk) (D.choices disk)))) }
    ensures unopened { IfErr result.1 (λ fault.
        IfOpen fault (λ e. (teller.new ≡ teller.old) × (timer.new ≡ timer.old))) }
    ensures faults { IfErr result.1 IsOfImage }

    ensures write { IsErrOf result.1 ProgramFault.Write
        → HasRisen (N.failures teller.old) (N.failures teller.new) }
{
    let mut concentrator = match Concentrator::open(alloc, disk) {
        Ok(concentrator) => concentrator,
        Err((fault, disk)) => return (disk, Err(ProgramFault::Open(fault))),
    };
    let polled = poll(alloc, &mut concentrator, plan, timer, teller);
    (concentrator.close(), polled)
}

// Reads the meters of the plan.
fn poll<D: Disk + Drop, A: Allocator + Copy, B: HalfBus + Drop, T: Timer<B>, N: Teller>(
    alloc: A,
    concentrator: &mut Concentrator<D, A>,
    plan: Plan<'_, A, B>,
    timer: &mut T,
    teller: &mut N,
) -> Result<Outcome, ProgramFault>
    requires { 0 < plan.tries }
    ensures went { Runs D.Disk (λ core happened. IfOk result (λ outcome.
        PlanPolled B.HalfBus T.tells T.passes T.warns N.takes plan.entry.buses.items
        plan.entry.only.now plan.entry.tries timer.old timer.new teller.old teller.new outcome core
        happened))
        concentrator.old concentrator.new }
    ensures starved { IsErrOf result ProgramFault.NoMemory → (teller.new ≡ teller.old)
        × Runs D.Disk (λ core happened. happened ≡ []) concentrator.old concentrator.new }
    ensures write { IsErrOf result ProgramFault.Write
        → HasRisen (N.failures teller.old) (N.failures teller.new) }
    ensures opened { IfErr result (λ fault. IfOpen fault (λ e. ⊥)) }
    ensures faults { IfErr result IsOfImage }
{
    let Plan {
        mut buses,
        only,
        tries,
    } = plan;
    buses.truncate(MOST_LINES);
    let mut queues = match queues_of(alloc, concentrator.house(), buses.as_slice(), only) {
        Ok(queues) => queues,
        Err(_) => return Err(ProgramFault::NoMemory),
    };
    let mut stations = match stations_of(alloc, buses, queues.as_mut_slice()) {
        Ok(stations) => stations,
        Err(_) => return Err(ProgramFault::NoMemory),
    };
    let wanted = match asked_for(alloc, concentrator.house(), only) {
        Ok(wanted) => wanted,
        Err(_) => return Err(ProgramFault::NoMemory),
    };
    let failed = match refuse_others(
        concentrator.house(),
        stations.as_slice(),
        wanted.as_slice(),
        teller,
    ) {
        Ok(failed) => failed,
        Err(_) => return Err(ProgramFault::Write),
    };
    compare_clock(concentrator.house(), timer);
    let before = Counts { read: 0, failed };
    match read_all(
        concentrator,
        stations.as_mut_slice(),
        tries,
        timer,
        before,
        teller,
    ) {
        Ok(outcome) => Ok(outcome),
        Err(_) => Err(ProgramFault::Write),
    }
}

// The meters to be read of each line.
fn queues_of<A: Allocator + Copy, B: HalfBus + Drop>(
    alloc: A,
    house: &House<A>,
    buses: &[B],
    only: &[Identity],
) -> Result<Vec<Vec<Identity, A>, A>, NoMemory>
    requires { length buses.now ≤ most_lines }
    ensures count { IfOk result (λ queues. length queues.items ≡ length buses.now) }
    ensures queues { IfOk result (λ queues.
        AreQueues (λ v. v.items) B.lost house.now.state only.now buses.now queues.items) }
{
    let mut queues = Vec::new(alloc);
    'lines: for at in 0..buses.len() {
        let queue = queue_of(alloc, house, line_at(at), buses[at].is_lost(), only)?;
        queues.push(queue)?;
    }
    Ok(queues)
}

// The registered meters of one line that are wanted, in order of identity, unless it is lost.
fn queue_of<A: Allocator + Copy>(
    alloc: A,
    house: &House<A>,
    line: u8,
    is_lost: bool,
    only: &[Identity],
) -> Result<Vec<Identity, A>, NoMemory>
    ensures { IfOk result (λ queue. queue.items ≡ queue_on house.now.state only.now line is_lost) }
{
    if is_lost {
        return Ok(Vec::new(alloc));
    }
    let mut queue = Vec::new(alloc);
    'meters: for (meter, row) in house.meters() {
        if row.line() == line && is_wanted(meter, only) {
            queue.push(*meter)?;
        }
    }
    Ok(queue)
}

/// Whether a meter is to be read: where none is named, all are.
pub(crate) fn is_wanted(meter: &Identity, only: &[Identity]) -> bool
    ensures { result ≡ is_wanted only.now meter.now }
{
    only.is_empty() || only.contains(meter)
}

// The lines with their queues. Of a line that has no bus it is never told that it is lost.
fn stations_of<'a, A: Allocator + Copy, B: HalfBus + Drop>(
    alloc: A,
    buses: Vec<B, A>,
    queues: &'a mut [Vec<Identity, A>],
) -> Result<Vec<Station<'a, B>, A>, NoMemory>
    requires { length queues.old ≡ length buses.items }
    ensures buses { IfOk result (λ stations. map (λ s. s.bus) stations.items ≡ buses.items) }
    ensures each { IfOk result (λ stations.
        AreStations (λ v. v.items) B.lost queues.old stations.items) }
{
    let mut stations = Vec::new(alloc);
    let mut others = queues;
    'lines: for bus in buses {
        let Some((queue, more)) = others.split_first_mut() else {
            return Ok(stations);
        };
        others = more;
        let said = bus.is_lost();
        let mut station = Station::new(bus, queue.as_mut_slice());
        station.said = said;
        stations.push(station)?;
    }
    Ok(stations)
}

// The meters that are to be read: those that are named, or all of the register, in order of identity.
fn asked_for<A: Allocator + Copy>(
    alloc: A,
    house: &House<A>,
    only: &[Identity],
) -> Result<Vec<Identity, A>, NoMemory>
    ensures { IfOk result (λ wanted. wanted.items ≡ asked_for only.now house.now.state) }
{
    if !only.is_empty() {
        return Ok(Vec::from_slice(alloc, only)?);
    }
    let mut all = Vec::new(alloc);
    'meters: for (meter, _) in house.meters() {
        all.push(*meter)?;
    }
    Ok(all)
}

// Tells an event for each of these meters that can't be read, and returns how many there are.
fn refuse_others<A: Allocator + Copy, B: HalfBus + Drop, N: Teller>(
    house: &House<A>,
    stations: &[Station<'_, B>],
    wanted: &[Identity],
    teller: &mut N,
) -> Result<u64, IoFault>
    ensures told { OnOk result (TakesAll N.takes teller.old teller.new
        (refused_events (has_bus B.lost (map (λ s. s.bus) stations.now)) house.now.state
        wanted.now)) }
    ensures counted { CountsFailures N.Teller result teller.old teller.new }
    ensures count { IfOk result (λ refused. refused
        ≡ min (2 ^ 32 - 1) (refused_count
        (has_bus B.lost (map (λ s. s.bus) stations.now)) house.now.state wanted.now)) }
{
    let mut refused: u32 = 0;
    'meters: for meter in wanted {
        let refusal = refusal_of(house, stations, meter);
        tell_refusal(meter, refusal, teller)?;
        refused = refused.saturating_add(u32::from(refusal.is_some()));
    }
    Ok(u64::from(refused))
}

// Tells an event where a meter is refused.
fn tell_refusal<N: Teller>(
    meter: &Identity,
    refusal: Option<StartFault>,
    teller: &mut N,
) -> Result<(), IoFault>
    ensures { HasTold N.Teller result teller.old teller.new
        (refusal_event meter.now refusal) }
{
    match refusal {
        Some(fault) => {
            let refused = Event::Refused {
                meter: *meter,
                refusal: Refusal::Start(fault),
            };
            tell_one(&refused, teller)
        }
        None => Ok(()),
    }
}

// Why a meter can't be read, before it is started: it isn't registered, or its line has no bus that isn't lost.
fn refusal_of<A: Allocator + Copy, B: HalfBus + Drop>(
    house: &House<A>,
    stations: &[Station<'_, B>],
    meter: &Identity,
) -> Option<StartFault>
    ensures { result ≡ refusal_of (has_bus B.lost (map (λ s. s.bus) stations.now)) house.now.state
        meter.now }
{
    match house.meter(meter) {
        Some(row) => match stations.get(usize::from(row.line()).saturating_sub(1)) {
            Some(station) => {
                if station.bus.is_lost() {
                    Some(StartFault::NoLine)
                } else {
                    None
                }
            }
            None => Some(StartFault::NoLine),
        },
        None => Some(StartFault::Unknown),
    }
}
