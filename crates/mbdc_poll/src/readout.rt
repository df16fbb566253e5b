//! Many meters on several lines at once, round after round.

ghost use Rattle.std.specs.Prelude.{◌≡◌, ◌<◌, ◌≤◌, ◌-◌, ◌+◌, ◌^◌, ◌++◌, ◌∷◌, [], length};
ghost use Rattle.std.specs.Prelude.{OnOk, IfOk, None, min};
ghost use Rattle.std.specs.List.{All, list_all};
ghost use Rattle.mbdc_poll.specs.Polls.{GoesRound, Polled, PollsAll};
ghost use Rattle.mbdc_poll.specs.Round.{EachFewer, Runs};
ghost use Rattle.mbdc_poll.specs.Round.{lates_from, meters_left, most_lines};
ghost use Rattle.mbdc_poll.specs.Station.{IsSound, rounds_of};
ghost use Rattle.mbdc_poll.specs.Telling.{CountsFailures, HasTold, TakesAll};
ghost use Rattle.mbdc_poll.specs.Waiting.{is_done as is_done_with};
ghost use Rattle.mbdc_poll.specs.declared.event.Event.TheVariants.{End as has_ended};

use crate::event::Event;
use crate::lines::{ask_all, commit_all, hear_and_commit, line_at};
use crate::outcome::{Counts, Outcome};
use crate::station::{MOST_ASKS, Station};
use crate::teller::Teller;
use crate::telling::{tell_all, tell_one};
use crate::timer::Timer;
use crate::waiting::{is_done, may_sleep};
use dc_core::{CommitFault, Concentrator};
use dc_sectors::Disk;
use mbdc_bus::HalfBus;
use mbdc_io::IoFault;
use std::alloc::Allocator;

// One request takes this many rounds at most: while its bus has it wait, and to send, hear and settle it.
const ROUNDS_A_REQUEST: u64 = 65_535 + 3;

// One start takes this many at most: for its requests, and its end.
const ROUNDS_A_START: u64 = MOST_ASKS as u64 * ROUNDS_A_REQUEST + 4;

// More rounds than are ever needed: of as many meters as a queue has, each tried as often as a byte says.
const MOST_ROUNDS: u64 = (65_535 * 255 + 1) * ROUNDS_A_START;

// One round. The fault of its commit, if there was one.
fn round<D: Disk + Drop, A: Allocator + Copy, B: HalfBus + Drop, T: Timer<B>, N: Teller>(
    concentrator: &mut Concentrator<D, A>,
    stations: &mut [Station<'_, B>],
    tries: u8,
    timer: &mut T,
    counts: &mut Counts,
    teller: &mut N,
) -> Result<Option<CommitFault>, IoFault>
    requires lines { length stations.old ≤ most_lines }
    requires sound { All (IsSound B.HalfBus tries) stations.old }
    requires few { counts.old.read + counts.old.failed + most_lines < 2 ^ 64 }
    ensures went { Runs D.Disk (λ core happened. IfOk result (λ fault.
        GoesRound B.HalfBus T.tells T.passes tries fault stations.old stations.new
        timer.old timer.new (TakesAll N.takes teller.old teller.new) counts.old counts.new core happened))
        concentrator.old concentrator.new }
    ensures sound { OnOk result (All (IsSound B.HalfBus tries) stations.new) }
    ensures fewer { IfOk result (λ fault. fault ≡ None
        → EachFewer (rounds_of B.HalfBus 1 1 1 tries) (rounds_of B.HalfBus 1 1 1 tries) 1 stations.old stations.new) }
    ensures few { OnOk result (counts.new.read + counts.new.failed
        ≤ counts.old.read + counts.old.failed + most_lines) }
    ensures budget { concentrator.new.house.budget ≡ concentrator.old.house.budget }
    ensures counted { CountsFailures N.Teller result teller.old teller.new }
{
    ask_all(concentrator, stations, tries);
    let sleeps = may_sleep(stations);
    timer.pause(stations, sleeps);
    let moment = timer.now();
    let stored = hear_and_commit(concentrator, stations, tries, moment);
    match tell_all(concentrator, stations, counts, teller) {
        Ok(()) => Ok(stored.err()),
        Err(fault) => Err(fault),
    }
}

// Whether no meter is left.
fn is_over<B: HalfBus + Drop>(stations: &[Station<'_, B>]) -> bool
    ensures { result ≡ list_all (λ s. is_done_with s) stations.now }
{
    stations.iter().all(|station| is_done(station))
}

// Round after round, until no meter is left, or a commit returned a fault.
fn read_rounds<D: Disk + Drop, A: Allocator + Copy, B: HalfBus + Drop, T: Timer<B>, N: Teller>(
    concentrator: &mut Concentrator<D, A>,
    stations: &mut [Station<'_, B>],
    tries: u8,
    timer: &mut T,
    before: Counts,
    teller: &mut N,
) -> Result<Outcome, IoFault>
    requires lines { length stations.old ≤ most_lines }
    requires sound { All (IsSound B.HalfBus tries) stations.old }
    requires few { before.read + before.failed < 2 ^ 63 }
    ensures went { Runs D.Disk (λ core happened.
        IfOk result (λ outcome. Polled B.HalfBus T.tells T.passes tries
        stations.old stations.new timer.old timer.new (TakesAll N.takes teller.old teller.new) before outcome
        core happened)) concentrator.old concentrator.new }
    ensures few { IfOk result (λ outcome. outcome.read + outcome.failed < 2 ^ 63 + 2 ^ 62) }
    ensures budget { concentrator.new.house.budget ≡ concentrator.old.house.budget }
    ensures counted { CountsFailures N.Teller result teller.old teller.new }
{
    let mut counts = before;
    match commit_all(concentrator, stations) {
        Ok(()) => {}
        Err(fault) => return Ok(outcome_of(counts, Some(fault))),
    }
    'rounds: for _ in 0..MOST_ROUNDS {
        if is_over(stations) {
            return Ok(outcome_of(counts, None));
        }
        match round(concentrator, stations, tries, timer, &mut counts, teller) {
            Ok(None) => {}
            Ok(Some(fault)) => return Ok(outcome_of(counts, Some(fault))),
            Err(fault) => return Err(fault),
        }
    }
    Ok(outcome_of(counts, None))
}

// These counts, and the fault of the commit that ended the poll.
fn outcome_of(counts: Counts, fault: Option<CommitFault>) -> Outcome
    ensures { result ≡ record { read = counts.read; failed = counts.failed; fault = fault } }
{
    Outcome {
        read: counts.read,
        failed: counts.failed,
        fault,
    }
}

// How many meters are left on these lines.
fn meters_left<B: HalfBus + Drop>(stations: &[Station<'_, B>]) -> u64
    ensures { result ≡ min (2 ^ 64 - 1) (meters_left stations.now) }
{
    match stations.split_first() {
        None => 0,
        Some((station, others)) => meters_left(others).saturating_add(station.left.len() as u64),
    }
}

// Tells how many late answers were dropped on each of these lines where some were. The first one has that number.
fn tell_lates<B: HalfBus + Drop, N: Teller>(
    stations: &[Station<'_, B>],
    line: u8,
    teller: &mut N,
) -> Result<(), IoFault>
    requires { line + length stations.now ≤ 255 }
    ensures { HasTold N.Teller result teller.old teller.new
        (lates_from B.HalfBus line stations.now) }
{
    let Some((station, others)) = stations.split_first() else {
        return Ok(());
    };
    let answers = station.bus.late();
    if answers == 0 {
        return tell_lates(others, line + 1, teller);
    }
    tell_one(&Event::Late { line, answers }, teller)?;
    tell_lates(others, line + 1, teller)
}

// Tells the end of the poll. The meters that are left count as not read.
fn finish<B: HalfBus + Drop, N: Teller>(
    stations: &[Station<'_, B>],
    between: Outcome,
    teller: &mut N,
) -> Result<Outcome, IoFault>
    requires { length stations.now ≤ most_lines }
    ensures counts { IfOk result (λ outcome. outcome ≡ record {
      read = between.read;
      failed = min (2 ^ 64 - 1) (between.failed + meters_left stations.now);
      fault = between.fault;
    }) }
    ensures told { IfOk result (λ outcome. TakesAll N.takes teller.old teller.new
        (lates_from B.HalfBus 1 stations.now ++ has_ended outcome.read outcome.failed ∷ [])) }
    ensures counted { CountsFailures N.Teller result teller.old teller.new }
{
    let failed = between.failed.saturating_add(meters_left(stations));
    let read = between.read;
    tell_lates(stations, 1, teller)?;
    tell_one(&Event::End { read, failed }, teller)?;
    Ok(Outcome {
        read,
        failed,
        fault: between.fault,
    })
}

/// Reads the meters of up to eight lines, of which line k + 1 is that of the station at k.
///
/// `before` has the meters that were counted before. A line's meters are read in passes, at most `tries` of them: a
/// meter whose readout failed is started again after the line's other meters. The poll ends whatever the lines give. On
/// each line the requests of the concentrator go out, and nothing else, and it hears what the bus gave. Each round
/// commits its telegrams, and then tells how readouts ended ([`Event::Read`], [`Event::Failed`], [`Event::Refused`]),
/// and once of each line that became lost ([`Event::Lost`]). If a commit returns a fault, the poll ends, and the
/// outcome has that fault. At the end it tells the late answers of each line ([`Event::Late`]) and the counts
/// ([`Event::End`]).
///
/// # Errors
/// The teller couldn't take an event.
pub fn read_all<D: Disk + Drop, A: Allocator + Copy, B: HalfBus + Drop, T: Timer<B>, N: Teller>(
    concentrator: &mut Concentrator<D, A>,
    stations: &mut [Station<'_, B>],
    tries: u8,
    timer: &mut T,
    before: Counts,
    teller: &mut N,
) -> Result<Outcome, IoFault>
    requires lines { length stations.old ≤ most_lines }
    requires sound { All (IsSound B.HalfBus tries) stations.old }
    requires few { before.read + before.failed < 2 ^ 63 }
    ensures went { Runs D.Disk (λ core happened. IfOk result (λ outcome.
        PollsAll B.HalfBus T.tells T.passes tries stations.old stations.new timer.old timer.new
        (TakesAll N.takes teller.old teller.new) before outcome core happened))
        concentrator.old concentrator.new }
    ensures budget { concentrator.new.house.budget ≡ concentrator.old.house.budget }
    ensures counted { CountsFailures N.Teller result teller.old teller.new }
{
    match read_rounds(concentrator, stations, tries, timer, before, teller) {
        Ok(between) => finish(stations, between, teller),
        Err(fault) => Err(fault),
    }
}
