//! All lines at once, step by step.

ghost use Rattle.std.specs.Prelude.{◌≡◌, ◌<◌, ◌≤◌, ◌-◌, ◌+◌, ℕ, length, slice_index_or, IfOk, OnOk};
ghost use Rattle.std.specs.List.{All};
ghost use Rattle.mbdc_poll.specs.Keeping.{IsAsking, most_pending};
ghost use Rattle.mbdc_poll.specs.Round.{AllSteps, AreHeardAs, AreStored, EachFewer, EndsInCommit};
ghost use Rattle.mbdc_poll.specs.Round.{IsRoom, IsStoredAs, Runs, most_lines};
ghost use Rattle.mbdc_poll.specs.Round.{and_accepted, uncounted};
ghost use Rattle.mbdc_poll.specs.Station.{IsSound, rounds_of};

use crate::station::Station;
use crate::stepping::{hear, step};
use dc_core::{CommitFault, Concentrator};
use dc_sectors::Disk;
use mbdc_bus::HalfBus;
use mbdc_change::Moment;
use std::alloc::Allocator;

// Maximum number of pending telegrams.
const MOST_PENDING: u8 = 4;

// The line of the station at this place.
pub(crate) fn line_at(at: usize) -> u8
    requires { at < most_lines }
    ensures { result ≡ at + 1 }
{
    at as u8 + 1
}

// Every line that has no request out begins its next meter and asks, or asks.
pub fn ask_all<D: Disk + Drop, A: Allocator + Copy, B: HalfBus + Drop>(
    concentrator: &mut Concentrator<D, A>,
    stations: &mut [Station<'_, B>],
    tries: u8,
)
    requires lines { length stations.old ≤ most_lines }
    requires sound { All (IsSound B.HalfBus tries) stations.old }
    ensures went { Runs D.Disk (λ core happened.
        AllSteps B.HalfBus tries (All IsAsking) stations.old stations.new happened)
        concentrator.old concentrator.new }
    ensures sound { All (IsSound B.HalfBus tries) stations.new }
    ensures fewer { EachFewer (rounds_of B.HalfBus 1 1 1 tries)
        (rounds_of B.HalfBus 0 0 0 tries) 1
        stations.old stations.new }
    ensures budget { concentrator.new.house.budget ≡ concentrator.old.house.budget }
{
    'lines: for at in 0..stations.len() {
        step(concentrator, &mut stations[at], line_at(at), tries);
    }
}

// What becomes of each line by a commit.
fn store_all<B: HalfBus + Drop>(
    stations: &mut [Station<'_, B>],
    stored: &Result<usize, CommitFault>,
)
    ensures { AreStored stored.now stations.old stations.new }
{
    'lines: for at in 0..stations.len() {
        stations[at].stored(stored);
    }
}

/// Commits the pending changes.
pub fn commit_all<D: Disk + Drop, A: Allocator + Copy, B: HalfBus + Drop>(
    concentrator: &mut Concentrator<D, A>,
    stations: &mut [Station<'_, B>],
) -> Result<(), CommitFault>
    ensures went { (tries : ℕ) → All (IsSound B.HalfBus tries) stations.old
        → Runs D.Disk (λ core happened.
        AllSteps B.HalfBus tries (IsStoredAs result) stations.old stations.new happened)
        concentrator.old concentrator.new }
    ensures sound { (tries : ℕ) → All (IsSound B.HalfBus tries) stations.old
        → All (IsSound B.HalfBus tries) stations.new }
    ensures fewer { (tries out pending : ℕ) → All (IsSound B.HalfBus tries) stations.old
        → EachFewer (rounds_of B.HalfBus out 0 0 tries)
        (rounds_of B.HalfBus out pending 0 tries) 0
        stations.old stations.new }
    ensures budget { concentrator.new.house.budget ≡ concentrator.old.house.budget }
{
    let stored = concentrator.commit();
    store_all(stations, &stored);
    uncounted(stored)
}

// A commit's answer without its count.
fn uncounted(stored: Result<usize, CommitFault>) -> Result<(), CommitFault>
    ensures { result ≡ uncounted stored }
{
    match stored {
        Ok(_) => Ok(()),
        Err(fault) => Err(fault),
    }
}

// Where as many telegrams are pending as may be, they are committed. How many are pending then.
fn make_room<D: Disk + Drop, A: Allocator + Copy, B: HalfBus + Drop>(
    concentrator: &mut Concentrator<D, A>,
    stations: &mut [Station<'_, B>],
    pending: u8,
) -> Result<u8, CommitFault>
    ensures few { IfOk result (λ now. now < most_pending) }
    ensures went { (tries : ℕ) → All (IsSound B.HalfBus tries) stations.old
        → Runs D.Disk (λ core happened.
        AllSteps B.HalfBus tries (IsRoom pending result) stations.old stations.new happened)
        concentrator.old concentrator.new }
    ensures sound { (tries : ℕ) → All (IsSound B.HalfBus tries) stations.old
        → All (IsSound B.HalfBus tries) stations.new }
    ensures fewer { (tries out : ℕ) → All (IsSound B.HalfBus tries) stations.old
        → EachFewer (rounds_of B.HalfBus out 0 0 tries) (rounds_of B.HalfBus out 0 0 tries) 0
        stations.old stations.new }
    ensures budget { concentrator.new.house.budget ≡ concentrator.old.house.budget }
{
    if pending < MOST_PENDING {
        return Ok(pending);
    }
    match commit_all(concentrator, stations) {
        Ok(()) => Ok(0),
        Err(fault) => Err(fault),
    }
}

// How many telegrams are pending after an answer.
fn and_accepted(pending: u8, accepted: bool) -> u8
    requires { pending < most_pending }
    ensures { result ≡ and_accepted pending accepted }
{
    if accepted { pending + 1 } else { pending }
}

// Every line with a request out takes its answer, if it is complete.
pub fn hear_all<D: Disk + Drop, A: Allocator + Copy, B: HalfBus + Drop>(
    concentrator: &mut Concentrator<D, A>,
    stations: &mut [Station<'_, B>],
    tries: u8,
    moment: Moment,
) -> Result<(), CommitFault>
    requires lines { length stations.old ≤ most_lines }
    requires sound { All (IsSound B.HalfBus tries) stations.old }
    ensures went { Runs D.Disk (λ core happened.
        AllSteps B.HalfBus tries (AreHeardAs moment.seconds result) stations.old stations.new happened)
        concentrator.old concentrator.new }
    ensures sound { All (IsSound B.HalfBus tries) stations.new }
    ensures fewer { OnOk result (EachFewer (rounds_of B.HalfBus 0 0 0 tries)
        (rounds_of B.HalfBus 1 0 0 tries) 0
        stations.old stations.new) }
    ensures budget { concentrator.new.house.budget ≡ concentrator.old.house.budget }
{
    let mut pending = 0;
    'lines: for at in 0..stations.len() {
        match make_room(concentrator, stations, pending) {
            Ok(now) => pending = now,
            Err(fault) => return Err(fault),
        }
        pending = and_accepted(
            pending,
            hear(concentrator, &mut stations[at], line_at(at), tries, moment),
        );
    }
    Ok(())
}

// And then all that was accepted is committed.
pub fn hear_and_commit<D: Disk + Drop, A: Allocator + Copy, B: HalfBus + Drop>(
    concentrator: &mut Concentrator<D, A>,
    stations: &mut [Station<'_, B>],
    tries: u8,
    moment: Moment,
) -> Result<(), CommitFault>
    requires lines { length stations.old ≤ most_lines }
    requires sound { All (IsSound B.HalfBus tries) stations.old }
    ensures went { Runs D.Disk (λ core happened.
        AllSteps B.HalfBus tries (EndsInCommit moment.seconds result) stations.old stations.new happened)
        concentrator.old concentrator.new }
    ensures sound { All (IsSound B.HalfBus tries) stations.new }
    ensures fewer { OnOk result (EachFewer (rounds_of B.HalfBus 0 0 0 tries)
        (rounds_of B.HalfBus 1 1 0 tries) 0
        stations.old stations.new) }
    ensures budget { concentrator.new.house.budget ≡ concentrator.old.house.budget }
{
    match hear_all(concentrator, stations, tries, moment) {
        Ok(()) => commit_all(concentrator, stations),
        Err(fault) => Err(fault),
    }
}
