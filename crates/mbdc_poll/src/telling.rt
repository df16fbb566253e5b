//! Tells the ends of readouts, and the loss of a line.

ghost use Rattle.std.specs.Prelude.{◌≡◌, ◌<◌, ◌≤◌, ◌-◌, ◌+◌, ◌^◌, ◌∷◌, ℕ, OnOk, [], length, true};
ghost use Rattle.std.specs.List.{All};
ghost use Rattle.mbdc_poll.specs.Round.{AllTells, EachFewer, Runs, Tells, counted, most_lines};
ghost use Rattle.mbdc_poll.specs.Round.{told_of};
ghost use Rattle.mbdc_poll.specs.Station.{IsSound, rounds_of};
ghost use Rattle.mbdc_poll.specs.Telling.{CountsFailures, HasTold, TakesAll};
ghost use Rattle.mbdc_poll.specs.declared.outcome.Counts.{Counts as Counted};

use crate::brought::Brought;
use crate::end::End;
use crate::event::Event;
use crate::lines::line_at;
use crate::newest::newest_reading;
use crate::outcome::Counts;
use crate::phase::Phase;
use crate::station::Station;
use crate::teller::Teller;
use dc_core::Concentrator;
use dc_meters::House;
use dc_sectors::Disk;
use mbdc_bus::{AnswerBuf, HalfBus};
use mbdc_io::IoFault;
use std::alloc::Allocator;

// Tells one event.
pub(crate) fn tell_one<N: Teller>(event: &Event<'_>, teller: &mut N) -> Result<(), IoFault>
    ensures { HasTold N.Teller result teller.old teller.new (event.now ∷ []) }
{
    teller.tell(event)
}

// The event of an end on a line, where this is what the tries of the readout brought.
fn told_of<'a, A: Allocator + Copy>(
    house: &'a House<A>,
    line: u8,
    brought: &Brought,
    end: &End,
) -> Event<'a>
    ensures { result ≡ told_of house.now.state line brought.now end.now }
{
    match *end {
        End::Read(meter) => newest_reading(house, meter),
        End::Failed(meter, why) => {
            let mut last = AnswerBuf::new();
            last.append(brought.last.as_slice());
            let misses = brought.misses;
            Event::Failed {
                line,
                meter,
                why,
                brought: Brought { misses, last },
            }
        }
        End::Refused(meter, refusal) => Event::Refused { meter, refusal },
    }
}

// Counts an end.
fn count(end: &End, outcome: &mut Counts)
    requires { outcome.old.read + outcome.old.failed < 2 ^ 64 - 1 }
    ensures { outcome.new ≡ counted end.now outcome.old }
{
    match end {
        End::Read(_) => outcome.read += 1,
        End::Failed(_, _) | End::Refused(_, _) => outcome.failed += 1,
    }
}

// Tells how the readout of a line's meter ended.
fn tell_end<D: Disk + Drop, A: Allocator + Copy, B: HalfBus + Drop, N: Teller>(
    concentrator: &Concentrator<D, A>,
    station: &mut Station<'_, B>,
    line: u8,
    outcome: &mut Counts,
    teller: &mut N,
) -> Result<(), IoFault>
    requires { outcome.old.read + outcome.old.failed < 2 ^ 64 - 1 }
    ensures went { Runs D.Disk (λ core happened.
        OnOk result (Tells B.HalfBus line station.old station.new
        (TakesAll N.takes teller.old teller.new) outcome.old outcome.new core happened))
        concentrator.now concentrator.now }
    ensures few { outcome.new.read + outcome.new.failed ≤ outcome.old.read + outcome.old.failed
        + 1 }
    ensures sound { (tries : ℕ) → IsSound B.HalfBus tries station.old
        → IsSound B.HalfBus tries station.new }
    ensures fewer { OnOk result ((tries : ℕ) → rounds_of B.HalfBus 1 1 1 tries station.new
        ≤ rounds_of B.HalfBus 1 1 0 tries station.old) }
    ensures counted { CountsFailures N.Teller result teller.old teller.new }
{
    let Phase::Over(end) = station.phase else {
        return Ok(());
    };
    station.phase = Phase::Free;
    count(&end, outcome);
    let told = told_of(concentrator.house(), line, &station.brought, &end);
    teller.tell(&told)
}

// Tells once that a line is lost.
fn tell_loss<D: Disk + Drop, A: Allocator + Copy, B: HalfBus + Drop, N: Teller>(
    concentrator: &Concentrator<D, A>,
    station: &mut Station<'_, B>,
    line: u8,
    teller: &mut N,
) -> Result<(), IoFault>
    ensures went { (outcome : Counted)
        → Runs D.Disk (λ core happened. OnOk result (Tells B.HalfBus line station.old station.new
        (TakesAll N.takes teller.old teller.new) outcome outcome core happened))
        concentrator.now concentrator.now }
    ensures kept { station.new ≡ record station.old { said = station.new.said } }
    ensures said { B.lost station.new.bus ≡ true → OnOk result (station.new.said ≡ true) }
    ensures counted { CountsFailures N.Teller result teller.old teller.new }
{
    if station.said {
        return Ok(());
    }
    if !station.bus.is_lost() {
        return Ok(());
    }
    station.said = true;
    teller.tell(&Event::Lost { line })
}

// Tells the events of a line after a commit: the end of a meter's readout, and the loss of the
// line.
fn tell<D: Disk + Drop, A: Allocator + Copy, B: HalfBus + Drop, N: Teller>(
    concentrator: &Concentrator<D, A>,
    station: &mut Station<'_, B>,
    line: u8,
    outcome: &mut Counts,
    teller: &mut N,
) -> Result<(), IoFault>
    requires { outcome.old.read + outcome.old.failed < 2 ^ 64 - 1 }
    ensures went { Runs D.Disk (λ core happened.
        OnOk result (Tells B.HalfBus line station.old station.new
        (TakesAll N.takes teller.old teller.new) outcome.old outcome.new core happened))
        concentrator.now concentrator.now }
    ensures few { outcome.new.read + outcome.new.failed ≤ outcome.old.read + outcome.old.failed
        + 1 }
    ensures sound { (tries : ℕ) → IsSound B.HalfBus tries station.old
        → IsSound B.HalfBus tries station.new }
    ensures fewer { OnOk result ((tries : ℕ) → rounds_of B.HalfBus 1 1 1 tries station.new
        ≤ rounds_of B.HalfBus 1 1 0 tries station.old) }
    ensures counted { CountsFailures N.Teller result teller.old teller.new }
{
    match tell_end(concentrator, station, line, outcome, teller) {
        Ok(()) => tell_loss(concentrator, station, line, teller),
        Err(fault) => Err(fault),
    }
}

/// Tells the events of all lines after a commit.
pub fn tell_all<D: Disk + Drop, A: Allocator + Copy, B: HalfBus + Drop, N: Teller>(
    concentrator: &Concentrator<D, A>,
    stations: &mut [Station<'_, B>],
    outcome: &mut Counts,
    teller: &mut N,
) -> Result<(), IoFault>
    requires lines { length stations.old ≤ most_lines }
    requires few { outcome.old.read + outcome.old.failed + most_lines < 2 ^ 64 }
    ensures went { Runs D.Disk (λ core happened.
        OnOk result (AllTells B.HalfBus stations.old stations.new
        (TakesAll N.takes teller.old teller.new) outcome.old outcome.new core happened))
        concentrator.now concentrator.now }
    ensures few { OnOk result (outcome.new.read + outcome.new.failed ≤ outcome.old.read
        + outcome.old.failed + most_lines) }
    ensures sound { OnOk result ((tries : ℕ) → All (IsSound B.HalfBus tries) stations.old
        → All (IsSound B.HalfBus tries) stations.new) }
    ensures fewer { OnOk result ((tries : ℕ)
        → EachFewer (rounds_of B.HalfBus 1 1 0 tries) (rounds_of B.HalfBus 1 1 1 tries) 0
        stations.old stations.new) }
    ensures counted { CountsFailures N.Teller result teller.old teller.new }
{
    'lines: for at in 0..stations.len() {
        match tell(
            concentrator,
            &mut stations[at],
            line_at(at),
            outcome,
            teller,
        ) {
            Ok(()) => {}
            Err(fault) => return Err(fault),
        }
    }
    Ok(())
}
