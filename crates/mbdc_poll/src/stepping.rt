//! One step of a line: it begins its next meter and sends its request, or takes an answer.

ghost use Rattle.std.specs.Prelude.{◌≡◌, ◌<◌, ◌≤◌, ◌-◌, ◌∷◌, ℕ, length, drop, true, false};
ghost use Rattle.mbdc_poll.specs.Keeping.{IsAsking, is_accepted};
ghost use Rattle.mbdc_poll.specs.Queue.{most_asks};
ghost use Rattle.mbdc_poll.specs.Round.{HearsOne, Runs, Steps};
ghost use Rattle.mbdc_poll.specs.Station.{IsSound, is_answered, rounds_of};
ghost use Rattle.mbdc_poll.specs.declared.phase.Phase.TheVariants.{Free, Busy};
ghost use Rattle.mbdc_poll.specs.declared.phase.Request.TheVariants.{Quiet};

use crate::end::End;
use crate::phase::{Phase, Request};
use crate::station::{MOST_ASKS, Station, taken_of};
use dc_address::Identity;
use dc_core::{Concentrator, HearFault, LineHeard};
use dc_readout::Why;
use dc_sectors::Disk;
use mbdc_bus::HalfBus;
use mbdc_change::Moment;
use std::alloc::Allocator;

/// A line that has no request out and meters left begins the next one and asks, or asks.
pub fn step<D: Disk + Drop, A: Allocator + Copy, B: HalfBus + Drop>(
    concentrator: &mut Concentrator<D, A>,
    station: &mut Station<'_, B>,
    line: u8,
    tries: u8,
)
    requires { IsSound B.HalfBus tries station.old }
    ensures went { Runs D.Disk (λ core happened.
        Steps B.HalfBus tries line IsAsking station.old station.new happened)
        concentrator.old concentrator.new }
    ensures sound { IsSound B.HalfBus tries station.new }
    ensures fewer { rounds_of B.HalfBus 0 0 0 tries station.new
        ≤ rounds_of B.HalfBus 1 1 1 tries station.old - 1 }
    ensures budget { concentrator.new.house.budget ≡ concentrator.old.house.budget }
{
    let Request::Quiet = &station.request else {
        return;
    };
    let Some(meter) = station.present() else {
        return;
    };
    match station.phase {
        Phase::Free => go_on(concentrator, station, line, meter, tries),
        Phase::Busy(asks) => ask(concentrator, station, line, meter, asks),
        _ => {}
    }
}

// A line that is free goes on in its pass, or in the next one.
fn go_on<D: Disk + Drop, A: Allocator + Copy, B: HalfBus + Drop>(
    concentrator: &mut Concentrator<D, A>,
    station: &mut Station<'_, B>,
    line: u8,
    meter: Identity,
    tries: u8,
)
    requires sound { IsSound B.HalfBus tries station.old }
    requires free { station.old.phase ≡ Free }
    requires first { station.old.left.now ≡ meter ∷ drop 1 station.old.left.now }
    ensures went { Runs D.Disk (λ core happened.
        Steps B.HalfBus tries line IsAsking station.old station.new happened)
        concentrator.old concentrator.new }
    ensures sound { IsSound B.HalfBus tries station.new }
    ensures fewer { rounds_of B.HalfBus 0 0 0 tries station.new
        ≤ rounds_of B.HalfBus 1 1 1 tries station.old - 1 }
    ensures budget { concentrator.new.house.budget ≡ concentrator.old.house.budget }
{
    station.pass_on();
    prepare(concentrator, station, line, meter, tries);
}

// It begins its next meter.
fn prepare<D: Disk + Drop, A: Allocator + Copy, B: HalfBus + Drop>(
    concentrator: &mut Concentrator<D, A>,
    station: &mut Station<'_, B>,
    line: u8,
    meter: Identity,
    tries: u8,
)
    requires sound { IsSound B.HalfBus tries station.old }
    requires free { station.old.phase ≡ Free }
    requires due { 0 < station.old.due }
    requires first { station.old.left.now ≡ meter ∷ drop 1 station.old.left.now }
    ensures went { Runs D.Disk (λ core happened.
        Steps B.HalfBus tries line IsAsking station.old station.new happened)
        concentrator.old concentrator.new }
    ensures sound { IsSound B.HalfBus tries station.new }
    ensures fewer { rounds_of B.HalfBus 0 0 0 tries station.new
        ≤ rounds_of B.HalfBus 1 1 1 tries station.old - 1 }
    ensures budget { concentrator.new.house.budget ≡ concentrator.old.house.budget }
{
    if start(concentrator, station, line, meter, tries) {
        ask(concentrator, station, line, meter, MOST_ASKS);
    }
}

// Begins a meter. Whether its readout goes on.
fn start<D: Disk + Drop, A: Allocator + Copy, B: HalfBus + Drop>(
    concentrator: &mut Concentrator<D, A>,
    station: &mut Station<'_, B>,
    line: u8,
    meter: Identity,
    tries: u8,
) -> bool
    requires sound { IsSound B.HalfBus tries station.old }
    requires free { station.old.phase ≡ Free }
    requires due { 0 < station.old.due }
    requires first { station.old.left.now ≡ meter ∷ drop 1 station.old.left.now }
    ensures went { Runs D.Disk (λ core happened.
        Steps B.HalfBus tries line IsAsking station.old station.new happened)
        concentrator.old concentrator.new }
    ensures sound { IsSound B.HalfBus tries station.new }
    ensures fewer { rounds_of B.HalfBus 1 1 1 tries station.new
        ≤ rounds_of B.HalfBus 1 1 1 tries station.old - 1 }
    ensures busy { result ≡ true → (station.new.phase ≡ Busy most_asks)
        × (station.new.request ≡ Quiet)
        × (station.new.left.now ≡ station.old.left.now) }
    ensures budget { concentrator.new.house.budget ≡ concentrator.old.house.budget }
{
    let answer = concentrator.start(line, &meter);
    station.started(meter, answer);
    answer.is_ok()
}

// Sends the next request of a meter that may ask so often yet.
fn ask<D: Disk + Drop, A: Allocator + Copy, B: HalfBus + Drop>(
    concentrator: &Concentrator<D, A>,
    station: &mut Station<'_, B>,
    line: u8,
    meter: Identity,
    asks: u8,
)
    requires busy { station.old.phase ≡ Busy asks }
    requires quiet { station.old.request ≡ Quiet }
    requires first { station.old.left.now ≡ meter ∷ drop 1 station.old.left.now }
    ensures went { (tries : ℕ) → IsSound B.HalfBus tries station.old
        → Runs D.Disk (λ core happened.
        Steps B.HalfBus tries line IsAsking station.old station.new happened)
        concentrator.now concentrator.now }
    ensures sound { (tries : ℕ) → IsSound B.HalfBus tries station.old
        → IsSound B.HalfBus tries station.new }
    ensures fewer { (tries : ℕ) → IsSound B.HalfBus tries station.old
        → rounds_of B.HalfBus 0 0 0 tries station.new
        ≤ rounds_of B.HalfBus 1 1 1 tries station.old - 1 }
{
    if asks == 0 {
        station.leave(End::Failed(meter, Why::NoAnswer));
        return;
    }
    let request = concentrator.ask(line);
    station.asked(meter, asks - 1, request);
}

/// Takes the answer to a request that is out, if it is complete; returns whether a telegram was
/// accepted.
pub fn hear<D: Disk + Drop, A: Allocator + Copy, B: HalfBus + Drop>(
    concentrator: &mut Concentrator<D, A>,
    station: &mut Station<'_, B>,
    line: u8,
    tries: u8,
    moment: Moment,
) -> bool
    requires { IsSound B.HalfBus tries station.old }
    ensures went { Runs D.Disk (λ core happened.
        HearsOne B.HalfBus tries line moment.seconds result station.old station.new happened)
        concentrator.old concentrator.new }
    ensures sound { IsSound B.HalfBus tries station.new }
    ensures fewer { rounds_of B.HalfBus 1 0 0 tries station.new
        ≤ rounds_of B.HalfBus 0 0 0 tries station.old }
    ensures budget { concentrator.new.house.budget ≡ concentrator.old.house.budget }
{
    if !station.listen() {
        return false;
    }
    judge(concentrator, station, line, tries, moment)
}

// Judges the answer to a request.
fn judge<D: Disk + Drop, A: Allocator + Copy, B: HalfBus + Drop>(
    concentrator: &mut Concentrator<D, A>,
    station: &mut Station<'_, B>,
    line: u8,
    tries: u8,
    moment: Moment,
) -> bool
    requires sound { IsSound B.HalfBus tries station.old }
    requires answered { is_answered station.old.request ≡ true }
    ensures went { Runs D.Disk (λ core happened.
        HearsOne B.HalfBus tries line moment.seconds result station.old station.new happened)
        concentrator.old concentrator.new }
    ensures sound { IsSound B.HalfBus tries station.new }
    ensures fewer { rounds_of B.HalfBus 1 0 0 tries station.new
        ≤ rounds_of B.HalfBus 0 0 0 tries station.old }
    ensures budget { concentrator.new.house.budget ≡ concentrator.old.house.budget }
{
    let Phase::Busy(asks) = station.phase else {
        return false;
    };
    let Some(meter) = station.present() else {
        return false;
    };
    let answer = concentrator.hear(line, moment.seconds, taken_of(&station.request));
    station.judged(meter, asks, tries, answer);
    is_accepted(&answer)
}

// Whether a telegram was accepted.
fn is_accepted(answer: &Result<LineHeard, HearFault>) -> bool
    ensures { result ≡ is_accepted answer.now }
{
    matches!(answer, Ok(LineHeard::Accepted { .. }))
}
