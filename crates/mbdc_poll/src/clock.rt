//! The clock of a poll and the time stamps of the register.

ghost use Rattle.std.specs.Prelude.{◌≡◌};
ghost use Rattle.std.specs.List.{list_any};
ghost use Rattle.mbdc_poll.specs.Clock.{ComparesClock, has_later};

use crate::timer::Timer;
use dc_meters::{House, Part};
use mbdc_bus::HalfBus;
use mbdc_change::Moment;
use std::alloc::Allocator;

/// Warns the timer where its moment lies before the newest time stamp of the register.
pub fn compare_clock<A: Allocator + Copy, B: HalfBus + Drop, T: Timer<B>>(
    house: &House<A>,
    timer: &mut T,
)
    ensures { ComparesClock T.tells T.warns house.now.state timer.old timer.new }
{
    let moment = timer.now();
    if has_later_reading(house, moment) || has_later_readout(house, moment) {
        timer.warn();
    }
}

// Whether a telegram of a reading has a later time stamp.
fn has_later_reading<A: Allocator + Copy>(house: &House<A>, moment: Moment) -> bool
    ensures { result ≡ list_any (λ row. has_later moment.seconds row.parts)
        house.now.state.readings }
{
    house
        .readings()
        .iter()
        .any(|reading| has_later(reading.parts(), moment))
}

// Whether a telegram of a readout that isn't finished has one.
fn has_later_readout<A: Allocator + Copy>(house: &House<A>, moment: Moment) -> bool
    ensures { result ≡ list_any (λ row. has_later moment.seconds row.1.parts)
        house.now.state.meters }
{
    house
        .meters()
        .any(|(_, row)| has_later(row.parts(), moment))
}

// Whether one of these telegrams has one.
fn has_later<A: Allocator>(parts: &[Part<A>], moment: Moment) -> bool
    ensures { result ≡ has_later moment.seconds parts.now }
{
    parts.iter().any(|part| moment.seconds < part.moment())
}
