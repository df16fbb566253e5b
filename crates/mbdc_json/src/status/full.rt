//! In how many days an image is full.

ghost use Rattle.std.specs.Prelude.{◌≡◌, option_copied};
ghost use Rattle.mbdc_json.specs.Status.{began, bytes_a_day, days_left, first_moment};

use crate::status::silence::moment_of;
use dc_meters::{House, Reading};
use mbdc_shown::EMPTY;
use std::alloc::Allocator;

const SECONDS_A_DAY: u64 = 86_400;

// When a reading began.
fn began<A: Allocator>(reading: Option<&Reading<A>>) -> Option<u64>
    ensures { result ≡ began (option_copied reading.entry) }
{
    match reading {
        Some(reading) => moment_of(reading.parts().first()),
        None => None,
    }
}

fn first_moment<A: Allocator + Copy>(house: &House<A>) -> Option<u64>
    ensures { result ≡ first_moment house.now.state }
{
    began(house.readings().front())
}

// The number of bytes a day at which what is held came.
fn bytes_a_day<A: Allocator + Copy>(house: &House<A>, now: u64, first: Option<u64>) -> u64
    ensures { result ≡ bytes_a_day now house.now.state first }
{
    match first {
        Some(first) => {
            let days = (now.saturating_sub(first) / SECONDS_A_DAY).max(1);
            u64::from(house.size() - EMPTY) / days
        }
        None => 0,
    }
}

/// In how many days the image is full at this pace; none where there is no pace.
pub(crate) fn days_left<A: Allocator + Copy>(house: &House<A>, now: u64) -> Option<u64>
    ensures { result ≡ days_left house.now.budget now house.now.state }
{
    let pace = bytes_a_day(house, now, first_moment(house));
    if pace == 0 {
        return None;
    }
    Some(u64::from(house.budget() - house.size()) / pace)
}
