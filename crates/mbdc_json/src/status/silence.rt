//! Whether a meter is silent.

ghost use Rattle.std.specs.Prelude.{◌≡◌, ◌≤◌, IfSome, option_copied};
ghost use Rattle.mbdc_change.specs.Fields.{last_moment};
ghost use Rattle.mbdc_json.specs.Heard.{heard, is_silent, moment_of};
ghost use Rattle.mbdc_json.specs.Status.{any_silent};

use crate::journal::Journal;
use crate::latest::{last_reading, part_in};
use crate::status::row::row_at;
use dc_address::Identity;
use dc_meters::{House, Part};
use std::alloc::Allocator;

/// The moment at which a status is asked for.
#[derive(Clone, Copy)]
pub struct Clock {
    /// Seconds since 1970.
    pub now: u64,
    /// A meter that isn't heard for longer than this many seconds is silent.
    pub patience: u64,
}

/// When a part was received.
pub(crate) fn moment_of<A: Allocator>(part: Option<&Part<A>>) -> Option<u64>
    ensures moment { result ≡ moment_of (option_copied part.entry) }
    ensures within { IfSome result (λ moment. moment ≤ last_moment) }
{
    match part {
        Some(part) => Some(part.moment()),
        None => None,
    }
}

/// The moment at which a meter was last heard; none where nothing of it is held.
#[tactic(auto, unfolding(crate::specs::Heard::heard))]
pub(crate) fn heard<A: Allocator + Copy>(house: &House<A>, meter: &Identity) -> Option<u64>
    ensures heard { result ≡ heard house.now.state meter.now }
    ensures within { IfSome result (λ moment. moment ≤ last_moment) }
{
    let open = moment_of(house.meter(meter).and_then(|row| row.parts().last()));
    match (open, moment_of(part_in(last_reading(house, meter)))) {
        (None, read) => read,
        (Some(open), None) => Some(open),
        (Some(open), Some(read)) => Some(open.max(read)),
    }
}

/// Whether a meter is silent that was last heard then, and whose readouts have failed since that moment.
pub(crate) fn is_silent(
    clock: Clock,
    confirmed: u64,
    failing: Option<u64>,
    heard: Option<u64>,
) -> bool
    ensures { result ≡ is_silent clock.patience clock.now confirmed failing heard }
{
    match heard.or(failing) {
        Some(moment) if clock.now.saturating_sub(moment) > clock.patience => true,
        _ => heard.is_none() && confirmed == 0,
    }
}

/// Whether a registered meter is silent.
pub fn any_silent<A: Allocator + Copy>(house: &House<A>, clock: Clock, journal: &Journal<A>) -> bool
    ensures { result ≡ any_silent clock.patience clock.now journal.now house.now.state }
{
    for place in house.meters_by_flat() {
        if row_at(house, clock, journal, place).is_silent {
            return true;
        }
    }
    false
}
