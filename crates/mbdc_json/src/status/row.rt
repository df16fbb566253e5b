//! What is shown of a registered meter.

ghost use Rattle.std.specs.Prelude.{◌≡◌, ◌≤◌, Some, None, IfSome, if◌then◌else◌};
ghost use Rattle.mbdc_change.specs.Fields.{last_moment};
ghost use Rattle.mbdc_json.specs.Row.{failed_by, is_later, number_in, row_at, taken_at, within};

use crate::journal::{Failing, Journal, Taken};
use crate::latest::{last_reading, part_in};
use crate::status::silence::{Clock, heard, is_silent};
use dc_address::Identity;
use dc_meters::{House, Place};
use mbdc_change::{Flat, LAST_MOMENT};
use std::alloc::Allocator;

/// What is shown of a registered meter, in any form.
#[derive(Clone, Copy)]
pub(crate) struct Row {
    /// Its flat.
    pub(crate) flat: Flat,
    /// The meter.
    pub(crate) meter: Identity,
    /// The moment at which it was last heard.
    pub(crate) heard: Option<u64>,
    /// Seconds since then.
    pub(crate) age: Option<u64>,
    /// Whether it is silent.
    pub(crate) is_silent: bool,
    /// The status byte of its last reading.
    pub(crate) status: Option<u8>,
    /// What the journal says, where there is one.
    pub(crate) told: Option<Told>,
}

/// What the journal says of a meter.
#[derive(Clone, Copy)]
pub(crate) struct Told {
    /// Whether the last reading is the journal's.
    pub(crate) is_noted: bool,
    /// When its last readout failed since.
    pub(crate) failed: Option<u64>,
    /// The number of that failure.
    pub(crate) number: u8,
}

/// The row of a meter at a clock.
#[tactic(auto, unfolding(crate::specs::Row::row_at, crate::specs::Row::heard_by, crate::specs::Row::status_by, crate::specs::Row::code_of))]
pub(crate) fn row_at<A: Allocator + Copy>(
    house: &House<A>,
    clock: Clock,
    journal: &Journal<A>,
    place: &Place,
) -> Row
    ensures row { result ≡ row_at clock.patience clock.now journal.now house.now.state place.now }
    ensures within { IfSome result.heard (λ moment. moment ≤ last_moment) }
    ensures told { IfSome result.told (λ told. IfSome told.failed (λ moment. moment ≤ last_moment)) }
{
    let held = heard(house, &place.meter);
    let noted = journal.of(&place.meter);
    let taken = taken_at(noted.read);
    let is_noted = is_later(taken, held);
    let heard = if is_noted { taken } else { held };
    Row {
        flat: place.flat,
        meter: place.meter,
        heard,
        age: heard.map(|moment| clock.now.saturating_sub(moment)),
        is_silent: is_silent(
            clock,
            house.confirmed(),
            noted.failing.map(|failing| failing.since),
            heard,
        ),
        status: if is_noted {
            noted.read.map(|taken| taken.status)
        } else {
            part_in(last_reading(house, &place.meter)).map(|part| part.telegram().header().status)
        },
        told: told_by(journal.is_there(), is_noted, noted.failing, heard),
    }
}

// A moment that is a time stamp.
fn within(moment: u64) -> Option<u64>
    ensures within { result ≡ within moment }
    ensures fits { IfSome result (λ moment. moment ≤ last_moment) }
{
    if moment <= LAST_MOMENT {
        Some(moment)
    } else {
        None
    }
}

/// When a reading was taken, where that is a time stamp.
pub(crate) fn taken_at(taken: Option<Taken>) -> Option<u64>
    ensures at { result ≡ taken_at taken }
    ensures fits { IfSome result (λ moment. moment ≤ last_moment) }
{
    match taken {
        Some(taken) => within(taken.moment),
        None => None,
    }
}

/// Whether the journal's reading is later than what the image holds.
pub(crate) fn is_later(noted: Option<u64>, held: Option<u64>) -> bool
    ensures { result ≡ is_later noted held }
{
    match (noted, held) {
        (None, _) => false,
        (Some(_), None) => true,
        (Some(noted), Some(held)) => noted > held,
    }
}

// When the last readout failed, where nothing was heard since.
fn failed_by(failing: Option<Failing>, heard: Option<u64>) -> Option<u64>
    ensures failed { result ≡ failed_by failing heard }
    ensures fits { IfSome result (λ moment. moment ≤ last_moment) }
{
    let failed = within(failing?.at);
    if is_later(failed, heard) {
        failed
    } else {
        None
    }
}

// What the journal says, where there is one.
fn told_by(
    is_there: bool,
    is_noted: bool,
    failing: Option<Failing>,
    heard: Option<u64>,
) -> Option<Told>
    ensures told { result ≡ (if is_there then Some (record {
      is_noted = is_noted;
      failed = failed_by failing heard;
      number = number_in failing;
    }) else None) }
    ensures fits { IfSome result (λ told. IfSome told.failed (λ moment. moment ≤ last_moment)) }
{
    if !is_there {
        return None;
    }
    let number = match failing {
        Some(failing) => failing.number,
        None => 0,
    };
    Some(Told {
        is_noted,
        failed: failed_by(failing, heard),
        number,
    })
}
