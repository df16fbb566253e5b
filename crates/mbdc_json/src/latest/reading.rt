//! The reading that is shown of a meter.

ghost use Rattle.std.specs.Prelude.{◌≡◌, ◌≤◌, IfSome, option_copied};
ghost use Rattle.mbdc_change.specs.Fields.{last_moment};
ghost use Rattle.mbdc_json.specs.Heard.{part_in};
ghost use Rattle.mbdc_json.specs.LatestValues.{last_reading};
ghost use Rattle.mbdc_json.specs.Shown.{noted_shown, shown_of};

use crate::journal::Journal;
use crate::status::{is_later, moment_of, taken_at};
use dc_address::Identity;
use dc_meters::{House, Part, Reading};
use mbdc_shown::Bodies;
use std::alloc::Allocator;

/// A reading as it is shown.
#[derive(Drop)]
pub struct Shown<'a> {
    /// Its serial.
    pub serial: u64,
    /// The time stamp of its last telegram, in seconds since 1970.
    pub moment: u64,
    /// The status byte of that telegram.
    pub status: u8,
    /// Whether it is the journal's.
    pub is_noted: bool,
    /// The bodies of its telegrams.
    pub bodies: Bodies<'a>,
}

/// What is shown of a meter: its last reading that the register holds, or that of the journal, where it is later.
pub(crate) fn shown_of<'a, A: Allocator + Copy>(
    house: &'a House<A>,
    journal: &'a Journal<A>,
    meter: &Identity,
) -> Option<Shown<'a>>
    ensures shown { result ≡ shown_of journal.now house.now.state meter.now }
    ensures within { IfSome result (λ shown. shown.moment ≤ last_moment) }
{
    let held = last_reading(house, meter);
    if let Some(shown) = noted_shown(journal, meter, moment_of(part_in(held))) {
        return Some(shown);
    }
    let reading = held?;
    let part = reading.parts().last()?;
    Some(Shown {
        serial: reading.serial(),
        moment: part.moment(),
        status: part.telegram().header().status,
        is_noted: false,
        bodies: Bodies::of(reading.parts()),
    })
}

// The journal's last reading of a meter, where it is later than this moment and the line has its telegrams.
fn noted_shown<'a, A: Allocator + Copy>(
    journal: &'a Journal<A>,
    meter: &Identity,
    held: Option<u64>,
) -> Option<Shown<'a>>
    ensures shown { result ≡ noted_shown journal.now meter.now held }
    ensures within { IfSome result (λ shown. shown.moment ≤ last_moment) }
{
    let taken = journal.of(meter).read?;
    let moment = taken_at(Some(taken))?;
    let bodies = journal.bodies_of(meter);
    if bodies.len() == 0 || !is_later(Some(moment), held) {
        return None;
    }
    Some(Shown {
        serial: taken.serial,
        moment,
        status: taken.status,
        is_noted: true,
        bodies,
    })
}

/// The last reading of a meter that the register holds; none where the office has confirmed all, or none was taken.
pub(crate) fn last_reading<'a, A: Allocator + Copy>(
    house: &'a House<A>,
    meter: &Identity,
) -> Option<&'a Reading<A>>
    ensures { option_copied result ≡ last_reading meter.now house.now.state }
{
    let mut last = None;
    for serial in house.serials_of(meter) {
        last = Some(serial);
    }
    house.reading(last?)
}

/// The last part of a reading.
pub(crate) fn part_in<A: Allocator>(reading: Option<&Reading<A>>) -> Option<&Part<A>>
    ensures { option_copied result ≡ part_in (option_copied reading.entry) }
{
    match reading {
        Some(reading) => reading.parts().last(),
        None => None,
    }
}
