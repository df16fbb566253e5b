//! The newest reading of a meter in a register.

ghost use Rattle.std.specs.Prelude.{◌≡◌, option_copied};
ghost use Rattle.mbdc_poll.specs.Happening.{newest_serial, newest_bodies, newest_last};
ghost use Rattle.mbdc_poll.specs.Happening.{bodies_in, last_in};
ghost use Rattle.mbdc_poll.specs.declared.event.Event.TheVariants.{Read};

use crate::event::Event;
use crate::last_part::LastPart;
use dc_address::Identity;
use dc_meters::{House, Reading};
use mbdc_shown::Bodies;
use std::alloc::Allocator;

/// The event of a meter that was read, with its newest reading; the serial is 0 if there isn't one.
pub(crate) fn newest_reading<A: Allocator + Copy>(house: &House<A>, meter: Identity) -> Event<'_>
    ensures { result ≡ Read meter (newest_serial meter house.now.state)
        (newest_bodies meter house.now.state) (newest_last meter house.now.state) }
{
    let mut newest = 0;
    for serial in house.serials_of(&meter) {
        newest = serial;
    }
    let reading = house.reading(newest);
    Event::Read {
        meter,
        serial: newest,
        bodies: bodies_in(reading),
        last: last_in(reading),
    }
}

// The bodies of a reading's telegrams.
fn bodies_in<A: Allocator>(reading: Option<&Reading<A>>) -> Bodies<'_>
    ensures { result ≡ bodies_in (option_copied reading.entry) }
{
    match reading {
        Some(reading) => Bodies::of(reading.parts()),
        None => Bodies::none(),
    }
}

// The last part of a reading.
fn last_in<A: Allocator>(reading: Option<&Reading<A>>) -> Option<LastPart<'_>>
    ensures { result ≡ last_in (option_copied reading.entry) }
{
    let parts = reading?.parts();
    let last = parts.get(parts.len().saturating_sub(1))?;
    Some(LastPart::of(last))
}
