//! The last reading of each meter that has a due-date value, ordered by flat.

ghost use Rattle.std.specs.Prelude.{◌≡◌, IfOk, map, option_map};
ghost use Rattle.std.specs.BTreeMap.{get};
ghost use Rattle.dc_address.specs.Identity.{identity_cmp};
ghost use Rattle.dc_address.specs.declared.identity.Identity.{Identity};
ghost use Rattle.mbdc_change.specs.Valid.{IsState};
ghost use Rattle.dc_report.specs.DueTable.{due_readings};
ghost use Rattle.dc_report.specs.Last.{last_of};

use dc_address::Identity;
use dc_meters::{House, Place, Reading};
use dc_units::Date;
use mbdc_io::NoMemory;
use std::alloc::Allocator;
use std::collections::BTreeMap;

/// The readings of the due-date table, by flat and then by identity.
pub(crate) fn due_readings<'a, A: Allocator + Copy>(
    alloc: A,
    house: &'a House<A>,
    date: Date,
) -> Result<BTreeMap<Place, &'a Reading<A>, A>, NoMemory>
    ensures { IfOk result (λ rows. map (λ e.
        e.1.now) rows.entries ≡ due_readings date house.now.state.readings) }
{
    let last = last_readings(alloc, house, date)?;
    let mut rows = BTreeMap::new(alloc);
    for (meter, reading) in &last {
        let place = Place {
            flat: reading.flat(),
            meter: *meter,
        };
        match rows.insert(place, *reading) {
            Ok(_) => {}
            Err(_) => return Err(NoMemory),
        }
    }
    Ok(rows)
}

/// The last reading of each meter that has a value for the date: a later reading replaces an
/// earlier one.
fn last_readings<'a, A: Allocator + Copy>(
    alloc: A,
    house: &'a House<A>,
    date: Date,
) -> Result<BTreeMap<Identity, &'a Reading<A>, A>, NoMemory>
    ensures last { IfOk result (λ last. (meter : Identity) → option_map (λ r.
        r.now) (get identity_cmp last meter) ≡ last_of date meter house.now.state.readings) }
    ensures is_state { IsState house.now.budget house.now.state }
{
    let mut last = BTreeMap::new(alloc);
    for serial in house.due(date) {
        if let Some(found) = house.reading(serial) {
            match last.insert(found.meter(), found) {
                Ok(_) => {}
                Err(_) => return Err(NoMemory),
            }
        }
    }
    Ok(last)
}
