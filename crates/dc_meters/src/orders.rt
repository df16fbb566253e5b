//! The indexes of readings: serials by meter and by due date.

ghost use Rattle.std.specs.Prelude.{◌≡◌, ◌||◌, ◌&&◌, not, OnOk, OnErr};
ghost use Rattle.dc_address.specs.Identity.{identity_cmp};
ghost use Rattle.dc_meters.specs.Due.{day_cmp};
ghost use Rattle.dc_meters.specs.Orders.{found, IsUnfiled, is_under_meter, is_under_days};

use crate::Filed;
use dc_address::Identity;
use dc_units::Date;
use mbdc_io::NoMemory;
use std::alloc::Allocator;
use std::collections::BTreeSet;

/// The meter and the serial of a finished readout.
#[derive(Clone, Copy)]
pub(crate) struct Ended {
    pub(crate) meter: Identity,
    pub(crate) serial: u64,
}

/// The serials of readings, by meter and by the days for which they have a due-date value.
#[derive(Drop)]
pub(crate) struct Orders<A: Allocator + Copy> {
    pub(crate) by_meter: BTreeSet<Filed<Identity>, A>,
    pub(crate) by_day: BTreeSet<Filed<Date>, A>,
}

impl<A: Allocator + Copy> Orders<A> {
    ghost use Rattle.std.specs.Prelude.{[]};
    ghost use Rattle.dc_meters.specs.declared.filed.Filed.{Filed};
    ghost use Rattle.dc_address.specs.declared.identity.Identity.{Identity};
    ghost use Rattle.dc_units.specs.Date.{Day};

    /// Returns empty indexes.
    pub(crate) fn new(alloc: A) -> Orders<A>
        ensures meters { result.by_meter.keys ≡ [] }
        ensures days { result.by_day.keys ≡ [] }
    {
        Orders {
            by_meter: BTreeSet::new(alloc),
            by_day: BTreeSet::new(alloc),
        }
    }

    /// Adds a reading with these due days. If memory runs out, nothing is added.
    pub(crate) fn file(&mut self, ended: Ended, days: &[Date]) -> Result<(), NoMemory>
        requires no_meter { IsUnfiled identity_cmp ended.serial self.old.by_meter.keys }
        requires no_day { IsUnfiled day_cmp ended.serial self.old.by_day.keys }
        ensures meters { OnOk result ((q : Filed Identity)
            → found identity_cmp self.new.by_meter.keys q
            ≡ (found identity_cmp self.old.by_meter.keys q || is_under_meter ended.meter
            ended.serial q)) }
        ensures days { OnOk result ((q : Filed Day)
            → found day_cmp self.new.by_day.keys q
            ≡ (found day_cmp self.old.by_day.keys q || is_under_days days.now ended.serial q)) }
        ensures same_meters { OnErr result
            ((q : Filed Identity) → found identity_cmp self.new.by_meter.keys q
            ≡ found identity_cmp self.old.by_meter.keys q) }
        ensures same_days { OnErr result ((q : Filed Day) → found day_cmp self.new.by_day.keys q
            ≡ found day_cmp self.old.by_day.keys q) }
    {
        let Ended { meter, serial } = ended;
        let filed = Filed { key: meter, serial };
        self.by_meter.insert(filed)?;
        match file_days(&mut self.by_day, days, serial) {
            Ok(()) => Ok(()),
            Err(refused) => {
                self.by_meter.remove(&filed);
                Err(refused)
            }
        }
    }

    /// Removes a reading with these due days.
    pub(crate) fn unfile(&mut self, ended: Ended, days: &[Date])
        ensures meters { (q : Filed Identity)
            → found identity_cmp self.new.by_meter.keys q
            ≡ (found identity_cmp self.old.by_meter.keys q && not
            (is_under_meter ended.meter ended.serial q)) }
        ensures days { (q : Filed Day)
            → found day_cmp self.new.by_day.keys q
            ≡ (found day_cmp self.old.by_day.keys q && not
            (is_under_days days.now ended.serial q)) }
    {
        let Ended { meter, serial } = ended;
        self.by_meter.remove(&Filed { key: meter, serial });
        unfile_days(&mut self.by_day, days, serial);
    }
}

ghost use Rattle.dc_meters.specs.declared.filed.Filed.{Filed};
ghost use Rattle.dc_units.specs.Date.{Day};

/// Adds a serial under each of these days.
fn file_days<A: Allocator + Copy>(
    by_day: &mut BTreeSet<Filed<Date>, A>,
    days: &[Date],
    serial: u64,
) -> Result<(), NoMemory>
    requires { IsUnfiled day_cmp serial by_day.old.keys }
    ensures days { OnOk result ((q : Filed Day)
        → found day_cmp by_day.new.keys q
        ≡ (found day_cmp by_day.old.keys q || is_under_days days.now serial q)) }
    ensures same { OnErr result ((q : Filed Day)
        → found day_cmp by_day.new.keys q ≡ found day_cmp by_day.old.keys q) }
{
    for day in days {
        match by_day.insert(Filed { key: *day, serial }) {
            Ok(_) => {}
            Err(_) => {
                unfile_days(by_day, days, serial);
                return Err(NoMemory);
            }
        }
    }
    Ok(())
}

/// Removes a serial from under each of these days.
fn unfile_days<A: Allocator + Copy>(
    by_day: &mut BTreeSet<Filed<Date>, A>,
    days: &[Date],
    serial: u64,
)
    ensures { (q : Filed Day) → found day_cmp by_day.new.keys q
        ≡ (found day_cmp by_day.old.keys q && not (is_under_days days.now serial q)) }
{
    for day in days {
        by_day.remove(&Filed { key: *day, serial });
    }
}
