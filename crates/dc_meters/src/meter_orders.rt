//! The indexes of the meters: by flat, and by bus line and primary address.

ghost use Rattle.std.specs.Prelude.{◌≡◌, ◌||◌, ◌&&◌, not, OnOk, OnErr, filter};
ghost use Rattle.std.specs.Map.Iter.{ShowsInOrder, deref};
ghost use Rattle.dc_meters.specs.Places.{place_cmp, bus_cmp, among, is_own, IsNowhere, is_in_flat};
ghost use Rattle.dc_meters.specs.Places.{hangs_at, is_on_bus, meter_by_flat, meter_on_bus};
ghost use Rattle.dc_meters.specs.declared.place.Place.{Place};
ghost use Rattle.dc_meters.specs.declared.place.BusPlace.{BusPlace};

use crate::Meter;
use crate::place::{BusPlace, Place};
use dc_address::{Identity, Primary};
use mbdc_io::NoMemory;
use std::alloc::Allocator;
use std::collections::BTreeSet;
use std::collections::btree_set::Range;

/// The places of the meters: each in its flat, and on the bus if it has a primary address.
#[derive(Drop)]
pub(crate) struct MeterOrders<A: Allocator + Copy> {
    pub(crate) by_flat: BTreeSet<Place, A>,
    pub(crate) on_bus: BTreeSet<BusPlace, A>,
}

impl<A: Allocator + Copy> MeterOrders<A> {
    ghost use Rattle.std.specs.Prelude.{[]};

    /// Returns empty indexes.
    pub(crate) fn new(alloc: A) -> MeterOrders<A>
        ensures flats { result.by_flat.keys ≡ [] }
        ensures bus { result.on_bus.keys ≡ [] }
    {
        MeterOrders {
            by_flat: BTreeSet::new(alloc),
            on_bus: BTreeSet::new(alloc),
        }
    }

    /// Adds the places of a meter that has none. If memory runs out, it has none.
    pub(crate) fn file(&mut self, meter: Identity, row: &Meter<A>) -> Result<(), NoMemory>
        requires no_flat { IsNowhere place_cmp meter_by_flat meter self.old.by_flat.keys }
        ensures flats { OnOk result ((q : Place)
            → among place_cmp self.new.by_flat.keys q
            ≡ (among place_cmp self.old.by_flat.keys q || is_own meter_by_flat is_in_flat meter
            row.now q)) }
        ensures bus { OnOk result ((q : BusPlace)
            → among bus_cmp self.new.on_bus.keys q
            ≡ (among bus_cmp self.old.on_bus.keys q || is_own meter_on_bus hangs_at meter row.now
            q)) }
        ensures same_flats { OnErr result ((q : Place) → among place_cmp self.new.by_flat.keys q
            ≡ among place_cmp self.old.by_flat.keys q) }
        ensures same_bus { OnErr result ((q : BusPlace) → among bus_cmp self.new.on_bus.keys q
            ≡ among bus_cmp self.old.on_bus.keys q) }
    {
        let place = Place {
            flat: row.flat(),
            meter,
        };
        self.by_flat.insert(place)?;
        match hang(&mut self.on_bus, meter, row) {
            Ok(()) => Ok(()),
            Err(refused) => {
                self.by_flat.remove(&place);
                Err(refused)
            }
        }
    }

    /// Removes a meter's places.
    pub(crate) fn unfile(&mut self, meter: Identity, row: &Meter<A>)
        ensures flats { (q : Place) → among place_cmp self.new.by_flat.keys q
            ≡ (among place_cmp self.old.by_flat.keys q && not
            (is_own meter_by_flat is_in_flat meter row.now q)) }
        ensures bus { (q : BusPlace) → among bus_cmp self.new.on_bus.keys q
            ≡ (among bus_cmp self.old.on_bus.keys q && not
            (is_own meter_on_bus hangs_at meter row.now q)) }
    {
        self.by_flat.remove(&Place {
            flat: row.flat(),
            meter,
        });
        unhang(&mut self.on_bus, meter, row);
    }

    /// The places of the meters with this primary address on this bus line.
    pub(crate) fn at(&self, line: u8, address: Primary) -> Range<'_, BusPlace>
        ensures places { result ≡ filter (is_on_bus line address) self.now.on_bus.keys }
        ensures runs { ShowsInOrder (deref {X = BusPlace}) }
    {
        let meter = Identity::least();
        let address = address.get();
        let first = BusPlace {
            line,
            address,
            meter,
        };
        let behind = BusPlace {
            line,
            address: address + 1,
            meter,
        };
        self.on_bus.range(first..behind)
    }
}

/// Adds a meter's place on the bus, if it has a primary address.
fn hang<A: Allocator + Copy>(
    on_bus: &mut BTreeSet<BusPlace, A>,
    meter: Identity,
    row: &Meter<A>,
) -> Result<(), NoMemory>
    ensures bus { OnOk result ((q : BusPlace)
        → among bus_cmp on_bus.new.keys q
        ≡ (among bus_cmp on_bus.old.keys q || is_own meter_on_bus hangs_at meter row.now q)) }
    ensures same { OnErr result ((q : BusPlace)
        → among bus_cmp on_bus.new.keys q ≡ among bus_cmp on_bus.old.keys q) }
{
    if let Some(address) = row.address() {
        on_bus.insert(BusPlace {
            line: row.line(),
            address: address.get(),
            meter,
        })?;
    }
    Ok(())
}

/// Removes a meter's place on the bus.
fn unhang<A: Allocator + Copy>(on_bus: &mut BTreeSet<BusPlace, A>, meter: Identity, row: &Meter<A>)
    ensures { (q : BusPlace) → among bus_cmp on_bus.new.keys q
        ≡ (among bus_cmp on_bus.old.keys q && not (is_own meter_on_bus hangs_at meter row.now q)) }
{
    if let Some(address) = row.address() {
        on_bus.remove(&BusPlace {
            line: row.line(),
            address: address.get(),
            meter,
        });
    }
}
