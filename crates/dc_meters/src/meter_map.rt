//! The registered meters, and their indexes.

ghost use Rattle.std.specs.Prelude.{◌≡◌, ◌+◌, ◌<◌, ◌^◌, ◌∷◌, ◌++◌, [], Option, None, Some, true};
ghost use Rattle.std.specs.Prelude.{false, All, OnOk, OnErr, IfOk, IfNone, is_some, option_copied};
ghost use Rattle.std.specs.Prelude.{not, ◌&&◌};
ghost use Rattle.std.specs.List.{list_any};
ghost use Rattle.std.specs.List.Sorted.{IsStrictlySortedBy};
ghost use Rattle.std.specs.Map.{lookup, keys_of, values_of, set_value, remove_entry};
ghost use Rattle.std.specs.BTreeMap.{is_at, insert_entry, UpdatesBy};
ghost use Rattle.dc_address.specs.declared.identity.Identity.{Identity};
ghost use Rattle.dc_address.specs.Identity.{identity_cmp};
ghost use Rattle.mbdc_change.specs.Accepts.{continues, occupies};
ghost use Rattle.mbdc_change.specs.Apply.{joined};
ghost use Rattle.mbdc_change.specs.Flat.{IsFlat};
ghost use Rattle.mbdc_change.specs.Size.{reading_size, meter_size};
ghost use Rattle.mbdc_change.specs.State.{MeterRow};
ghost use Rattle.mbdc_change.specs.Valid.{IsMeter, IsPart, IsReading};
ghost use Rattle.dc_meters.specs.Places.{by_flat, moved_in, IsWrittenOver, IsRead};

use crate::meter_orders::MeterOrders;
use crate::orders::Ended;
use crate::place::Place;
use crate::{Meter, Part, ReadingList};
use dc_address::{Identity, Primary};
use mbdc_change::Flat;
use mbdc_io::NoMemory;
use std::alloc::Allocator;
use std::collections::{BTreeMap, btree_map, btree_set};
use std::marker::Model;

/// The registered meters by identity, and their indexes by flat and on the bus.
#[derive(Drop)]
pub(crate) struct MeterMap<A: Allocator + Copy> {
    rows: BTreeMap<Identity, Meter<A>, A>,
    orders: MeterOrders<A>,
}

impl<A: Allocator + Copy> Model for MeterMap<A> {
    ghost use Rattle.dc_meters.specs.Places.{MeterRows, AreIndexed};

    ghost Value = { MeterRows };

    ghost view = { λ m. record { entries = m.rows.entries } };

    ghost invariant = { λ m. AreIndexed m.orders.by_flat.keys m.orders.on_bus.keys m.rows.entries };
}

impl<A: Allocator + Copy> MeterMap<A> {
    /// Returns an empty map.
    pub(crate) fn new(alloc: A) -> MeterMap<A>
        ensures { result.entries ≡ [] }
    {
        MeterMap {
            rows: BTreeMap::new(alloc),
            orders: MeterOrders::new(alloc),
        }
    }

    /// The meters' rows, by identity.
    pub(crate) fn rows(&self) -> &BTreeMap<Identity, Meter<A>, A>
        ensures { result.now.entries ≡ self.now.entries }
    {
        &self.rows
    }

    /// A meter's row.
    pub(crate) fn get(&self, meter: &Identity) -> Option<&Meter<A>>
        ensures value { option_copied result
            ≡ lookup (is_at (identity_cmp meter.now)) self.now.entries }
    {
        self.rows.get(meter)
    }

    /// Whether a meter is registered.
    pub(crate) fn contains_key(&self, meter: &Identity) -> bool
        ensures { result ≡ is_some (lookup (is_at (identity_cmp meter.now)) self.now.entries) }
    {
        self.rows.contains_key(meter)
    }

    /// The meters, by identity.
    pub(crate) fn iter(&self) -> btree_map::Iter<'_, Identity, Meter<A>>
        ensures { result ≡ self.now.entries }
    {
        self.rows.iter()
    }

    /// The meters' places: by flat, and in a flat by identity.
    pub(crate) fn by_flat(&self) -> btree_set::Iter<'_, Place>
        ensures { result ≡ by_flat self.now.entries }
    {
        self.orders.by_flat.iter()
    }

    /// Whether a meter has this primary address on this bus line.
    pub(crate) fn is_taken(&self, line: u8, address: Primary) -> bool
        ensures { result ≡ list_any (occupies line (Some address)) (values_of self.now.entries) }
    {
        self.orders.at(line, address).next().is_some()
    }

    /// Whether a meter other than this one has the address.
    pub(crate) fn is_taken_by_other(&self, old: &Identity, line: u8, address: Primary) -> bool
        ensures { result ≡ list_any (λ e.
            not (is_at (identity_cmp old.now) e.0) && occupies line (Some address) e.1)
            self.now.entries }
    {
        self.orders
            .at(line, address)
            .any(|place| old.cmp(&place.meter).is_ne())
    }

    /// Adds a meter.
    pub(crate) fn insert(&mut self, meter: Identity, row: Meter<A>) -> Result<(), NoMemory>
        requires absent { lookup (is_at (identity_cmp meter)) self.old.entries ≡ None }
        ensures entries { OnOk result (self.new.entries
            ≡ insert_entry identity_cmp self.old.entries meter row) }
        ensures others { OnOk result ((k : Identity) → is_at (identity_cmp meter) k ≡ false
            → lookup (is_at (identity_cmp k)) self.new.entries
            ≡ lookup (is_at (identity_cmp k)) self.old.entries) }
        ensures err { OnErr result (self.new ≡ self.old) }
        ensures ordered { IsStrictlySortedBy identity_cmp (keys_of self.new.entries) }
    {
        self.orders.file(meter, &row)?;
        match self.rows.insert(meter, row) {
            Ok(_) => Ok(()),
            Err(refused) => {
                let (meter, row) = refused.value;
                self.orders.unfile(meter, &row);
                Err(NoMemory)
            }
        }
    }

    /// Removes a meter.
    pub(crate) fn remove(&mut self, meter: &Identity) -> Option<Meter<A>>
        ensures value { result ≡ lookup (is_at (identity_cmp meter.now)) self.old.entries }
        ensures entries { self.new.entries
            ≡ remove_entry (is_at (identity_cmp meter.now)) self.old.entries }
        ensures unchanged { IfNone result (self.new ≡ self.old) }
        ensures ordered { IsStrictlySortedBy identity_cmp (keys_of self.new.entries) }
    {
        let row = self.rows.remove(meter)?;
        self.orders.unfile(*meter, &row);
        Some(row)
    }

    /// Assigns a registered meter to another flat.
    pub(crate) fn move_to(&mut self, meter: Identity, flat: Flat) -> Result<(), NoMemory>
        requires { IsFlat flat }
        ensures entries { OnOk result (self.new.entries
            ≡ moved_in meter flat (lookup (is_at (identity_cmp meter)) self.old.entries)
            self.old.entries) }
        ensures err { OnErr result (self.new ≡ self.old) }
    {
        let before = match self.rows.get(&meter) {
            None => return Ok(()),
            Some(row) => row.flat(),
        };
        if !self.orders.by_flat.insert(Place { flat, meter })? {
            // It is in that flat already.
            return Ok(());
        }
        let row = self.rows.get_mut(&meter).unwrap();
        row.set_flat(flat);
        self.orders.by_flat.remove(&Place {
            flat: before,
            meter,
        });
        Ok(())
    }

    /// Adds a part of a registered meter's readout that isn't the last; returns the meter's size
    /// after it.
    #[tactic(auto, using(std::proofs::lemmas::Map::Steps::set_value_same))]
    pub(crate) fn join(
        &mut self,
        alloc: A,
        meter: &Identity,
        number: u8,
        part: Part<A>,
    ) -> Result<u32, NoMemory>
        requires continues { continues number
            (lookup (is_at (identity_cmp meter.now)) self.old.entries) ≡ true }
        requires part_is { IsPart part }
        ensures joined { IfOk result (λ size.
            (row : MeterRow) → lookup (is_at (identity_cmp meter.now)) self.old.entries ≡ Some row
            → IsWrittenOver meter.now (record row { parts = joined number part row.parts }) size
            self.old.entries self.new.entries) }
        ensures err { OnErr result (self.new ≡ self.old) }
    {
        let Some(row) = self.rows.get_mut(meter) else {
            unreachable!()
        };
        row.join(alloc, number, part)?;
        Ok(row.size())
    }

    /// Adds the part that ends a registered meter's readout, which becomes a reading; returns the
    /// reading's size.
    #[tactic(auto, using(std::proofs::lemmas::Map::Steps::set_value_same))]
    pub(crate) fn finish(
        &mut self,
        alloc: A,
        number: u8,
        part: Part<A>,
        ended: Ended,
        readings: &mut ReadingList<A>,
    ) -> Result<u32, NoMemory>
        requires continues { continues number
            (lookup (is_at (identity_cmp ended.meter)) self.old.entries) ≡ true }
        requires part_is { IsPart part }
        requires later { All (λ r. r.serial < ended.serial) readings.old.items }
        requires fits { ended.serial < 2 ^ 64 }
        ensures closed { OnOk result ((row : MeterRow)
            → lookup (is_at (identity_cmp ended.meter)) self.old.entries ≡ Some row
            → self.new.entries ≡ set_value (is_at (identity_cmp ended.meter)) self.old.entries
            (record row { parts = [] })) }
        ensures read { IfOk result (λ size.
            (row : MeterRow) → lookup (is_at (identity_cmp ended.meter)) self.old.entries ≡ Some row
            → IsRead (record {
              serial = ended.serial;
              meter = ended.meter;
              flat = row.flat;
              parts = joined number part row.parts;
            }) size readings.old.items readings.new.items) }
        ensures err { OnErr result (self.new ≡ self.old) }
        ensures unread { OnErr result (readings.new ≡ readings.old) }
    {
        let Some(row) = self.rows.get_mut(&ended.meter) else {
            unreachable!()
        };
        let size = row.finish(alloc, number, part, ended, readings)?;
        Ok(size)
    }
}
