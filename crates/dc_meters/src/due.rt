//! The due-date value of a readout.

ghost use Rattle.std.specs.Prelude.{◌≡◌, ℕ, OnOk, IfOk};
ghost use Rattle.std.specs.Option.{option_or};
ghost use Rattle.std.specs.Ordering.{nat_cmp};
ghost use Rattle.std.specs.BTreeMap.{get};
ghost use Rattle.std.specs.List.{list_any};
ghost use Rattle.dc_meters.specs.Points.{points_of};
ghost use Rattle.dc_meters.specs.Due.{is_dating, dating_day, day_for, dated, is_stored, due_day};
ghost use Rattle.dc_meters.specs.Due.{is_due, due_value, due_days};

use crate::{Part, Points};
use dc_units::{Date, Point};
use mbdc_io::NoMemory;
use std::alloc::Allocator;
use std::collections::BTreeMap;
use std::marker::Model;

/// The days of a readout's storage numbers, looked up once for all its points (OMS Volume 2,
/// due-date values). Contracts see the readout's parts.
#[derive(Drop)]
pub struct StorageDates<'a, A: Allocator + Copy> {
    parts: &'a [Part<A>],
    days: BTreeMap<u64, Date, A>,
}

impl<'a, A: Allocator + Copy> Model for StorageDates<'a, A> {
    ghost use Rattle.std.specs.Prelude.{List};
    ghost use Rattle.mbdc_change.specs.State.{PartRow};
    ghost use Rattle.dc_meters.specs.Points.{points_of};
    ghost use Rattle.dc_meters.specs.Due.{AreDays};

    ghost Value = { List PartRow };

    ghost view = { λ d. d.parts.now };

    ghost invariant = { λ d. AreDays (points_of d.parts.now) d.days };
}

impl<'a, A: Allocator + Copy> StorageDates<'a, A> {
    /// Looks up the days in a readout with these parts. It allocates for each storage number that
    /// has a day.
    pub fn of(alloc: A, parts: &'a [Part<A>]) -> Result<StorageDates<'a, A>, NoMemory>
        ensures { IfOk result (λ dates. dates ≡ parts.now) }
    {
        let mut days = BTreeMap::new(alloc);
        'points: for point in Points::of(parts) {
            keep_first(&mut days, &point)?;
        }
        Ok(StorageDates { parts, days })
    }

    /// The day of a storage number: the first one that a date, or a date and time, of function 0,
    /// tariff 0 and subunit 0 gives it.
    pub fn day(&self, storage: u64) -> Option<Date>
        ensures { result ≡ dated storage (points_of self.now) }
    {
        self.days.get(&storage).copied()
    }

    /// The day at which a point's value was stored; `None` for a date, and for a current value.
    pub fn due_day(&self, point: &Point) -> Option<Date>
        ensures { result ≡ due_day (points_of self.now) point.now }
    {
        if is_stored(point) {
            self.day(point.storage)
        } else {
            None
        }
    }

    /// Whether a point belongs to the due-date value for a date.
    pub fn is_due(&self, point: &Point, date: Date) -> bool
        ensures { result ≡ is_due date (points_of self.now) point.now }
    {
        match self.due_day(point) {
            None => false,
            Some(day) => day == date,
        }
    }

    /// The due-date value for a date: its points, in order of parts and records.
    pub fn due_points(&self, date: Date) -> DuePoints<'_, 'a, A>
        ensures { result ≡ due_value date (points_of self.now) }
    {
        let points = Points::of(self.parts);
        DuePoints {
            points,
            dates: self,
            date,
        }
    }

    /// The days for which there is a due-date value: the day of each of its points, so a day may
    /// occur more than once.
    pub fn due_days(&self) -> DueDays<'_, 'a, A>
        ensures { result ≡ due_days (points_of self.now) }
    {
        DueDays {
            points: Points::of(self.parts),
            dates: self,
        }
    }

    /// Whether there is a due-date value for a date.
    pub fn has_value(&self, date: Date) -> bool
        ensures { result ≡ list_any (is_due date (points_of self.now)) (points_of self.now) }
    {
        self.due_points(date).next().is_some()
    }
}

/// The points of a due-date value. Contracts see the list of those still to come.
#[derive(Drop)]
pub struct DuePoints<'d, 'a, A: Allocator + Copy> {
    points: Points<'a, A>,
    dates: &'d StorageDates<'a, A>,
    date: Date,
}

impl<'d, 'a, A: Allocator + Copy> Model for DuePoints<'d, 'a, A> {
    ghost use Rattle.std.specs.Prelude.{List, filter};
    ghost use Rattle.dc_units.specs.declared.point.Point.{Point};
    ghost use Rattle.dc_meters.specs.Points.{points_of};
    ghost use Rattle.dc_meters.specs.Due.{is_due};

    ghost Value = { List Point };

    ghost view = { λ d. filter (is_due d.date (points_of d.dates.now)) d.points };
}

impl<'d, 'a, A: Allocator + Copy> Iterator for DuePoints<'d, 'a, A> {
    ghost use Rattle.std.specs.Iterator.{YieldsFirst, item_count};

    type Item = Point;

    ghost next_gives = { YieldsFirst (λ d. d) };

    ghost remaining = { item_count (λ d. d) };

    fn next(&mut self) -> Option<Point> {
        while let Some(point) = self.points.next() {
            if self.dates.is_due(&point, self.date) {
                return Some(point);
            }
        }
        None
    }
}

/// The days of due-date values. Contracts see the list of those still to come.
#[derive(Drop)]
pub struct DueDays<'d, 'a, A: Allocator + Copy> {
    points: Points<'a, A>,
    dates: &'d StorageDates<'a, A>,
}

impl<'d, 'a, A: Allocator + Copy> Model for DueDays<'d, 'a, A> {
    ghost use Rattle.std.specs.Prelude.{List};
    ghost use Rattle.std.specs.List.{filter_map};
    ghost use Rattle.dc_units.specs.Date.{Day};
    ghost use Rattle.dc_meters.specs.Points.{points_of};
    ghost use Rattle.dc_meters.specs.Due.{due_day};

    ghost Value = { List Day };

    ghost view = { λ d. filter_map (due_day (points_of d.dates.now)) d.points };
}

impl<'d, 'a, A: Allocator + Copy> Iterator for DueDays<'d, 'a, A> {
    ghost use Rattle.std.specs.Iterator.{YieldsFirst, item_count};

    type Item = Date;

    ghost next_gives = { YieldsFirst (λ d. d) };

    ghost remaining = { item_count (λ d. d) };

    fn next(&mut self) -> Option<Date> {
        while let Some(point) = self.points.next() {
            if let Some(day) = self.dates.due_day(&point) {
                return Some(day);
            }
        }
        None
    }
}

/// The days for which a readout with these parts has a due-date value: the day of each of its
/// points.
pub(crate) fn due_days_of<A: Allocator + Copy>(
    alloc: A,
    parts: &[Part<A>],
) -> Result<Vec<Date, A>, NoMemory>
    ensures { IfOk result (λ days. days.items ≡ due_days (points_of parts.now)) }
{
    let dates = StorageDates::of(alloc, parts)?;
    let mut days = Vec::new(alloc);
    for day in dates.due_days() {
        days.push(day)?;
    }
    Ok(days)
}

/// Keeps the day that a point gives its storage number, unless it has one already.
fn keep_first<A: Allocator + Copy>(
    days: &mut BTreeMap<u64, Date, A>,
    point: &Point,
) -> Result<(), NoMemory>
    ensures { OnOk result ((storage : ℕ)
        → get nat_cmp days.new storage
        ≡ option_or (get nat_cmp days.old storage) (day_for storage point.now)) }
{
    let Some(day) = dating_day(point) else {
        return Ok(());
    };
    if days.get(&point.storage).is_none() {
        days.insert(point.storage, day)?;
    }
    Ok(())
}

/// The day that a point gives its storage number.
fn dating_day(point: &Point) -> Option<Date>
    ensures { result ≡ dating_day point.now }
{
    if is_dating(point) {
        point.value.day()
    } else {
        None
    }
}

fn is_dating(point: &Point) -> bool
    ensures { result ≡ is_dating point.now }
{
    point.quantity.is_time_point() && point.function == 0 && point.tariff == 0 && point.subunit == 0
}

fn is_stored(point: &Point) -> bool
    ensures { result ≡ is_stored point.now }
{
    !point.quantity.is_time_point() && point.storage >= 1
}
