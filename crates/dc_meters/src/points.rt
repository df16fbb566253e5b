//! The data points of a readout.

ghost use Rattle.std.specs.Prelude.{◌≡◌, ◌++◌};
ghost use Rattle.std.specs.Iterator.{YieldsFirst};
ghost use Rattle.dc_records.specs.Telegram.{telegram_at};
ghost use Rattle.dc_meters.specs.Points.{points_in, points_of, points_read};

use crate::Part;
use dc_records::Records;
use dc_units::{Point, Seen, point_of};
use std::alloc::Allocator;
use std::marker::Model;

/// The data points of a readout, in order of its parts and of their records (EN 13757-3). Contracts
/// see the list of the points still to come.
#[derive(Drop)]
pub struct Points<'a, A: Allocator> {
    records: Option<Records<'a>>,
    parts: &'a [Part<A>],
}

impl<'a, A: Allocator> Model for Points<'a, A> {
    ghost use Rattle.std.specs.Prelude.{List, ◌++◌};
    ghost use Rattle.dc_units.specs.declared.point.Point.{Point};
    ghost use Rattle.dc_meters.specs.Points.{points_left, points_of};

    ghost Value = { List Point };

    ghost view = { λ p. points_left p.records ++ points_of p.parts.now };
}

impl<'a, A: Allocator> Points<'a, A> {
    /// The points of a readout with these parts.
    pub fn of(parts: &'a [Part<A>]) -> Points<'a, A>
        ensures { result ≡ points_of parts.now }
    {
        Points {
            records: None,
            parts,
        }
    }
}

impl<'a, A: Allocator> Iterator for Points<'a, A> {
    ghost use Rattle.std.specs.Iterator.{YieldsFirst, item_count};

    type Item = Point;

    ghost next_gives = { YieldsFirst (λ p. p) };

    ghost remaining = { item_count (λ p. p) };

    fn next(&mut self) -> Option<Point> {
        'parts: loop {
            if let Some(records) = &mut self.records {
                if let Some(point) = next_in(records) {
                    return Some(point);
                }
            }
            let (part, others) = self.parts.split_first()?;
            self.records = Some(records_of(part));
            self.parts = others;
        }
    }
}

/// The next point of these records.
fn next_in(records: &mut Records<'_>) -> Option<Point>
    ensures { YieldsFirst points_in records.old result records.new }
{
    while let Some(found) = records.next() {
        if let Seen::Point(point) = point_of(&found) {
            return Some(point);
        }
    }
    None
}

/// The records of a part's telegram.
fn records_of<A: Allocator>(part: &Part<A>) -> Records<'_>
    ensures { points_in result ≡ points_read (telegram_at part.now.body) }
{
    part.telegram().records()
}
