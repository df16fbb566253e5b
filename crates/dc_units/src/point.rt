//! Records as data points.

ghost use Rattle.std.specs.Prelude.{◌≡◌, ◌==◌, length, IsTrue};
ghost use Rattle.dc_records.specs.Record.{view, width};
ghost use Rattle.dc_units.specs.Point.{IsPoint, IfPoint, seen_of};
ghost use Rattle.dc_units.specs.declared.point.Point.{Point};
ghost use Rattle.dc_units.specs.Quantity.{takes, is_integer};
ghost use Rattle.dc_units.specs.Value.{value_in, number_in};

use crate::number::{bcd, integer, unsigned};
use crate::quantity::is_integer;
use crate::table::unit_at;
use crate::{Decimal, Quantity, Value, time};
use dc_records::{Record, width};

/// What a record says, with the numbers of its storage, function, tariff and subunit.
#[derive(Clone, Copy)]
pub struct Point {
    pub storage: u64,
    /// 0 instantaneous, 1 maximum, 2 minimum, 3 during error.
    pub function: u8,
    pub tariff: u32,
    pub subunit: u16,
    pub quantity: Quantity,
    pub value: Value,
}

/// A record as the table of units sees it.
#[derive(Clone, Copy)]
pub enum Seen {
    Point(Point),
    /// The table has no row for the record, or not with its data field.
    Other,
}

/// The data point of a record. Both ways: what is answered is a point of the table, and what is a point of
/// the table is answered; any other record is other.
#[inline(always)]
pub fn point_of(record: &Record<'_>) -> Seen
    ensures found { IfPoint result (IsPoint (view «record».now)) }
    ensures only { (p : Point) → IsPoint (view «record».now) p → result ≡ Seen.Point p }
    ensures exact { result ≡ seen_of (view «record».now) }
{
    look_up(record)
}

/// The point of a record, by its row in the table.
#[inline(always)]
fn look_up(record: &Record<'_>) -> Seen
    ensures { result ≡ seen_of (view «record».now) }
{
    let Some((quantity, exponent)) = unit_at(record.vib) else {
        return Seen::Other;
    };
    let (field, content) = (record.field, record.content);
    if !quantity.takes(field) || content.len() != width(field) {
        return Seen::Other;
    }
    Seen::Point(Point {
        storage: record.storage,
        function: record.function,
        tariff: record.tariff,
        subunit: record.subunit,
        quantity,
        value: value_in(quantity, exponent, field, content),
    })
}

/// The value of a quantity and a power of ten in a data field.
#[inline(always)]
fn value_in(quantity: Quantity, exponent: i8, field: u8, content: &[u8]) -> Value
    requires taken { IsTrue (takes quantity field) }
    requires whole { length content.now ≡ width field }
    ensures { result ≡ value_in quantity exponent field content.now }
{
    match quantity {
        Quantity::Date => time::day(content),
        Quantity::DateTime => time::minute(content),
        Quantity::ErrorFlags => Value::Flags {
            len: content.len() as u8,
            bits: unsigned(content),
        },
        _ => {
            let number = if is_integer(field) {
                integer(content)
            } else {
                bcd(content)
            };
            match number {
                Some(mantissa) => Value::Number(Decimal { mantissa, exponent }),
                None => Value::None,
            }
        }
    }
}
