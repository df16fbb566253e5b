//! The rows of the tables of `report`, as JSON Lines.

ghost use Rattle.std.specs.Prelude.{◌≡◌, codes};
ghost use Rattle.std.specs.List.{flat_map};
ghost use Rattle.mbdc_io.specs.Written.{Wrote};
ghost use Rattle.mbdc_decode.specs.Row.{field_of};
ghost use Rattle.mbdc_looks.specs.Report.{address_json, line_at, register_lines, row_line};

use dc_address::Primary;
use dc_meters::{House, Place};
use dc_records::names::function_name;
use dc_report::Row;
use dc_units::{Date, Value};
use mbdc_decode::objects::{Cell, put_line};
use mbdc_io::{IoFault, Sink};
use std::alloc::Allocator;

// The cell of a primary address, or of none.
fn address(number: Option<Primary>) -> Cell<'static>
    ensures { field_of result ≡ (codes "address", address_json number) }
{
    match number {
        Some(number) => Cell::Number("address", u64::from(number.get())),
        None => Cell::Null("address"),
    }
}

// Writes the line of a registered meter.
#[tactic(auto, unfolding(crate::specs::Report::meter_json))]
fn put_meter<A: Allocator + Copy, W: Sink>(
    out: &mut W,
    house: &House<A>,
    place: &Place,
) -> Result<(), IoFault>
    ensures { Wrote W.Sink result out.old out.new (line_at house.now.state place.now) }
{
    match house.meter(&place.meter) {
        Some(row) => put_line(
            out,
            &[
                Cell::Text("flat", place.flat.as_slice()),
                Cell::Meter("meter", place.meter),
                Cell::Number("line", u64::from(row.line())),
                address(row.address()),
                Cell::Number("open", row.parts().len() as u64),
            ],
        ),
        None => Ok(()),
    }
}

// Writes the line of a row of the due-date table.
#[tactic(auto, unfolding(crate::specs::Report::row_json))]
fn put_row<W: Sink>(out: &mut W, date: Date, row: &Row) -> Result<(), IoFault>
    ensures { Wrote W.Sink result out.old out.new (row_line date row.now) }
{
    let point = &row.point;
    put_line(
        out,
        &[
            Cell::Value("date", Value::Day(date)),
            Cell::Text("flat", row.flat.as_slice()),
            Cell::Meter("meter", row.meter),
            Cell::Number("serial", row.serial),
            Cell::Number("storage", point.storage),
            Cell::Number("tariff", u64::from(point.tariff)),
            Cell::Number("subunit", u64::from(point.subunit)),
            Cell::Text("function", function_name(point.function).as_bytes()),
            Cell::Value("value", point.value),
            Cell::Unit("unit", point.quantity.unit().as_bytes()),
        ],
    )
}

/// Writes the register as JSON Lines (RFC 8259): an object for each registered meter, by flat and then by identity.
#[tactic(auto, using(mbdc_io::proofs::Pieces::written), unfolding(crate::specs::Report::register_lines))]
pub(crate) fn put_register_objects<A: Allocator + Copy, W: Sink>(
    out: &mut W,
    house: &House<A>,
) -> Result<(), IoFault>
    ensures { Wrote W.Sink result out.old out.new (register_lines house.now.state) }
{
    for place in house.meters_by_flat() {
        put_meter(out, house, place)?;
    }
    Ok(())
}

/// Writes rows of the due-date table for a date as JSON Lines (RFC 8259), an object for each: its
/// [`rows`](dc_report::rows) are the table.
#[tactic(auto, using(mbdc_io::proofs::Pieces::written))]
pub(crate) fn put_due_objects<W: Sink>(out: &mut W, date: Date, rows: &[Row]) -> Result<(), IoFault>
    ensures { Wrote W.Sink result out.old out.new (flat_map (row_line date) rows.now) }
{
    for row in rows {
        put_row(out, date, row)?;
    }
    Ok(())
}
