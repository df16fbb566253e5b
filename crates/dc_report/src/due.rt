//! The due-date table.

ghost use Rattle.std.specs.Prelude.{◌≡◌, ◌++◌, length, OnOk, IfOk};
ghost use Rattle.std.specs.List.{flat_map};
ghost use Rattle.dc_report.specs.DueTable.{due_line, due_rows, due_text, reading_rows};
ghost use Rattle.dc_report.specs.Written.{so_far, IsAtLine};

use crate::last::due_readings;
use crate::line::{finish, new_table, put_line};
use crate::{Row, Table};
use csv::Writer;
use dc_meters::{House, Reading, StorageDates};
use dc_units::{Date, TEXT_ROOM};
use itoa::Buffer;
use mbdc_io::NoMemory;
use std::alloc::Allocator;

/// Writes the due-date table for a date (OMS Volume 2, due-date values): a header, and for each
/// meter the points of its last reading that has a value for the date, by the flat of that readout
/// and then by identity. The only error is out of memory.
pub fn due_table<A: Allocator + Copy>(
    alloc: A,
    house: &House<A>,
    date: Date,
) -> Result<Vec<u8, A>, NoMemory>
    ensures { IfOk result (λ table. table.items ≡ due_text date house.now.state) }
{
    let Table { bytes, .. } = counted_due_table(alloc, house, date)?;
    Ok(bytes)
}

/// Writes the due-date table for a date, and counts its rows, which are searched once. The only
/// error is out of memory.
pub fn counted_due_table<A: Allocator + Copy>(
    alloc: A,
    house: &House<A>,
    date: Date,
) -> Result<Table<A>, NoMemory>
    ensures text { IfOk result (λ table. table.bytes.items ≡ due_text date house.now.state) }
    ensures count { IfOk result (λ table. table.rows ≡ length (due_rows date house.now.state)) }
{
    let rows = rows(alloc, house, date)?;
    let mut table = new_table(alloc);
    let header: [&[u8]; 9] = [
        b"flat",
        b"meter",
        b"serial",
        b"storage",
        b"function",
        b"tariff",
        b"subunit",
        b"value",
        b"unit",
    ];
    put_line(&mut table, &header)?;
    put_rows(&mut table, &rows)?;
    Ok(Table {
        bytes: finish(table)?,
        rows: rows.len(),
    })
}

/// Number of rows of the due-date table for a date, without the header. The only error is out of
/// memory.
pub fn due_rows<A: Allocator + Copy>(
    alloc: A,
    house: &House<A>,
    date: Date,
) -> Result<usize, NoMemory>
    ensures { IfOk result (λ count. count ≡ length (due_rows date house.now.state)) }
{
    Ok(rows(alloc, house, date)?.len())
}

/// The rows of the due-date table for a date. The only error is out of memory.
pub fn rows<A: Allocator + Copy>(
    alloc: A,
    house: &House<A>,
    date: Date,
) -> Result<Vec<Row, A>, NoMemory>
    ensures { IfOk result (λ rows. rows.items ≡ due_rows date house.now.state) }
{
    let readings = due_readings(alloc, house, date)?;
    let mut rows = Vec::new(alloc);
    for reading in readings.values() {
        push_rows(alloc, &mut rows, reading, date)?;
    }
    Ok(rows)
}

/// Appends the rows of a reading.
fn push_rows<A: Allocator + Copy>(
    alloc: A,
    rows: &mut Vec<Row, A>,
    reading: &Reading<A>,
    date: Date,
) -> Result<(), NoMemory>
    ensures { OnOk result (rows.new.items ≡ rows.old.items ++ reading_rows date reading.now) }
{
    let dates = StorageDates::of(alloc, reading.parts())?;
    for point in dates.due_points(date) {
        rows.push(Row {
            flat: reading.flat(),
            meter: reading.meter(),
            serial: reading.serial(),
            point,
        })?;
    }
    Ok(())
}

fn put_rows<A: Allocator>(table: &mut Writer<Vec<u8, A>>, rows: &[Row]) -> Result<(), NoMemory>
    requires { IsAtLine table.old }
    ensures ready { OnOk result (IsAtLine table.new) }
    ensures text { OnOk result (so_far (λ v. v.items) table.new ≡ so_far (λ v.
        v.items) table.old ++ flat_map due_line rows.now) }
{
    for row in rows {
        put_row(table, row)?;
    }
    Ok(())
}

fn put_row<A: Allocator>(table: &mut Writer<Vec<u8, A>>, row: &Row) -> Result<(), NoMemory>
    requires { IsAtLine table.old }
    ensures ready { OnOk result (IsAtLine table.new) }
    ensures text { OnOk result (so_far (λ v. v.items) table.new ≡ so_far (λ v.
        v.items) table.old ++ due_line row.now) }
{
    let Row { flat, point, .. } = *row;
    let mut serial = Buffer::new();
    let mut storage = Buffer::new();
    let mut function = Buffer::new();
    let mut tariff = Buffer::new();
    let mut subunit = Buffer::new();
    let mut value = [0u8; TEXT_ROOM];
    let fields: [&[u8]; 9] = [
        flat.as_slice(),
        &row.meter.text(),
        serial.format(row.serial).as_bytes(),
        storage.format(point.storage).as_bytes(),
        function.format(point.function).as_bytes(),
        tariff.format(point.tariff).as_bytes(),
        subunit.format(point.subunit).as_bytes(),
        point.value.write_into(&mut value),
        point.quantity.unit().as_bytes(),
    ];
    put_line(table, &fields)
}
