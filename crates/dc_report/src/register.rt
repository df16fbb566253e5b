//! The register table.

ghost use Rattle.std.specs.Prelude.{◌≡◌, ◌++◌, length, OnOk, IfOk};
ghost use Rattle.std.specs.List.{flat_map};
ghost use Rattle.mbdc_change.specs.Fields.{address_word};
ghost use Rattle.dc_report.specs.TableLine.{line_text};
ghost use Rattle.dc_meters.specs.Places.{by_flat};
ghost use Rattle.dc_report.specs.RegisterTable.{line_at, meter_fields, register_text};
ghost use Rattle.dc_report.specs.Written.{so_far, IsAtLine};

use crate::line::{finish, new_table, put_line};
use crate::medium::medium;
use csv::Writer;
use dc_address::{Identity, Primary};
use dc_meters::{House, Meter};
use itoa::Buffer;
use mbdc_io::NoMemory;
use std::alloc::Allocator;

/// Writes the register table: a header, and a line for each registered meter, by flat and then by
/// identity. The only error is out of memory.
pub fn register_table<A: Allocator + Copy>(
    alloc: A,
    house: &House<A>,
) -> Result<Vec<u8, A>, NoMemory>
    ensures { IfOk result (λ table. table.items ≡ register_text house.now.state) }
{
    let mut table = new_table(alloc);
    let header: [&[u8]; 6] = [b"flat", b"meter", b"medium", b"line", b"address", b"open"];
    put_line(&mut table, &header)?;
    put_meters(&mut table, house)?;
    finish(table)
}

/// Number of rows of the register table, without the header.
pub fn register_rows<A: Allocator + Copy>(house: &House<A>) -> usize
    ensures { result ≡ length house.now.state.meters }
{
    house.meters().count()
}

fn put_meters<A: Allocator + Copy>(
    table: &mut Writer<Vec<u8, A>>,
    house: &House<A>,
) -> Result<(), NoMemory>
    requires { IsAtLine table.old }
    ensures ready { OnOk result (IsAtLine table.new) }
    ensures text { OnOk result (so_far (λ v. v.items) table.new ≡ so_far (λ v.
        v.items) table.old ++ flat_map (line_at house.now.state) (by_flat house.now.state.meters)) }
{
    for place in house.meters_by_flat() {
        if let Some(row) = house.meter(&place.meter) {
            put_meter(table, &place.meter, row)?;
        }
    }
    Ok(())
}

fn put_meter<A: Allocator + Copy>(
    table: &mut Writer<Vec<u8, A>>,
    meter: &Identity,
    row: &Meter<A>,
) -> Result<(), NoMemory>
    requires { IsAtLine table.old }
    ensures ready { OnOk result (IsAtLine table.new) }
    ensures text { OnOk result (so_far (λ v. v.items) table.new ≡ so_far (λ v.
        v.items) table.old ++ line_text (meter_fields meter.now row.now)) }
{
    let flat = row.flat();
    let mut kind = [0; 2];
    let mut line = Buffer::new();
    let mut address = Buffer::new();
    let mut open = Buffer::new();
    let fields: [&[u8]; 6] = [
        flat.as_slice(),
        &meter.text(),
        medium(meter.kind, &mut kind),
        line.format(row.line()).as_bytes(),
        address_text(row.address(), &mut address),
        open.format(row.parts().len()).as_bytes(),
    ];
    put_line(table, &fields)
}

/// The text of a primary address, or `S` for secondary addressing.
fn address_text(address: Option<Primary>, room: &mut Buffer) -> &[u8]
    ensures { result.now ≡ address_word address }
{
    match address {
        None => b"S",
        Some(number) => room.format(number.get()).as_bytes(),
    }
}
