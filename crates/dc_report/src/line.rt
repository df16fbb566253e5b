//! The lines of a table, written with `csv`.

ghost use Rattle.std.specs.Prelude.{◌≡◌, ◌≤◌, ◌++◌, [], length, map, OnOk, IfOk};
ghost use Rattle.csv.specs.Writing.{default_writer, row_text};
ghost use Rattle.dc_report.specs.TableLine.{line_text};
ghost use Rattle.dc_report.specs.Written.{so_far, IsAtLine, ArePlain};

use csv::Writer;
use mbdc_io::NoMemory;
use std::alloc::Allocator;

/// Returns an empty table, which uses no memory yet.
pub(crate) fn new_table<A: Allocator>(alloc: A) -> Writer<Vec<u8, A>>
    ensures ready { IsAtLine result }
    ensures empty { so_far (λ v. v.items) result ≡ [] }
{
    Writer::from_writer(Vec::new(alloc))
}

/// Appends a line.
pub(crate) fn put_line<A: Allocator>(
    table: &mut Writer<Vec<u8, A>>,
    fields: &[&[u8]],
) -> Result<(), NoMemory>
    requires ready { IsAtLine table.old }
    requires several { 2 ≤ length (map (λ f. f.now) fields.now) }
    requires plain { ArePlain (map (λ f. f.now) fields.now) }
    ensures ready { OnOk result (IsAtLine table.new) }
    ensures text { OnOk result (so_far (λ v. v.items) table.new ≡ so_far (λ v.
        v.items) table.old ++ line_text (map (λ f. f.now) fields.now)) }
{
    csv_line(table, fields)
}

/// Appends a line as `csv` writes it.
fn csv_line<A: Allocator>(table: &mut Writer<Vec<u8, A>>, fields: &[&[u8]]) -> Result<(), NoMemory>
    requires { IsAtLine table.old }
    ensures ready { OnOk result (IsAtLine table.new) }
    ensures text { OnOk result (so_far (λ v. v.items) table.new ≡ so_far (λ v.
        v.items) table.old ++ row_text default_writer (map (λ f. f.now) fields.now)) }
{
    match table.write_fields(fields) {
        Ok(()) => Ok(()),
        Err(_) => Err(NoMemory),
    }
}

/// Returns the table's text.
pub(crate) fn finish<A: Allocator>(table: Writer<Vec<u8, A>>) -> Result<Vec<u8, A>, NoMemory>
    ensures { IfOk result (λ text. text.items ≡ so_far (λ v. v.items) table) }
{
    match table.into_inner() {
        Ok(text) => Ok(text),
        Err(_) => Err(NoMemory),
    }
}
