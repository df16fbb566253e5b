//! A row: cells with names, as the fields of an object.

ghost use Rattle.std.specs.Prelude.{◌∷◌, []};
ghost use Rattle.json.specs.Tree.{json_tokens};
ghost use Rattle.mbdc_io.specs.Written.{Wrote};
ghost use Rattle.mbdc_decode.specs.Object.{fields_tokens, object_of};
ghost use Rattle.mbdc_decode.specs.Writing.{Added};
ghost use Rattle.mbdc_decode.specs.Row.{field_of, row_fields};
ghost use Rattle.mbdc_decode.specs.JsonText.{value_line};

use crate::objects::meter::{put_meter, put_status_object};
use crate::objects::record::{put_unit_field, put_value};
use crate::tokens::TokenWriter;
use dc_address::Identity;
use dc_units::Value;
use mbdc_io::{IoFault, Sink};

/// A cell of a row: its name, and what it has.
#[derive(Clone, Copy)]
pub enum Cell<'a> {
    /// Nothing.
    Null(&'a str),
    /// A number.
    Number(&'a str, u64),
    /// A truth.
    Flag(&'a str, bool),
    /// A text, given as its bytes.
    Text(&'a str, &'a [u8]),
    /// Bytes in capital hex digits.
    Hex(&'a str, &'a [u8]),
    /// A meter's identity.
    Meter(&'a str, Identity),
    /// A status byte (EN 13757-3).
    Status(&'a str, u8),
    /// A value; null where the meter sent none.
    Value(&'a str, Value),
    /// A unit; null for none.
    Unit(&'a str, &'a [u8]),
}

// Writes a cell as a field.
fn put_cell<W: Sink>(out: &mut TokenWriter<'_, W>, cell: &Cell<'_>)
    ensures { Added W.Sink out.old out.new (fields_tokens (field_of cell.now ∷ [])) }
{
    match cell {
        Cell::Null(name) => {
            out.put_name(name);
            out.put_null();
        }
        Cell::Number(name, number) => out.put_count(name, *number),
        Cell::Flag(name, flag) => out.put_flag(name, *flag),
        Cell::Text(name, text) => {
            out.put_name(name);
            out.put_string(text);
        }
        Cell::Hex(name, bytes) => out.put_hex(name, bytes),
        Cell::Meter(name, meter) => {
            out.put_name(name);
            put_meter(out, meter);
        }
        Cell::Status(name, status) => {
            out.put_name(name);
            put_status_object(out, *status);
        }
        Cell::Value(name, value) => {
            out.put_name(name);
            put_value(out, value);
        }
        Cell::Unit(name, unit) => put_unit_field(out, name, unit),
    }
}

/// Writes a row as fields of an object that has begun.
pub fn put_row<W: Sink>(out: &mut TokenWriter<'_, W>, row: &[Cell<'_>])
    ensures { Added W.Sink out.old out.new (fields_tokens (row_fields row.now)) }
{
    if let [cell, rest @ ..] = row {
        put_cell(out, cell);
        put_row(out, rest);
    }
}

/// Writes a row as an object.
pub fn put_object<W: Sink>(out: &mut TokenWriter<'_, W>, row: &[Cell<'_>])
    ensures { Added W.Sink out.old out.new (json_tokens (object_of (row_fields row.now))) }
{
    out.begin_object();
    put_row(out, row);
    out.end_object();
}

/// Writes a row as an object in a line of its own.
#[tactic(auto, using(crate::proofs::Adding::whole, mbdc_io::proofs::Pieces::written), unfolding(crate::specs::JsonText::value_line))]
pub fn put_line<W: Sink>(out: &mut W, row: &[Cell<'_>]) -> Result<(), IoFault>
    ensures { Wrote W.Sink result out.old out.new (value_line (object_of (row_fields row.now))) }
{
    let mut tokens = TokenWriter::new(out);
    put_object(&mut tokens, row);
    tokens.outcome()?;
    out.put(b"\n")
}
