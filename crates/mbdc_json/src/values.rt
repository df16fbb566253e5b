//! What the meters of a house stand at, as JSON Lines.

ghost use Rattle.std.specs.Prelude.{◌≤◌, IfSome};
ghost use Rattle.json.specs.Tree.{json_tokens};
ghost use Rattle.mbdc_change.specs.Fields.{last_moment};
ghost use Rattle.mbdc_io.specs.Written.{Wrote};
ghost use Rattle.mbdc_decode.specs.Object.{fields_tokens};
ghost use Rattle.mbdc_decode.specs.Writing.{Added};
ghost use Rattle.mbdc_decode.specs.JsonText.{value_line};
ghost use Rattle.mbdc_json.specs.Values.{is_noted, place_fields, reading_json, shown_json, stands_json};
ghost use Rattle.mbdc_json.specs.Values.{values_lines};

use crate::journal::Journal;
use crate::latest::{Shown, shown_of};
use dc_meters::{House, Place};
use mbdc_decode::objects::{Cell, put_row};
use mbdc_decode::tokens::TokenWriter;
use mbdc_io::{IoFault, Sink};
use mbdc_shown::put_reported;
use std::alloc::Allocator;

// Writes a reading of a meter of this device type.
fn put_reading<W: Sink>(out: &mut TokenWriter<'_, W>, kind: u8, shown: &Shown<'_>)
    requires { shown.now.moment ≤ last_moment }
    ensures { Added W.Sink out.old out.new (json_tokens (reading_json kind shown.now)) }
{
    out.begin_object();
    out.put_count("serial", shown.serial);
    put_reported(out, shown.moment, shown.status, kind, &shown.bodies);
    out.end_object();
}

// Writes the flat and the meter, and whether the reading is the journal's.
#[tactic(auto, unfolding(crate::specs::Values::place_fields))]
fn put_place<W: Sink>(out: &mut TokenWriter<'_, W>, place: &Place, shown: &Option<Shown<'_>>)
    ensures { Added W.Sink out.old out.new (fields_tokens (place_fields place.now (is_noted shown.now))) }
{
    let flat = Cell::Text("flat", place.flat.as_slice());
    let meter = Cell::Meter("meter", place.meter);
    match shown {
        Some(shown) if shown.is_noted => {
            put_row(out, &[flat, meter, Cell::Text("from", b"journal")]);
        }
        _ => put_row(out, &[flat, meter]),
    }
}

// Writes a reading of a meter of this device type, or null.
fn put_shown<W: Sink>(out: &mut TokenWriter<'_, W>, kind: u8, shown: &Option<Shown<'_>>)
    requires { IfSome shown.now (λ shown. shown.moment ≤ last_moment) }
    ensures { Added W.Sink out.old out.new (json_tokens (shown_json kind shown.now)) }
{
    match shown {
        Some(shown) => put_reading(out, kind, shown),
        None => out.put_null(),
    }
}

// Writes the object of a registered meter of which this reading is shown, if one is.
fn put_stands<W: Sink>(out: &mut TokenWriter<'_, W>, place: &Place, shown: &Option<Shown<'_>>)
    requires { IfSome shown.now (λ shown. shown.moment ≤ last_moment) }
    ensures { Added W.Sink out.old out.new (json_tokens (stands_json place.now shown.now)) }
{
    out.begin_object();
    put_place(out, place, shown);
    out.put_name("reading");
    put_shown(out, place.meter.kind, shown);
    out.end_object();
}

// Writes the line of a registered meter.
#[tactic(auto, using(mbdc_decode::proofs::Adding::whole, mbdc_io::proofs::Pieces::written), unfolding(mbdc_decode::specs::JsonText::value_line))]
fn put_stands_line<W: Sink>(
    out: &mut W,
    place: &Place,
    shown: &Option<Shown<'_>>,
) -> Result<(), IoFault>
    requires { IfSome shown.now (λ shown. shown.moment ≤ last_moment) }
    ensures { Wrote W.Sink result out.old out.new (value_line (stands_json place.now shown.now)) }
{
    let mut tokens = TokenWriter::new(out);
    put_stands(&mut tokens, place, shown);
    tokens.outcome()?;
    out.put(b"\n")
}

/// Writes what the registered meters stand at as JSON Lines (RFC 8259): an object for each, by flat and
/// then by identity, as [`put_values`](crate::latest::put_values) writes it in words.
#[tactic(auto, using(mbdc_io::proofs::Pieces::written), unfolding(crate::specs::Values::values_lines))]
pub fn put_value_objects<A: Allocator + Copy, W: Sink>(
    out: &mut W,
    house: &House<A>,
    journal: &Journal<A>,
) -> Result<(), IoFault>
    ensures { Wrote W.Sink result out.old out.new (values_lines journal.now house.now.state) }
{
    for place in house.meters_by_flat() {
        let shown = shown_of(house, journal, &place.meter);
        put_stands_line(out, place, &shown)?;
    }
    Ok(())
}
