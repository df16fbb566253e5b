//! The lines of `status` as JSON objects (RFC 8259).

ghost use Rattle.std.specs.Prelude.{◌≡◌, ◌≤◌, IfSome, codes};
ghost use Rattle.mbdc_io.specs.Written.{Wrote};
ghost use Rattle.mbdc_change.specs.Fields.{last_moment};
ghost use Rattle.mbdc_decode.specs.Record.{value_json};
ghost use Rattle.mbdc_decode.specs.Row.{field_of};
ghost use Rattle.mbdc_json.specs.Object.{failure_json, maybe_json, plain_object, row_object, source_json};
ghost use Rattle.mbdc_json.specs.Object.{state_json, status_objects, told_object, utc_json};

use crate::journal::Journal;
use crate::status::full::days_left;
use crate::status::lines::failure_name;
use crate::status::row::{Row, Told, row_at};
use crate::status::silence::Clock;
use dc_meters::House;
use dc_units::Value;
use mbdc_decode::objects::{Cell, put_line};
use mbdc_io::{IoFault, Sink};
use mbdc_shown::{minute, readings_left};
use std::alloc::Allocator;

/// Writes a JSON object for each registered meter, by flat and then by identity, and one for the image.
#[tactic(auto, using(mbdc_io::proofs::Pieces::written), unfolding(crate::specs::Object::status_objects))]
pub fn put_status_objects<A: Allocator + Copy, W: Sink>(
    out: &mut W,
    house: &House<A>,
    clock: Clock,
    journal: &Journal<A>,
) -> Result<(), IoFault>
    ensures { Wrote W.Sink result out.old out.new
        (status_objects clock.patience clock.now journal.now house.now) }
{
    for place in house.meters_by_flat() {
        put_row(out, &row_at(house, clock, journal, place))?;
    }
    put_line(
        out,
        &[
            Cell::Number("bytes", u64::from(house.size())),
            Cell::Number("budget", u64::from(house.budget())),
            maybe("days", days_left(house, clock.now)),
            maybe("room", readings_left(house)),
        ],
    )
}

// Writes the object of a meter.
#[tactic(auto, unfolding(crate::specs::Object::row_object))]
fn put_row<W: Sink>(out: &mut W, row: &Row) -> Result<(), IoFault>
    requires heard { IfSome row.now.heard (λ moment. moment ≤ last_moment) }
    requires failed { IfSome row.now.told (λ told.
        IfSome told.failed (λ moment. moment ≤ last_moment)) }
    ensures { Wrote W.Sink result out.old out.new (row_object row.now) }
{
    match row.told {
        None => put_plain(out, row),
        Some(told) => put_told(out, &told, row),
    }
}

// Writes the object of a meter where there is no journal.
#[tactic(auto, unfolding(crate::specs::Object::plain_object))]
fn put_plain<W: Sink>(out: &mut W, row: &Row) -> Result<(), IoFault>
    requires { IfSome row.now.heard (λ moment. moment ≤ last_moment) }
    ensures { Wrote W.Sink result out.old out.new (plain_object row.now) }
{
    put_line(
        out,
        &[
            Cell::Text("flat", row.flat.as_slice()),
            Cell::Meter("meter", row.meter),
            maybe("moment", row.heard),
            Cell::Value("utc", utc(row.heard)),
            maybe("age", row.age),
            Cell::Flag("silent", row.is_silent),
            state(row.status),
        ],
    )
}

// Writes the object of a meter where there is a journal.
#[tactic(auto, unfolding(crate::specs::Object::told_object))]
fn put_told<W: Sink>(out: &mut W, told: &Told, row: &Row) -> Result<(), IoFault>
    requires heard { IfSome row.now.heard (λ moment. moment ≤ last_moment) }
    requires failed { IfSome told.now.failed (λ moment. moment ≤ last_moment) }
    ensures { Wrote W.Sink result out.old out.new (told_object told.now row.now) }
{
    put_line(
        out,
        &[
            Cell::Text("flat", row.flat.as_slice()),
            Cell::Meter("meter", row.meter),
            maybe("moment", row.heard),
            Cell::Value("utc", utc(row.heard)),
            maybe("age", row.age),
            Cell::Flag("silent", row.is_silent),
            state(row.status),
            source(told.is_noted, row.heard),
            maybe("failed", told.failed),
            Cell::Value("failed_utc", utc(told.failed)),
            failure(told.failed, told.number),
        ],
    )
}

// The cell of where the reading comes from.
fn source(is_noted: bool, heard: Option<u64>) -> Cell<'static>
    ensures { field_of result ≡ (codes "from", source_json is_noted heard) }
{
    match (is_noted, heard) {
        (true, _) => Cell::Text("from", b"journal"),
        (false, Some(_)) => Cell::Text("from", b"image"),
        (false, None) => Cell::Null("from"),
    }
}

// The cell of the name of the last failure.
fn failure(failed: Option<u64>, number: u8) -> Cell<'static>
    ensures { field_of result ≡ (codes "failure", failure_json failed number) }
{
    match failed {
        Some(_) => Cell::Text("failure", failure_name(number).as_bytes()),
        None => Cell::Null("failure"),
    }
}

// The cell of a number, or of none.
fn maybe(name: &'static str, number: Option<u64>) -> Cell<'static>
    ensures { field_of result ≡ (name.now, maybe_json number) }
{
    match number {
        Some(number) => Cell::Number(name, number),
        None => Cell::Null(name),
    }
}

// The minute (UTC) of a moment.
#[tactic(auto, unfolding(mbdc_decode::specs::Record::value_json))]
fn utc(moment: Option<u64>) -> Value
    requires { IfSome moment (λ moment. moment ≤ last_moment) }
    ensures { value_json result ≡ utc_json moment }
{
    match moment {
        Some(moment) => minute(moment),
        None => Value::None,
    }
}

// The cell of a status byte, or of none.
fn state(status: Option<u8>) -> Cell<'static>
    ensures { field_of result ≡ (codes "status", state_json status) }
{
    match status {
        Some(status) => Cell::Status("status", status),
        None => Cell::Null("status"),
    }
}
