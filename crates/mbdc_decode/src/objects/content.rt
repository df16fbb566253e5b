//! What the body of a long frame says.

ghost use Rattle.std.specs.Prelude.{◌≡◌, ◌∷◌, [], codes, map, option_map};
ghost use Rattle.json.specs.Tree.{json_tokens};
ghost use Rattle.dc_records.specs.Seen.{ending};
ghost use Rattle.mbdc_decode.specs.Object.{fields_tokens, object_of, values_tokens};
ghost use Rattle.mbdc_decode.specs.Writing.{Added};
ghost use Rattle.mbdc_reading.specs.Content.{content_of, content_view, end_of, variable_view};
ghost use Rattle.mbdc_reading.specs.Fixed.{counters_of, fixed_view};
ghost use Rattle.mbdc_decode.specs.Content.{content_field, content_json, count_or_null};
ghost use Rattle.mbdc_decode.specs.Content.{counters_field, counters_in, ending_of, fault_json};
ghost use Rattle.mbdc_decode.specs.Content.{head_fields, known_fields, meter_or_null, number_json, reason_json};
ghost use Rattle.mbdc_decode.specs.Content.{security_field, security_fields, state_of};
ghost use Rattle.mbdc_decode.specs.Content.{whose_field};
ghost use Rattle.mbdc_decode.specs.Record.{counter_json};
ghost use Rattle.mbdc_decode.specs.Row.{field_of};

use crate::objects::frame::put_fault;
use crate::objects::record::put_counter;
use crate::objects::row::{Cell, put_object, put_row};
use crate::objects::telegram::{put_end, put_records_field};
use crate::tokens::TokenWriter;
use dc_address::Identity;
use dc_records::{BodyFault, End};
use mbdc_io::Sink;
use mbdc_reading::content::{
    Content, FixedData, Head, REASON_ROOM, Reason, Security, Variable, content_of, medium_of,
    security_name,
};
use mbdc_reading::digits_text;

// A number's cell, or null.
fn count_cell(name: &str, number: Option<u8>) -> Cell<'_>
    ensures { field_of result ≡ (name.now, count_or_null number) }
{
    match number {
        Some(number) => Cell::Number(name, u64::from(number)),
        None => Cell::Null(name),
    }
}

// A meter's cell, or null.
fn meter_cell(name: &str, meter: Option<Identity>) -> Cell<'_>
    ensures { field_of result ≡ (name.now, meter_or_null meter) }
{
    match meter {
        Some(meter) => Cell::Meter(name, meter),
        None => Cell::Null(name),
    }
}

// Writes the structure, the meter, the access number and the status byte of variable data.
#[tactic(auto, unfolding(crate::specs::Content::head_fields))]
fn put_head<W: Sink>(out: &mut TokenWriter<'_, W>, variable: &Variable<'_>)
    ensures { Added W.Sink out.old out.new
        (fields_tokens (head_fields (variable_view variable.now))) }
{
    let structure = Cell::Text("structure", variable.structure.name().as_bytes());
    let meter = meter_cell("meter", variable.meter);
    match &variable.head {
        Some(head) => put_row(
            out,
            &[
                structure,
                meter,
                Cell::Number("access", u64::from(head.access)),
                Cell::Status("status", head.status),
            ],
        ),
        None => put_row(
            out,
            &[structure, meter, Cell::Null("access"), Cell::Null("status")],
        ),
    }
}

// Writes what a configuration says.
#[tactic(auto, unfolding(crate::specs::Content::security_fields))]
fn put_security_object<W: Sink>(out: &mut TokenWriter<'_, W>, security: Security, config: u16)
    ensures { Added W.Sink out.old out.new
        (json_tokens (object_of (security_fields security config))) }
{
    put_object(
        out,
        &[
            Cell::Number("mode", u64::from(security.mode)),
            Cell::Text("name", security_name(security.mode).as_bytes()),
            count_cell("blocks", security.blocks),
            Cell::Number("configuration", u64::from(config)),
        ],
    );
}

// Writes the field of what a header's configuration says.
fn put_security<W: Sink>(out: &mut TokenWriter<'_, W>, head: &Option<Head>)
    ensures { Added W.Sink out.old out.new (fields_tokens (security_field head.now ∷ [])) }
{
    out.put_name("security");
    match head {
        Some(head) => put_security_object(out, Security::of(head.config), head.config),
        None => out.put_null(),
    }
}

// Writes the number and the medium of fixed data, or null.
fn put_number<W: Sink>(out: &mut TokenWriter<'_, W>, found: &FixedData<'_>)
    ensures { Added W.Sink out.old out.new (json_tokens (number_json (fixed_view found.now))) }
{
    if found.has_number() {
        let mut room = [0u8; 8];
        out.begin_object();
        out.put_name("id");
        out.put_null();
        out.put_name("number");
        out.put_string(digits_text(found.number, &mut room));
        out.put_name("manufacturer");
        out.put_null();
        out.put_name("version");
        out.put_null();
        out.put_text("medium", medium_of(found.medium));
        out.put_count("medium_code", u64::from(found.medium));
        return out.end_object();
    }
    out.put_null();
}

// Writes the field of the number and the medium of fixed data.
fn put_whose<W: Sink>(out: &mut TokenWriter<'_, W>, found: &Option<FixedData<'_>>)
    ensures { Added W.Sink out.old out.new
        (fields_tokens (whose_field (option_map fixed_view found.now) ∷ [])) }
{
    out.put_name("meter");
    match found {
        Some(found) => put_number(out, found),
        None => out.put_null(),
    }
}

// Writes the access number and the status byte of fixed data, where they have them.
#[tactic(auto, unfolding(crate::specs::Content::state_fields))]
fn put_state<W: Sink>(out: &mut TokenWriter<'_, W>, found: &Option<FixedData<'_>>)
    ensures { Added W.Sink out.old out.new
        (fields_tokens (state_of (option_map fixed_view found.now))) }
{
    match found {
        Some(found) => put_row(
            out,
            &[
                Cell::Number("access", u64::from(found.access)),
                Cell::Status("status", found.status),
                Cell::Null("security"),
            ],
        ),
        None => put_row(
            out,
            &[
                Cell::Null("access"),
                Cell::Null("status"),
                Cell::Null("security"),
            ],
        ),
    }
}

// Writes the counters of fixed data, where they are read.
fn put_shown<W: Sink>(out: &mut TokenWriter<'_, W>, found: &FixedData<'_>)
    ensures { Added W.Sink out.old out.new
        (values_tokens (map counter_json (counters_of (fixed_view found.now)))) }
{
    if found.shows_counters() {
        put_counter(out, &found.first);
        return put_counter(out, &found.second);
    }
}

// Writes the counters of fixed data, where there are enough bytes.
fn put_counters<W: Sink>(out: &mut TokenWriter<'_, W>, found: &Option<FixedData<'_>>)
    ensures { Added W.Sink out.old out.new
        (values_tokens (map counter_json (counters_in (option_map fixed_view found.now)))) }
{
    match found {
        Some(found) => put_shown(out, found),
        None => {}
    }
}

// Writes the field of the counters of fixed data.
fn put_counters_field<W: Sink>(out: &mut TokenWriter<'_, W>, found: &Option<FixedData<'_>>)
    ensures { Added W.Sink out.old out.new (fields_tokens
        (counters_field (counters_in (option_map fixed_view found.now)) ∷ [])) }
{
    out.put_name("records");
    out.begin_array();
    put_counters(out, found);
    out.end_array();
}

// How variable data end; after a fault nothing is known of that.
fn end_of<'a>(variable: &Variable<'a>) -> End<'a>
    ensures { ending result ≡ ending_of (end_of (variable_view variable.now)) }
{
    match variable.end() {
        Ok(end) => end,
        Err(_) => End::Plain,
    }
}

// Writes what stands before the fault.
fn put_known<W: Sink>(out: &mut TokenWriter<'_, W>, content: &Content<'_>)
    ensures { Added W.Sink out.old out.new
        (fields_tokens (known_fields (content_view content.now))) }
{
    match content {
        Content::Variable(variable) => {
            put_head(out, variable);
            put_security(out, &variable.head);
            put_records_field(out, variable.records());
            put_end(out, end_of(variable));
        }
        Content::Fixed(found) => {
            out.put_text("structure", "fixed");
            put_whose(out, found);
            put_state(out, found);
            put_counters_field(out, found);
            put_end(out, End::Plain);
        }
    }
}

// Writes the field of a fault, or null.
fn put_maybe_fault<W: Sink>(out: &mut TokenWriter<'_, W>, fault: Option<BodyFault>)
    ensures { Added W.Sink out.old out.new
        (fields_tokens ((codes "fault", fault_json fault) ∷ [])) }
{
    match fault {
        Some(fault) => put_fault(out, "body", fault.number(), fault.name()),
        None => put_row(out, &[Cell::Null("fault")]),
    }
}

// Writes the field of a reason, or null.
fn put_reason<W: Sink>(out: &mut TokenWriter<'_, W>, reason: Option<Reason>)
    ensures { Added W.Sink out.old out.new
        (fields_tokens ((codes "reason", reason_json reason) ∷ [])) }
{
    match reason {
        Some(reason) => {
            let mut room = [0u8; REASON_ROOM];
            put_row(out, &[Cell::Text("reason", reason.text(&mut room))]);
        }
        None => put_row(out, &[Cell::Null("reason")]),
    }
}

/// Writes what a body says.
pub fn put_content<W: Sink>(out: &mut TokenWriter<'_, W>, content: &Content<'_>)
    ensures { Added W.Sink out.old out.new
        (json_tokens (content_json (content_view content.now))) }
{
    out.begin_object();
    put_known(out, content);
    put_maybe_fault(out, content.fault());
    put_reason(out, content.reason());
    out.end_object();
}

/// Writes the field of what the body of a long frame with this CI field says; nothing for another CI field.
pub(crate) fn put_content_field<W: Sink>(out: &mut TokenWriter<'_, W>, ci: u8, body: &[u8])
    ensures { Added W.Sink out.old out.new
        (fields_tokens (content_field (content_of ci body.now))) }
{
    match content_of(ci, body) {
        Some(content) => {
            out.put_name("content");
            put_content(out, &content);
        }
        None => {}
    }
}
