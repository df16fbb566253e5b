//! What the telegrams of a reading report, as fields of an object.

ghost use Rattle.std.specs.Prelude.{◌≡◌, ◌≤◌, ◌∷◌, [], codes};
ghost use Rattle.mbdc_change.specs.Fields.{last_moment};
ghost use Rattle.mbdc_decode.specs.Writing.{Added};
ghost use Rattle.mbdc_decode.specs.Object.{fields_tokens};
ghost use Rattle.mbdc_shown.specs.Stand.{bodies_sent};
ghost use Rattle.mbdc_shown.specs.Reported.{received_fields, records_field, reported_fields, told_fields};

use crate::bodies::Bodies;
use crate::stand::{Current, Headline, Listed};
use crate::utc::minute;
use mbdc_decode::objects::{Cell, put_record, put_row};
use mbdc_decode::tokens::TokenWriter;
use mbdc_io::Sink;

/// Writes the fields of a reading of a meter of this device type: `moment`, `utc` and `status` of its last telegram,
/// and `headline`, `values` and `also` of all.
pub fn put_reported<W: Sink>(
    out: &mut TokenWriter<'_, W>,
    moment: u64,
    status: u8,
    kind: u8,
    bodies: &Bodies<'_>,
)
    requires { moment ≤ last_moment }
    ensures { Added W.Sink out.old out.new
        (fields_tokens (reported_fields moment status kind (bodies_sent bodies.now))) }
{
    put_received(out, moment, status);
    put_told(out, kind, bodies);
}

// Writes when a telegram was received, and the status that it reports.
#[tactic(auto, unfolding(crate::specs::Reported::received_fields))]
fn put_received<W: Sink>(out: &mut TokenWriter<'_, W>, moment: u64, status: u8)
    requires { moment ≤ last_moment }
    ensures { Added W.Sink out.old out.new (fields_tokens (received_fields moment status)) }
{
    put_row(
        out,
        &[
            Cell::Number("moment", moment),
            Cell::Value("utc", minute(moment)),
            Cell::Status("status", status),
        ],
    );
}

// Writes the records of telegrams of a meter of this device type.
fn put_told<W: Sink>(out: &mut TokenWriter<'_, W>, kind: u8, bodies: &Bodies<'_>)
    ensures { Added W.Sink out.old out.new (fields_tokens (told_fields kind (bodies_sent bodies.now))) }
{
    put_headline(out, Headline::new(kind, bodies));
    put_listed(out, "values", Listed::new(Current::Values, bodies));
    put_listed(out, "also", Listed::new(Current::Also, bodies));
}

// Writes the field of the records that a meter stands at.
fn put_headline<W: Sink>(out: &mut TokenWriter<'_, W>, headline: Headline<'_>)
    ensures { Added W.Sink out.old out.new
        (fields_tokens (records_field (codes "headline") headline.entry ∷ [])) }
{
    out.put_name("headline");
    out.begin_array();
    'records: for sent in headline {
        put_record(out, &sent);
    }
    out.end_array();
}

// Writes the field of the records of a list.
fn put_listed<W: Sink>(out: &mut TokenWriter<'_, W>, name: &str, listed: Listed<'_>)
    ensures { Added W.Sink out.old out.new
        (fields_tokens (records_field name.now listed.entry ∷ [])) }
{
    out.put_name(name);
    out.begin_array();
    'records: for sent in listed {
        put_record(out, &sent);
    }
    out.end_array();
}
