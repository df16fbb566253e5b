//! The events of a poll as JSON objects (RFC 8259).

ghost use Rattle.std.specs.Prelude.{map};
ghost use Rattle.json.specs.Tree.{json_tokens};
ghost use Rattle.mbdc_io.specs.Written.{Wrote};
ghost use Rattle.mbdc_decode.specs.Content.{content_field};
ghost use Rattle.mbdc_decode.specs.JsonText.{value_line};
ghost use Rattle.mbdc_decode.specs.Object.{fields_tokens, values_tokens};
ghost use Rattle.mbdc_decode.specs.Writing.{Added};
ghost use Rattle.mbdc_poll.specs.Content.{untaken};
ghost use Rattle.mbdc_poll.specs.Object.{body_fields, failed_fields, fault_fields, fields_of};
ghost use Rattle.mbdc_poll.specs.Object.{json_of, object_of, read_fields, refused_fields};
ghost use Rattle.mbdc_poll.specs.Read.{hex_json, last_fields};

use crate::events::content::untaken;
use crate::{Brought, Event, LastPart, Refusal};
use dc_address::Identity;
use dc_readout::Why;
use mbdc_decode::objects::Cell::{Number, Text};
use mbdc_decode::objects::{put_content, put_row};
use mbdc_decode::tokens::TokenWriter;
use mbdc_io::{IoFault, Sink};
use mbdc_shown::{Bodies, put_reported};

/// Writes the object of an event, with its line feed.
#[tactic(auto, using(mbdc_decode::proofs::Adding::whole, mbdc_io::proofs::Pieces::written), unfolding(mbdc_decode::specs::JsonText::value_line))]
pub fn put_object<W: Sink>(out: &mut W, event: &Event<'_>) -> Result<(), IoFault>
    ensures { Wrote W.Sink result out.old out.new (object_of event.now) }
{
    let mut tokens = TokenWriter::new(out);
    put_json(&mut tokens, event);
    tokens.outcome()?;
    out.put(b"\n")
}

fn put_json<W: Sink>(out: &mut TokenWriter<'_, W>, event: &Event<'_>)
    ensures { Added W.Sink out.old out.new (json_tokens (json_of event.now)) }
{
    out.begin_object();
    put_fields(out, event);
    out.end_object();
}

// Writes the fields of an event.
fn put_fields<W: Sink>(out: &mut TokenWriter<'_, W>, event: &Event<'_>)
    ensures { Added W.Sink out.old out.new (fields_tokens (fields_of event.now)) }
{
    match event {
        Event::Read {
            meter,
            serial,
            bodies,
            last,
        } => put_read(out, meter, *serial, bodies, last),
        Event::Failed {
            line,
            meter,
            why,
            brought,
        } => put_failed(out, *line, meter, *why, brought),
        Event::Refused { meter, refusal } => put_refused(out, meter, *refusal),
        Event::Lost { line } => put_row(
            out,
            &[Text("event", b"lost"), Number("line", u64::from(*line))],
        ),
        Event::Late { line, answers } => put_row(
            out,
            &[
                Text("event", b"late"),
                Number("line", u64::from(*line)),
                Number("answers", *answers),
            ],
        ),
        Event::End { read, failed } => put_row(
            out,
            &[
                Text("event", b"end"),
                Number("read", *read),
                Number("failed", *failed),
            ],
        ),
    }
}

// Writes the fields of a meter that was read: the bodies of its telegrams, and what they report.
fn put_read<W: Sink>(
    out: &mut TokenWriter<'_, W>,
    meter: &Identity,
    serial: u64,
    bodies: &Bodies<'_>,
    last: &Option<LastPart<'_>>,
)
    ensures { Added W.Sink out.old out.new
        (fields_tokens (read_fields meter.now serial bodies.now last.now)) }
{
    put_row(
        out,
        &[
            Text("event", b"read"),
            Text("meter", &meter.text()),
            Number("serial", serial),
            Number("parts", bodies.len() as u64),
        ],
    );
    out.put_name("bodies");
    out.begin_array();
    put_bodies(out, bodies.as_slice());
    out.end_array();
    put_last(out, meter.kind, bodies, last);
}

// Writes bodies in hex digits, as items of an array.
fn put_bodies<W: Sink>(out: &mut TokenWriter<'_, W>, bodies: &[&[u8]])
    ensures { Added W.Sink out.old out.new
        (values_tokens (map hex_json (map (λ s. s.now) bodies.now))) }
{
    if let [body, rest @ ..] = bodies {
        out.put_hex_string(body);
        put_bodies(out, rest);
    }
}

// Writes what the telegrams report, the last of which is this part.
fn put_last<W: Sink>(
    out: &mut TokenWriter<'_, W>,
    kind: u8,
    bodies: &Bodies<'_>,
    last: &Option<LastPart<'_>>,
)
    ensures { Added W.Sink out.old out.new (fields_tokens (last_fields kind bodies.now last.now)) }
{
    if let Some(part) = last {
        put_reported(
            out,
            part.moment(),
            part.telegram().header().status,
            kind,
            bodies,
        );
    }
}

// Writes the fields of a failed readout, and what its tries brought.
fn put_failed<W: Sink>(
    out: &mut TokenWriter<'_, W>,
    line: u8,
    meter: &Identity,
    why: Why,
    brought: &Brought,
)
    ensures { Added W.Sink out.old out.new
        (fields_tokens (failed_fields line meter.now why brought.now)) }
{
    put_row(
        out,
        &[Text("event", b"failed"), Text("meter", &meter.text())],
    );
    put_code(out, why.number(), why.name());
    put_body_fault(out, why);
    out.put_count("line", u64::from(line));
    out.put_name("heard");
    let misses = &brought.misses;
    mbdc_decode::objects::put_object(
        out,
        &[
            Number("silent", u64::from(misses.silent)),
            Number("noise", u64::from(misses.noise)),
            Number("others", u64::from(misses.others)),
        ],
    );
    put_untaken(out, brought.last.as_slice());
}

// Writes the fields of a meter whose readout was refused.
fn put_refused<W: Sink>(out: &mut TokenWriter<'_, W>, meter: &Identity, refusal: Refusal)
    ensures { Added W.Sink out.old out.new (fields_tokens (refused_fields meter.now refusal)) }
{
    let (number, name) = refusal.code();
    put_row(
        out,
        &[Text("event", b"refused"), Text("meter", &meter.text())],
    );
    put_code(out, number, name);
}

// Writes the number and the name of a fault.
#[tactic(auto, unfolding(crate::specs::Object::fault_fields))]
fn put_code<W: Sink>(out: &mut TokenWriter<'_, W>, number: u8, name: &'static str)
    ensures { Added W.Sink out.old out.new (fields_tokens (fault_fields number name.now)) }
{
    put_row(
        out,
        &[
            Number("number", u64::from(number)),
            Text("name", name.as_bytes()),
        ],
    );
}

// Writes the fault of the body, of a fault of content.
fn put_body_fault<W: Sink>(out: &mut TokenWriter<'_, W>, why: Why)
    ensures { Added W.Sink out.old out.new (fields_tokens (body_fields why)) }
{
    if let Why::Content(fault) = why {
        out.put_name("fault");
        out.begin_object();
        put_code(out, fault.number(), fault.name());
        out.end_object();
    }
}

// Writes what the last answer says where the register doesn't take it.
fn put_untaken<W: Sink>(out: &mut TokenWriter<'_, W>, answer: &[u8])
    ensures { Added W.Sink out.old out.new
        (fields_tokens (content_field (untaken answer.now))) }
{
    if let Some(content) = untaken(answer) {
        out.put_name("content");
        put_content(out, &content);
    }
}
