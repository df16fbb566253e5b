//! A link frame or its fault.

ghost use Rattle.std.specs.Prelude.{◌≡◌, ◌∷◌, [], is_err};
ghost use Rattle.json.specs.Tree.{json_tokens};
ghost use Rattle.dc_linkframe.specs.Frame.{seen};
ghost use Rattle.mbdc_decode.specs.Frames.{is_bad_content, is_bad_frame, is_bad};
ghost use Rattle.mbdc_decode.specs.Object.{fields_tokens};
ghost use Rattle.mbdc_decode.specs.Writing.{Added};
ghost use Rattle.mbdc_decode.specs.Fault.{fault_field};
ghost use Rattle.mbdc_decode.specs.Frame.{place_fields, link_fields, body_fields, content_fields};
ghost use Rattle.mbdc_decode.specs.Frame.{frame_fields, text_fields, text_json};
ghost use Rattle.mbdc_decode.specs.Frame.{body_json, hex_fault_json};
ghost use Rattle.dc_records.specs.Telegram.{telegram_at};

use crate::objects::content::put_content_field;
use crate::objects::row::{Cell, put_object};
use crate::objects::telegram::put_telegram;
use crate::read_frame;
use crate::tokens::TokenWriter;
use dc_linkframe::Frame;
use dc_linkframe::control::VARIABLE_DATA;
use dc_records::Telegram;
use dc_records::names::{ci_name, control_name};
use mbdc_io::Sink;

/// Writes the place of a fault, its number and its name.
pub(crate) fn put_fault<'f, W: Sink>(
    out: &mut TokenWriter<'_, W>,
    place: &'f str,
    number: u8,
    name: &'f str,
)
    ensures { Added W.Sink out.old out.new
        (fields_tokens (fault_field place.now number name.now ∷ [])) }
{
    out.put_name("fault");
    put_object(
        out,
        &[
            Cell::Text("kind", place.as_bytes()),
            Cell::Number("number", u64::from(number)),
            Cell::Text("name", name.as_bytes()),
        ],
    );
}

// Writes the line and the kind of frame.
fn put_place<W: Sink>(out: &mut TokenWriter<'_, W>, line: u64, kind: &str)
    ensures { Added W.Sink out.old out.new (fields_tokens (place_fields line kind.now)) }
{
    out.put_count("line", line);
    out.put_text("frame", kind);
}

// Writes a control byte and an address.
fn put_link<W: Sink>(out: &mut TokenWriter<'_, W>, control: u8, address: u8)
    ensures { Added W.Sink out.old out.new (fields_tokens (link_fields control address)) }
{
    out.put_count("control", u64::from(control));
    out.put_text("control_name", control_name(control));
    out.put_count("address", u64::from(address));
}

// Writes a telegram, or its bytes, its fault and what it says all the same, and returns whether it has one.
fn put_body<W: Sink>(out: &mut TokenWriter<'_, W>, body: &[u8]) -> bool
    ensures tokens { Added W.Sink out.old out.new
        (fields_tokens (body_fields body.now (telegram_at body.now))) }
    ensures fault { result ≡ is_err (telegram_at body.now) }
{
    match Telegram::parse(body) {
        Ok(telegram) => {
            put_telegram(out, &telegram);
            false
        }
        Err(fault) => {
            out.put_hex("body", body);
            put_fault(out, "body", fault.number(), fault.name());
            put_content_field(out, VARIABLE_DATA, body);
            true
        }
    }
}

/// Writes the object of a body without a frame, and returns whether it has a fault.
pub(crate) fn put_body_json<W: Sink>(out: &mut TokenWriter<'_, W>, body: &[u8]) -> bool
    ensures tokens { Added W.Sink out.old out.new (json_tokens (body_json body.now)) }
    ensures fault { result ≡ is_err (telegram_at body.now) }
{
    out.begin_object();
    let bad = put_body(out, body);
    out.end_object();
    bad
}

// Writes a telegram if the CI field states one, otherwise the body's bytes and what it says, and
// returns whether the body has a fault.
#[tactic(auto, unfolding(crate::specs::Frame::content_fields, crate::specs::Frames::is_bad_content))]
fn put_content<W: Sink>(out: &mut TokenWriter<'_, W>, ci: u8, body: &[u8]) -> bool
    ensures tokens { Added W.Sink out.old out.new (fields_tokens (content_fields ci body.now)) }
    ensures fault { result ≡ is_bad_content ci body.now }
{
    if ci != VARIABLE_DATA {
        out.put_hex("body", body);
        put_content_field(out, ci, body);
        return false;
    }
    put_body(out, body)
}

// Writes the fields of a frame, and returns whether its body has a fault.
fn put_frame<W: Sink>(out: &mut TokenWriter<'_, W>, line: u64, frame: Frame<'_>) -> bool
    ensures tokens { Added W.Sink out.old out.new
        (fields_tokens (frame_fields line (seen frame.entry))) }
    ensures fault { result ≡ is_bad_frame (seen frame.entry) }
{
    match frame {
        Frame::Ack => {
            put_place(out, line, "ack");
            false
        }
        Frame::Short { control, address } => {
            put_place(out, line, "short");
            put_link(out, control, address);
            false
        }
        Frame::Long {
            control,
            address,
            ci,
            body,
        } => {
            put_place(out, line, "long");
            put_link(out, control, address);
            out.put_count("ci", u64::from(ci));
            out.put_text("ci_name", ci_name(ci));
            put_content(out, ci, body)
        }
    }
}

// Writes the fields of a text, frame or fault, and returns whether it has a fault.
#[tactic(auto, unfolding(crate::specs::Frame::text_fields, crate::specs::Frames::is_bad))]
fn put_shown<W: Sink>(out: &mut TokenWriter<'_, W>, line: u64, text: &[u8]) -> bool
    ensures tokens { Added W.Sink out.old out.new (fields_tokens (text_fields line text.now)) }
    ensures fault { result ≡ is_bad text.now }
{
    match read_frame(text) {
        Ok(frame) => put_frame(out, line, frame),
        Err(fault) => {
            put_place(out, line, "none");
            out.put_hex("bytes", text);
            put_fault(out, "frame", fault.number(), fault.name());
            true
        }
    }
}

/// Writes the object of a text, frame or fault, and returns whether it has a fault.
pub(crate) fn put_text_json<W: Sink>(out: &mut TokenWriter<'_, W>, line: u64, text: &[u8]) -> bool
    ensures tokens { Added W.Sink out.old out.new (json_tokens (text_json line text.now)) }
    ensures fault { result ≡ is_bad text.now }
{
    out.begin_object();
    let bad = put_shown(out, line, text);
    out.end_object();
    bad
}

/// Writes the object of a line that isn't pairs of hex digits.
pub(crate) fn put_hex_fault_json<W: Sink>(out: &mut TokenWriter<'_, W>, line: u64)
    ensures { Added W.Sink out.old out.new (json_tokens (hex_fault_json line)) }
{
    out.begin_object();
    put_place(out, line, "none");
    put_fault(out, "hex", 1, "Hex");
    out.end_object();
}
