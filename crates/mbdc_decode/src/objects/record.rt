//! A data record.

ghost use Rattle.std.specs.Prelude.{◌≤◌, ◌∷◌, length, map, option_map};
ghost use Rattle.json.specs.Json.{string};
ghost use Rattle.json.specs.Token as Token;
ghost use Rattle.json.specs.Tree.{json_tokens};
ghost use Rattle.dc_records.specs.Record.{view};
ghost use Rattle.mbdc_decode.specs.Object.{fields_tokens, object_of, values_tokens};
ghost use Rattle.mbdc_decode.specs.Writing.{Added};
ghost use Rattle.mbdc_reading.specs.Names.{names_of};
ghost use Rattle.mbdc_reading.specs.Sent.{sent_view};
ghost use Rattle.mbdc_reading.specs.Counter.{counter_view};
ghost use Rattle.mbdc_decode.specs.Record.{counter_json, record_json, sent_fields};
ghost use Rattle.mbdc_decode.specs.Record.{told_fields};
ghost use Rattle.mbdc_decode.specs.Record.{flag_or_null, hex_or_null, text_or_null};
ghost use Rattle.mbdc_decode.specs.Record.{unit_json, value_fields, value_json, vife_fields};

use crate::tokens::TokenWriter;
use dc_records::Record;
use dc_records::names::function_name;
use dc_units::{TEXT_ROOM, Value};
use mbdc_io::Sink;
use mbdc_reading::content::Counter;
use mbdc_reading::{
    READING_ROOM, Reading, Sent, code_at, is_extension, label_text, maker_of, number_after,
    number_of, reading_of, told_of, unit_text, value_text, vife_at, vife_text,
};

/// A record's unit and its other texts have room in this many bytes.
pub(crate) const RECORD_ROOM: usize = 2 * READING_ROOM;

/// Writes a value, or null.
#[tactic(auto, unfolding(crate::specs::Record::value_json))]
pub fn put_value<W: Sink>(out: &mut TokenWriter<'_, W>, value: &Value)
    ensures { Added W.Sink out.old out.new (json_tokens (value_json value.now)) }
{
    if matches!(value, Value::None) {
        out.put_null();
        return;
    }
    let mut room = [0u8; TEXT_ROOM];
    out.put_string(value.write_into(&mut room));
}

// Writes a field of a text, or of null.
#[inline(always)]
fn put_maybe<W: Sink>(out: &mut TokenWriter<'_, W>, name: &str, text: Option<&[u8]>)
    ensures { Added W.Sink out.old out.new (Token.key name.now
        ∷ json_tokens (text_or_null (option_map (λ s. s.now) text.entry))) }
{
    match text {
        Some(text) => out.put_bytes(name, text),
        None => out.put_nothing(name),
    }
}

/// Writes a field of a unit, or of null for none.
#[inline(always)]
#[tactic(auto, unfolding(crate::specs::Record::unit_json))]
pub(crate) fn put_unit_field<W: Sink>(out: &mut TokenWriter<'_, W>, name: &str, unit: &[u8])
    ensures { Added W.Sink out.old out.new
        (Token.key name.now ∷ json_tokens (unit_json unit.now)) }
{
    if unit.is_empty() {
        return out.put_nothing(name);
    }
    out.put_bytes(name, unit);
}

// Writes a field of a word, or of null.
#[inline(always)]
fn put_word<W: Sink>(out: &mut TokenWriter<'_, W>, name: &str, word: Option<&str>)
    ensures { Added W.Sink out.old out.new (Token.key name.now
        ∷ json_tokens (text_or_null (option_map (λ s. s.now) word.entry))) }
{
    match word {
        Some(word) => out.put_text(name, word),
        None => out.put_nothing(name),
    }
}

// Writes a field of bytes in capital hex digits, or of null.
#[inline(always)]
fn put_maybe_hex<W: Sink>(out: &mut TokenWriter<'_, W>, name: &str, bytes: Option<&[u8]>)
    ensures { Added W.Sink out.old out.new (Token.key name.now
        ∷ json_tokens (hex_or_null (option_map (λ s. s.now) bytes.entry))) }
{
    match bytes {
        Some(bytes) => out.put_hex(name, bytes),
        None => out.put_nothing(name),
    }
}

// Writes a field of a truth, or of null.
#[inline(always)]
fn put_maybe_flag<W: Sink>(out: &mut TokenWriter<'_, W>, name: &str, flag: Option<bool>)
    ensures { Added W.Sink out.old out.new
        (Token.key name.now ∷ json_tokens (flag_or_null flag)) }
{
    match flag {
        Some(flag) => out.put_flag(name, flag),
        None => out.put_nothing(name),
    }
}

// Writes what is read of a record: by which table, its value and unit, the type of the value, or why it has none.
fn put_value_fields<W: Sink>(
    out: &mut TokenWriter<'_, W>,
    found: &Record<'_>,
    unit: &[u8],
    reading: &Reading,
    room: &mut [u8],
)
    requires { READING_ROOM ≤ length room.old }
    ensures { Added W.Sink out.old out.new
        (fields_tokens (value_fields (view found.now) unit.now reading.now)) }
{
    out.put_text("reading", reading.how.name());
    put_maybe(out, "value", value_text(reading, found.content, room));
    put_unit_field(out, "unit", unit);
    put_word(out, "type", reading.found.type_name());
    put_word(out, "error", reading.found.fault_name());
}

// Writes what else the VIFEs and the data of a record say.
fn put_vife_fields<W: Sink>(
    out: &mut TokenWriter<'_, W>,
    found: &Record<'_>,
    vib: &[u8],
    reading: &Reading,
    room: &mut [u8],
)
    requires { READING_ROOM ≤ length room.old }
    ensures { Added W.Sink out.old out.new
        (fields_tokens (vife_fields (view found.now) vib.now reading.now)) }
{
    put_word(out, "phase", vife_text(&reading.phase));
    put_word(out, "direction", vife_text(&reading.direction));
    put_maybe_hex(out, "maker", maker_of(vib));
    put_maybe(out, "label", label_text(vib, room));
    put_maybe_flag(out, "summer_time", reading.found.summer_time(found.content));
}

// Writes the numbers and the function of a record, and its bytes as sent.
fn put_sent<W: Sink>(out: &mut TokenWriter<'_, W>, found: &Record<'_>)
    ensures { Added W.Sink out.old out.new (fields_tokens (sent_fields (view found.now))) }
{
    out.put_count("storage", found.storage);
    out.put_count("tariff", u64::from(found.tariff));
    out.put_count("subunit", u64::from(found.subunit));
    out.put_text("function", function_name(found.function));
    out.put_hex("vib", found.vib);
    out.put_hex("data", found.content);
}

// Writes a record: what it is of, its value information block where it has one, its unit, and what is read of it.
fn put_told<W: Sink>(
    out: &mut TokenWriter<'_, W>,
    found: &Record<'_>,
    name: &str,
    vib: &[u8],
    unit: &[u8],
    reading: &Reading,
    room: &mut [u8],
)
    requires { READING_ROOM ≤ length room.old }
    ensures { Added W.Sink out.old out.new (json_tokens
        (object_of (told_fields (view found.now) name.now vib.now unit.now reading.now))) }
{
    out.begin_object();
    put_sent(out, found);
    out.put_text("quantity", name);
    out.put_name("qualifiers");
    out.begin_array();
    put_names(out, false, told_of(vib));
    out.end_array();
    put_value_fields(out, found, unit, reading, room);
    put_vife_fields(out, found, vib, reading, room);
    out.end_object();
}

/// Writes a record. The caller has the room, so that it is cleared once for all records.
#[tactic(auto, unfolding(crate::specs::Record::record_json, crate::specs::Record::read_fields))]
pub(crate) fn put_record_in<W: Sink>(out: &mut TokenWriter<'_, W>, sent: &Sent<'_>, room: &mut [u8])
    requires { RECORD_ROOM ≤ length room.old }
    ensures { Added W.Sink out.old out.new (json_tokens (record_json (sent_view sent.now))) }
{
    let reading = reading_of(&sent.record, sent.len);
    let vib = sent.record.vib;
    let (of_unit, of_others) = room.split_at_mut(READING_ROOM);
    let unit = unit_text(&reading, vib, of_unit);
    put_told(
        out,
        &sent.record,
        code_at(number_of(vib)).name,
        vib,
        unit,
        &reading,
        of_others,
    );
}

/// Writes a record.
pub fn put_record<W: Sink>(out: &mut TokenWriter<'_, W>, sent: &Sent<'_>)
    ensures { Added W.Sink out.old out.new (json_tokens (record_json (sent_view sent.now))) }
{
    put_record_in(out, sent, &mut [0u8; RECORD_ROOM]);
}

/// Writes a counter of fixed data as a record.
#[tactic(auto, unfolding(crate::specs::Record::counter_json))]
pub fn put_counter<W: Sink>(out: &mut TokenWriter<'_, W>, counter: &Counter<'_>)
    ensures { Added W.Sink out.old out.new
        (json_tokens (counter_json (counter_view counter.now))) }
{
    let unit = counter.unit.as_bytes();
    put_told(
        out,
        &counter.record,
        counter.name,
        &[],
        unit,
        &counter.reading,
        &mut [0u8; READING_ROOM],
    );
}

// Writes the names of VIFEs; `after_fc` says that an FC stands before the first.
#[tactic(auto, unfolding(mbdc_reading::specs::Names::names_of))]
fn put_names<W: Sink>(out: &mut TokenWriter<'_, W>, after_fc: bool, vifes: &[u8])
    ensures { Added W.Sink out.old out.new
        (values_tokens (map string (names_of after_fc vifes.now))) }
{
    let [vife, others @ ..] = vifes else {
        return;
    };
    out.put_string(vife_at(number_after(after_fc, *vife)).name.as_bytes());
    put_names(out, is_extension(after_fc, *vife), others);
}
