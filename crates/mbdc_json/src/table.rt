//! A telegram, or what another body says, as an aligned table.

use crate::latest::{put_byte_words, put_names};
use crate::text::TextWriter;
use dc_records::names::{function_name, medium_name};
use dc_records::{End, Record};
use mbdc_decode::tokens::Piece;
use mbdc_io::{Sink, pair_of, put_hex};
use mbdc_reading::content::{
    Content, FixedData, REASON_ROOM, Security, Variable, medium_of, security_name,
};
use mbdc_reading::{
    How, READING_ROOM, Reading, Sent, code_at, digits_text, label_text, maker_of, number_of,
    reading_of, told_of, unit_text, value_text,
};

// The widths of the columns, in characters: a row of three short words in its last column has 80.
const QUANTITY: usize = 24;

const VALUE: usize = 18;

const UNIT: usize = 8;

// The names of the columns.
const COLUMNS: &[u8] = b"  quantity                 value              unit     which\n";

// Writes a cell of a column: a text from a meter, and at least one space.
fn put_cell<W: Sink>(out: &mut TextWriter<'_, W>, text: &[u8], width: usize) {
    put_shown(out, text);
    'spaces: for _ in text.len()..width {
        out.put(b" ");
    }
    out.put(b" ");
}

// Writes the number and the medium of a meter, where it is named, an access number and a status byte.
fn put_header<'x, W: Sink>(
    out: &mut TextWriter<'_, W>,
    meter: Option<(&'x [u8], &'x str)>,
    access: u8,
    status: u8,
) {
    out.put(b"  meter   ");
    match meter {
        Some((number, medium)) => out.put_row(&[
            Piece::Text(number),
            Piece::Text(b", "),
            Piece::Text(medium.as_bytes()),
        ]),
        None => out.put(b"not named"),
    }
    out.put_row(&[
        Piece::Text(b", access number "),
        Piece::Number(u64::from(access)),
        Piece::Text(b"\n  status  "),
        Piece::Text(&pair_of(status)),
        Piece::Text(b": application:"),
    ]);
    out.has_failed = out.has_failed || put_byte_words(out.out, status).is_err();
    out.put(b"\n");
}

// Writes a text from a meter, with a point for each control character.
fn put_shown<W: Sink>(out: &mut TextWriter<'_, W>, text: &[u8]) {
    'bytes: for byte in text {
        if *byte < 0x20 || *byte == 0x7F {
            out.put(b".");
        } else {
            out.put(&[*byte]);
        }
    }
}

// Writes which value of its quantity a record has: its function and its numbers, but for those of the current value.
fn put_place<W: Sink>(out: &mut TextWriter<'_, W>, found: &Record<'_>) {
    let numbers: [(&[u8], u64); 3] = [
        (b"storage ", found.storage),
        (b"tariff ", u64::from(found.tariff)),
        (b"subunit ", u64::from(found.subunit)),
    ];
    let mut is_current = found.function == 0;
    if !is_current {
        out.put(function_name(found.function).as_bytes());
    }
    'numbers: for (name, number) in numbers {
        if number != 0 {
            let before: &[u8] = if is_current { b"" } else { b", " };
            is_current = false;
            out.put_row(&[
                Piece::Text(before),
                Piece::Text(name),
                Piece::Number(number),
            ]);
        }
    }
    if is_current {
        out.put(b"current");
    }
}

// Writes the row of a record: what it is of, its value, or why it has none, or its data in hex, its unit, which value it
// is, and of its value information block, where it has one, the names of the VIFEs, the manufacturer's bytes and the text
// of a unit in plain text.
fn put_told<W: Sink>(
    out: &mut TextWriter<'_, W>,
    found: &Record<'_>,
    name: &str,
    vib: &[u8],
    unit: &[u8],
    reading: &Reading,
) {
    out.put(b"  ");
    put_cell(out, name.as_bytes(), QUANTITY);
    let mut room = [0u8; READING_ROOM];
    if let Some(text) = value_text(reading, found.content, &mut room) {
        put_cell(out, text, VALUE);
    } else if let Some(fault) = reading.found.fault_name() {
        let taken = fault.len().saturating_add(6);
        out.put_row(&[Piece::Text(b"none ("), Piece::Text(fault.as_bytes())]);
        put_cell(out, b")", VALUE.saturating_sub(taken));
    } else {
        let taken = found.content.len().saturating_mul(2);
        out.has_failed = out.has_failed || put_hex(out.out, found.content).is_err();
        put_cell(out, b"", VALUE.saturating_sub(taken));
    }
    let is_other = matches!(reading.how, How::Other);
    put_cell(out, if is_other { b"hex" } else { unit }, UNIT);
    put_place(out, found);
    out.has_failed = out.has_failed || put_names(out.out, told_of(vib)).is_err();
    if let Some(maker) = maker_of(vib) {
        out.put(b", maker ");
        out.has_failed = out.has_failed || put_hex(out.out, maker).is_err();
    }
    if let Some(label) = label_text(vib, &mut room) {
        out.put(b", text ");
        put_shown(out, label);
    }
    out.put(b"\n");
}

// Writes the header of variable data, and a row for each record before the first fault.
fn put_variable<W: Sink>(out: &mut TextWriter<'_, W>, variable: &Variable<'_>, is_telegram: bool) {
    if let Some(head) = variable.head {
        match variable.meter {
            Some(meter) => {
                let number = meter.text();
                let named = Some((number.as_slice(), medium_name(meter.kind)));
                put_header(out, named, head.access, head.status);
            }
            None => put_header(out, None, head.access, head.status),
        }
    }
    if variable.refused.is_none() {
        out.put(COLUMNS);
        'records: for Sent { record, len } in variable.records() {
            let reading = reading_of(&record, len);
            let name = code_at(number_of(record.vib)).name;
            let mut room = [0u8; READING_ROOM];
            let unit = unit_text(&reading, record.vib, &mut room);
            put_told(out, &record, name, record.vib, unit, &reading);
        }
    }
    if is_telegram && matches!(variable.end(), Ok(End::More(_))) {
        out.put(b"  more records follow in the next telegram\n");
    }
}

// Writes the meter of fixed data, and its counters.
fn put_fixed<W: Sink>(out: &mut TextWriter<'_, W>, data: &FixedData<'_>) {
    let mut room = [0u8; 8];
    out.put(b"  body    fixed data\n");
    if data.has_number() {
        let named = Some((digits_text(data.number, &mut room), medium_of(data.medium)));
        put_header(out, named, data.access, data.status);
    } else {
        put_header(out, None, data.access, data.status);
    }
    if data.shows_counters() {
        out.put(COLUMNS);
        'counters: for counter in [&data.first, &data.second] {
            let unit = counter.unit.as_bytes();
            put_told(
                out,
                &counter.record,
                counter.name,
                &[],
                unit,
                &counter.reading,
            );
        }
    }
}

/// Writes what a body says: its header, a row for each record, and of what is no telegram its structure, its security
/// mode, and why the register refuses it.
pub(crate) fn put_content<W: Sink>(
    out: &mut TextWriter<'_, W>,
    content: &Content<'_>,
    is_telegram: bool,
) {
    match content {
        Content::Variable(variable) => {
            if !is_telegram {
                out.put(b"  body    ");
                out.put(variable.structure.name().as_bytes());
                if let Some(head) = variable.head {
                    let mode = Security::of(head.config).mode;
                    out.put_row(&[
                        Piece::Text(b", security mode "),
                        Piece::Number(u64::from(mode)),
                        Piece::Text(b" ("),
                        Piece::Text(security_name(mode).as_bytes()),
                        Piece::Text(b")"),
                    ]);
                }
                out.put(b"\n");
            }
            put_variable(out, variable, is_telegram);
        }
        Content::Fixed(Some(data)) => put_fixed(out, data),
        Content::Fixed(None) => {}
    }
    if is_telegram {
        return;
    }
    if let Some(reason) = content.reason() {
        let mut room = [0u8; REASON_ROOM];
        out.put_row(&[
            Piece::Text(b"  reason  "),
            Piece::Text(reason.text(&mut room)),
            Piece::Text(b"\n"),
        ]);
    }
}
