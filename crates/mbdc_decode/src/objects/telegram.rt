//! A telegram.

ghost use Rattle.std.specs.Prelude.{◌∷◌, [], map};
ghost use Rattle.dc_records.specs.Seen.{ending};
ghost use Rattle.dc_records.specs.Telegram.{parsed};
ghost use Rattle.mbdc_decode.specs.Object.{fields_tokens, values_tokens};
ghost use Rattle.mbdc_decode.specs.Writing.{Added};
ghost use Rattle.mbdc_decode.specs.Record.{record_json};
ghost use Rattle.mbdc_decode.specs.JsonTelegram.{end_fields, records_field};
ghost use Rattle.mbdc_decode.specs.JsonTelegram.{telegram_fields};

use crate::objects::record::{RECORD_ROOM, put_record_in};
use crate::objects::row::{Cell, put_row};
use crate::tokens::TokenWriter;
use dc_records::{End, Telegram};
use mbdc_io::Sink;
use mbdc_reading::SentRecords;

// Writes records, one after the other.
fn put_records<W: Sink>(out: &mut TokenWriter<'_, W>, records: SentRecords<'_>)
    ensures { Added W.Sink out.old out.new (values_tokens (map record_json records.entry)) }
{
    let mut room = [0u8; RECORD_ROOM];
    'records: for found in records {
        put_record_in(out, &found, &mut room);
    }
}

/// Writes the field of the records.
pub(crate) fn put_records_field<W: Sink>(out: &mut TokenWriter<'_, W>, records: SentRecords<'_>)
    ensures { Added W.Sink out.old out.new (fields_tokens (records_field records.entry ∷ [])) }
{
    out.put_name("records");
    out.begin_array();
    put_records(out, records);
    out.end_array();
}

/// Writes the end of a body: whether more follows, and the manufacturer's data.
#[tactic(auto, unfolding(crate::specs::JsonTelegram::end_fields, crate::specs::JsonTelegram::ending_fields))]
pub(crate) fn put_end<W: Sink>(out: &mut TokenWriter<'_, W>, end: End<'_>)
    ensures { Added W.Sink out.old out.new (fields_tokens (end_fields (ending end.entry))) }
{
    match end {
        End::Plain => put_row(
            out,
            &[Cell::Flag("more", false), Cell::Null("manufacturer_data")],
        ),
        End::Last(rest) => put_row(
            out,
            &[
                Cell::Flag("more", false),
                Cell::Hex("manufacturer_data", rest),
            ],
        ),
        End::More(rest) => put_row(
            out,
            &[
                Cell::Flag("more", true),
                Cell::Hex("manufacturer_data", rest),
            ],
        ),
    }
}

/// Writes the fields of a telegram.
#[tactic(auto, unfolding(crate::specs::JsonTelegram::header_fields))]
pub(crate) fn put_telegram<W: Sink>(out: &mut TokenWriter<'_, W>, telegram: &Telegram<'_>)
    ensures { Added W.Sink out.old out.new (fields_tokens (telegram_fields (parsed telegram.now))) }
{
    let header = telegram.header();
    put_row(
        out,
        &[
            Cell::Meter("meter", header.identity),
            Cell::Number("access", u64::from(header.access)),
            Cell::Status("status", header.status),
        ],
    );
    put_records_field(out, SentRecords::of_body(telegram.body()));
    put_end(out, telegram.end());
}
