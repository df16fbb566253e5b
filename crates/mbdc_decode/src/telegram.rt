//! The text of a telegram.

ghost use Rattle.std.specs.Prelude.{◌≡◌, ◌≤◌, length, OnOk, OnErr};
ghost use Rattle.dc_records.specs.Record.{view};
ghost use Rattle.dc_records.specs.Seen.{ending};
ghost use Rattle.mbdc_io.specs.Written.{Wrote};
ghost use Rattle.dc_records.specs.Telegram.{parsed};
ghost use Rattle.mbdc_decode.specs.Telegram.{meter_line, record_words, record_line, record_lines};
ghost use Rattle.mbdc_decode.specs.Telegram.{end_line, telegram_text};

use crate::line::{LINE_ROOM, WORDS_ROOM, has_few, put_line_before, put_number_before};
use crate::seen::put_seen;
use dc_records::{End, Header, Record, Records, Telegram};
use dc_units::{put_byte, put_piece};
use mbdc_io::{IoFault, Sink, put_hex_word, put_number_word};

// Writes the line of the meter.
#[tactic(auto, using(mbdc_io::proofs::Pieces::written), unfolding(crate::specs::Telegram::meter_line))]
fn put_meter<W: Sink>(header: &Header, out: &mut W) -> Result<(), IoFault>
    ensures { Wrote W.Sink result out.old out.new (meter_line header.now) }
{
    let mut room = [0u8; WORDS_ROOM];
    put_byte(b'\n', &mut room, WORDS_ROOM);
    let end = put_number_before(u64::from(header.status), &mut room, WORDS_ROOM - 1);
    let end = put_number_before(u64::from(header.access), &mut room, end);
    let end = put_piece(&header.identity.text(), &mut room, end);
    let start = put_piece(b"METER ", &mut room, end);
    out.put(&room[start..])
}

// Writes the numbers of a record.
#[tactic(auto, using(mbdc_io::proofs::Pieces::written), unfolding(crate::specs::Telegram::record_words))]
fn put_numbers<W: Sink>(found: &Record<'_>, out: &mut W) -> Result<(), IoFault>
    ensures { Wrote W.Sink result out.old out.new
        (record_words (view found.now)) }
{
    put_number_word(out, found.storage)?;
    put_number_word(out, u64::from(found.tariff))?;
    put_number_word(out, u64::from(found.subunit))?;
    put_number_word(out, u64::from(found.function))
}

// Writes the line of a record.
#[tactic(auto, using(mbdc_io::proofs::Pieces::written), unfolding(crate::specs::Telegram::record_line))]
fn put_record<W: Sink>(found: &Record<'_>, room: &mut [u8], out: &mut W) -> Result<(), IoFault>
    requires { LINE_ROOM ≤ length room.old }
    ensures wrote { Wrote W.Sink result out.old out.new (record_line (view found.now)) }
{
    // Most records have few bytes.
    if has_few(found) {
        let start = put_line_before(found, room);
        return out.put(&room[start..]);
    }
    out.put(b"RECORD")?;
    put_numbers(found, out)?;
    put_hex_word(out, found.vib)?;
    put_hex_word(out, found.content)?;
    put_seen(found, room, out)?;
    out.put(b"\n")
}

// Writes the lines of records.
#[tactic(auto, using(mbdc_io::proofs::Pieces::written, crate::proofs::Records::records))]
fn put_records<W: Sink>(records: Records<'_>, room: &mut [u8], out: &mut W) -> Result<(), IoFault>
    requires { LINE_ROOM ≤ length room.old }
    ensures wrote { Wrote W.Sink result out.old out.new (record_lines records.entry) }
{
    'records: for found in records {
        put_record(&found, room, out)?;
    }
    Ok(())
}

// Writes the line of a body's end.
#[tactic(auto, using(mbdc_io::proofs::Pieces::written))]
fn put_end<W: Sink>(end: End<'_>, out: &mut W) -> Result<(), IoFault>
    ensures { Wrote W.Sink result out.old out.new (end_line (ending end.entry)) }
{
    match end {
        End::Plain => out.put(b"END\n"),
        End::Last(rest) => {
            out.put(b"LAST")?;
            put_number_word(out, rest.len() as u64)?;
            out.put(b"\n")
        }
        End::More(rest) => {
            out.put(b"MORE")?;
            put_number_word(out, rest.len() as u64)?;
            out.put(b"\n")
        }
    }
}

/// Writes the lines of a telegram.
#[tactic(auto, using(mbdc_io::proofs::Pieces::written), unfolding(crate::specs::Telegram::telegram_text))]
pub fn put_telegram<W: Sink>(telegram: &Telegram<'_>, out: &mut W) -> Result<(), IoFault>
    ensures { Wrote W.Sink result out.old out.new
        (telegram_text (parsed telegram.now)) }
{
    let mut room = [0u8; LINE_ROOM];
    put_meter(&telegram.header(), out)?;
    put_records(telegram.records(), &mut room, out)?;
    put_end(telegram.end(), out)
}
