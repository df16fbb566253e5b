//! The lines of `values`.

ghost use Rattle.std.specs.Prelude.{◌≡◌, ◌≤◌, codes, false, map, option_map};
ghost use Rattle.mbdc_change.specs.Fields.{last_moment};
ghost use Rattle.mbdc_io.specs.Written.{Wrote};
ghost use Rattle.mbdc_json.specs.Latest.{meter_text, values_text};
ghost use Rattle.mbdc_json.specs.LatestValues.{also_lines, counted, names_words, sent_lines, sent_words, shown};
ghost use Rattle.mbdc_json.specs.LatestValues.{shown_lines, unread_line, value_word};
ghost use Rattle.mbdc_reading.specs.Sent.{sent_view};

use crate::journal::Journal;
use crate::latest::reading::{Shown, shown_of};
use crate::latest::status::put_status;
use dc_meters::{House, Place};
use dc_records::names::medium_name;
use dc_units::TEXT_ROOM;
use mbdc_decode::tokens::{Piece, put_pieces};
use mbdc_io::{IoFault, Sink};
use mbdc_reading::{
    READING_ROOM, Sent, code_at, is_extension, number_after, number_of, reading_of, told_of,
    unit_text, value_text, vife_at,
};
use mbdc_shown::{Current, Headline, Listed, minute};
use std::alloc::Allocator;

/// Writes what each registered meter stands at, by flat and then by identity, beside a journal.
#[tactic(auto, using(mbdc_io::proofs::Pieces::written), unfolding(crate::specs::Latest::values_text))]
pub fn put_values<A: Allocator + Copy, W: Sink>(
    out: &mut W,
    house: &House<A>,
    journal: &Journal<A>,
) -> Result<(), IoFault>
    ensures { Wrote W.Sink result out.old out.new (values_text journal.now house.now.state) }
{
    for place in house.meters_by_flat() {
        put_meter(out, house, journal, place)?;
    }
    Ok(())
}

// Writes the lines of a meter.
#[tactic(auto, using(mbdc_io::proofs::Pieces::written), unfolding(crate::specs::Latest::meter_text))]
fn put_meter<A: Allocator + Copy, W: Sink>(
    out: &mut W,
    house: &House<A>,
    journal: &Journal<A>,
    place: &Place,
) -> Result<(), IoFault>
    ensures { Wrote W.Sink result out.old out.new
        (meter_text journal.now house.now.state place.now) }
{
    put_pieces(
        out,
        &[
            Piece::Text(b"METER "),
            Piece::Text(place.flat.as_slice()),
            Piece::Text(b" "),
            Piece::Text(&place.meter.text()),
        ],
    )?;
    put_pieces(
        out,
        &[
            Piece::Text(b" "),
            Piece::Text(medium_name(place.meter.kind).as_bytes()),
        ],
    )?;
    match shown_of(house, journal, &place.meter) {
        Some(shown) => put_shown_reading(out, place.meter.kind, &shown),
        None => out.put(b" NONE\n"),
    }
}

// Writes the serial and the minute (UTC) of a reading and whether it is the journal's, the status, and what the records
// of a meter of this device type tell.
#[tactic(auto, using(mbdc_io::proofs::Pieces::written), unfolding(crate::specs::LatestValues::shown_lines))]
fn put_shown_reading<W: Sink>(out: &mut W, kind: u8, shown: &Shown<'_>) -> Result<(), IoFault>
    requires { shown.now.moment ≤ last_moment }
    ensures { Wrote W.Sink result out.old out.new (shown_lines kind shown.now) }
{
    let mut text = [0u8; TEXT_ROOM];
    put_pieces(
        out,
        &[
            Piece::Word(shown.serial),
            Piece::Text(b" "),
            Piece::Text(minute(shown.moment).write_into(&mut text)),
            Piece::Text(if shown.is_noted {
                b"Z JOURNAL\n"
            } else {
                b"Z\n"
            }),
        ],
    )?;
    put_status(out, shown.status)?;
    put_headline(out, Headline::new(kind, &shown.bodies))?;
    put_current(out, Listed::new(Current::Values, &shown.bodies))?;
    put_also(out, Listed::new(Current::Also, &shown.bodies))?;
    put_unread(out, Listed::new(Current::Unread, &shown.bodies))
}

// Writes the lines of what a meter stands at.
#[tactic(auto, using(mbdc_io::proofs::Pieces::written), unfolding(crate::specs::LatestValues::sent_lines, crate::specs::LatestValues::sent_line))]
fn put_headline<W: Sink>(out: &mut W, headline: Headline<'_>) -> Result<(), IoFault>
    ensures { Wrote W.Sink result out.old out.new (sent_lines (codes "HEADLINE") headline.entry) }
{
    for sent in headline {
        put_sent(out, b"HEADLINE", &sent)?;
        out.put(b"\n")?;
    }
    Ok(())
}

// Writes the lines of the records that the due-date table has.
#[tactic(auto, using(mbdc_io::proofs::Pieces::written), unfolding(crate::specs::LatestValues::sent_lines, crate::specs::LatestValues::sent_line))]
fn put_current<W: Sink>(out: &mut W, current: Listed<'_>) -> Result<(), IoFault>
    ensures { Wrote W.Sink result out.old out.new (sent_lines (codes "VALUE") current.entry) }
{
    for sent in current {
        put_sent(out, b"VALUE", &sent)?;
        out.put(b"\n")?;
    }
    Ok(())
}

// Writes the lines of records that the due-date table doesn't have.
#[tactic(auto, using(mbdc_io::proofs::Pieces::written), unfolding(crate::specs::LatestValues::also_lines, crate::specs::LatestValues::also_line))]
fn put_also<W: Sink>(out: &mut W, also: Listed<'_>) -> Result<(), IoFault>
    ensures { Wrote W.Sink result out.old out.new (also_lines also.entry) }
{
    for sent in also {
        let vib = sent.record.vib;
        put_sent(out, b"ALSO", &sent)?;
        put_pieces(
            out,
            &[
                Piece::Text(b" "),
                Piece::Text(code_at(number_of(vib)).name.as_bytes()),
            ],
        )?;
        put_names(out, told_of(vib))?;
        out.put(b"\n")?;
    }
    Ok(())
}

// Writes a word, and a record's tariff, subunit, value and unit.
#[tactic(auto, using(mbdc_io::proofs::Pieces::written), unfolding(crate::specs::LatestValues::sent_words))]
fn put_sent<W: Sink>(out: &mut W, word: &'static [u8], sent: &Sent<'_>) -> Result<(), IoFault>
    ensures { Wrote W.Sink result out.old out.new (sent_words word.now (sent_view sent.now)) }
{
    let record = &sent.record;
    let reading = reading_of(record, sent.len);
    let mut room = [0u8; READING_ROOM];
    put_pieces(
        out,
        &[
            Piece::Text(word),
            Piece::Word(u64::from(record.tariff)),
            Piece::Word(u64::from(record.subunit)),
            Piece::Text(b" "),
        ],
    )?;
    put_word(out, value_text(&reading, record.content, &mut room))?;
    out.put(b" ")?;
    put_word(out, Some(unit_text(&reading, record.vib, &mut room)))
}

/// Writes a text as one word; a dash for none.
pub(crate) fn put_word<W: Sink>(out: &mut W, text: Option<&[u8]>) -> Result<(), IoFault>
    ensures { Wrote W.Sink result out.old out.new (value_word (option_map (λ s. s.now) text.entry)) }
{
    match text {
        Some(text) if !text.is_empty() => put_shown(out, text),
        _ => out.put(b"-"),
    }
}

fn put_shown<W: Sink>(out: &mut W, text: &[u8]) -> Result<(), IoFault>
    ensures { Wrote W.Sink result out.old out.new (map shown text.now) }
{
    'bytes: for byte in text {
        out.put(&[shown(*byte)])?;
    }
    Ok(())
}

// A byte of a word, or a point.
fn shown(byte: u8) -> u8
    ensures { result ≡ shown byte }
{
    match byte {
        0x21..=0x7E => byte,
        _ => b'.',
    }
}

/// Writes the names of VIFEs, each after a comma.
pub(crate) fn put_names<W: Sink>(out: &mut W, vifes: &[u8]) -> Result<(), IoFault>
    ensures { Wrote W.Sink result out.old out.new (names_words false vifes.now) }
{
    let mut after_fc = false;
    'vifes: for vife in vifes {
        let named = vife_at(number_after(after_fc, *vife));
        put_pieces(
            out,
            &[Piece::Text(b", "), Piece::Text(named.name.as_bytes())],
        )?;
        after_fc = is_extension(after_fc, *vife);
    }
    Ok(())
}

// Writes how many records aren't read, if there are any.
#[tactic(auto, unfolding(crate::specs::LatestValues::unread_line))]
fn put_unread<W: Sink>(out: &mut W, unread: Listed<'_>) -> Result<(), IoFault>
    ensures { Wrote W.Sink result out.old out.new (unread_line (counted unread.entry)) }
{
    let mut count: u64 = 0;
    for _sent in unread {
        count = count.saturating_add(1);
    }
    if count == 0 {
        return Ok(());
    }
    if count == 1 {
        return out.put(b"1 record not read\n");
    }
    put_pieces(
        out,
        &[Piece::Number(count), Piece::Text(b" records not read\n")],
    )
}
