//! The cells of the table of a house's meters for a person, which the program lays out.

ghost use Rattle.std.specs.Prelude.{◌≡◌};
ghost use Rattle.mbdc_io.specs.Written.{Wrote};
ghost use Rattle.mbdc_json.specs.Overview.{age_words, failure_in, overview_line, overview_text};
ghost use Rattle.mbdc_json.specs.Overview.{state_by, state_cells, titles, value_cells};

use crate::journal::Journal;
use crate::latest::{Shown, put_word, shown_of};
use crate::status::{Clock, Row, Told, failure_name, row_at};
use dc_meters::{House, Place};
use dc_records::names::{application_name, medium_name};
use mbdc_decode::tokens::{Piece, put_pieces};
use mbdc_io::{IoFault, Sink};
use mbdc_reading::{READING_ROOM, Sent, reading_of, unit_text, value_text};
use mbdc_shown::Headline;
use std::alloc::Allocator;

/// Writes the names of the columns, and then a line for each registered meter, by flat and then by identity: what it
/// stands at, how long ago it was heard, and its state, at a clock and beside a journal. A tab ends each cell but the
/// last of a line.
#[tactic(auto, using(mbdc_io::proofs::Pieces::written), unfolding(crate::specs::Overview::overview_text))]
pub fn put_overview<A: Allocator + Copy, W: Sink>(
    out: &mut W,
    house: &House<A>,
    clock: Clock,
    journal: &Journal<A>,
) -> Result<(), IoFault>
    ensures { Wrote W.Sink result out.old out.new
        (overview_text clock.patience clock.now journal.now house.now.state) }
{
    out.put(titles())?;
    for place in house.meters_by_flat() {
        put_line(out, house, clock, journal, place)?;
    }
    Ok(())
}

// The names of the columns.
#[tactic(auto, unfolding(crate::specs::Overview::titles))]
fn titles() -> &'static [u8]
    ensures { result.now ≡ titles }
{
    b"FLAT\tMETER\tMEDIUM\tVALUE\tUNIT\tHEARD\tSTATE\n"
}

// Writes the line of a meter.
#[tactic(auto, using(mbdc_io::proofs::Pieces::written), unfolding(crate::specs::Overview::overview_line))]
fn put_line<A: Allocator + Copy, W: Sink>(
    out: &mut W,
    house: &House<A>,
    clock: Clock,
    journal: &Journal<A>,
    place: &Place,
) -> Result<(), IoFault>
    ensures { Wrote W.Sink result out.old out.new
        (overview_line clock.patience clock.now journal.now house.now.state place.now) }
{
    put_pieces(
        out,
        &[
            Piece::Text(place.flat.as_slice()),
            Piece::Text(b"\t"),
            Piece::Text(&place.meter.text()[..8]),
            Piece::Text(b"\t"),
        ],
    )?;
    put_pieces(
        out,
        &[
            Piece::Text(medium_name(place.meter.kind).as_bytes()),
            Piece::Text(b"\t"),
        ],
    )?;
    put_value(
        out,
        place.meter.kind,
        &shown_of(house, journal, &place.meter),
    )?;
    put_state(out, &row_at(house, clock, journal, place))
}

// Writes what a meter of this device type stands at by the reading that is shown, the value and the unit of the first
// record of its headline; a dash for what isn't there.
#[tactic(auto, using(mbdc_io::proofs::Pieces::written), unfolding(crate::specs::Overview::sent_cells))]
fn put_value<W: Sink>(out: &mut W, kind: u8, shown: &Option<Shown<'_>>) -> Result<(), IoFault>
    ensures { Wrote W.Sink result out.old out.new (value_cells kind shown.now) }
{
    let Some(shown) = shown else {
        return out.put(b"-\t-\t");
    };
    let Some(Sent { record, len }) = Headline::new(kind, &shown.bodies).next() else {
        return out.put(b"-\t-\t");
    };
    let reading = reading_of(&record, len);
    let mut room = [0u8; READING_ROOM];
    put_word(out, value_text(&reading, record.content, &mut room))?;
    out.put(b"\t")?;
    put_word(out, Some(unit_text(&reading, record.vib, &mut room)))?;
    out.put(b"\t")
}

// Writes how long ago a meter was heard, its state, and why its last readout since failed.
#[tactic(auto, using(mbdc_io::proofs::Pieces::written), unfolding(crate::specs::Overview::state_cells))]
fn put_state<W: Sink>(out: &mut W, row: &Row) -> Result<(), IoFault>
    ensures { Wrote W.Sink result out.old out.new (state_cells row.now) }
{
    put_age(out, row.age)?;
    put_pieces(
        out,
        &[Piece::Text(b"\t"), Piece::Text(state_of(row).as_bytes())],
    )?;
    match row.told {
        Some(
            Told {
                failed: Some(_),
                number,
                ..
            },
        ) => put_pieces(
            out,
            &[
                Piece::Text(b" "),
                Piece::Text(failure_name(number).as_bytes()),
                Piece::Text(b"\n"),
            ],
        ),
        _ => out.put(b"\n"),
    }
}

// What is said of a meter's state: that it is silent, that its last readout failed, or the most serious state that its
// status byte reports.
#[tactic(auto, unfolding(crate::specs::Overview::reported))]
fn state_of(row: &Row) -> &'static str
    ensures { result.now ≡ state_by row.now.is_silent (failure_in row.now.told) row.now.status }
{
    if row.is_silent {
        return "SILENT";
    }
    if let Some(
        Told {
            failed: Some(_),
            ..
        },
    ) = row.told
    {
        return "FAILED";
    }
    let Some(status) = row.status else {
        return "";
    };
    if status / 8 % 2 == 1 {
        return "permanent error";
    }
    if status / 16 % 2 == 1 {
        return "temporary error";
    }
    if status / 4 % 2 == 1 {
        return "power low";
    }
    if status % 4 == 0 {
        return "";
    }
    application_name(status)
}

// Writes how long ago a meter was heard: in minutes below two hours, in hours below two days, else in days.
fn put_age<W: Sink>(out: &mut W, age: Option<u64>) -> Result<(), IoFault>
    ensures { Wrote W.Sink result out.old out.new (age_words age) }
{
    let Some(age) = age else {
        return out.put(b"never");
    };
    if age < 7200 {
        put_pieces(out, &[Piece::Number(age / 60), Piece::Text(b" min")])
    } else if age < 172_800 {
        put_pieces(out, &[Piece::Number(age / 3600), Piece::Text(b" h")])
    } else {
        put_pieces(out, &[Piece::Number(age / 86_400), Piece::Text(b" d")])
    }
}
