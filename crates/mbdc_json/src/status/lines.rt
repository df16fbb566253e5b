//! The lines of `status`.

ghost use Rattle.std.specs.Prelude.{◌≡◌, ◌≤◌, IfSome};
ghost use Rattle.mbdc_io.specs.Written.{Wrote};
ghost use Rattle.mbdc_change.specs.Fields.{last_moment};
ghost use Rattle.mbdc_json.specs.Status.{failed_text, failed_words, failure_name, heard_words, row_text};
ghost use Rattle.mbdc_json.specs.Status.{source_words, state_words, status_text};

use crate::journal::Journal;
use crate::latest::put_byte_words;
use crate::status::full::days_left;
use crate::status::row::{Row, Told, row_at};
use crate::status::silence::Clock;
use dc_meters::House;
use dc_readout::Why;
use dc_records::BodyFault;
use dc_units::TEXT_ROOM;
use mbdc_decode::tokens::{Piece, put_pieces};
use mbdc_io::{IoFault, Sink, put_number_word};
use mbdc_shown::{minute, put_number, readings_left};
use std::alloc::Allocator;

/// Writes when the registered meters were last heard, by flat and then by identity, and how full the image is.
#[tactic(auto, using(mbdc_io::proofs::Pieces::written), unfolding(crate::specs::Status::status_text, mbdc_shown::specs::Room::room_words))]
pub fn put_status<A: Allocator + Copy, W: Sink>(
    out: &mut W,
    house: &House<A>,
    clock: Clock,
    journal: &Journal<A>,
) -> Result<(), IoFault>
    ensures { Wrote W.Sink result out.old out.new
        (status_text clock.patience clock.now journal.now house.now) }
{
    for place in house.meters_by_flat() {
        put_row(out, &row_at(house, clock, journal, place))?;
    }
    out.put(b"SIZE")?;
    put_number_word(out, u64::from(house.size()))?;
    put_number_word(out, u64::from(house.budget()))?;
    out.put(b"\n")?;
    put_number(out, b"DAYS", days_left(house, clock.now))?;
    put_number(out, b"ROOM", readings_left(house))
}

// Writes the line of a meter.
#[tactic(auto, using(mbdc_io::proofs::Pieces::written), unfolding(crate::specs::Status::row_text))]
fn put_row<W: Sink>(out: &mut W, row: &Row) -> Result<(), IoFault>
    requires heard { IfSome row.now.heard (λ moment. moment ≤ last_moment) }
    requires failed { IfSome row.now.told (λ told.
        IfSome told.failed (λ moment. moment ≤ last_moment)) }
    ensures { Wrote W.Sink result out.old out.new (row_text row.now) }
{
    put_pieces(
        out,
        &[
            Piece::Text(b"METER "),
            Piece::Text(row.flat.as_slice()),
            Piece::Text(b" "),
            Piece::Text(&row.meter.text()),
        ],
    )?;
    put_heard(out, row.heard, row.age)?;
    out.put(if row.is_silent { b" SILENT" } else { b"" })?;
    put_state(out, row.status)?;
    put_pieces(
        out,
        &[Piece::Text(source_words(row.told)), Piece::Text(b"\n")],
    )?;
    put_failed(out, row.told)
}

// Whether the reading is the journal's.
fn source_words(told: Option<Told>) -> &'static [u8]
    ensures { result.now ≡ source_words told }
{
    match told {
        Some(told) if told.is_noted => b" JOURNAL",
        _ => b"",
    }
}

// Writes the last failed readout since.
#[tactic(auto, using(mbdc_io::proofs::Pieces::written), unfolding(crate::specs::Status::failed_line, crate::specs::Status::name_end))]
fn put_failed<W: Sink>(out: &mut W, told: Option<Told>) -> Result<(), IoFault>
    requires { IfSome told (λ told. IfSome told.failed (λ moment. moment ≤ last_moment)) }
    ensures { Wrote W.Sink result out.old out.new (failed_text told) }
{
    match told {
        Some(
            Told {
                failed: Some(moment),
                number,
                ..
            },
        ) => {
            put_failed_words(out, moment, number)?;
            put_pieces(
                out,
                &[
                    Piece::Text(b" "),
                    Piece::Text(failure_name(number).as_bytes()),
                    Piece::Text(b"\n"),
                ],
            )
        }
        _ => Ok(()),
    }
}

// Writes the minute (UTC) of a failure, and its number.
#[tactic(auto, unfolding(crate::specs::Status::failed_words))]
fn put_failed_words<W: Sink>(out: &mut W, moment: u64, number: u8) -> Result<(), IoFault>
    requires { moment ≤ last_moment }
    ensures { Wrote W.Sink result out.old out.new (failed_words moment number) }
{
    let mut text = [0u8; TEXT_ROOM];
    put_pieces(
        out,
        &[
            Piece::Text(b"FAILED "),
            Piece::Text(minute(moment).write_into(&mut text)),
            Piece::Text(b"Z"),
            Piece::Word(u64::from(number)),
        ],
    )
}

/// The name of a failure by its number.
#[tactic(auto, unfolding(crate::specs::Status::failure_name))]
pub(crate) fn failure_name(number: u8) -> &'static str
    ensures { result.now ≡ failure_name number }
{
    match number {
        1 => Why::NoAnswer.name(),
        2 => Why::WrongFrame.name(),
        3 => Why::WrongAddress.name(),
        4 => Why::ApplicationError.name(),
        5 => Why::Content(BodyFault::Short).name(),
        6 => Why::Stranger.name(),
        7 => Why::TooManyParts.name(),
        _ => "Other",
    }
}

// Writes the minute (UTC) of the moment at which a meter was last heard, and how many seconds ago it was.
#[tactic(auto, unfolding(crate::specs::Status::heard_words))]
fn put_heard<W: Sink>(out: &mut W, moment: Option<u64>, age: Option<u64>) -> Result<(), IoFault>
    requires { IfSome moment (λ moment. moment ≤ last_moment) }
    ensures { Wrote W.Sink result out.old out.new (heard_words moment age) }
{
    let mut text = [0u8; TEXT_ROOM];
    match (moment, age) {
        (Some(moment), Some(age)) => put_pieces(
            out,
            &[
                Piece::Text(b" "),
                Piece::Text(minute(moment).write_into(&mut text)),
                Piece::Text(b"Z"),
                Piece::Word(age),
            ],
        ),
        _ => out.put(b" NONE"),
    }
}

// Writes what the last reading of a meter says of it.
fn put_state<W: Sink>(out: &mut W, status: Option<u8>) -> Result<(), IoFault>
    ensures { Wrote W.Sink result out.old out.new (state_words status) }
{
    match status {
        Some(status) => put_byte_words(out, status),
        None => Ok(()),
    }
}
