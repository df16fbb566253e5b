//! The verdict on a row: what it asks of a register.

ghost use Rattle.std.specs.Prelude.{◌≡◌};
ghost use Rattle.mbdc_io.specs.Written.{Wrote};
ghost use Rattle.mbdc_change.specs.Accepts.{Accepts, occupies};
ghost use Rattle.mbdc_change.specs.Valid.{IsChange};
ghost use Rattle.mbdc_fit.specs.Rows.{IsRow, field_of, fields_in};
ghost use Rattle.mbdc_fit.specs.Plan.{address_text, change_of, command_of, fault_words, field_words, holder_in};
ghost use Rattle.mbdc_fit.specs.Plan.{is_at_words, lacking_words, mark_words, place_words};
ghost use Rattle.mbdc_fit.specs.Plan.{row_text, said, same_address, stands, taken_words, verdict_on, verdict_words};

use crate::list::listed::{Column, Listed};
use crate::list::row::Row;
use dc_address::{Identity, Primary};
use dc_meters::{House, Meter};
use mbdc_change::{Change, ChangeFault, Command, END_OF_NUMBERS};
use mbdc_io::{IoFault, Sink, put_number, put_number_word};
use std::alloc::Allocator;

/// What a row asks of a register.
#[derive(Clone, Copy)]
pub enum Verdict {
    /// Nothing: the meter is at this very place.
    Stands,
    /// It is refused.
    Refused(ChangeFault),
    /// No number is left for its command.
    Spent,
    /// A new meter.
    New,
}

// The command of a row.
pub(crate) fn command_of(row: &Row) -> Command
    ensures { result ≡ command_of row.now }
{
    Command::Fit {
        meter: row.meter,
        line: row.line,
        address: row.address,
        flat: row.flat,
    }
}

fn same_address(known: Option<Primary>, address: Option<Primary>) -> bool
    ensures { result ≡ same_address known address }
{
    match (known, address) {
        (None, None) => true,
        (Some(known), Some(address)) => known.get() == address.get(),
        _ => false,
    }
}

// Whether the register has a meter at the very place of its row.
fn stands<A: Allocator + Copy>(row: &Row, house: &House<A>) -> bool
    ensures { result ≡ stands row.now house.now.state }
{
    match house.meter(&row.meter) {
        Some(known) => {
            known.line() == row.line
                && same_address(known.address(), row.address)
                && known.flat().as_slice() == row.flat.as_slice()
        }
        None => false,
    }
}

/// What a row asks of a house.
#[tactic(auto, unfolding(crate::specs::Plan::verdict_on))]
pub fn verdict_on<A: Allocator + Copy>(row: &Row, house: &House<A>) -> Verdict
    requires { IsRow row.now }
    ensures verdict { result ≡ verdict_on house.now.budget row.now house.now.state }
    ensures accepted { result ≡ Verdict.New
        → IsChange (change_of row.now house.now.state)
        × Accepts house.now.budget (change_of row.now house.now.state) house.now.state }
{
    if stands(row, house) {
        return Verdict::Stands;
    }
    let number = house.last_number() + 1;
    if number >= END_OF_NUMBERS {
        return Verdict::Spent;
    }
    let command = command_of(row);
    match house.check(&Change::Command { number, command }) {
        Ok(()) => Verdict::New,
        Err(fault) => Verdict::Refused(fault),
    }
}

// ---- texts

/// What is said of a first line that doesn't name a column.
pub(crate) fn lacking_words(column: Column) -> &'static str
    ensures { result.now ≡ lacking_words column }
{
    match column {
        Column::Meter => "no column meter",
        Column::Line => "no column line",
        Column::Address => "no column address",
        Column::Flat => "no column flat",
    }
}

// The field of a column, and what it has to be.
fn field_of(column: Column, listed: &Listed) -> (&[u8], &'static str)
    ensures field { result.0.now ≡ field_of column (fields_in listed.now) }
    ensures words { result.1.now ≡ fault_words column }
{
    match column {
        Column::Meter => (
            listed.meter.as_slice(),
            "a meter is its identity, as 12345678.PAD.01.07",
        ),
        Column::Line => (listed.line.as_slice(), "a line is a number from 1 to 8"),
        Column::Address => (
            listed.address.as_slice(),
            "an address is a number from 1 to 250, or S",
        ),
        Column::Flat => (
            listed.flat.as_slice(),
            "a flat is 1 to 12 of A-Z a-z 0-9 . - / _",
        ),
    }
}

// Words between what is said of a row.
#[derive(Clone, Copy)]
enum Mark {
    WithAddress,
    WithFlat,
    IsAt,
    AnAddress,
    IsThatOf,
}

#[tactic(auto, unfolding(crate::specs::Plan::mark_words))]
fn put_mark<W: Sink>(out: &mut W, mark: Mark) -> Result<(), IoFault>
    ensures { Wrote W.Sink result out.old out.new (mark_words mark) }
{
    match mark {
        Mark::WithAddress => out.put(b", address "),
        Mark::WithFlat => out.put(b", flat "),
        Mark::IsAt => out.put(b" is at "),
        Mark::AnAddress => out.put(b"address "),
        Mark::IsThatOf => out.put(b" is that of "),
    }
}

// Writes a primary address, or S.
#[tactic(auto, unfolding(crate::specs::Plan::address_text))]
fn put_address<W: Sink>(out: &mut W, address: Option<Primary>) -> Result<(), IoFault>
    ensures { Wrote W.Sink result out.old out.new (address_text address) }
{
    match address {
        Some(address) => put_number(out, u64::from(address.get())),
        None => out.put(b"S"),
    }
}

// Writes a place.
#[tactic(auto, using(mbdc_io::proofs::Pieces::written), unfolding(crate::specs::Plan::place_words))]
fn put_place<W: Sink>(
    out: &mut W,
    line: u8,
    address: Option<Primary>,
    flat: &[u8],
) -> Result<(), IoFault>
    ensures { Wrote W.Sink result out.old out.new (place_words line address flat.now) }
{
    out.put(b"line")?;
    put_number_word(out, u64::from(line))?;
    put_mark(out, Mark::WithAddress)?;
    put_address(out, address)?;
    put_mark(out, Mark::WithFlat)?;
    out.put(flat)
}

// The first meter that has this primary address on the line.
fn holder<A: Allocator + Copy>(
    house: &House<A>,
    line: u8,
    address: &Option<Primary>,
) -> Option<Identity>
    ensures { result ≡ holder_in line address.now house.now.state.meters }
{
    'meters: for (meter, known) in house.meters() {
        if occupies(line, address, known) {
            return Some(*meter);
        }
    }
    None
}

// Whether a meter has this primary address on the line.
fn occupies<A: Allocator + Copy>(line: u8, address: &Option<Primary>, known: &Meter<A>) -> bool
    ensures { result ≡ occupies line address.now known.now }
{
    match (*address, known.address()) {
        (Some(address), Some(taken)) => known.line() == line && taken.get() == address.get(),
        _ => false,
    }
}

// Writes where a meter is registered.
#[tactic(auto, using(mbdc_io::proofs::Pieces::written), unfolding(crate::specs::Plan::is_at_words, crate::specs::Plan::known_words))]
pub(crate) fn put_is_at<A: Allocator + Copy, W: Sink>(
    out: &mut W,
    meter: &Identity,
    house: &House<A>,
) -> Result<(), IoFault>
    ensures { Wrote W.Sink result out.old out.new (is_at_words meter.now house.now.state) }
{
    out.put(&meter.text())?;
    put_mark(out, Mark::IsAt)?;
    match house.meter(meter) {
        Some(known) => put_place(out, known.line(), known.address(), known.flat().as_slice()),
        None => Ok(()),
    }
}

// Writes which meter has a primary address on a bus line.
#[tactic(auto, using(mbdc_io::proofs::Pieces::written), unfolding(crate::specs::Plan::taken_words, crate::specs::Plan::holder_words))]
pub(crate) fn put_taken<A: Allocator + Copy, W: Sink>(
    out: &mut W,
    line: u8,
    address: &Option<Primary>,
    house: &House<A>,
) -> Result<(), IoFault>
    ensures { Wrote W.Sink result out.old out.new (taken_words line address.now house.now.state) }
{
    put_mark(out, Mark::AnAddress)?;
    put_address(out, *address)?;
    put_mark(out, Mark::IsThatOf)?;
    match holder(house, line, address) {
        Some(meter) => out.put(&meter.text()),
        None => Ok(()),
    }
}

// Writes what is said of a row.
#[tactic(auto, using(mbdc_io::proofs::Pieces::written), unfolding(crate::specs::Plan::verdict_words, crate::specs::Plan::refusal_words))]
pub(crate) fn put_verdict<A: Allocator + Copy, W: Sink>(
    out: &mut W,
    verdict: Verdict,
    row: &Row,
    house: &House<A>,
) -> Result<(), IoFault>
    requires { verdict ≡ Verdict.New → IsChange (change_of row.now house.now.state) }
    ensures { Wrote W.Sink result out.old out.new (verdict_words verdict row.now house.now.state) }
{
    match verdict {
        Verdict::New => {
            let line = command_of(row).line(house.last_number() + 1);
            out.put(line.as_slice())
        }
        Verdict::Stands => {
            out.put(&row.meter.text())?;
            out.put(b" stands already")
        }
        Verdict::Spent => out.put(b"no number is left for a command"),
        Verdict::Refused(ChangeFault::Known) => put_is_at(out, &row.meter, house),
        Verdict::Refused(ChangeFault::AddressTaken) => {
            put_taken(out, row.line, &row.address, house)
        }
        Verdict::Refused(ChangeFault::Full) => out.put(b"the image is full"),
        Verdict::Refused(ChangeFault::Unknown | ChangeFault::Beyond) => Ok(()),
    }
}

// Writes a line of the list, and what is said of its row.
#[tactic(auto, using(mbdc_io::proofs::Pieces::written), unfolding(crate::specs::Plan::said))]
pub(crate) fn put_row<A: Allocator + Copy, W: Sink>(
    out: &mut W,
    number: u64,
    verdict: Verdict,
    row: &Row,
    house: &House<A>,
) -> Result<(), IoFault>
    requires { verdict ≡ Verdict.New → IsChange (change_of row.now house.now.state) }
    ensures { Wrote W.Sink result out.old out.new (row_text number verdict row.now house.now.state) }
{
    out.put(b"line")?;
    put_number_word(out, number)?;
    out.put(b": ")?;
    put_verdict(out, verdict, row, house)?;
    out.put(b"\n")
}

// Writes a line of the list, its field that is wrong, and what that has to be.
#[tactic(auto, using(mbdc_io::proofs::Pieces::written), unfolding(crate::specs::Plan::said, crate::specs::Plan::field_words))]
pub(crate) fn put_wrong<W: Sink>(
    out: &mut W,
    listed: &Listed,
    column: Column,
) -> Result<(), IoFault>
    ensures { Wrote W.Sink result out.old out.new
        (said listed.now.number (field_words column (fields_in listed.now))) }
{
    let (field, words) = field_of(column, listed);
    out.put(b"line")?;
    put_number_word(out, listed.number)?;
    out.put(b": \"")?;
    out.put(field)?;
    out.put(b"\": ")?;
    out.put(words.as_bytes())?;
    out.put(b"\n")
}

// Writes a line of the list, and what is said of it.
#[tactic(auto, using(mbdc_io::proofs::Pieces::written), unfolding(crate::specs::Plan::said))]
pub(crate) fn put_said<W: Sink>(out: &mut W, number: u64, words: &str) -> Result<(), IoFault>
    ensures { Wrote W.Sink result out.old out.new (said number words.now) }
{
    out.put(b"line")?;
    put_number_word(out, number)?;
    out.put(b": ")?;
    out.put(words.as_bytes())?;
    out.put(b"\n")
}
