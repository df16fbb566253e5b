//! The engine of `fold`: from a source's telegrams and commands to a sink's text of the register.

ghost use Rattle.std.specs.Prelude.{◌≡◌, ◌↔◌, ◌<◌, ◌≤◌, ◌*◌, ◌++◌, ℕ, List, length, IfSome};
ghost use Rattle.std.specs.Prelude.{IfOk, OnOk, IsOk};
ghost use Rattle.mbdc_change.specs.ChangeLine.{longest_change_line};
ghost use Rattle.mbdc_change.specs.Valid.{IsChange};
ghost use Rattle.mbdc_io.specs.Written.{PutsInto, Wrote};
ghost use Rattle.dc_poller.specs.Fold.{IsFolded, IsStep, AreSteps, change_answer, after_change};
ghost use Rattle.dc_poller.specs.Fold.{order_line};
ghost use Rattle.mbdc_io.specs.Lines.{lines_of};
ghost use Rattle.mbdc_decode.specs.Engine.{EngineEnds};

use crate::register::put_register;
use dc_meters::House;
use mbdc_change::{Change, LONGEST_CHANGE_LINE};
use mbdc_ending::ProgramFault;
use mbdc_io::{
    Bytes, CHUNK, IoFault, MOST, NoMemory, Sink, Source, first_line, put_fault_line,
    put_number_word, read_input, room,
};
use std::alloc::Allocator;

// Maximum size of the register in bytes: that of a disk of 131 sectors.
const BUDGET: u32 = 15_616;

// A put into memory fails if memory runs out.
fn kept(put: Result<(), IoFault>) -> Result<(), NoMemory>
    ensures { IsOk result ↔ IsOk put }
{
    match put {
        Ok(()) => Ok(()),
        Err(IoFault) => Err(NoMemory),
    }
}

#[tactic(auto, using(mbdc_io::proofs::Pieces::written), unfolding(crate::specs::Fold::order_line))]
fn put_order<A: Allocator + Copy, W: Sink>(house: &House<A>, out: &mut W) -> Result<(), IoFault>
    ensures { Wrote W.Sink result out.old out.new (order_line house.now.state) }
{
    out.put(b"ORDER")?;
    put_number_word(out, house.last_number())?;
    out.put(b"\n")
}

// Applies a change if it is accepted, and writes the answer.
#[tactic(auto, unfolding(crate::specs::Fold::change_answer, crate::specs::Fold::after_change))]
fn answer<A: Allocator + Copy>(
    change: &Change<'_>,
    house: &mut House<A>,
    text: &mut Bytes<A>,
) -> Result<(), NoMemory>
    requires { IsChange change.now }
    ensures text { OnOk result (text.new.bytes ≡ text.old.bytes
        ++ change_answer house.old.budget change.now house.old.state) }
    ensures house { OnOk result (house.new
        ≡ record house.old { state = after_change house.old.budget change.now house.old.state }) }
{
    if !house.is_next(change) {
        return kept(put_order(house, text));
    }
    match house.check(change) {
        Ok(()) => {
            house.apply(change)?;
            kept(text.put(b"OK\n"))
        }
        Err(fault) => kept(put_fault_line(text, b"REFUSED", fault.number(), fault.name())),
    }
}

// Answers a line, and returns whether it spells no change. `bytes` is room for a body.
fn fold_line<A: Allocator + Copy>(
    line: &[u8],
    bytes: &mut [u8],
    house: &mut House<A>,
    text: &mut Bytes<A>,
) -> Result<bool, NoMemory>
    requires { longest_change_line ≤ 2 * length bytes.old }
    ensures { IfOk result (λ unread.
        IsStep line.now unread house.old house.new text.old.bytes text.new.bytes) }
{
    match Change::parse_line(line, bytes) {
        Some(change) => {
            answer(&change, house, text)?;
            Ok(false)
        }
        None => {
            kept(text.put(b"SYNTAX\n"))?;
            Ok(true)
        }
    }
}

// Answers the lines of an input in order, and returns whether one spells no change.
fn fold_all<A: Allocator + Copy>(
    input: &[u8],
    bytes: &mut [u8],
    house: &mut House<A>,
    text: &mut Bytes<A>,
) -> Result<bool, NoMemory>
    requires { longest_change_line ≤ 2 * length bytes.old }
    ensures { IfOk result (λ found. AreSteps
        (lines_of input.now) found house.old house.new text.old.bytes text.new.bytes) }
{
    let mut found = false;
    let mut rest = input;
    'lines: while !rest.is_empty() {
        let (line, after) = first_line(rest);
        let unread = fold_line(line, bytes, house, text)?;
        found |= unread;
        rest = after;
    }
    Ok(found)
}

// Builds the text for an input, and returns it with whether a SYNTAX is in it.
fn fold_input<A: Allocator + Copy>(
    alloc: A,
    input: &[u8],
    bytes: &mut [u8],
) -> Result<(Bytes<A>, bool), NoMemory>
    requires { longest_change_line ≤ 2 * length bytes.old }
    ensures { IfOk result (λ folded. IsFolded input.now folded.0.bytes folded.1) }
{
    let mut house = House::new(alloc, BUDGET);
    let mut text = Bytes::new(alloc);
    let found = fold_all(input, bytes, &mut house, &mut text)?;
    kept(put_register(&house, &mut text))?;
    Ok((text, found))
}

/// Writes an answer to each line of telegrams and commands left in the reader, applied to a
/// register that is empty at first, and then the register. A line is `TELEGRAM part moment hex` or
/// a command's line. Returns whether a SYNTAX is among the answers.
///
/// The whole input is read, and the whole text built, before anything is written. The text is
/// defined by `specs/Fold.antt`.
///
/// # Errors
/// [`ProgramFault::Read`] and [`ProgramFault::Write`] if the reader or the writer failed,
/// [`ProgramFault::TooLong`] over 1 MiB, [`ProgramFault::NoMemory`] if memory ran out. Only after `Write`
/// may something have been written.
pub fn fold_lines<A: Allocator + Copy, R: Source, W: Sink>(
    alloc: A,
    reader: &mut R,
    writer: &mut W,
) -> Result<bool, ProgramFault>
    // What is written is the text for the input, byte for byte, and the answer says whether a SYNTAX is in it.
    ensures text { IfOk result (λ found. IfSome (R.left reader.old) (λ input.
        (text : List ℕ) × IsFolded input text found
        × PutsInto W.Sink writer.old writer.new text)) }
    ensures ends { EngineEnds R.Source W.Sink ProgramFault.Read ProgramFault.TooLong ProgramFault.Write
        reader.old reader.new writer.old writer.new result }
{
    let mut bytes = room(alloc, LONGEST_CHANGE_LINE / 2)?;
    let mut chunk = room(alloc, CHUNK)?;
    let input = read_input(alloc, reader, chunk.as_mut_slice())?;
    if input.len() > MOST {
        return Err(ProgramFault::TooLong);
    }
    let (text, found) = fold_input(alloc, input.as_slice(), bytes.as_mut_slice())?;
    match writer.put(text.as_slice()) {
        Ok(()) => Ok(found),
        Err(_) => Err(ProgramFault::Write),
    }
}
