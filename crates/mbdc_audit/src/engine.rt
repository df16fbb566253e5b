//! The engine of `audit`: reads a file into a house, and walks over it three times.

ghost use Rattle.std.specs.Prelude.{◌≡◌, ◌<◌, ℕ, Bool, false, true, IfNone, IfOk, IfSome, IsErrOf, List, OnOk, length};
ghost use Rattle.mbdc_io.specs.Failures.{HasRisen};
ghost use Rattle.mbdc_io.specs.Lines.{lines_of};
ghost use Rattle.mbdc_audit.specs.File.{IsFed, IsRight};
ghost use Rattle.mbdc_audit.specs.Reader.{IsFault};
ghost use Rattle.mbdc_audit.specs.Told.{IsTooLarge};
ghost use Rattle.mbdc_audit.specs.View.{house_of};
ghost use Rattle.mbdc_audit.specs.Walk.{IsAudited, is_clean};

use crate::fault::{AuditFault, Stop};
use crate::house::House;
use crate::numbers::Filler;
use crate::reader::read_house;
use crate::teller::Piece::{Number, Text};
use crate::teller::{Counts, Teller, put_pieces};
use mbdc_io::{CHUNK, FixedSink, IoFault, Sink, Source, TextFault, pair_of, room};
use std::alloc::Allocator;

/// Most bytes of a file.
pub const MOST_FILE: usize = 67_108_864;

// Reads a file; none where it is longer than the limit.
fn read_file<A: Allocator + Copy, R: Source>(
    alloc: A,
    reader: &mut R,
) -> Result<Option<Vec<u8, A>>, TextFault>
    ensures read { IsErrOf result TextFault.Read
        → HasRisen (R.take_failures reader.old) (R.take_failures reader.new) }
    ensures ok { OnOk result (R.take_failures reader.new ≡ R.take_failures reader.old) }
    ensures file { IfOk result (λ f. IfSome f (λ v. IfSome (R.left reader.old) (λ input. v.items ≡ input))) }
    ensures long { IfOk result (λ f. IfNone f (IfSome (R.left reader.old) (λ input. 67108864 < length input))) }
{
    let mut chunk = room(alloc, CHUNK)?;
    let space = chunk.as_mut_slice();
    let mut file: Vec<u8, A> = Vec::new(alloc);
    'takes: while file.len() <= MOST_FILE {
        let Ok(count) = reader.take(space) else {
            return Err(TextFault::Read);
        };
        if count == 0 {
            return Ok(Some(file));
        }
        let (given, _) = space.split_at(count);
        if file.extend_from_slice(given).is_err() {
            return Err(TextFault::NoMemory);
        }
    }
    Ok(None)
}

// Prints each device type that was allowed for a use, and why.
fn put_all_allowed<A: Allocator + Copy, W: Sink>(
    out: &mut W,
    house: &House<'_, A>,
) -> Result<(), IoFault> {
    'allowed: for allowed in &house.allowed {
        let kind = pair_of(allowed.kind);
        let words = [
            Text(b"AS line "),
            Number(allowed.line),
            Text(b": "),
            Text(house.used(allowed.used).name),
            Text(b" by "),
        ];
        put_pieces(out, &words)?;
        out.put(&kind)?;
        put_pieces(out, &[Text(b": "), Text(allowed.why), Text(b"\n")])?;
    }
    Ok(())
}

impl<'s, W: Sink> Teller<'s, W> {
    // Whether nothing was found so far.
    fn is_clean(&self) -> bool
        ensures { result ≡ is_clean self.now.counts }
    {
        let counts = self.counts;
        counts.differ == 0 && counts.rules == 0 && counts.refused == 0
    }

    // Walks over a house three times, prints the closing line, and returns whether nothing was found.
    fn walk<'a, A: Allocator + Copy, F: Sink>(
        &mut self,
        alloc: A,
        house: &mut House<'a, A>,
        filler: &mut Filler<'_, '_, F>,
    ) -> Result<bool, Stop>
        ensures right { (asks : Bool) (input : List ℕ) → IsAudited asks self.old.counts input (house_of house.old)
            → IfOk result (λ holds. holds ≡ true → IsRight asks (lines_of input)) }
        // It is true of each right file, unless it is stopped.
        ensures all { (input : List ℕ) → IsAudited false self.old.counts input (house_of house.old)
            → IfOk result (λ holds. IsRight false (lines_of input) → holds ≡ true) }
    {
        put_all_allowed(self.out, house)?;
        self.read_values(alloc, house)?;
        let is_read = self.is_clean();
        self.check_house(alloc, house)?;
        let is_sound = self.is_clean();
        self.check_numbers(alloc, house, filler)?;
        let counts = self.counts;
        let words = [
            Text(b"numbers "),
            Number(counts.numbers),
            Text(b", differ "),
            Number(counts.differ),
            Text(b", rules "),
            Number(counts.rules),
            Text(b", readings "),
            Number(counts.readings),
            Text(b", refused "),
            Number(counts.refused),
            Text(b", by hand "),
            Number(counts.by_hand),
            Text(b", estimated "),
            Number(counts.estimated),
            Text(b", struck "),
            Number(counts.struck),
            Text(b", places "),
            Number(house.places.len() as u64),
            Text(b"\n"),
        ];
        put_pieces(self.out, &words)?;
        Ok(is_read && is_sound && self.is_clean())
    }
}

// What is returned where the audit was stopped; of a line at fault it prints the fault.
fn stopped<W: Sink>(out: &mut W, line: u64, stop: Stop) -> Result<bool, TextFault>
    ensures not_right { IfOk result (λ holds. holds ≡ false) }
    ensures read { IsErrOf result TextFault.Read → ⊥ }
    ensures fault { IfOk result (λ holds. IsFault stop) }
    ensures told { stop ≡ Stop.Fault AuditFault.TooLarge → OnOk result (IsTooLarge (W.written out.new)) }
{
    match stop {
        Stop::NoMemory => Err(TextFault::NoMemory),
        Stop::Fault(fault) => {
            let (number, name) = fault.told();
            let words = [
                Text(b"LINE "),
                Number(line),
                Text(b" FAULT "),
                Number(u64::from(number)),
                Text(b" "),
                Text(name.as_bytes()),
                Text(b"\n"),
            ];
            match put_pieces(out, &words) {
                Ok(()) => Ok(false),
                Err(IoFault) => Err(TextFault::Write),
            }
        }
        _ => Err(TextFault::Write),
    }
}

// Checks a file, and writes it filled where that is asked for.
fn check_file<A: Allocator + Copy, R: Source, W: Sink, F: Sink>(
    alloc: A,
    may_ask: bool,
    reader: &mut R,
    writer: &mut W,
    filled: &mut F,
) -> Result<bool, TextFault>
    ensures read { IsErrOf result TextFault.Read
        → HasRisen (R.take_failures reader.old) (R.take_failures reader.new) }
    ensures ok { OnOk result (R.take_failures reader.new ≡ R.take_failures reader.old) }
    ensures right { IfOk result (λ holds. holds ≡ true
        → IfSome (R.left reader.old) (λ input. IsRight may_ask (lines_of input))) }
    ensures all { may_ask ≡ false → IfOk result (λ holds. holds ≡ false → IfSome (R.left reader.old)
        (λ input. IsRight false (lines_of input) → IsFed input → IsTooLarge (W.written writer.new))) }
{
    let Some(file) = read_file(alloc, reader)? else {
        return stopped(writer, 1, Stop::Fault(AuditFault::TooLarge));
    };
    let file = file.as_slice();
    let mut house = match read_house(alloc, file, may_ask) {
        Ok(house) => house,
        Err((line, stop)) => return stopped(writer, line, stop),
    };
    let mut filler = Filler {
        may_ask,
        out: filled,
        file,
        done: 0,
    };
    let mut teller = Teller {
        out: &mut *writer,
        counts: Counts::NONE,
    };
    match teller.walk(alloc, &mut house, &mut filler) {
        Ok(is_right) => Ok(is_right),
        // The reader found all that numbers are of, so that only their size can be at fault.
        Err(Stop::Fault(_)) => stopped(writer, house.lines, Stop::Fault(AuditFault::TooLarge)),
        Err(stop) => stopped(writer, house.lines, stop),
    }
}

/// Checks the file of published numbers that is left in the reader, and prints what is wrong with it. Returns whether
/// nothing is.
///
/// # Errors
/// [`TextFault::Read`] and [`TextFault::Write`] if the reader or the writer failed, [`TextFault::NoMemory`] if memory
/// ran out; something may have been written then.
pub fn audit<A: Allocator + Copy, R: Source, W: Sink>(
    alloc: A,
    reader: &mut R,
    writer: &mut W,
) -> Result<bool, TextFault>
    // A read fault is returned only if the reader counted a failure.
    ensures read { IsErrOf result TextFault.Read
        → HasRisen (R.take_failures reader.old) (R.take_failures reader.new) }
    ensures ok { OnOk result (R.take_failures reader.new ≡ R.take_failures reader.old) }

    // True only of a right file.
    ensures right { IfOk result (λ holds. holds ≡ true
        → IfSome (R.left reader.old) (λ input. IsRight false (lines_of input))) }

    // False of no right file whose last line ends with a feed, unless the output ends with the fault TooLarge.
    ensures all { IfOk result (λ holds. holds ≡ false → IfSome (R.left reader.old)
        (λ input. IsRight false (lines_of input) → IsFed input → IsTooLarge (W.written writer.new))) }
{
    let mut nowhere = FixedSink::<0>::new();
    check_file(alloc, false, reader, writer, &mut nowhere)
}

/// Writes the file that is left in the reader to `filled`, with what holds in the place of each `?`, and to `writer`
/// what is wrong with the rest. Returns whether nothing is.
///
/// # Errors
/// As of [`audit`].
pub fn fill<A: Allocator + Copy, R: Source, F: Sink, W: Sink>(
    alloc: A,
    reader: &mut R,
    filled: &mut F,
    writer: &mut W,
) -> Result<bool, TextFault>
    // A read fault is returned only if the reader counted a failure.
    ensures read { IsErrOf result TextFault.Read
        → HasRisen (R.take_failures reader.old) (R.take_failures reader.new) }
    ensures ok { OnOk result (R.take_failures reader.new ≡ R.take_failures reader.old) }

    // True only of a file that is right as far as it is given.
    ensures right { IfOk result (λ holds. holds ≡ true
        → IfSome (R.left reader.old) (λ input. IsRight true (lines_of input))) }
{
    check_file(alloc, true, reader, writer, filled)
}
