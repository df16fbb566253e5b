//! The second walk: whether each value of a window has evidence, and what the place consumed by them.

ghost use Rattle.std.specs.Prelude.{◌≡◌, ◌≤◌, ◌&&◌, ◌==◌, ℕ, true, All, IfErr, IfOk, IsSome, IsTrue, OnOk, Some};
ghost use Rattle.std.specs.Prelude.{flat_map, map, slice_get};
ghost use Rattle.std.specs.List.{list_any};
ghost use Rattle.mbdc_audit.specs.House.{Use as UseOf};
ghost use Rattle.mbdc_audit.specs.Consumption.Order.{IsInOrder};
ghost use Rattle.mbdc_audit.specs.Amount.{entries, of_run};
ghost use Rattle.mbdc_audit.specs.Evidence.{IsSpelled};
ghost use Rattle.mbdc_audit.specs.Settled.{AreCounted, AreKnown, AreOnly, AreSettled, IsOnly, IsReadBy, IsSettled};
ghost use Rattle.mbdc_audit.specs.Settled.{IsTold};
ghost use Rattle.mbdc_audit.specs.Sound.{Falls, IsRead, IsReadPlace};
ghost use Rattle.mbdc_audit.specs.View.{found_of as found_list, house_of, known_in, part_of, place_of, run_of};
ghost use Rattle.mbdc_audit.specs.View.{seen_value, spelled_in, struck_of, use_of, window_of};
ghost use Rattle.mbdc_audit.specs.Walk.{AreGraded, AreJudged, Checks, IsJudged, IsOneValue, IsRefused, IsSmall};
ghost use Rattle.mbdc_audit.specs.Walk.{RestsOn};
ghost use Rattle.mbdc_audit.specs.File.{bare_house, bare_place, bare_window};
ghost use Rattle.mbdc_audit.specs.Walk.{is_clean, is_found, is_read, is_repeat, shown_by};

use crate::curve::{Run, amount_of};
use crate::evidence::{ANEW, Meant, RECORD, value_of};
use crate::fault::Stop;
use crate::house::{House, Part, Place, Struck, Typed, Use, Value, Window};
use crate::line::Word;
use crate::moment::DayEnd;
use crate::smallest::{END_OF_VALUES, MOST_VALUE_DECIMALS, of_spelled};
use crate::teller::Piece::{Number, Text};
use crate::teller::{Teller, put_pieces};
use crate::uses::{Counted, size_named};
use mbdc_io::Sink;
use std::alloc::Allocator;

// What a value that was put is, in the smallest unit, or that no record has it.
fn put_amount(typed: Option<Typed<'_>>, counted: Counted) -> Result<u64, Stop>
    ensures ok { IfOk result (IsSpelled counted (spelled_in typed.entry)) }
    ensures one { IfOk result (λ n. (m : ℕ) → IsSpelled counted (spelled_in typed.entry) m → m ≡ n) }
    ensures only { IfErr result (λ s. (n : ℕ) → IsSpelled counted (spelled_in typed.entry) n → ⊥) }
{
    let Some(typed) = typed else {
        return Err(Stop::Refused(RECORD));
    };
    match size_named(typed.unit) {
        Some((found, size))
            if found == counted && typed.spelled.decimals as usize <= MOST_VALUE_DECIMALS => {
            of_spelled(typed.spelled, size).ok_or(Stop::Refused(RECORD))
        }
        _ => Err(Stop::Refused(RECORD)),
    }
}

// What a value is by itself, in the smallest unit.
fn found_of<A: Allocator + Copy>(
    alloc: A,
    value: &Value<'_>,
    run: &Run<'_>,
    counted: Counted,
) -> Result<u64, Stop>
    ensures ok { IfOk result (λ n. RestsOn (run_of run.now) counted n value.now) }
    ensures one { IfOk result (λ n. (m : ℕ) → RestsOn (run_of run.now) counted m value.now → m ≡ n) }
    ensures only { IfErr result (λ s. IsRefused s → (n : ℕ) → RestsOn (run_of run.now) counted n value.now → ⊥) }
{
    let day = value.end.map_or(0, |end| u64::from(end.day));
    match value.word {
        Word::Read => value_of(
            alloc,
            value.bodies,
            run,
            counted,
            Meant::Current(value.moment),
        ),
        Word::Stored => value_of(alloc, value.bodies, run, counted, Meant::Stored(day)),
        Word::Ended => value_of(alloc, value.bodies, run, counted, Meant::Stored(day)),
        Word::Hand => put_amount(value.typed, counted),
        Word::Estimated => put_amount(value.typed, counted),
        Word::First => put_amount(value.typed, counted),
        Word::Last => put_amount(value.typed, counted),
        _ => Ok(0),
    }
}

// What a telegram of a run shows, if it has evidence.
fn shown(value: &Value<'_>, run: u64) -> Option<u64>
    ensures { result ≡ shown_by run value.now }
{
    if value.run == run && value.is_told() {
        value.found.ok()
    } else {
        None
    }
}

// Whether telegrams show that a run began anew: its first one after a moment shows less than the last one before.
fn began_anew(values: &[Value<'_>], zero: &Value<'_>) -> bool
    ensures ok { result ≡ true → Falls (flat_map found_list values.now) (seen_value zero.now) }
    ensures only { Falls (flat_map found_list values.now) (seen_value zero.now) → result ≡ true }
{
    let Some(before) = zero.run.checked_sub(1) else {
        return false;
    };
    let (mut high, mut low) = (None, None);
    'values: for value in values {
        let old = shown(value, before);
        if old.is_some() {
            high = old;
            continue;
        }
        if low.is_some() {
            continue;
        }
        if value.moment <= zero.moment {
            continue;
        }
        low = shown(value, zero.run);
    }
    let Some(high) = high else {
        return false;
    };
    let Some(low) = low else {
        return false;
    };
    low < high
}

// What a value is by itself, or why it has no evidence.
fn judge<'a, A: Allocator + Copy>(
    alloc: A,
    value: &Value<'a>,
    runs: &[Run<'a>],
    counted: Counted,
) -> Result<Value<'a>, Stop>
    ensures { IfOk result (IsJudged (map run_of runs.now) counted value.now) }
{
    let Some(run) = runs.get(value.run as usize) else {
        return Ok(Value {
            found: Err(RECORD),
            ..*value
        });
    };
    match found_of(alloc, value, run, counted) {
        Ok(found) => Ok(Value {
            found: Ok(found),
            ..*value
        }),
        Err(Stop::Refused(refusal)) => Ok(Value {
            found: Err(refusal),
            ..*value
        }),
        Err(stop) => Err(stop),
    }
}

// What each value of a window is by itself.
fn judged<'a, A: Allocator + Copy>(
    alloc: A,
    values: &[Value<'a>],
    runs: &[Run<'a>],
    counted: Counted,
) -> Result<Vec<Value<'a>, A>, Stop>
    ensures { IfOk result (λ v. AreJudged (map run_of runs.now) counted values.now v.items) }
{
    let mut judged: Vec<Value<'a>, A> = Vec::new(alloc);
    'values: for value in values {
        let it = judge(alloc, value, runs, counted)?;
        judged.push(it)?;
    }
    Ok(judged)
}

// Whether a value is of the same telegrams as an earlier one.
fn is_repeated(values: &[Value<'_>], value: &Value<'_>) -> bool
    ensures { result ≡ (is_read value.now.word
        && (is_found value.now.found && list_any (λ u. is_repeat value.now u) values.now)) }
{
    match (value.word, value.found) {
        (Word::Read, Ok(_)) => values.iter().any(|earlier| {
            earlier.run == value.run
                && earlier.moment < value.moment
                && earlier.found.is_ok()
                && earlier.word == Word::Read
                && earlier.bodies == value.bodies
        }),
        _ => false,
    }
}

// What a value is beside the others of its window.
fn settle<'a>(values: &[Value<'a>], value: &Value<'a>) -> Value<'a>
    ensures { IsSettled values.now value.now result }
{
    let is_again = is_repeated(values, value);
    if !value.is_anew() || began_anew(values, value) {
        Value { is_again, ..*value }
    } else {
        Value {
            found: Err(ANEW),
            is_again,
            ..*value
        }
    }
}

// What each value of a window is beside the others.
fn settled<'a, A: Allocator + Copy>(
    alloc: A,
    values: &[Value<'a>],
) -> Result<Vec<Value<'a>, A>, Stop>
    ensures { IfOk result (λ v. AreSettled values.now v.items) }
{
    let mut settled: Vec<Value<'a>, A> = Vec::new(alloc);
    'values: for value in values {
        let it = settle(values, value);
        settled.push(it)?;
    }
    Ok(settled)
}

// The size of a run; 0 where none is declared.
fn size_in(runs: &[Run<'_>], run: u64) -> u64
    ensures { result ≡ of_run (λ r. r.size) (map run_of runs.now) run }
{
    match runs.get(run as usize) {
        Some(run) => run.size,
        None => 0,
    }
}

// What parts say that their place consumed.
fn counted<'a, A: Allocator + Copy>(
    alloc: A,
    runs: &[Run<'a>],
    values: &[Value<'a>],
    parts: &[Part],
) -> Result<Vec<Part, A>, Stop>
    ensures same { IfOk result (λ v. map part_of v.items ≡ map part_of parts.now) }
    ensures graded { IfOk result (λ v. IsInOrder (entries (map run_of runs.now) (known_in values.now))
        → All (λ x. x.from ≤ x.to) v.items → AreGraded (map run_of runs.now) (known_in values.now) v.items) }
{
    let mut counted: Vec<Part, A> = Vec::new(alloc);
    'parts: for part in parts {
        let amount = amount_of(alloc, runs, values, part.from, part.to)?;
        counted.push(Part { amount, ..*part })?;
    }
    Ok(counted)
}

impl<'s, W: Sink> Teller<'s, W> {
    // Counts a value, and says why it has no evidence, or reaches its meter's size.
    fn tell_value(&mut self, value: &Value<'_>, size: u64) -> Result<(), Stop>
        ensures { Checks result self.old.counts self.new.counts (IsSmall size value.now) }
    {
        let end = if size == 0 { END_OF_VALUES } else { size };
        match value.found {
            Err(refusal) => {
                self.counts.refused = self.counts.refused.saturating_add(1);
                let words = [
                    Text(b"NO EVIDENCE line "),
                    Number(value.line),
                    Text(b": "),
                    Text(refusal.as_bytes()),
                    Text(b"\n"),
                ];
                put_pieces(self.out, &words)?;
            }
            Ok(found) if found >= end => {
                let words = Text(b"a value that reaches the meter's size");
                self.rule(value.line, "Moment", &[words])?;
            }
            Ok(_) => {}
        }
        match value.typed {
            Some(typed) if typed.is_guess => {
                self.counts.estimated = self.counts.estimated.saturating_add(1);
            }
            Some(_) => self.counts.by_hand = self.counts.by_hand.saturating_add(1),
            None if value.is_told() && value.found.is_ok() => {
                self.counts.readings = self.counts.readings.saturating_add(1);
            }
            None => {}
        }
        Ok(())
    }

    // Says whether a telegram is struck, or one of its run and moment shows another value.
    fn tell_telegram(
        &mut self,
        values: &[Value<'_>],
        struck: &[Struck<'_>],
        value: &Value<'_>,
    ) -> Result<(), Stop>
        ensures { Checks result self.old.counts self.new.counts
            (IsOneValue values.now (map struck_of struck.now) value.now) }
    {
        let is_struck = struck.iter().any(|struck| struck.run == value.run
            && struck.moment == value.moment);
        let words = [Text(b"a struck value counts")];
        self.unless(!is_struck, value.line, "Struck", &words)?;
        let has_other = values.iter().any(|other| {
            if other.moment != value.moment {
                return false;
            }
            match (shown(other, value.run), value.found) {
                (Some(shown), Ok(found)) => shown != found,
                _ => false,
            }
        });
        let words = [Text(b"two values at one moment")];
        self.unless(!has_other, value.line, "Moment", &words)?;
        Ok(())
    }

    // Says what is wrong with the values of a window.
    fn tell_values(
        &mut self,
        runs: &[Run<'_>],
        values: &[Value<'_>],
        struck: &[Struck<'_>],
    ) -> Result<(), Stop>
        ensures { Checks result self.old.counts self.new.counts
            (All (IsTold (map run_of runs.now) values.now (map struck_of struck.now)) values.now) }
    {
        'values: for value in values {
            self.tell_value(value, size_in(runs, value.run))?;
            if value.is_told() {
                self.tell_telegram(values, struck, value)?;
            }
        }
        Ok(())
    }

    // The values of a window, and the amounts of its parts; says what is wrong.
    fn read_window<'a, A: Allocator + Copy>(
        &mut self,
        alloc: A,
        window: &mut Window<'a, A>,
        runs: &[Run<'a>],
        counts: Counted,
    ) -> Result<(), Stop>
        ensures found { Checks result self.old.counts self.new.counts
            (IsRead (map run_of runs.now) counts (window_of window.new)) }
        ensures kept { OnOk result (bare_window (window_of window.new) ≡ bare_window (window_of window.old)) }
        ensures values { OnOk result (IsTrue (is_clean self.new.counts) → AreKnown window.new) }
        ensures parts { OnOk result (AreCounted (map run_of runs.now) window.new) }
        ensures only { OnOk result (IsOnly (map run_of runs.now) counts window.new) }
    {
        let judged = judged(alloc, window.values.as_slice(), runs, counts)?;
        let values = settled(alloc, judged.as_slice())?;
        self.tell_values(runs, values.as_slice(), window.struck.as_slice())?;
        let parts = counted(alloc, runs, values.as_slice(), window.parts.as_slice())?;
        window.values = values;
        window.parts = parts;
        let struck = window.struck.len() as u64;
        self.counts.struck = self.counts.struck.saturating_add(struck);
        Ok(())
    }

    // What a use counts; says where there is no such use.
    fn quantity(&mut self, line: u64, uses: &[Use<'_>], used: u64) -> Result<Counted, Stop>
        ensures found { Checks result self.old.counts self.new.counts (IsSome (slice_get (map use_of uses.now) used)) }
        ensures one { IfOk result (λ q. (u : UseOf) → slice_get (map use_of uses.now) used ≡ Some u
            → u.counts ≡ q) }
    {
        match uses.get(used as usize) {
            Some(used) => Ok(used.counts),
            None => {
                self.rule(line, "Type", &[Text(b"a use that isn't declared")])?;
                Ok(Counted::Energy)
            }
        }
    }

    // A place's values that have evidence, and the amounts of its parts; says what is wrong.
    fn read_place<'a, A: Allocator + Copy>(
        &mut self,
        alloc: A,
        place: &mut Place<'a, A>,
        uses: &[Use<'a>],
    ) -> Result<(), Stop>
        ensures found { Checks result self.old.counts self.new.counts
            (IsReadBy (map use_of uses.now) (place_of place.new)) }
        ensures kept { OnOk result (bare_place (place_of place.new) ≡ bare_place (place_of place.old)) }
        ensures values { OnOk result (IsTrue (is_clean self.new.counts) → All AreKnown place.new.windows.items) }
        ensures parts { OnOk result (All (AreCounted (map run_of place.new.runs.items)) place.new.windows.items) }
        ensures only { OnOk result (AreOnly (map use_of uses.now) place.new) }
    {
        let counts = self.quantity(place.line, uses, place.used)?;
        let runs = place.runs.as_slice();
        let windows = place.windows.as_mut_slice();
        'windows: for window in windows.iter_mut() {
            self.read_window(alloc, window, runs, counts)?;
        }
        Ok(())
    }

    /// Finds the values of a house that have evidence, and the amounts of all parts; says which have none, and what
    /// else is wrong with them.
    pub fn read_values<'a, A: Allocator + Copy>(
        &mut self,
        alloc: A,
        house: &mut House<'a, A>,
    ) -> Result<(), Stop>
        ensures found { Checks result self.old.counts self.new.counts
            (All (IsReadPlace (house_of house.new)) (house_of house.new).places) }
        ensures kept { OnOk result (bare_house (house_of house.new) ≡ bare_house (house_of house.old)) }
        ensures values { OnOk result (IsTrue (is_clean self.new.counts)
            → All (λ p. All AreKnown p.windows.items) house.new.places.items) }
        ensures parts { OnOk result
            (All (λ p. All (AreCounted (map run_of p.runs.items)) p.windows.items) house.new.places.items) }
        ensures only { OnOk result (All (AreOnly (house_of house.new).uses) house.new.places.items) }
    {
        let uses = house.uses.as_slice();
        let places = house.places.as_mut_slice();
        'places: for place in places.iter_mut() {
            self.read_place(alloc, place, uses)?;
        }
        Ok(())
    }
}
