//! What a place consumed in a period of a window, and the mark of that number.

ghost use Rattle.std.specs.Prelude.{◌≡◌, ◌↔◌, ◌≤◌, ◌<◌, ◌+◌, ◌^◌, ◌||◌, ◌&&◌, ◌++◌, ◌==◌, not, nat_le, nat_lt};
ghost use Rattle.std.specs.Prelude.{[], All, IfOk, IsTrue, OnOk, false, filter, length, map, take, true};
ghost use Rattle.std.specs.Prelude.{None, Some, if◌then◌else◌};
ghost use Rattle.std.specs.List.{list_any};
ghost use Rattle.mbdc_audit.specs.Amount.{amount, are_whole, basis, counting, deciding, due, entry_of, grade, has};
ghost use Rattle.mbdc_audit.specs.Amount.{is_below, is_by, is_final, is_first, is_last, is_measured, is_near};
ghost use Rattle.mbdc_audit.specs.Amount.{is_over_at, is_same, last_of, told};
ghost use Rattle.mbdc_audit.specs.Amount.{is_put as is_put_source};
ghost use Rattle.mbdc_audit.specs.Evidence.{list_of};
ghost use Rattle.mbdc_audit.specs.Kept.{does_count, is_anew, is_estimate, is_so, kept, know};
ghost use Rattle.mbdc_audit.specs.Kept.{known_source, lasting, maybe_seen, rises_from, unless_one};
ghost use Rattle.mbdc_audit.specs.Kept.{IsMarked, capped, known_by};
ghost use Rattle.mbdc_audit.specs.Sound.{AreAlike, is_word};
ghost use Rattle.mbdc_audit.specs.Walk.{IsGraded, is_found};
ghost use Rattle.mbdc_audit.specs.View.{is_told_word, known_in, run_of, seen_value, source_of};
ghost use Rattle.mbdc_audit.specs.Consumption.Mark.{exchanges_in};
ghost use Rattle.mbdc_audit.specs.Consumption.Order.{IsInOrder};
ghost use Rattle.mbdc_audit.specs.Consumption.Period.{consumption};

use crate::consumption::{Entry, backwards, consumption, exchanges, is_in_order};
use crate::fault::Stop;
use crate::grade::{Grade, UNCLEAR};
use crate::house::Value;
use crate::line::Word;
use crate::smallest::END_OF_VALUES;
use dc_address::Identity;
use std::alloc::{AllocError, Allocator};

/// A meter at a place from its beginning to its end; a counter that began anew is another run.
#[derive(Clone, Copy)]
pub struct Run<'a> {
    pub line: u64,
    pub identity: Identity,
    pub begin: u64,
    /// The last run may have no end.
    pub end: Option<u64>,
    /// What it can count in an hour; 0 where it isn't declared.
    pub most: u64,
    /// The value from which it goes on at 0; 0 where it has no turn.
    pub size: u64,
    /// The block of the record that counts, in hex digits, or nothing.
    pub vib: &'a [u8],
}

/// An amount, where there is a number, and its mark.
#[derive(Clone, Copy)]
pub struct Amount {
    pub amount: Option<u64>,
    pub grade: Grade,
}

impl Amount {
    /// No amount.
    pub const NONE: Amount = Amount {
        amount: None,
        grade: Grade::Missing,
    };
}

// Between the values around an end of what counts as measured: 48 hours.
const LONGEST_GAP: u64 = 172_800;

impl Run<'_> {
    /// Whether it ends at a moment or before it.
    pub fn is_over(&self, moment: u64) -> bool
        ensures { result ≡ is_by moment self.now.end }
    {
        matches!(self.end, Some(end) if end <= moment)
    }
}

impl Value<'_> {
    /// Whether a person or an estimate put it; a repeated telegram is an estimate.
    pub fn is_put(&self) -> bool
        ensures { result ≡ (self.now.is_again || is_put_source (source_of self.now)) }
    {
        self.is_again
            || matches!(
                self.word,
                Word::Hand | Word::Estimated | Word::First | Word::Last
            )
    }

    /// Whether telegrams show it.
    pub fn is_told(&self) -> bool
        ensures { result ≡ is_told_word self.now.word }
    {
        matches!(self.word, Word::Read | Word::Stored | Word::Ended)
    }

    // Whether it is an estimate or, where that isn't asked for, was put.
    fn is_so(&self, is_guess: bool) -> bool
        ensures { result ≡ is_so is_guess (known_source self.now) }
    {
        if is_guess {
            self.is_put() && (self.is_again || self.is_estimate())
        } else {
            self.is_put()
        }
    }

    // Whether it is the last one of a run that ended.
    fn is_last(&self) -> bool
        ensures { result ≡ is_last (known_source self.now) }
    {
        !self.is_again && matches!(self.word, Word::Last | Word::Ended)
    }

    // Whether it is a run's first one.
    fn is_first(&self) -> bool
        ensures { result ≡ is_first (known_source self.now) }
    {
        !self.is_again
            && !matches!(
                self.word,
                Word::Read | Word::Stored | Word::Ended | Word::Hand | Word::Estimated | Word::Last
            )
    }

    // Whether it has evidence and, where that is asked for, wasn't put.
    fn does_count(&self, is_told: bool) -> bool
        ensures { result ≡ does_count is_told self.now }
    {
        self.found.is_ok() && !(is_told && self.is_put())
    }

    // Whether another value is of its kind: put by an estimate or not, or by the word of its line.
    fn is_of_kind(&self, other: &Value<'_>) -> bool
        ensures { result ≡ is_word (source_of self.now) (source_of other.now) }
    {
        match self.word {
            Word::Read => other.word == Word::Read,
            Word::Stored => other.word == Word::Stored,
            Word::Ended => other.word == Word::Ended,
            Word::First => other.word == Word::First,
            Word::Last => other.word == Word::Last,
            Word::Hand | Word::Estimated => {
                matches!(other.word, Word::Hand | Word::Estimated)
                    && self.is_estimate() == other.is_estimate()
            }
            _ => other.is_anew(),
        }
    }

    /// Whether it is a counter's that began anew.
    pub fn is_anew(&self) -> bool
        ensures { result ≡ is_anew (source_of self.now) }
    {
        !matches!(
            self.word,
            Word::Read
                | Word::Stored
                | Word::Ended
                | Word::First
                | Word::Last
                | Word::Hand
                | Word::Estimated
        )
    }

    // Whether an estimate put it.
    fn is_estimate(&self) -> bool
        ensures { result ≡ is_estimate self.now.typed }
    {
        matches!(self.typed, Some(typed) if typed.is_guess)
    }

    // As an entry.
    fn entry(&self, runs: &[Run<'_>]) -> Entry
        ensures { result ≡ entry_of (map run_of runs.now) (know self.now) }
    {
        let (most, size) = match runs.get(self.run as usize) {
            Some(run) => (run.most, run.size),
            None => (0, 0),
        };
        Entry {
            moment: self.moment,
            meter: self.run,
            value: self.found.unwrap_or(0),
            most,
            size,
        }
    }
}

// Adds the last value, unless the next one is of its run and moment.
fn push_unless_one<'a, A: Allocator + Copy>(
    kept: &mut Vec<Value<'a>, A>,
    last: Option<Value<'a>>,
    next: &Value<'a>,
) -> Result<(), Stop>
    ensures { OnOk result (kept.new.items ≡ kept.old.items ++ unless_one last.entry next.now) }
{
    let Some(last) = last else {
        return Ok(());
    };
    if last.run != next.run || last.moment != next.moment {
        kept.push(last)?;
    }
    Ok(())
}

// Of several values of one run and moment that follow one another, the last; of those that count.
fn kept<'a, A: Allocator + Copy>(
    alloc: A,
    values: &[Value<'a>],
    is_told: bool,
) -> Result<Vec<Value<'a>, A>, Stop>
    ensures { IfOk result (λ v. v.items ≡ kept is_told values.now) }
{
    let mut kept: Vec<Value<'a>, A> = Vec::new(alloc);
    let mut last: Option<Value<'a>> = None;
    'values: for value in values {
        if value.does_count(is_told) {
            push_unless_one(&mut kept, last, value)?;
            last = Some(*value);
        }
    }
    if let Some(last) = last {
        kept.push(last)?;
    }
    Ok(kept)
}

// Values as entries.
fn entries_of<A: Allocator>(
    alloc: A,
    runs: &[Run<'_>],
    values: &[Value<'_>],
) -> Result<Vec<Entry, A>, AllocError>
    ensures { IfOk result (λ e. e.items ≡ map (λ v. entry_of (map run_of runs.now) (know v)) values.now) }
{
    values.iter().map(|value| value.entry(runs)).collect(alloc)
}

/// The values of a window that count, and the same as entries.
#[derive(Drop)]
pub(crate) struct Curve<'w, 'a, A: Allocator + Copy> {
    values: Vec<Value<'a>, A>,
    entries: Vec<Entry, A>,
    runs: &'w [Run<'a>],
    ghost found: { All (λ v. is_found v.found ≡ true) values.items },
    ghost counted: { lasting values.items ≡ values.items },
    ghost same: { entries.items ≡ map (λ v. entry_of (map run_of runs.now) (know v)) values.items },
}

impl<'w, 'a, A: Allocator + Copy> Curve<'w, 'a, A> {
    /// The values that have evidence; of several of one run and moment that follow one another, the last; where it is
    /// asked for, without those that a person or an estimate put.
    pub fn of(
        alloc: A,
        runs: &'w [Run<'a>],
        values: &[Value<'a>],
        is_told: bool,
    ) -> Result<Self, Stop>
        ensures kept { IfOk result (λ c. c.values.items ≡ kept is_told values.now) }
        ensures values { IfOk result (λ c. known_in c.values.items
            ≡ counting (if is_told then told (known_in values.now) else known_in values.now)) }
        ensures raw { is_told ≡ false → IfOk result (λ c. map seen_value c.values.items
            ≡ counting (map seen_value (filter (λ v. is_found v.found) values.now))) }
        ensures runs { IfOk result (λ c. c.runs.now ≡ runs.now) }
        ensures entries { IfOk result (λ c. c.entries.items
            ≡ map (entry_of (map run_of runs.now)) (known_in c.values.items)) }
    {
        let values = kept(alloc, values, is_told)?;
        let entries = entries_of(alloc, runs, &values)?;
        Ok(Curve {
            values,
            entries,
            runs,
        })
    }

    // The values that decide a moment: the last one at it or before it and, where none lies at it, the next.
    fn deciding(&self, moment: u64) -> (Option<Value<'a>>, Option<Value<'a>>)
        ensures last { list_of result.0 ≡ last_of (filter (λ v. nat_le v.moment moment) self.now.values.items) }
        ensures next { list_of result.1 ≡ (if list_any (λ v. v.moment == moment) self.now.values.items then []
            else take 1 (filter (λ v. nat_lt moment v.moment) self.now.values.items)) }
    {
        let (mut last, mut next) = (None, None);
        'values: for value in &self.values {
            if value.moment <= moment {
                last = Some(*value);
                continue;
            }
            if next.is_some() {
                continue;
            }
            next = Some(*value);
        }
        if self.values.iter().any(|value| value.moment == moment) {
            return (last, None);
        }
        (last, next)
    }

    /// Whether the values that decide a moment are the same in two windows: of one run, moment, amount and word.
    pub fn is_one_with(&self, other: &Curve<'_, '_, A>, moment: u64) -> bool
        ensures { IsTrue result ↔ AreAlike (deciding moment (map seen_value self.now.values.items))
            (deciding moment (map seen_value other.now.values.items)) }
    {
        let (last, next) = self.deciding(moment);
        let (others, after) = other.deciding(moment);
        is_same(last, others) && is_same(next, after)
    }

    // Whether a value that decides a moment is an estimate or, where that isn't asked for, was put.
    fn rests_at(&self, moment: u64, is_guess: bool) -> bool
        ensures { result ≡ list_any (λ v. is_so is_guess v.source) (deciding moment (known_in self.now.values.items)) }
    {
        let (last, next) = self.deciding(moment);
        last.is_some_and(|value| value.is_so(is_guess))
            || next.is_some_and(|value| value.is_so(is_guess))
    }

    // Whether a period rests on a value that was put, or on an estimate: at its ends, or at an exchange in it.
    fn rests_on(&self, from: u64, to: u64, is_guess: bool) -> bool
        ensures { result ≡ list_any (λ v. is_so is_guess v.source) (basis from to (known_in self.now.values.items)) }
    {
        self.rests_at(from, is_guess)
            || self.rests_at(to, is_guess)
            || self.values.iter().any(|value| {
                if from >= value.moment || value.moment > to {
                    return false;
                }
                (value.is_first() || value.is_last()) && value.is_so(is_guess)
            })
    }

    // Whether a value lies at a moment, or those around it are at most 48 hours apart.
    fn is_near(&self, moment: u64) -> bool
        ensures { result ≡ is_near moment (known_in self.now.values.items) }
    {
        let (last, next) = self.deciding(moment);
        let Some(last) = last else {
            return true;
        };
        let Some(next) = next else {
            return true;
        };
        next.moment.saturating_sub(last.moment) <= LONGEST_GAP
    }

    // Whether the values at a moment or after it have two moments.
    fn goes_on(&self, to: u64) -> bool
        ensures { result ≡ rises_from to None self.now.values.items }
    {
        let mut first: Option<u64> = None;
        'values: for value in &self.values {
            if value.moment < to {
                continue;
            }
            if let Some(first) = first {
                if first < value.moment {
                    return true;
                }
            }
            first = Some(value.moment);
        }
        false
    }

    // Whether nothing is to come that may yet say that a period's end is false.
    fn is_final(&self, to: u64) -> bool
        ensures { result ≡ is_final (map run_of self.now.runs.now) (known_in self.now.values.items) to }
    {
        match self.runs.last() {
            Some(run) => run.is_over(to) || self.goes_on(to),
            None => self.goes_on(to),
        }
    }

    // Whether a run, by its number, ends where the next begins, and both values of the exchange are there.
    fn is_exchanged(&self, old: &Run<'_>, new: &Run<'_>, n: u64) -> bool
        requires { n < 2 ^ 63 }
        ensures { result ≡ (is_over_at new.now.begin old.now.end && (has n is_last (known_in self.now.values.items)
            && has (n + 1) is_first (known_in self.now.values.items))) }
    {
        if old.end != Some(new.begin) {
            return false;
        }
        let next = n + 1;
        let has_last = self
            .values
            .iter()
            .any(|value| value.run == n && value.is_last());
        let has_first = self
            .values
            .iter()
            .any(|value| value.run == next && value.is_first());
        has_last && has_first
    }

    // Number of exchanges of a period by the runs; none where one of them lacks the last value of the run before it or
    // the first of the next, or time lies between these.
    fn due(&self, from: u64, to: u64) -> Option<usize>
        ensures { result ≡ (if are_whole from to (known_in self.now.values.items) 0 (map run_of self.now.runs.now)
            then Some (due from to (map run_of self.now.runs.now)) else None) }
    {
        let Some((first, later)) = self.runs.split_first() else {
            return Some(0);
        };
        let (mut count, mut n) = (0, 0);
        let mut old = *first;
        'runs: for new in later {
            let ends_before = old.end.is_some_and(|end| end < to);
            if from < new.begin && (ends_before || new.begin <= to) {
                if !self.is_exchanged(&old, new, n) {
                    return None;
                }
                count += 1;
            }
            n += 1;
            old = *new;
        }
        Some(count)
    }

    // The amount; one of more digits than amounts have where it doesn't fit 64 bits.
    fn amount(&self, from: u64, to: u64) -> Option<u64>
        ensures { IsInOrder self.now.entries.items → from ≤ to
            → result ≡ capped (consumption self.now.entries.items from to) }
    {
        let entries = self.entries.as_slice();
        if to < from {
            return None;
        }
        if !is_in_order(entries) {
            return None;
        }
        match consumption(entries, from, to) {
            Ok(amount) => amount,
            Err(_) => Some(END_OF_VALUES),
        }
    }

    // Whether the exchanges are those that are due, with their values, and the amount has at most 18 digits.
    fn is_clear(&self, amount: Option<u64>, from: u64, to: u64) -> bool
        ensures { result ≡ (are_whole from to (known_in self.now.values.items) 0 (map run_of self.now.runs.now)
            && ((length (exchanges_in self.now.entries.items from to) == due from to (map run_of self.now.runs.now))
            && is_below amount)) }
    {
        match self.due(from, to) {
            Some(due) => {
                exchanges(self.entries.as_slice(), from, to) == due
                    && amount.is_none_or(|amount| amount < END_OF_VALUES)
            }
            None => false,
        }
    }

    // Whether a period rests on an estimate, or the values around an end of it are far apart.
    fn is_estimated(&self, from: u64, to: u64) -> bool
        ensures { result ≡ (list_any (λ v. is_so true v.source) (basis from to (known_in self.now.values.items))
            || (not (is_near from (known_in self.now.values.items))
            || not (is_near to (known_in self.now.values.items)))) }
    {
        self.rests_on(from, to, true) || !self.is_near(from) || !self.is_near(to)
    }

    // The first mark that applies.
    fn grade(&self, amount: Option<u64>, from: u64, to: u64) -> Grade
        ensures { amount ≡ capped (consumption self.now.entries.items from to)
            → result ≡ grade (map run_of self.now.runs.now) (known_in self.now.values.items) from to }
    {
        if backwards(self.entries.as_slice(), from, to) > 0 {
            return Grade::Disturbed;
        }
        if !self.is_clear(amount, from, to) {
            return Grade::Unclear;
        }
        if amount.is_none() {
            return Grade::Missing;
        }
        if self.is_estimated(from, to) {
            return Grade::Estimated;
        }
        if !self.is_final(to) {
            return Grade::Provisional;
        }
        if self.rests_on(from, to, false) {
            return Grade::Hand;
        }
        Grade::Measured
    }
}

// Whether two values are the same, or none is there.
fn is_same(one: Option<Value<'_>>, other: Option<Value<'_>>) -> bool
    ensures { IsTrue result ↔ AreAlike (maybe_seen one.entry) (maybe_seen other.entry) }
{
    match (one, other) {
        (Some(one), Some(other)) => {
            one.run == other.run
                && one.moment == other.moment
                && one.found.unwrap_or(0) == other.found.unwrap_or(0)
                && one.is_of_kind(&other)
        }
        (None, None) => true,
        _ => false,
    }
}

// Whether a number is measured.
fn is_measured(grade: Grade) -> bool
    ensures { result ≡ is_measured grade }
{
    matches!(grade, Grade::Measured)
}

// Whether telegrams alone give the same number, and it is measured.
fn is_told(told: Amount, all: Amount) -> bool
    ensures { result ≡ (is_same told.amount all.amount && is_measured told.grade) }
{
    match (told.amount, all.amount) {
        (Some(one), Some(other)) => one == other && is_measured(told.grade),
        _ => false,
    }
}

// Whether a value that has evidence is an estimate or, where that isn't asked for, was put.
fn is_any_so(values: &[Value<'_>], is_guess: bool) -> bool
    ensures { result ≡ list_any (λ v. is_so is_guess v.source) (known_in values.now) }
{
    values
        .iter()
        .any(|value| value.found.is_ok() && value.is_so(is_guess))
}

// What a place consumed in a period, by all values or without those that were put, and the first mark that applies.
fn graded_of<'a, A: Allocator + Copy>(
    alloc: A,
    runs: &[Run<'a>],
    values: &[Value<'a>],
    is_told: bool,
    from: u64,
    to: u64,
) -> Result<Amount, Stop>
    ensures { IfOk result (λ a.
        IsInOrder (map (entry_of (map run_of runs.now)) (counting (known_by is_told values.now))) → from ≤ to
        → IsMarked (map run_of runs.now) (known_by is_told values.now) from to a) }
{
    let curve = Curve::of(alloc, runs, values, is_told)?;
    let amount = curve.amount(from, to);
    let grade = curve.grade(amount, from, to);
    if grade.told().1 < UNCLEAR {
        return Ok(Amount { amount, grade });
    }
    Ok(Amount {
        amount: None,
        grade,
    })
}

/// What a place consumed in a period, and the mark: measured only where it is the same without every put value.
pub(crate) fn amount_of<'a, A: Allocator + Copy>(
    alloc: A,
    runs: &[Run<'a>],
    values: &[Value<'a>],
    from: u64,
    to: u64,
) -> Result<Amount, Stop>
    ensures { IfOk result (λ a. IsInOrder (map (entry_of (map run_of runs.now)) (counting (known_in values.now)))
        → from ≤ to → IsGraded (map run_of runs.now) (known_in values.now) from to a) }
{
    let all = graded_of(alloc, runs, values, false, from, to)?;
    if !is_measured(all.grade) {
        return Ok(all);
    }
    if !is_any_so(values, false) {
        return Ok(all);
    }
    let told = graded_of(alloc, runs, values, true, from, to)?;
    if is_told(told, all) {
        return Ok(all);
    }
    let amount = all.amount;
    if is_any_so(values, true) {
        return Ok(Amount {
            amount,
            grade: Grade::Estimated,
        });
    }
    Ok(Amount {
        amount,
        grade: Grade::Hand,
    })
}
