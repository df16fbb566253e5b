//! The house that a file spells: one tree. Its texts are slices of the file; spans, uses, runs and places count from 0.

ghost use Rattle.std.specs.Prelude.{◌≡◌, ◌-◌, ◌==◌, IfSome, length, option_map, find, slice_get};
ghost use Rattle.mbdc_audit.specs.House.{at};
ghost use Rattle.mbdc_audit.specs.Published.{declared, is_fact};
ghost use Rattle.mbdc_audit.specs.Sound.{begin_at, end_at};
ghost use Rattle.mbdc_audit.specs.View.{house_of, run_of, span_of};

use crate::curve::{Amount, Run};
use crate::evidence::Refusal;
use crate::line::Word;
use crate::moment::DayEnd;
use crate::smallest::Spelled;
use crate::uses::{Counted, Unit};
use std::alloc::Allocator;

/// What is consumed: its word, and what its meters count.
#[derive(Clone, Copy)]
pub struct Use<'a> {
    pub name: &'a [u8],
    pub counts: Counted,
}

/// A device type that counts a use though the table of types doesn't say so, and why.
#[derive(Clone, Copy)]
pub struct Allowed<'a> {
    pub line: u64,
    pub used: u64,
    pub kind: u8,
    pub why: &'a [u8],
}

/// From the end of a day to the end of a day.
#[derive(Clone, Copy)]
pub struct Span<'a> {
    pub line: u64,
    pub from: DayEnd<'a>,
    pub to: DayEnd<'a>,
}

/// What is declared of a span.
#[derive(Clone, Copy)]
pub enum Fact {
    /// Kilowatt hours of a cubic metre or of an allocator's unit.
    Factor(u64),
    /// Grams of a kilowatt hour.
    Emissions(u64),
    /// Degree days.
    Degrees,
    /// Cents of a unit.
    Price(u64, Unit),
    /// Units of a square metre.
    Average(u64, Unit),
}

impl Fact {
    // Whether two facts are of one kind, and of one use and unit.
    fn is(self, other: Fact) -> bool
        ensures { result ≡ is_fact self other }
    {
        match (self, other) {
            (Fact::Factor(used), Fact::Factor(others))
            | (Fact::Emissions(used), Fact::Emissions(others)) => used == others,
            (Fact::Price(used, unit), Fact::Price(others, another))
            | (Fact::Average(used, unit), Fact::Average(others, another)) => {
                used == others && unit == another
            }
            (Fact::Degrees, Fact::Degrees) => true,
            _ => false,
        }
    }
}

/// A ratio that is declared of a span, times 10^6.
#[derive(Clone, Copy)]
pub struct Declared {
    pub fact: Fact,
    pub span: u64,
    pub ratio: u64,
}

/// Who uses a flat: the flat, and its area in square metres times 10^6.
#[derive(Clone, Copy)]
pub struct User<'a> {
    pub line: u64,
    pub number: u64,
    pub flat: &'a [u8],
    pub area: Option<u64>,
}

/// A value that a person or, as a guess, an estimate put.
#[derive(Clone, Copy)]
pub struct Typed<'a> {
    pub is_guess: bool,
    pub spelled: Spelled,
    pub unit: &'a [u8],
}

/// A value of a run, by its line's word: what is stored or ended at the end of a day, the bodies of telegrams as the
/// line has them (hex digits, with commas between them), or what was put; what it is, or why it has no evidence, once
/// that was looked for; whether the same telegrams came before.
#[derive(Clone, Copy)]
pub struct Value<'a> {
    pub line: u64,
    pub word: Word,
    pub run: u64,
    pub moment: u64,
    pub end: Option<DayEnd<'a>>,
    pub bodies: &'a [u8],
    pub typed: Option<Typed<'a>>,
    pub found: Result<u64, Refusal>,
    pub is_again: bool,
}

/// A telegram that isn't to count.
#[derive(Clone, Copy)]
pub struct Struck<'a> {
    pub run: u64,
    pub moment: u64,
    pub why: &'a [u8],
}

/// A part of a span, who used the flat, and what was consumed, once it was computed.
#[derive(Clone, Copy)]
pub struct Part {
    pub line: u64,
    pub from: u64,
    pub to: u64,
    pub user: Option<u64>,
    pub amount: Amount,
}

/// A published number: its word, what it is of, where the word needs it, and its text with what is beside it. `from`
/// and `to` are a period, or a run and a moment; `asked` is the line before its text, and that begins at the byte `at`.
#[derive(Clone, Copy)]
pub struct Number<'a> {
    pub line: u64,
    pub word: Word,
    pub span: u64,
    pub other: u64,
    pub user: u64,
    pub flat: &'a [u8],
    pub used: u64,
    pub unit: Unit,
    pub from: u64,
    pub to: u64,
    pub size: u64,
    pub asked: &'a [u8],
    pub said: [&'a [u8]; 3],
    pub at: usize,
}

/// What a place has of a span.
#[derive(Drop)]
pub(crate) struct Window<'a, A: Allocator + Copy> {
    pub line: u64,
    pub span: u64,
    pub values: Vec<Value<'a>, A>,
    pub struck: Vec<Struck<'a>, A>,
    pub parts: Vec<Part, A>,
    pub numbers: Vec<Number<'a>, A>,
}

/// A supply point: its flat, its use, and its weight times 10^6.
#[derive(Drop)]
pub(crate) struct Place<'a, A: Allocator + Copy> {
    pub line: u64,
    pub flat: &'a [u8],
    pub used: u64,
    pub weight: u64,
    pub runs: Vec<Run<'a>, A>,
    pub windows: Vec<Window<'a, A>, A>,
}

/// The house of a file; `lines` says how many lines spell it.
#[derive(Drop)]
pub(crate) struct House<'a, A: Allocator + Copy> {
    pub lines: u64,
    pub label: &'a [u8],
    pub uses: Vec<Use<'a>, A>,
    pub allowed: Vec<Allowed<'a>, A>,
    pub spans: Vec<Span<'a>, A>,
    pub facts: Vec<Declared, A>,
    pub users: Vec<User<'a>, A>,
    pub places: Vec<Place<'a, A>, A>,
    pub numbers: Vec<Number<'a>, A>,
}

impl<'a, A: Allocator + Copy> House<'a, A> {
    /// The ratio that is declared of a span.
    pub fn declared(&self, fact: Fact, span: u64) -> Option<u64>
        ensures { result ≡ declared (house_of self.now) fact span }
    {
        self.facts
            .iter()
            .find(|declared| declared.span == span && fact.is(declared.fact))
            .map(|declared| declared.ratio)
    }

    /// A use by its place.
    pub fn used(&self, used: u64) -> Use<'a>
        ensures { IfSome (slice_get self.now.uses.items used) (λ u. result ≡ u) }
    {
        match self.uses.get(used as usize) {
            Some(used) => *used,
            None => Use {
                name: &[],
                counts: Counted::Energy,
            },
        }
    }

    /// The user with this number.
    pub fn user(&self, number: u64) -> Option<User<'a>>
        ensures { result ≡ find (λ u. u.number == number) self.now.users.items }
    {
        self.users
            .iter()
            .copied()
            .find(|user| user.number == number)
    }
}

impl<'a, A: Allocator + Copy> Place<'a, A> {
    /// When a place has a time in a span: the later one of both beginnings, and the earlier one of both ends.
    pub fn reach(&self, span: &Span<'_>) -> (u64, u64)
        ensures from { result.0 ≡ begin_at (option_map run_of (slice_get self.now.runs.items 0))
            (at (span_of span.now).from) }
        ensures to { result.1
            ≡ end_at (option_map run_of (slice_get self.now.runs.items (length self.now.runs.items - 1)))
            (at (span_of span.now).to) }
    {
        let from = span.from.moment();
        let to = span.to.moment();
        let from = match self.runs.first() {
            Some(first) => first.begin.max(from),
            None => 0,
        };
        let to = match self.runs.last() {
            Some(last) => last.end.map_or(to, |end| end.min(to)),
            None => 0,
        };
        (from, to)
    }
}
