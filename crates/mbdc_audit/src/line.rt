//! What a line says: one row a word.

ghost use Rattle.std.specs.Prelude.{◌≡◌, ◌<◌, ◌≤◌, ◌+◌, ◌^◌, ◌↔◌, ◌++◌, ◌∷◌, [], ℕ, IfErr, IfOk, IsTrue, List};
ghost use Rattle.std.specs.Prelude.{Option, find, length, map, option_map, position};
ghost use Rattle.std.specs.Str.{bytes_eq};
ghost use Rattle.mbdc_audit.specs.File.{use_place};
ghost use Rattle.mbdc_audit.specs.Field.{fields_of, left_fields};
ghost use Rattle.mbdc_audit.specs.declared.line.Line.{Line};
ghost use Rattle.mbdc_audit.specs.declared.smallest.Spelled.{Spelled};
ghost use Rattle.mbdc_audit.specs.Line.{AreBlank, AreRead, Fields, IsBounded, IsLine, field_of, is_asked};
ghost use Rattle.mbdc_audit.specs.Line.{is_header, may_follow, maybe_at, number_at, rest_of, rule_of, rules};

use crate::fault::AuditFault;
use crate::field::Kind::{
    Any, Beside, Bodies, Dash, Day, Decimal, Exact, Flat, How, Identity, Month, Offset, Positive,
    PositiveOrNone, Quantity, Ratio, Text, Two, Type, Use, Vib, Whole, WholeOrNone, Why,
};
use crate::field::{Kind, first_field, is_word};
use crate::moment::DayEnd;
use crate::smallest::Spelled;

/// The word of a line.
#[derive(Clone, Copy)]
pub enum Word {
    Audit,
    Use,
    As,
    Span,
    Factor,
    Emissions,
    Degrees,
    Price,
    Average,
    User,
    Place,
    Meter,
    Window,
    Read,
    Stored,
    Ended,
    Zero,
    Hand,
    Estimated,
    First,
    Last,
    Struck,
    Part,
    Shown,
    Value,
    Totals,
    OfUser,
    OfFlat,
    OfHouse,
    Mean,
    Change,
    Weather,
    Carbon,
    Cost,
    End,
}

/// How far a file has come: what its last line was, and nothing yet.
pub const BEGUN: u8 = 0;

const HEADED: u8 = 1;

const DECLARED: u8 = 2;

const PLACED: u8 = 3;

const METERED: u8 = 4;

const OPENED: u8 = 5;

const VALUED: u8 = 6;

const STRUCK: u8 = 7;

const PARTED: u8 = 8;

// The number of a place.
const SHOWN: u8 = 9;

const TOTALS: u8 = 10;

// A number of the house.
const SUMMED: u8 = 11;

/// The last line.
pub const ENDED: u8 = 12;

/// A word's row: the word, what it is, how far the file has come with it, and the forms of its fields.
type Row = (&'static str, Word, u8, &'static [Kind]);

const ROWS: [Row; 35] = [
    ("audit", Word::Audit, HEADED, &[Two, Month]),
    ("use", Word::Use, DECLARED, &[Use, Quantity]),
    ("as", Word::As, DECLARED, &[Any, Type, Why]),
    (
        "span",
        Word::Span,
        DECLARED,
        &[Whole, Day, Offset, Day, Offset],
    ),
    ("factor", Word::Factor, DECLARED, &[Any, Whole, Ratio]),
    ("co2", Word::Emissions, DECLARED, &[Any, Whole, Ratio]),
    ("degrees", Word::Degrees, DECLARED, &[Dash, Whole, Ratio]),
    ("price", Word::Price, DECLARED, &[Any, Any, Whole, Ratio]),
    (
        "average",
        Word::Average,
        DECLARED,
        &[Any, Any, Whole, Ratio],
    ),
    ("user", Word::User, DECLARED, &[Whole, Flat, PositiveOrNone]),
    ("place", Word::Place, PLACED, &[Whole, Flat, Any, Positive]),
    (
        "meter",
        Word::Meter,
        METERED,
        &[
            Whole,
            Identity,
            Whole,
            WholeOrNone,
            WholeOrNone,
            WholeOrNone,
            Vib,
        ],
    ),
    ("window", Word::Window, OPENED, &[Whole]),
    ("read", Word::Read, VALUED, &[Whole, Whole, Bodies]),
    (
        "stored",
        Word::Stored,
        VALUED,
        &[Whole, Day, Offset, Bodies],
    ),
    ("ended", Word::Ended, VALUED, &[Whole, Day, Offset, Bodies]),
    ("zero", Word::Zero, VALUED, &[Whole]),
    ("hand", Word::Hand, VALUED, &[Whole, Whole, Decimal, Any]),
    (
        "estimated",
        Word::Estimated,
        VALUED,
        &[Whole, Whole, Decimal, Any],
    ),
    ("first", Word::First, VALUED, &[Whole, Decimal, Any, How]),
    ("last", Word::Last, VALUED, &[Whole, Decimal, Any, How]),
    ("struck", Word::Struck, STRUCK, &[Whole, Whole, Why]),
    (
        "part",
        Word::Part,
        PARTED,
        &[Whole, Whole, Whole, WholeOrNone],
    ),
    (
        "shown",
        Word::Shown,
        SHOWN,
        &[Whole, Whole, Whole, Any, Text, Beside],
    ),
    ("value", Word::Value, SHOWN, &[Whole, Whole, Exact, Any]),
    ("totals", Word::Totals, TOTALS, &[]),
    (
        "of_user",
        Word::OfUser,
        SUMMED,
        &[Whole, Whole, Any, Any, Text, Beside],
    ),
    (
        "of_flat",
        Word::OfFlat,
        SUMMED,
        &[Whole, Any, Any, Any, Text, Beside],
    ),
    (
        "of_house",
        Word::OfHouse,
        SUMMED,
        &[Whole, Any, Any, Text, Beside, Beside],
    ),
    ("mean", Word::Mean, SUMMED, &[Whole, Whole, Any, Any, Text]),
    (
        "change",
        Word::Change,
        SUMMED,
        &[Whole, Whole, Whole, Any, Any, Text],
    ),
    (
        "weather",
        Word::Weather,
        SUMMED,
        &[Whole, Whole, Whole, Any, Text],
    ),
    ("carbon", Word::Carbon, SUMMED, &[Whole, Whole, Any, Text]),
    ("cost", Word::Cost, SUMMED, &[Whole, Whole, Any, Any, Text]),
    ("end", Word::End, ENDED, &[]),
];

// Most fields after a word; bodies are one.
const MOST_FIELDS: usize = 7;

/// What a line says: its fields after the word, and the numbers that they spell; where its text begins, if it has one.
#[derive(Clone, Copy)]
pub struct Line<'a> {
    pub word: Word,
    pub stage: u8,
    pub fields: [&'a [u8]; MOST_FIELDS],
    pub numbers: [Option<Spelled>; MOST_FIELDS],
    pub text: usize,
    pub asked: usize,
}

// The row of a word.
#[tactic(auto, unfolding(crate::specs::Line::rules))]
fn row_of(word: &[u8]) -> Option<Row>
    ensures { option_map (λ r. rule_of r.0.now r.1 r.2 r.3.now) result ≡ find (λ r. bytes_eq word.now r.word) rules }
{
    let mut rows: &[Row] = &ROWS;
    'rows: while let [row, rest @ ..] = rows {
        if is_word(word, row.0) {
            return Some(*row);
        }
        rows = rest;
    }
    None
}

// The field of a form that a text begins with, and the rest of the text.
fn field_of(kind: Kind, text: &[u8]) -> (&[u8], Option<&[u8]>)
    ensures field { result.0.now ≡ field_of kind (fields_of text.now) }
    ensures rest { left_fields (option_map (λ s. s.now) result.1) ≡ rest_of kind (fields_of text.now) }
{
    match kind {
        Bodies => (text, None),
        _ => first_field(text),
    }
}

impl<'a> Line<'a> {
    /// What a line says.
    ///
    /// # Errors
    /// [`AuditFault::Row`] where the word has no row, or a field isn't of its form.
    pub fn read(line: &'a [u8]) -> Result<Line<'a>, AuditFault>
        ensures found { IfOk result (IsLine line.now) }
        ensures bounded { IfOk result (λ l. IsBounded l.word l) }
        ensures only { IfErr result (λ f. (l : Line) → IsLine line.now l → ⊥) }
    {
        let (word, rest) = first_field(line);
        let Some((_, word, stage, kinds)) = row_of(word) else {
            return Err(AuditFault::Row);
        };
        let mut it = Line {
            word,
            stage,
            fields: [&[]; MOST_FIELDS],
            numbers: [None; MOST_FIELDS],
            text: kinds
                .iter()
                .position(|kind| matches!(kind, Text | Exact))
                .unwrap_or(0),
            asked: 0,
        };
        match it.read_fields(kinds, rest, line.len()) {
            Ok(()) => Ok(it),
            Err(fault) => Err(fault),
        }
    }

    // Reads what follows the word of a line of this length.
    fn read_fields(
        &mut self,
        kinds: &[Kind],
        mut rest: Option<&'a [u8]>,
        len: usize,
    ) -> Result<(), AuditFault>
        requires few { length kinds.now ≤ 7 }
        requires blank { AreBlank (map (λ f. f.now) self.old.fields) self.old.numbers }
        ensures found { IfOk result (λ u. AreRead kinds.now (left_fields (option_map (λ s. s.now) rest.entry))
            (map (λ f. f.now) self.new.fields) self.new.numbers) }
        ensures places { IfOk result (λ u. (length self.new.fields ≡ 7) × (length self.new.numbers ≡ 7)) }
        ensures kept { (self.new.word ≡ self.old.word) × (self.new.stage ≡ self.old.stage)
            × (self.new.text ≡ self.old.text) }
        ensures only { IfErr result (λ f. (fields : Fields) (numbers : List (Option Spelled))
            → AreRead kinds.now (left_fields (option_map (λ s. s.now) rest.entry)) fields numbers → ⊥) }
    {
        'fields: for (i, kind) in kinds.iter().enumerate() {
            let Some(left) = rest else {
                return Err(AuditFault::Row);
            };
            let at = len.saturating_sub(left.len()).saturating_sub(1);
            self.asked = if i == self.text { at } else { self.asked };
            let (field, after) = field_of(*kind, left);
            let Some(number) = kind.read(field) else {
                return Err(AuditFault::Row);
            };
            self.numbers[i] = number;
            self.fields[i] = field;
            rest = after;
        }
        if rest.is_some() {
            return Err(AuditFault::Row);
        }
        Ok(())
    }

    /// The number at a place, where one is spelled.
    pub fn maybe(&self, place: usize) -> Option<u64>
        requires { place < 7 }
        ensures { result ≡ maybe_at place self.now }
    {
        match self.numbers[place] {
            Some(spelled) => Some(spelled.digits),
            None => None,
        }
    }

    /// The number at a place; 0 where none is spelled.
    pub fn number(&self, place: usize) -> u64
        requires { place < 7 }
        ensures { result ≡ number_at place self.now }
    {
        self.maybe(place).unwrap_or(0)
    }

    /// The end of the day at a place, whose offset is in the next one.
    pub fn day_end(&self, place: usize) -> DayEnd<'a>
        requires { place < 6 }
        ensures day { number_at place self.now < 2 ^ 32 → result.day ≡ number_at place self.now }
        ensures offset { number_at (place + 1) self.now < 2 ^ 16 → result.offset ≡ number_at (place + 1) self.now }
    {
        DayEnd {
            day: self.number(place).min(u64::from(u32::MAX)) as u32,
            offset: self.number(place + 1).min(u64::from(u16::MAX)) as u16,
            spelled: (self.fields[place], self.fields[place + 1]),
        }
    }
}

/// Whether a line of the next stage may follow one of the last.
pub fn may_follow(next: u8, last: u8) -> bool
    ensures { result ≡ may_follow next last }
{
    let is_declaring = last == HEADED || last == DECLARED;
    let is_window = OPENED <= last && last <= SHOWN;
    let is_parted = last == PARTED || last == SHOWN;
    match next {
        HEADED => last == BEGUN,
        DECLARED => is_declaring,
        PLACED => last == DECLARED || last == METERED || is_window,
        METERED => last == PLACED || last == METERED,
        OPENED => last == METERED || (is_window && last != OPENED),
        VALUED | STRUCK => OPENED <= last && last <= STRUCK,
        PARTED => OPENED <= last && last <= PARTED,
        SHOWN => is_parted,
        TOTALS => is_declaring || last == METERED || is_parted,
        SUMMED | ENDED => last == TOTALS || last == SUMMED,
        _ => false,
    }
}

/// Whether a line is the header of version 2.
pub fn is_header(text: &[u8]) -> bool
    ensures { result ≡ is_header (fields_of text.now) }
{
    let (word, after) = first_field(text);
    let Some(rest) = after else {
        return false;
    };
    let (version, after) = first_field(rest);
    let Some(label) = after else {
        return false;
    };
    let (_, rest) = first_field(label);
    if !is_word(word, "audit") {
        return false;
    }
    if !is_word(version, "2") {
        return false;
    }
    rest.is_none()
}

/// Whether a line is that of a number, and one of its fields has a question mark.
pub fn is_asked(line: &Line<'_>) -> bool
    ensures { result ≡ is_asked line.now }
{
    let is_number = line.stage == SHOWN || line.stage == SUMMED;
    is_number && line.fields.iter().any(|field| field.contains(&b'?'))
}

/// Where the use stands in a line of a number of the house.
pub fn use_place(word: Word) -> usize
    ensures place { result ≡ use_place word }
    ensures within { (1 ≤ result) × (result ≤ 3) }
{
    match word {
        Word::OfHouse => 1,
        Word::Change | Word::Weather => 3,
        _ => 2,
    }
}

/// Whether a text ends with a line feed.
pub fn is_fed(text: &[u8]) -> bool
    ensures { IsTrue result ↔ ((front : List ℕ) × (text.now ≡ front ++ 10 ∷ [])) }
{
    match text.last() {
        Some(last) => *last == b'\n',
        None => false,
    }
}
