//! The third walk: whether each published number and its mark are the defined ones.

ghost use Rattle.std.specs.Prelude.{◌≡◌, ◌↔◌, ◌<◌, ◌≤◌, ◌+◌, ◌∷◌, ◌==◌, ◌||◌, ℕ, [], true, false, min, decimal, All};
ghost use Rattle.std.specs.Prelude.{AllPairs, Contains, IfErr, IfOk, IsTrue, None, OnOk, Some, codes, fold, map};
ghost use Rattle.std.specs.Prelude.{slice_get};
ghost use Rattle.std.specs.Str.{bytes_eq};
ghost use Rattle.dc_units.specs.Text.{decimal_text};
ghost use Rattle.mbdc_audit.specs.Consumption.Order.{IsInOrder};
ghost use Rattle.mbdc_audit.specs.Amount.{entries, is_same, known};
ghost use Rattle.mbdc_audit.specs.declared.exact.Exact.{Exact};
ghost use Rattle.mbdc_audit.specs.Exact.{FitsRounded};
ghost use Rattle.mbdc_audit.specs.File.{AsksNothing, all_opened};
ghost use Rattle.mbdc_audit.specs.Grade.{grade_name};
ghost use Rattle.mbdc_audit.specs.House.{Span};
ghost use Rattle.mbdc_audit.specs.Published.{IsNumber, IsNumberOf, IsPeriod, IsShown, IsValueOf, MayAsk, MayAskOf};
ghost use Rattle.mbdc_audit.specs.Published.{Open, Suffice, cuts, of_text, printed, rounded, share_of, shown_of};
ghost use Rattle.mbdc_audit.specs.Published.{worst as worst_share};
ghost use Rattle.mbdc_audit.specs.Sound.{After, IsHouse, IsPlace, IsWindow, Tile, from, to};
ghost use Rattle.mbdc_audit.specs.Judged.{IsFine, are_said, found_at, is_said, is_text_said};
ghost use Rattle.mbdc_audit.specs.View.{beside_count, house_of, key_of, known_in, number_of, place_of, window_of};
ghost use Rattle.mbdc_audit.specs.Walk.{AreFound, AreGradedAll, Checks, IsGradedPlace, IsHeld, IsQuiet, Sure};
ghost use Rattle.mbdc_audit.specs.Walk.{decimal_or_dash, is_clean, open_of, texts_beside};

use crate::curve::amount_of;
use crate::exact::Exact;
use crate::fault::{AuditFault, Stop};
use crate::field::{first_field, is_word};
use crate::grade::Grade;
use crate::house::{House, Number, Place, Value, Window};
use crate::line::Word;
use crate::smallest::{MOST_VALUE_DECIMALS, decimal_in, first_point, of_spelled};
use crate::teller::Piece::{Number as Count, Text};
use crate::teller::{Teller, put_pieces};
use crate::totals::Sums;
use crate::uses::Unit;
use dc_units::{Decimal, TEXT_ROOM, Value as Written};
use mbdc_io::{IoFault, Sink};
use std::alloc::Allocator;

// Most decimals of a number.
const MOST_DECIMALS: usize = 3;

// The least number that needs no decimals.
const HUNDRED: u128 = 100;

/// Whose parts a number sums: a user's, a flat's or the whole house's.
#[derive(Clone, Copy)]
pub enum Holder<'a> {
    User(u64),
    Flat(&'a [u8]),
    House,
}

/// The sum of a holder's parts: of the windows whose parts have numbers, plain and times the weights of their places;
/// the worst mark; how many windows there are, and how many lack a number.
#[derive(Clone, Copy)]
pub struct Total {
    pub plain: u128,
    pub weighted: u128,
    pub grade: Grade,
    pub count: u64,
    pub without: u64,
}

/// What comparable flats consumed of a use in a span, their areas, and how many they are.
#[derive(Clone, Copy)]
pub struct Basis {
    pub span: u64,
    pub used: u64,
    pub sum: Total,
    pub areas: u128,
    pub count: u64,
}

/// What is beside a text: nothing, a mark, or of the house how many places have no number, and how many there are.
#[derive(Clone, Copy)]
pub enum Beside {
    Nothing,
    Mark(Grade),
    Counts(u64, u64),
}

/// What holds of a number, exactly.
pub(crate) type Holds = (Option<Exact>, Beside);

impl<'a, A: Allocator + Copy> House<'a, A> {
    // The amount that a place consumed in a period, and its mark.
    fn shown(
        &self,
        alloc: A,
        place: &Place<'a, A>,
        window: &Window<'a, A>,
        number: &Number<'_>,
    ) -> Result<Holds, Stop>
        ensures { let o = open_of (place_of place.now) (window_of window.now) in
            known_in window.now.values.items ≡ known o.window.values
            → IsInOrder (entries o.place.runs (known o.window.values)) → number.now.from ≤ number.now.to
            → IfOk result (λ x. (x.0 ≡ shown_of (house_of self.now) o (key_of number.now))
            × (texts_beside x.1 ≡ grade_name (worst_share (share_of o (key_of number.now))) ∷ [])) }
    {
        let (runs, values) = (place.runs.as_slice(), window.values.as_slice());
        let amount = amount_of(alloc, runs, values, number.from, number.to)?;
        let beside = Beside::Mark(amount.grade);
        let Some(plain) = amount.amount else {
            return Ok((None, beside));
        };
        let sums = (
            u128::from(plain),
            u128::from(plain) * u128::from(place.weight),
        );
        let exact = self.exact(sums, window.span, place.used, number.unit)?;
        Ok((Some(exact), beside))
    }
}

// Whether a part or a run begins or ends at a moment.
fn is_cut<A: Allocator + Copy>(place: &Place<'_, A>, window: &Window<'_, A>, moment: u64) -> bool
    ensures { IsTrue result ↔ Contains (cuts (open_of (place_of place.now) (window_of window.now))) moment }
{
    let by_part = window
        .parts
        .iter()
        .any(|part| part.from == moment || part.to == moment);
    let by_run = place
        .runs
        .iter()
        .any(|run| run.begin == moment || run.end == Some(moment));
    by_part || by_run
}

// Whether a period is of whole parts or runs, within the parts.
fn is_period<A: Allocator + Copy>(
    place: &Place<'_, A>,
    window: &Window<'_, A>,
    number: &Number<'_>,
) -> bool
    ensures { (s : Span)
        → Tile (from (place_of place.now) s) (to (place_of place.now) s) (window_of window.now).parts → (IsTrue result
        ↔ IsPeriod s number.now.from number.now.to (open_of (place_of place.now) (window_of window.now))) }
{
    let Some(first) = window.parts.first() else {
        return false;
    };
    let Some(last) = window.parts.last() else {
        return false;
    };
    if !is_cut(place, window, number.from) {
        return false;
    }
    if !is_cut(place, window, number.to) {
        return false;
    }
    first.from <= number.from && number.from < number.to && number.to <= last.to
}

// Whether a number of decimals suffices for a number.
fn suffice(number: &Number<'_>, decimals: usize, exact: &Exact) -> bool
    ensures { decimals ≤ 3 → (IsTrue result ↔ Suffice number.now.word number.now.unit (Some exact.now) decimals) }
{
    let least = match (number.word, number.unit) {
        (Word::Change, _) => 0,
        (Word::Cost, _) => return decimals == 2,
        (Word::Carbon, _) => return decimals > 0,
        (_, Unit::Kwh | Unit::Allocated) => 1,
        (_, Unit::CubicMetre) => 2,
        (_, Unit::Count | Unit::Smallest) => 0,
    };
    let is_hundred = exact.num / HUNDRED >= exact.den;
    decimals >= least || (decimals == 0 && is_hundred)
}

// A number rounded half away from zero to this many decimals.
fn printed(exact: &Exact, decimals: usize) -> Result<Decimal, AuditFault>
    ensures ok { IfOk result (λ d. d ≡ rounded exact.now (min decimals 9)) }
    ensures err { IfErr result (λ f. FitsRounded exact.now.num exact.now.den (min decimals 9) → exact.now.den ≡ 0) }
{
    let decimals = decimals.min(MOST_VALUE_DECIMALS) as u32;
    if exact.den == 0 {
        return Err(AuditFault::TooLarge);
    }
    let rounded = exact.rounded(decimals).ok_or(AuditFault::TooLarge)? as i64;
    Ok(Decimal {
        mantissa: if exact.is_negative { -rounded } else { rounded },
        exponent: -(decimals as i8),
    })
}

// The last value of a run, from 1, at a moment that has evidence.
fn found_at(run: u64, moment: u64, values: &[Value<'_>]) -> Option<u64>
    ensures { result ≡ fold (found_at run moment) None values.now }
{
    let mut found = None;
    'values: for value in values {
        if let Ok(amount) = value.found
            && Some(value.run) == run.checked_sub(1)
            && value.moment == moment
        {
            found = Some(amount);
        }
    }
    found
}

// Whether a text spells the value that is found in units of a size, or is to be filled in.
fn is_value(text: &[u8], size: u64, found: Option<u64>) -> bool
    ensures { result ≡ (bytes_eq text.now (codes "?") || is_same (of_text size text.now) found) }
{
    let published = match decimal_in(text, MOST_VALUE_DECIMALS) {
        Some(spelled) => of_spelled(spelled, size),
        None => None,
    };
    let is_same = published.is_some() && published == found;
    is_word(text, "?") || is_same
}

// A value in units of a size, with as many decimals as it needs and fit.
fn value_text(amount: u64, size: u64) -> Result<Decimal, AuditFault> {
    let exact = Exact {
        is_negative: false,
        num: u128::from(amount),
        den: u128::from(size.max(1)),
    };
    let mut found = printed(&exact, 0)?;
    'decimals: for decimals in 1..10 {
        if let Ok(text) = printed(&exact, decimals)
            && text.mantissa % 10 != 0
        {
            found = text;
        }
    }
    Ok(found)
}

// The fields that say what holds: the text of a number, or a dash, and what is beside it.
fn texts_of<A: Allocator + Copy>(
    alloc: A,
    text: Option<Decimal>,
    beside: Beside,
) -> Result<Vec<Vec<u8, A>, A>, Stop>
    ensures { IfOk result (λ t. map (λ f. f.items) t.items ≡ decimal_or_dash text ∷ texts_beside beside) }
{
    let mut texts: Vec<Vec<u8, A>, A> = Vec::new(alloc);
    let mut room = [0u8; TEXT_ROOM];
    let text = match text {
        Some(decimal) => Vec::from_slice(alloc, Written::Number(decimal).write_into(&mut room))?,
        None => Vec::from_slice(alloc, b"-")?,
    };
    texts.push(text)?;
    match beside {
        Beside::Nothing => {}
        Beside::Mark(grade) => texts.push(Vec::from_slice(alloc, grade.told().0.as_bytes())?)?,
        Beside::Counts(without, count) => {
            texts.push(format!(in alloc; "{without}")?.into_bytes())?;
            texts.push(format!(in alloc; "{count}")?.into_bytes())?;
        }
    }
    Ok(texts)
}

// How many decimals a text has: at most three.
fn decimals_in(text: &[u8]) -> usize
    ensures few { result ≤ 3 }
    ensures all { (x : Exact) → (d : ℕ) → d ≤ 3 → text.now ≡ decimal_text (rounded x d) → result ≡ d }
{
    let Some(point) = first_point(text) else {
        return 0;
    };
    let decimals = text.len().saturating_sub(point).saturating_sub(1);
    if decimals <= MOST_DECIMALS {
        decimals
    } else {
        0
    }
}

// Whether a text is what holds, or is to be filled in.
fn is_text_said(said: &[u8], text: &[u8]) -> bool
    ensures { result ≡ is_text_said said.now text.now }
{
    match said {
        [b'?', ..] => true,
        _ => said == text,
    }
}

// Whether each field says what holds, or asks for it.
fn are_said<A: Allocator + Copy>(said: &[&[u8]], held: &[Vec<u8, A>]) -> bool
    ensures { result ≡ are_said (map (λ f. f.now) said.now) (map (λ t. t.items) held.now) }
{
    let [field, fields @ ..] = said else {
        return held.is_empty();
    };
    let [text, texts @ ..] = held else {
        return false;
    };
    let is_said = *field == text.as_slice();
    let is_asked = is_word(field, "?");
    let are_said = are_said(fields, texts);
    (is_asked || is_said) && are_said
}

// How many fields are beside a number's text.
fn beside_count(word: Word) -> usize
    ensures count { result ≡ beside_count word }
    ensures few { result ≤ 2 }
{
    match word {
        Word::Shown | Word::OfUser | Word::OfFlat => 1,
        Word::OfHouse => 2,
        _ => 0,
    }
}

// Whether what is published is what holds, or is asked for.
fn is_held<A: Allocator + Copy>(number: &Number<'_>, held: &[Vec<u8, A>]) -> bool
    ensures { result ≡ is_said (number_of number.now) (map (λ t. t.items) held.now) }
{
    let [text, beside @ ..] = held else {
        return false;
    };
    let is_text = is_text_said(number.said[0], text.as_slice());
    let count = beside_count(number.word);
    let are_beside = are_said(&number.said[1..1 + count], beside);
    is_text && are_beside
}

/// Writes the filled file: each `?` is replaced by the defined text.
#[derive(Drop)]
pub(crate) struct Filler<'f, 'a, F: Sink> {
    pub may_ask: bool,
    pub out: &'f mut F,
    pub file: &'a [u8],
    pub done: usize,
}

impl<'f, 'a, F: Sink> Filler<'f, 'a, F> {
    // Writes the file up to a place.
    fn up_to(&mut self, place: usize) -> Result<(), IoFault> {
        if !self.may_ask {
            return Ok(());
        }
        let (front, _) = self.file.split_at(place.min(self.file.len()));
        let (_, front) = front.split_at(self.done.min(front.len()));
        self.done = place;
        self.out.put(front)
    }
}

// Writes texts, each after a blank.
fn put_held<W: Sink, A: Allocator + Copy>(
    out: &mut W,
    texts: &[Vec<u8, A>],
) -> Result<(), IoFault> {
    'texts: for text in texts {
        put_pieces(out, &[Text(b" "), Text(text.as_slice())])?;
    }
    Ok(())
}

// Writes what is published and what holds in its place.
fn put_differs<W: Sink, A: Allocator + Copy>(
    out: &mut W,
    number: &Number<'_>,
    held: &[Vec<u8, A>],
) -> Result<(), IoFault> {
    let (word, asked) = first_field(number.asked);
    let words = [
        Text(b"DIFFERS line "),
        Count(number.line),
        Text(b": "),
        Text(word),
        Text(b" "),
        Text(asked.unwrap_or(&[])),
        Text(b": published"),
    ];
    put_pieces(out, &words)?;
    let (said, _) = number.said.split_at(held.len().min(number.said.len()));
    'said: for field in said {
        put_pieces(out, &[Text(b" "), Text(field)])?;
    }
    out.put(b", computed")?;
    put_held(out, held)?;
    out.put(b"\n")
}

impl<'s, W: Sink> Teller<'s, W> {
    // Counts a number, prints it where it differs, and fills it in.
    fn end_number<A: Allocator + Copy, F: Sink>(
        &mut self,
        number: &Number<'_>,
        held: &[Vec<u8, A>],
        is_right: bool,
        filler: &mut Filler<'_, '_, F>,
    ) -> Result<(), Stop>
        ensures { Checks result self.old.counts self.new.counts (is_right ≡ true) }
    {
        self.counts.numbers = self.counts.numbers.saturating_add(1);
        let mut at = number.at;
        'fields: for (said, text) in number.said.iter().zip(held.iter()) {
            if filler.may_ask && matches!(*said, [b'?', ..]) {
                filler.up_to(at)?;
                filler.out.put(text.as_slice())?;
                filler.done = at.saturating_add(said.len());
            }
            at = at.saturating_add(said.len() + 1);
        }
        if is_right {
            return Ok(());
        }
        self.counts.differ = self.counts.differ.saturating_add(1);
        put_differs(self.out, number, held)?;
        Ok(())
    }

    // The text of what holds with these decimals; prints where they are too few.
    fn judge_decimals(
        &mut self,
        number: &Number<'_>,
        decimals: usize,
        exact: Option<Exact>,
    ) -> Result<Option<Decimal>, Stop>
        requires { decimals ≤ 3 }
        ensures text { IfOk result (λ t. decimal_or_dash t ≡ printed decimals exact) }
        ensures fine { Checks result self.old.counts self.new.counts (IsFine (number_of number.now) decimals exact) }
    {
        let Some(exact) = exact else {
            return Ok(None);
        };
        let text = printed(&exact, decimals)?;
        if is_word(number.said[0], "-") {
            return Ok(Some(text));
        }
        if suffice(number, decimals, &exact) {
            return Ok(Some(text));
        }
        let words = [Count(decimals as u64), Text(b" decimals")];
        self.rule(number.line, "Decimals", &words)?;
        Ok(Some(text))
    }

    // Checks a number against what holds, and prints where it differs or has too few decimals.
    fn judge<A: Allocator + Copy, F: Sink>(
        &mut self,
        alloc: A,
        number: &Number<'_>,
        holds: Holds,
        filler: &mut Filler<'_, '_, F>,
    ) -> Result<(), Stop>
        ensures right { AsksNothing (number_of number.now) → Checks result self.old.counts self.new.counts
            (IsHeld (number_of number.now) holds.0 (texts_beside holds.1)) }
        ensures kept { OnOk result (IsTrue (is_clean self.new.counts) → IsTrue (is_clean self.old.counts)) }
    {
        let decimals = decimals_in(number.said[0]);
        let text = self.judge_decimals(number, decimals, holds.0)?;
        let held = texts_of(alloc, text, holds.1)?;
        let is_right = is_held(number, held.as_slice());
        self.end_number(number, held.as_slice(), is_right, filler)
    }

    // Checks a number that shows a run's value: the last one of the window at that moment.
    fn judge_value<A: Allocator + Copy, F: Sink>(
        &mut self,
        alloc: A,
        window: &Window<'_, A>,
        number: &Number<'_>,
        filler: &mut Filler<'_, '_, F>,
    ) -> Result<(), Stop>
        ensures right { AsksNothing (number_of number.now) → AreFound window.now.values.items
            → AllPairs After (window_of window.now).values
            → (o : Open) → o.window.values ≡ (window_of window.now).values
            → Checks result self.old.counts self.new.counts (IsValueOf o (number_of number.now)) }
        ensures kept { OnOk result (IsTrue (is_clean self.new.counts) → IsTrue (is_clean self.old.counts)) }
    {
        let found = found_at(number.from, number.to, window.values.as_slice());
        let is_right = is_value(number.said[0], number.size, found);
        let text = match found {
            Some(amount) => Some(value_text(amount, number.size)?),
            None => None,
        };
        let held = texts_of(alloc, text, Beside::Nothing)?;
        self.end_number(number, held.as_slice(), is_right, filler)
    }

    // Checks a number of what a place consumed in a period: its period, and its text and mark.
    fn judge_shown<'a, A: Allocator + Copy, F: Sink>(
        &mut self,
        alloc: A,
        house: &House<'a, A>,
        place: &Place<'a, A>,
        window: &Window<'a, A>,
        number: &Number<'a>,
        filler: &mut Filler<'_, '_, F>,
    ) -> Result<(), Stop>
        ensures right { let o = open_of (place_of place.now) (window_of window.now) in
            (s : Span) → slice_get (house_of house.now).spans window.now.span ≡ Some s
            → IsWindow (house_of house.now) o.place o.window s
            → known_in window.now.values.items ≡ known o.window.values
            → AsksNothing (number_of number.now)
            → Checks result self.old.counts self.new.counts (IsShown (house_of house.now) o (number_of number.now)
            × ((number_of number.now).beside ≡ grade_name (worst_share (share_of o (key_of number.now))) ∷ [])) }
        ensures kept { OnOk result (IsTrue (is_clean self.new.counts) → IsTrue (is_clean self.old.counts)) }
    {
        if !is_period(place, window, number) {
            let words = Text(b"not of whole parts or meters");
            self.rule(number.line, "Part", &[words])?;
            let missing = (None, Beside::Mark(Grade::Missing));
            return self.judge(alloc, number, missing, filler);
        }
        let holds = house.shown(alloc, place, window, number)?;
        self.judge(alloc, number, holds, filler)
    }

    // Checks the numbers of a window.
    fn judge_window<'a, A: Allocator + Copy, F: Sink>(
        &mut self,
        alloc: A,
        house: &House<'a, A>,
        place: &Place<'a, A>,
        window: &Window<'a, A>,
        filler: &mut Filler<'_, '_, F>,
    ) -> Result<(), Stop>
        ensures right { let o = open_of (place_of place.now) (window_of window.now) in
            (s : Span) → slice_get (house_of house.now).spans window.now.span ≡ Some s
            → IsWindow (house_of house.now) o.place o.window s
            → known_in window.now.values.items ≡ known o.window.values
            → All (λ n. MayAskOf (house_of house.now) o.place o.window n.key) o.window.numbers
            → Sure result self.old.counts self.new.counts (All AsksNothing o.window.numbers)
            (All (λ n. AsksNothing n → IsNumberOf (house_of house.now) o n) o.window.numbers) }
    {
        'numbers: for number in &window.numbers {
            let Word::Value = number.word else {
                self.judge_shown(alloc, house, place, window, number, filler)?;
                continue;
            };
            self.judge_value(alloc, window, number, filler)?;
        }
        Ok(())
    }

    // Checks the numbers of a place's windows.
    fn judge_place<'a, A: Allocator + Copy, F: Sink>(
        &mut self,
        alloc: A,
        house: &House<'a, A>,
        place: &Place<'a, A>,
        filler: &mut Filler<'_, '_, F>,
    ) -> Result<(), Stop>
        ensures right { let h = house_of house.now in IsPlace h (place_of place.now) → IsGradedPlace place.now
            → All (λ w. All (λ n. MayAskOf h (place_of place.now) w n.key) w.numbers) (place_of place.now).windows
            → Sure result self.old.counts self.new.counts
            (All (λ w. All AsksNothing w.numbers) (place_of place.now).windows) (All (λ w. All (λ n. AsksNothing n
            → IsNumberOf h (open_of (place_of place.now) w) n) w.numbers) (place_of place.now).windows) }
    {
        'windows: for window in &place.windows {
            self.judge_window(alloc, house, place, window, filler)?;
        }
        Ok(())
    }

    // Checks the sums, and what is computed from them.
    fn judge_sums<'a, A: Allocator + Copy, F: Sink>(
        &mut self,
        alloc: A,
        house: &House<'a, A>,
        filler: &mut Filler<'_, '_, F>,
    ) -> Result<(), Stop>
        ensures right { let h = house_of house.now in IsHouse h → AreGradedAll house.now.places.items
            → All (λ n. MayAsk h n.key) h.numbers
            → Sure result self.old.counts self.new.counts (All AsksNothing h.numbers)
            (All (λ n. AsksNothing n → IsNumber h n) h.numbers) }
    {
        let sums = Sums::of(alloc, house, self.counts.rules == 0)?;
        let mut bases: Vec<Basis, A> = Vec::new(alloc);
        'numbers: for number in &house.numbers {
            let holds = sums.holds(number, &mut bases)?;
            self.judge(alloc, number, holds, filler)?;
        }
        Ok(())
    }

    /// Checks the numbers of a house, and prints those that differ.
    pub fn check_numbers<'a, A: Allocator + Copy, F: Sink>(
        &mut self,
        alloc: A,
        house: &House<'a, A>,
        filler: &mut Filler<'_, '_, F>,
    ) -> Result<(), Stop>
        ensures right { let h = house_of house.now in IsHouse h → AreGradedAll house.now.places.items
            → All (λ o. All (λ n. MayAskOf h o.place o.window n.key) o.window.numbers) (all_opened h)
            → All (λ n. MayAsk h n.key) h.numbers
            → Sure result self.old.counts self.new.counts (IsQuiet h)
            (All (λ o. All (λ n. AsksNothing n → IsNumberOf h o n) o.window.numbers) (all_opened h)
            × All (λ n. AsksNothing n → IsNumber h n) h.numbers) }
    {
        'places: for place in &house.places {
            self.judge_place(alloc, house, place, filler)?;
        }
        self.judge_sums(alloc, house, filler)?;
        filler.up_to(filler.file.len())?;
        Ok(())
    }
}
