//! The first walk: whether the file spells a sound house. Each check prints what breaks its rule.

ghost use Rattle.std.specs.Prelude.{◌≡◌, ◌↔◌, ◌⊎◌, ◌<◌, ◌≤◌, ◌+◌, ◌-◌, ◌%◌, ◌==◌, ◌∷◌, [], All, AllPairs, Any};
ghost use Rattle.std.specs.Prelude.{Contains, IfSome, IsSome, IsTrue, OnOk};
ghost use Rattle.std.specs.Prelude.{ℕ, Some, filter, flat_map, length, map, option_to_list, slice_get};
ghost use Rattle.std.specs.BTreeMap.{get};
ghost use Rattle.std.specs.Ordering.{nat_cmp};
ghost use Rattle.mbdc_audit.specs.declared.uses.Counted.TheVariants.{Allocation};
ghost use Rattle.mbdc_audit.specs.Amount.{deciding};
ghost use Rattle.mbdc_audit.specs.File.{all_numbers};
ghost use Rattle.mbdc_audit.specs.House.{Span as SaidSpan, at};
ghost use Rattle.mbdc_audit.specs.Sound.{AreAlike, AreNear, AreOneCurve, AreParts, AreRuns, AreSpans, AreTimed};
ghost use Rattle.mbdc_audit.specs.Sound.{IfAnew, IsAnew, IsBuilt, IsHouse, IsLabel, IsOfEnd, IsOnce};
ghost use Rattle.mbdc_audit.specs.Sound.{IsOneCurve, IsOneTenancy, IsOver, IsPlace, IsReadPlace};
ghost use Rattle.mbdc_audit.specs.Sound.{IsSpanned, IsSpannedBy, IsTimed, IsType, IsUntil, IsWindow};
ghost use Rattle.mbdc_audit.specs.Sound.{ends_in, ends_of, ends_of_place, ends_of_spans, fitted, from, lived, to};
ghost use Rattle.mbdc_audit.specs.View.{end_of, house_of, place_of, run_of, seen_value, source_of, span_of, window_of};
ghost use Rattle.mbdc_audit.specs.Curve.{IsCurve};
ghost use Rattle.mbdc_audit.specs.Walk.{AreFound, AreInOrder, Checks, Walks};

use crate::apart::Met;
use crate::curve::{Curve, Run};
use crate::fault::Stop;
use crate::house::{Allowed, House, Part, Place, Span, User, Value, Window};
use crate::line::Word;
use crate::moment::{DayEnd, WEEK, is_after};
use crate::smallest::OF_RATIO;
use crate::teller::Piece::{Number, Text};
use crate::teller::Teller;
use crate::uses::{Counted, is_type};
use dc_units::Date;
use mbdc_io::{IoFault, Sink};
use std::alloc::Allocator;
use std::collections::BTreeMap;

// Most minutes of an offset from UTC.
const MOST_MINUTES: u16 = 840;

// Offsets of a value and its span are at most an hour apart.
const NEAR_MINUTES: u16 = 60;

/// Whether two runs are of one meter.
pub(crate) fn is_one_meter(one: &Run<'_>, other: &Run<'_>) -> bool
    ensures { IsTrue result ↔ (one.now.identity ≡ other.now.identity) }
{
    one.identity == other.identity
}

// Whether a label is the month of the day after this one.
fn is_label(label: &[u8], day: u32) -> bool
    ensures { IsTrue result ↔ IsLabel label.now day }
{
    let mut text = *b"0000-00-01";
    if label.len() != 7 {
        return false;
    }
    text[..7].copy_from_slice(label);
    let Some(first) = Date::parse_text(&text) else {
        return false;
    };
    'days: for number in 1..100 {
        if is_after(Date::new(first.year(), first.month(), number), day) {
            return true;
        }
    }
    false
}

// Whether a span ends last, and a label is the month in which it begins.
fn is_month(label: &[u8], spans: &[Span<'_>], span: &Span<'_>) -> bool
    ensures { IsTrue result ↔ (All (λ x. at (span_of x).to ≤ at (span_of span.now).to) spans.now
        × IsLabel label.now (span_of span.now).from.day) }
{
    let end = span.to.moment();
    spans.iter().all(|other| other.to.moment() <= end) && is_label(label, span.from.day)
}

// Whether a label is the month in which a span begins that ends last.
fn is_labelled(label: &[u8], spans: &[Span<'_>]) -> bool
    ensures { IsTrue result ↔ Any (λ s. All (λ x. at (span_of x).to ≤ at (span_of s).to) spans.now
        × IsLabel label.now (span_of s).from.day) spans.now }
{
    spans.iter().any(|span| is_month(label, spans, span))
}

// Whether a span has time, and differs from those before it.
fn is_span(before: &[Span<'_>], span: &Span<'_>) -> bool
    ensures { let s = span_of span.now in IsTrue result ↔ ((at s.from < at s.to)
        × All (λ a. (at (span_of a).from ≡ at s.from) × (at (span_of a).to ≡ at s.to) → ⊥) before.now) }
{
    let (from, to) = (span.from.moment(), span.to.moment());
    from < to && before.iter().all(|other| other.from.moment() != from || other.to.moment() != to)
}

// Whether the users of a flat have its area.
fn is_one_flat(users: &[User<'_>], user: &User<'_>) -> bool
    ensures { IsTrue result ↔ All (λ a. a.flat.now ≡ user.now.flat.now → a.area ≡ user.now.area) users.now }
{
    users
        .iter()
        .all(|other| other.flat != user.flat || other.area == user.area)
}

// Whether a number is asked of places.
fn asks_of<A: Allocator + Copy>(places: &[Place<'_, A>]) -> bool
    ensures { IsTrue result ↔ Any (λ p. Any (λ w. 0 < length w.numbers.items) p.windows.items) places.now }
{
    'places: for place in places {
        let mut windows = place.windows.iter();
        if windows.any(|window| !window.numbers.as_slice().is_empty()) {
            return true;
        }
    }
    false
}

// Whether a run has time, after those before it.
fn is_after_all(before: &[Run<'_>], run: &Run<'_>) -> bool
    ensures { IsTrue result ↔ (((over : ℕ) → run.now.end ≡ Some over → run.now.begin < over)
        × All (λ a. IsOver a.end run.now.begin) before.now) }
{
    let has_time = match run.end {
        Some(end) => run.begin < end,
        None => true,
    };
    has_time && before.iter().all(|other| other.is_over(run.begin))
}

// Whether a run is of a type that counts a use.
fn is_counted(allowed: &[Allowed<'_>], used: u64, name: &[u8], run: &Run<'_>) -> bool
    ensures { IsTrue result ↔ (Any (λ a. (a.used ≡ used) × (a.kind ≡ run.now.identity.kind)) allowed.now
        ⊎ IsType name.now (run_of run.now)) }
{
    let kind = run.identity.kind;
    allowed
        .iter()
        .any(|allowed| allowed.used == used && allowed.kind == kind)
        || is_type(name, run)
}

// The end of the day at which a value is stored or ended.
fn day_of<'a>(value: &Value<'a>) -> Option<DayEnd<'a>>
    ensures { map end_of (option_to_list result) ≡ ends_in (source_of value.now) }
{
    match (value.word, value.end) {
        (Word::Stored | Word::Ended, Some(end)) => Some(end),
        (Word::Stored | Word::Ended, None) => Some(DayEnd {
            day: 0,
            offset: 0,
            spelled: (&[], &[]),
        }),
        _ => None,
    }
}

// Whether an offset is one of quarters of an hour, of at most 14 hours, and the one that its day had before.
fn agrees<A: Allocator + Copy>(offsets: &BTreeMap<u64, u16, A>, end: &DayEnd<'_>) -> bool
    ensures { let o = end.now.offset in IsTrue result ↔ (((9240 ≤ o) × (o ≤ 10920) × (o % 15 ≡ 0))
        × IfSome (get nat_cmp offsets.now end.now.day) (λ x. x ≡ o)) }
{
    if end.offset % 15 != 0 || end.offset.abs_diff(WEEK) > MOST_MINUTES {
        return false;
    }
    match offsets.get(&u64::from(end.day)) {
        Some(offset) => *offset == end.offset,
        None => true,
    }
}

// Whether an offset is at most an hour from that of an end of a span.
fn is_near_to(end: &DayEnd<'_>, span: &Span<'_>) -> bool
    ensures { IsTrue result ↔ (AreNear (end_of end.now) (span_of span.now).from
        ⊎ AreNear (end_of end.now) (span_of span.now).to) }
{
    end.offset.abs_diff(span.from.offset) <= NEAR_MINUTES
        || end.offset.abs_diff(span.to.offset) <= NEAR_MINUTES
}

// Whether a value that ended or is the last one lies at its run's end.
fn is_of_end(value: &Value<'_>, run: &Run<'_>) -> bool
    ensures { IsTrue result ↔ IsOfEnd (run_of run.now) (seen_value value.now) (source_of value.now) }
{
    match value.word {
        Word::Ended | Word::Last => run.end == Some(value.moment),
        _ => true,
    }
}

// Whether a value lies in its run's time.
fn lies_in(value: &Value<'_>, run: &Run<'_>) -> bool
    ensures { IsTrue result ↔ ((run.now.begin ≤ value.now.moment) × IsUntil value.now.moment run.now.end) }
{
    match run.end {
        Some(end) => run.begin <= value.moment && value.moment <= end,
        None => run.begin <= value.moment,
    }
}

// Whether a run is of the meter of another one, from its end on.
fn is_one_counter(old: &Run<'_>, new: &Run<'_>) -> bool
    ensures { IsTrue result ↔ ((old.now.identity ≡ new.now.identity) × (old.now.vib.now ≡ new.now.vib.now)
        × (old.now.end ≡ Some new.now.begin)) }
{
    is_one_meter(old, new) && old.vib == new.vib && old.end == Some(new.begin)
}

// Whether a counter began anew where a value says so: its run is of the meter of the run before.
fn is_restart(runs: &[Run<'_>], value: &Value<'_>) -> bool
    ensures { IsTrue result ↔ IfAnew (source_of value.now) (IsAnew (map run_of runs.now) (seen_value value.now)) }
{
    if !value.is_anew() {
        return true;
    }
    let Some(before) = value.run.checked_sub(1) else {
        return false;
    };
    let Some(old) = runs.get(before as usize) else {
        return false;
    };
    let Some(new) = runs.get(value.run as usize) else {
        return false;
    };
    is_one_counter(old, new)
}

// Whether a value is no earlier than the one before it, and of no earlier run at its moment.
fn is_next(before: &[Value<'_>], value: &Value<'_>) -> bool
    ensures { IsTrue result ↔ IfSome (slice_get before.now (length before.now - 1))
        (λ last. AreInOrder last value.now) }
{
    let Some(last) = before.last() else {
        return true;
    };
    last.moment < value.moment || (last.moment == value.moment && last.run <= value.run)
}

// Whether a user is of a flat.
fn is_user_of(users: &[User<'_>], flat: &[u8], user: Option<u64>) -> bool
    ensures { IsTrue result ↔ IfSome user (λ n. Any (λ u. (u.number ≡ n) × (u.flat.now ≡ flat.now)) users.now) }
{
    let Some(number) = user else {
        return true;
    };
    users
        .iter()
        .any(|user| user.number == number && user.flat == flat)
}

// Whether a part begins where the one before it ended, has time, and ends within a place's.
fn is_adjacent(part: &Part, reached: u64, end: u64) -> bool
    ensures { IsTrue result ↔ ((part.now.from ≡ reached) × (part.now.from < part.now.to) × (part.now.to ≤ end)) }
{
    part.from == reached && part.from < part.to && part.to <= end
}

// Number of windows of a span.
fn windows_of<A: Allocator + Copy>(windows: &[Window<'_, A>], span: u64) -> usize
    ensures { result ≡ length (filter (λ w. w.span == span) windows.now) }
{
    windows.iter().filter(|window| window.span == span).count()
}

// Whether a place has one window of a span in which it has a time, and else none.
fn is_spanned<A: Allocator + Copy>(place: &Place<'_, A>, number: u64, span: &Span<'_>) -> bool
    ensures { IsTrue result ↔ IsSpannedBy (place_of place.now) number (span_of span.now) }
{
    let (from, to) = place.reach(span);
    let count = windows_of(place.windows.as_slice(), number);
    if from < to { count == 1 } else { count == 0 }
}

// Whether a place has the weight 1, or is one of allocators.
fn is_weighed(counts: Counted, weight: u64) -> bool
    ensures { IsTrue result ↔ ((counts ≡ Allocation) ⊎ (weight ≡ 1000000)) }
{
    matches!(counts, Counted::Allocation) || weight == OF_RATIO
}

// Whether there is a place, and a number is asked of a house.
fn is_asked<A: Allocator + Copy>(house: &House<'_, A>) -> bool
    ensures { IsTrue result ↔ ((0 < length (house_of house.now).places)
        × (0 < length (all_numbers (house_of house.now)))) }
{
    let (places, numbers) = (house.places.as_slice(), house.numbers.as_slice());
    if places.is_empty() {
        return false;
    }
    !numbers.is_empty() || asks_of(places)
}

impl<'s, W: Sink> Teller<'s, W> {
    /// What is wrong with a house but for its numbers, by the values that have evidence.
    pub fn check_house<'a, A: Allocator + Copy>(
        &mut self,
        alloc: A,
        house: &House<'a, A>,
    ) -> Result<(), Stop>
        ensures { let h = house_of house.now in IsBuilt h → All (IsReadPlace h) h.places
            → All (λ p. All (λ w. AreFound w.values.items) p.windows.items) house.now.places.items
            → Checks result self.old.counts self.new.counts (IsHouse h × (0 < length (all_numbers h))) }
    {
        let mut offsets: BTreeMap<u64, u16, A> = BTreeMap::new(alloc);
        self.check_spans(house, &mut offsets)?;
        self.check_users(&house.users)?;
        self.check_places(alloc, house, &mut offsets)?;
        let words = [Text(b"no number is asked")];
        self.unless(is_asked(house), house.lines, "Empty", &words)?;
        Ok(())
    }

    // Checks that a day has one offset in the file.
    fn check_offset<'a, A: Allocator + Copy>(
        &mut self,
        line: u64,
        end: &DayEnd<'a>,
        offsets: &mut BTreeMap<u64, u16, A>,
    ) -> Result<(), Stop>
        ensures { OnOk result (Walks self.old.counts (get nat_cmp offsets.old) self.new.counts (get nat_cmp offsets.new)
            (end_of end.now ∷ []) (Unit {0})) }
    {
        let (day, offset) = end.spelled;
        let words = [Text(day), Text(b" has another offset than "), Text(offset)];
        self.unless(agrees(offsets, end), line, "Offset", &words)?;
        let _ = offsets.insert(u64::from(end.day), end.offset)?;
        Ok(())
    }

    // Checks that spans have time, that none is there twice, and that the label is the month of the last one.
    fn check_spans<'a, A: Allocator + Copy>(
        &mut self,
        house: &House<'a, A>,
        offsets: &mut BTreeMap<u64, u16, A>,
    ) -> Result<(), Stop>
        ensures { OnOk result (Walks self.old.counts (get nat_cmp offsets.old) self.new.counts (get nat_cmp offsets.new)
            (ends_of_spans (house_of house.now)) (AreSpans (house_of house.now))) }
    {
        let spans = house.spans.as_slice();
        'spans: for (i, span) in spans.iter().enumerate() {
            self.check_offset(span.line, &span.from, offsets)?;
            self.check_offset(span.line, &span.to, offsets)?;
            let words = [Text(b"it has no time, or is one before it")];
            self.unless(is_span(&spans[..i], span), span.line, "Span", &words)?;
        }
        let words = [Text(b"not the month in which the span that ends last begins")];
        self.unless(is_labelled(house.label, spans), 1, "Label", &words)?;
        Ok(())
    }

    // Checks that the users of a flat state one area.
    fn check_users(&mut self, users: &[User<'_>]) -> Result<(), Stop>
        ensures { Checks result self.old.counts self.new.counts
            (AllPairs (λ a b. a.flat.now ≡ b.flat.now → a.area ≡ b.area) users.now) }
    {
        'users: for (i, user) in users.iter().enumerate() {
            let words = [
                Text(b"the users of "),
                Text(user.flat),
                Text(b" have two areas"),
            ];
            self.unless(is_one_flat(&users[..i], user), user.line, "Tenancy", &words)?;
        }
        Ok(())
    }

    // Checks each place by itself and with those before it.
    fn check_places<'a, A: Allocator + Copy>(
        &mut self,
        alloc: A,
        house: &House<'a, A>,
        offsets: &mut BTreeMap<u64, u16, A>,
    ) -> Result<(), Stop>
        ensures { let h = house_of house.now in IsBuilt h
            → All (λ p. All (λ w. AreFound w.values.items) p.windows.items) house.now.places.items
            → OnOk result (Walks self.old.counts (get nat_cmp offsets.old) self.new.counts (get nat_cmp offsets.new)
            (flat_map ends_of_place h.places)
            (All (λ p. IsPlace h p × IsOneCurve h p) h.places
            × AllPairs IsOnce (fitted h) × AllPairs IsOneTenancy (lived h))) }
    {
        let (mut meters, mut parts) = (Met::new(alloc), Met::new(alloc));
        let places = house.places.as_slice();
        'places: for (i, place) in places.iter().enumerate() {
            self.check_place(house, place, i as u64 + 1, offsets)?;
            self.check_ends(alloc, house, place)?;
            self.check_meters(&mut meters, place, i as u64 + 1)?;
            self.check_tenancy(&mut parts, place, i as u64 + 1)?;
        }
        Ok(())
    }

    // Checks a place by itself: its weight, its runs, and its windows.
    fn check_place<'a, A: Allocator + Copy>(
        &mut self,
        house: &House<'a, A>,
        place: &Place<'a, A>,
        number: u64,
        offsets: &mut BTreeMap<u64, u16, A>,
    ) -> Result<(), Stop>
        ensures { let h = house_of house.now in let p = place_of place.now in IsBuilt h → Contains h.places p
            → OnOk result (Walks self.old.counts (get nat_cmp offsets.old) self.new.counts (get nat_cmp offsets.new)
            (ends_of_place p) (IsPlace h p)) }
    {
        let used = house.used(place.used);
        let words = [Text(b"a weight of what isn't an allocator")];
        self.unless(
            is_weighed(used.counts, place.weight),
            place.line,
            "Type",
            &words,
        )?;
        self.check_runs(house, place, used.name)?;
        self.check_spanned(house, place, number)?;
        let windows = place.windows.as_slice();
        'windows: for window in windows {
            self.check_opened(house, place, window, offsets)?;
        }
        Ok(())
    }

    // Checks that each run has time, begins after those before it have ended, and is of a type that counts the use.
    fn check_runs<'a, A: Allocator + Copy>(
        &mut self,
        house: &House<'a, A>,
        place: &Place<'a, A>,
        name: &[u8],
    ) -> Result<(), Stop>
        ensures { Checks result self.old.counts self.new.counts
            (AreRuns (house_of house.now) name.now (place_of place.now)) }
    {
        let (runs, allowed) = (place.runs.as_slice(), house.allowed.as_slice());
        'runs: for (i, run) in runs.iter().enumerate() {
            let words = [Text(b"the meters' times aren't in order")];
            self.unless(is_after_all(&runs[..i], run), run.line, "Moment", &words)?;
            let text = run.identity.text();
            self.unless_counted(
                is_counted(allowed, place.used, name, run),
                run.line,
                name,
                &text[16..],
            )?;
        }
        Ok(())
    }

    // Prints that a device type doesn't count a use, unless it does.
    fn unless_counted<'t>(
        &mut self,
        holds: bool,
        line: u64,
        name: &'t [u8],
        kind: &'t [u8],
    ) -> Result<(), IoFault>
        ensures { Checks result self.old.counts self.new.counts (IsTrue holds) }
    {
        let words = [Text(name), Text(b" by device type "), Text(kind)];
        self.unless(holds, line, "Type", &words)
    }

    // Checks that a place has one window for each span that its time overlaps.
    fn check_spanned<'a, A: Allocator + Copy>(
        &mut self,
        house: &House<'a, A>,
        place: &Place<'a, A>,
        number: u64,
    ) -> Result<(), Stop>
        ensures { Checks result self.old.counts self.new.counts (IsSpanned (house_of house.now) (place_of place.now)) }
    {
        let spans = house.spans.as_slice();
        'spans: for (i, span) in spans.iter().enumerate() {
            let window = place.windows.iter().find(|window| window.span == i as u64);
            let (line, has) = match window {
                Some(window) => (window.line, &b" has a window of span "[..]),
                None => (place.line, &b" has no window of span "[..]),
            };
            let words = [
                Text(b"place "),
                Number(number),
                Text(has),
                Number(i as u64 + 1),
            ];
            self.unless(is_spanned(place, i as u64, span), line, "Window", &words)?;
        }
        Ok(())
    }

    // Checks the values and the parts of a window.
    fn check_opened<'a, A: Allocator + Copy>(
        &mut self,
        house: &House<'a, A>,
        place: &Place<'a, A>,
        window: &Window<'a, A>,
        offsets: &mut BTreeMap<u64, u16, A>,
    ) -> Result<(), Stop>
        ensures { let h = house_of house.now in let p = place_of place.now in let w = window_of window.now in
            (s : SaidSpan) → slice_get h.spans w.span ≡ Some s → All (λ v. IsSome (slice_get p.runs v.run)) w.values
            → OnOk result (Walks self.old.counts (get nat_cmp offsets.old) self.new.counts (get nat_cmp offsets.new)
            (ends_of w) (IsWindow h p w s)) }
    {
        let (spans, runs) = (house.spans.as_slice(), place.runs.as_slice());
        let Some(span) = spans.get(window.span as usize) else {
            return Ok(());
        };
        self.check_values(runs, window, span, offsets)?;
        self.check_parts(house, place, window, place.reach(span))
    }

    // Checks the values of a window, each by itself and with the one before it.
    fn check_values<'a, A: Allocator + Copy>(
        &mut self,
        runs: &[Run<'a>],
        window: &Window<'a, A>,
        span: &Span<'a>,
        offsets: &mut BTreeMap<u64, u16, A>,
    ) -> Result<(), Stop>
        ensures { let w = window_of window.now in All (λ v. IsSome (slice_get (map run_of runs.now) v.run)) w.values
            → OnOk result (Walks self.old.counts (get nat_cmp offsets.old) self.new.counts (get nat_cmp offsets.new)
            (ends_of w) (AreTimed (map run_of runs.now) (span_of span.now) w)) }
    {
        let values = window.values.as_slice();
        'values: for (i, value) in values.iter().enumerate() {
            self.check_day(value.line, day_of(value), span, offsets)?;
            self.check_value(runs, value)?;
            let words = [Text(b"before the value before it")];
            self.unless(is_next(&values[..i], value), value.line, "Moment", &words)?;
        }
        Ok(())
    }

    // Checks that a value's offset is its day's, and near to its span's.
    fn check_day<'a, A: Allocator + Copy>(
        &mut self,
        line: u64,
        end: Option<DayEnd<'a>>,
        span: &Span<'a>,
        offsets: &mut BTreeMap<u64, u16, A>,
    ) -> Result<(), Stop>
        ensures { let ends = map end_of (option_to_list end.entry) in let s = span_of span.now in OnOk result
            (Walks self.old.counts (get nat_cmp offsets.old) self.new.counts (get nat_cmp offsets.new) ends
            (All (λ e. AreNear e s.from ⊎ AreNear e s.to) ends)) }
    {
        let Some(end) = end else {
            return Ok(());
        };
        self.check_offset(line, &end, offsets)?;
        let words = [Text(b"far from its span's")];
        self.unless(is_near_to(&end, span), line, "Offset", &words)?;
        Ok(())
    }

    // Checks that a value lies within its run's time; `last` and `ended` at its end, `zero` after a restart.
    fn check_value(&mut self, runs: &[Run<'_>], value: &Value<'_>) -> Result<(), IoFault>
        ensures { IsSome (slice_get (map run_of runs.now) value.now.run) → Checks result self.old.counts self.new.counts
            (IsTimed (map run_of runs.now) (seen_value value.now)) }
    {
        let Some(run) = runs.get(value.run as usize) else {
            return Ok(());
        };
        let words = [Text(b"not at the meter's end")];
        self.unless(is_of_end(value, run), value.line, "Moment", &words)?;
        let words = [Text(b"outside of its meter's time")];
        self.unless(lies_in(value, run), value.line, "Moment", &words)?;
        let words = [Text(b"not of the meter before")];
        self.unless(is_restart(runs, value), value.line, "Restart", &words)
    }

    // Checks that the parts of a window tile its time, and are of users of its flat.
    fn check_parts<'a, A: Allocator + Copy>(
        &mut self,
        house: &House<'a, A>,
        place: &Place<'a, A>,
        window: &Window<'a, A>,
        time: (u64, u64),
    ) -> Result<(), Stop>
        ensures { (s : SaidSpan) → time.0 ≡ from (place_of place.now) s → time.1 ≡ to (place_of place.now) s
            → Checks result self.old.counts self.new.counts
            (AreParts (house_of house.now) (place_of place.now) s (window_of window.now)) }
    {
        let (mut reached, end) = time;
        let parts = window.parts.as_slice();
        'parts: for part in parts {
            let words = [Text(b"not adjacent, or beyond the span or the place's time")];
            self.unless(is_adjacent(part, reached, end), part.line, "Part", &words)?;
            let user = Number(part.user.unwrap_or(0));
            let words = [Text(b"user "), user, Text(b" is of another flat")];
            let is_user = is_user_of(&house.users, place.flat, part.user);
            self.unless(is_user, part.line, "Part", &words)?;
            reached = part.to;
        }
        let words = [Text(b"the parts don't reach the end")];
        self.unless(reached == end, window.line, "Part", &words)?;
        Ok(())
    }

    // Checks that the values that decide a common end of two windows are the same.
    fn check_ends<'a, A: Allocator + Copy>(
        &mut self,
        alloc: A,
        house: &House<'a, A>,
        place: &Place<'a, A>,
    ) -> Result<(), Stop>
        ensures { All (λ w. AreFound w.values.items) place.now.windows.items
            → Checks result self.old.counts self.new.counts
            (IsOneCurve (house_of house.now) (place_of place.now)) }
    {
        let windows = place.windows.as_slice();
        'windows: for (i, window) in windows.iter().enumerate() {
            let here = Curve::of(alloc, &place.runs, &window.values, false)?;
            self.check_common((alloc, &place.runs), house, (window, &here), &windows[..i])?;
        }
        Ok(())
    }

    // Checks a window against those before it.
    fn check_common<'a, A: Allocator + Copy>(
        &mut self,
        made: (A, &[Run<'a>]),
        house: &House<'a, A>,
        one: (&Window<'a, A>, &Curve<'_, 'a, A>),
        earlier: &[Window<'a, A>],
    ) -> Result<(), Stop>
        ensures { IsCurve one.entry.0.now one.entry.1.now → All (λ w. AreFound w.values.items) earlier.now
            → Checks result self.old.counts self.new.counts
            (All (λ w. AreOneCurve (house_of house.now) (window_of w) (window_of one.entry.0.now)) earlier.now) }
    {
        'earlier: for other in earlier {
            let there = Curve::of(made.0, made.1, &other.values, false)?;
            self.check_two(house, one, (other, &there))?;
        }
        Ok(())
    }

    // Checks two windows against each other. Their spans have the later begin and the earlier end in common.
    fn check_two<'a, A: Allocator + Copy>(
        &mut self,
        house: &House<'a, A>,
        one: (&Window<'a, A>, &Curve<'_, 'a, A>),
        other: (&Window<'a, A>, &Curve<'_, 'a, A>),
    ) -> Result<(), IoFault>
        ensures { IsCurve one.entry.0.now one.entry.1.now → IsCurve other.entry.0.now other.entry.1.now
            → Checks result self.old.counts self.new.counts
            (AreOneCurve (house_of house.now) (window_of other.entry.0.now) (window_of one.entry.0.now)) }
    {
        let spans = house.spans.as_slice();
        let Some(span) = spans.get(one.0.span as usize) else {
            return Ok(());
        };
        let Some(another) = spans.get(other.0.span as usize) else {
            return Ok(());
        };
        let from = another.from.moment().max(span.from.moment());
        let to = another.to.moment().min(span.to.moment());
        if from > to {
            return Ok(());
        }
        self.check_end(one, other, from)?;
        if from == to {
            return Ok(());
        }
        self.check_end(one, other, to)
    }

    // Checks two windows at a moment.
    fn check_end<'a, A: Allocator + Copy>(
        &mut self,
        one: (&Window<'a, A>, &Curve<'_, 'a, A>),
        other: (&Window<'a, A>, &Curve<'_, 'a, A>),
        moment: u64,
    ) -> Result<(), IoFault>
        ensures { IsCurve one.entry.0.now one.entry.1.now → IsCurve other.entry.0.now other.entry.1.now
            → Checks result self.old.counts self.new.counts
            (AreAlike (deciding moment (window_of other.entry.0.now).values)
            (deciding moment (window_of one.entry.0.now).values)) }
    {
        let words = [
            Text(b"other values at the common end "),
            Number(moment),
            Text(b" than span "),
            Number(other.0.span.saturating_add(1)),
        ];
        self.unless(
            other.1.is_one_with(one.1, moment),
            one.0.line,
            "Ends",
            &words,
        )
    }
}
