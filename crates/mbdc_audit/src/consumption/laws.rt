//! What holds of the definitions alone.

ghost use Rattle.std.specs.Prelude.{◌≡◌, ◌≢◌, ◌<◌, ◌≤◌, ◌+◌, ◌-◌, ◌%◌, ◌++◌, ◌∷◌, ◌↔◌, ℕ, List, []};
ghost use Rattle.std.specs.Prelude.{All, Any, IsSome, Some, map, false, true};
ghost use Rattle.std.specs.List.Sorted.{IsNonDecreasing};
ghost use Rattle.mbdc_audit.specs.declared.consumption.entry.Entry.{Entry};
ghost use Rattle.mbdc_audit.specs.Consumption.Curve.{curve};
ghost use Rattle.mbdc_audit.specs.Consumption.Order.{IsInOrder};
ghost use Rattle.mbdc_audit.specs.Consumption.Period.{added, between, sum_of, consumption, consumptions};
ghost use Rattle.mbdc_audit.specs.Consumption.Period.{DifferByAtMost};
ghost use Rattle.mbdc_audit.specs.Consumption.Period.{house_curve, house_consumption};
ghost use Rattle.mbdc_audit.specs.Consumption.Period.{house_consumptions};
ghost use Rattle.mbdc_audit.specs.Consumption.Mark.{marked_in, touch_one, touches};
ghost use Rattle.mbdc_audit.specs.Consumption.Run.{HasNoTurn, IsRun, IsSettled, valued};
ghost use Rattle.mbdc_audit.specs.Consumption.Step.{is_doubtful, is_turn, room, step};

/// The curve is known from the first entry to the last one: at any moment that has an entry at or
/// before it, and one at or after it.
pub fn a_curve_is_known_between_its_entries()
    ensures { (entries : List Entry) (moment : ℕ) → IsInOrder entries →
        (IsSome (curve entries moment)
        ↔ (Any (λ e. e.moment ≤ moment) entries × Any (λ e. moment ≤ e.moment) entries)) }
{}

/// No consumption is negative: the curve never falls, and what was consumed in a period, added to
/// the curve at its beginning, is the curve at its end.
pub fn no_consumption_is_negative()
    ensures rises { (entries : List Entry) (from to before after : ℕ) →
        IsInOrder entries → from ≤ to →
        curve entries from ≡ Some before → curve entries to ≡ Some after → before ≤ after }
    ensures adds { (entries : List Entry) (from to amount : ℕ) → IsInOrder entries → from ≤ to →
        consumption entries from to ≡ Some amount →
        added (curve entries from) (Some amount) ≡ curve entries to }
{}

/// What was consumed in two periods, one after the other, adds up to what was consumed in both; and
/// so do the months of a year add up to the year, wherever they begin and end.
pub fn the_parts_of_a_period_add_up_to_it()
    ensures two { (entries : List Entry) (from middle to : ℕ) → IsInOrder entries →
        from ≤ middle → middle ≤ to →
        added (consumption entries from middle) (consumption entries middle to)
        ≡ consumption entries from to }
    ensures many { (entries : List Entry) (from : ℕ) (middle : List ℕ) (to : ℕ) →
        IsInOrder entries → IsNonDecreasing (from ∷ (middle ++ to ∷ [])) →
        sum_of (consumptions entries (from ∷ (middle ++ to ∷ []))) ≡ consumption entries from to }
{}

/// Where a period begins and ends at entries of one meter that didn't run backwards between them and
/// had no turn, the consumption is the difference of its values, whatever its other values are.
pub fn at_entries_of_a_meter_its_values_count()
    ensures { (front : List Entry) (a : Entry) (middle : List Entry) (b : Entry)
        (back : List Entry) (meter : ℕ) →
        IsInOrder (front ++ (a ∷ (middle ++ (b ∷ back)))) →
        IsRun meter (a ∷ (middle ++ (b ∷ []))) →
        IsSettled a (middle ++ (b ∷ [])) → IsSettled b back →
        (a.value ≤ b.value)
        × (consumption (front ++ (a ∷ (middle ++ (b ∷ back)))) a.moment b.moment
        ≡ Some (b.value - a.value)) }
{}

/// Where a period begins and ends at entries of one meter that had no turn between them, and no step
/// that touches it is marked, its values count.
pub fn where_nothing_runs_backwards_the_values_count()
    ensures { (front : List Entry) (a : Entry) (middle : List Entry) (b : Entry)
        (back : List Entry) (meter : ℕ) →
        IsInOrder (front ++ (a ∷ (middle ++ (b ∷ back)))) →
        All (λ e. e.meter ≡ meter) (a ∷ (middle ++ (b ∷ []))) →
        All (λ e. a.moment < e.moment) (middle ++ (b ∷ [])) →
        HasNoTurn (a ∷ (middle ++ (b ∷ []))) → IsSettled b back →
        marked_in (front ++ (a ∷ (middle ++ (b ∷ back)))) a.moment b.moment ≡ [] →
        (a.value ≤ b.value)
        × (consumption (front ++ (a ∷ (middle ++ (b ∷ back)))) a.moment b.moment
        ≡ Some (b.value - a.value)) }
{}

/// A value that another one refutes marks the steps to it and from it: where it is above the next
/// value of its meter, or below the one before it, and there is no turn, each period that one of the
/// two steps touches has a marked step. So does a fall without a turn at the first entry or the last.
pub fn a_refuted_value_marks_its_steps()
    ensures above { (front : List Entry) (v x y : Entry) (back : List Entry) (from to : ℕ) →
        x.meter ≡ y.meter → y.value < x.value → is_turn x y ≡ false →
        touch_one from to v x y ≡ true →
        marked_in (front ++ (v ∷ (x ∷ (y ∷ back)))) from to ≢ [] }
    ensures below { (front : List Entry) (v x y : Entry) (back : List Entry) (from to : ℕ) →
        v.meter ≡ x.meter → x.value < v.value → is_turn v x ≡ false →
        touch_one from to v x y ≡ true →
        marked_in (front ++ (v ∷ (x ∷ (y ∷ back)))) from to ≢ [] }
    ensures alone { (front : List Entry) (x y : Entry) (back : List Entry) (from to : ℕ) →
        x.meter ≡ y.meter → y.value < x.value → is_turn x y ≡ false →
        touches from to x y ≡ true → marked_in (front ++ (x ∷ (y ∷ back))) from to ≢ [] }
{}

/// A value that isn't refuted changes at most its two steps: where it lies between the values before
/// and after it of its meter, any other between them in its place changes no amount by more than
/// these two differ. So a false value that isn't marked is worth at most what was consumed between
/// its neighbours.
pub fn an_unmarked_value_changes_at_most_its_two_steps()
    ensures { (front : List Entry) (v x y : Entry) (back : List Entry) (other from to : ℕ) →
        IsInOrder (front ++ (v ∷ (x ∷ (y ∷ back)))) → from ≤ to →
        v.meter ≡ x.meter → x.meter ≡ y.meter → v.value ≤ x.value → x.value ≤ y.value →
        v.value ≤ other → other ≤ y.value →
        DifferByAtMost (y.value - v.value)
        (consumption (front ++ (v ∷ (x ∷ (y ∷ back)))) from to)
        (consumption (front ++ (v ∷ (valued other x ∷ (y ∷ back)))) from to) }
{}

/// A turn is what was counted: of a counter that goes on at 0 from its size, whose two displays are
/// less than a full turn apart, and no further than the meter can have counted, the step is the
/// difference of the counts, and isn't doubtful.
pub fn a_turn_is_what_was_counted()
    ensures { (a b : Entry) (before after : ℕ) → a.meter ≡ b.meter →
        a.value ≡ before % a.size → b.value ≡ after % a.size → before ≤ after →
        after - before < a.size → after - before ≤ room a b →
        (step a b ≡ after - before) × (is_doubtful a b ≡ false) }
{}

/// An exchange neither loses nor invents: over it the consumption is what the old meter counted up
/// to its final value, and what the new one counted from its first value on.
pub fn an_exchange_neither_loses_nor_invents()
    ensures { (front : List Entry) (start : Entry) (old : List Entry) (final first : Entry)
        (new : List Entry) (end : Entry) (back : List Entry) (meter meter' : ℕ) →
        IsInOrder (front ++ (start ∷ (old ++ (final ∷ (first ∷ (new ++ (end ∷ back))))))) →
        IsRun meter (start ∷ (old ++ (final ∷ []))) →
        IsRun meter' (first ∷ (new ++ (end ∷ []))) → meter ≢ meter' →
        IsSettled start (old ++ (final ∷ (first ∷ (new ++ (end ∷ []))))) → IsSettled end back →
        consumption (front ++ (start ∷ (old ++ (final ∷ (first ∷ (new ++ (end ∷ back)))))))
        start.moment end.moment
        ≡ Some ((final.value - start.value) + (end.value - first.value)) }
{}

/// An entry is settled where the next one is later, and where the meter is exchanged at its moment.
pub fn an_entry_is_settled_by_the_next()
    ensures last { (e : Entry) → IsSettled e [] }
    ensures later { (e next : Entry) (back : List Entry) → IsInOrder (e ∷ next ∷ back) →
        e.moment < next.moment → IsSettled e (next ∷ back) }
    ensures exchanged { (e next : Entry) (back : List Entry) → IsInOrder (e ∷ next ∷ back) →
        e.moment ≡ next.moment → e.meter ≢ next.meter → IsSettled next back →
        IsSettled e (next ∷ back) }
{}

/// A consumption depends on the entries of its window alone: from any entry at or before its
/// beginning to any at or after its end. One at the very end has to be settled: entries after it
/// that have its moment count too.
pub fn a_consumption_depends_on_its_window_alone()
    ensures { (front : List Entry) (first : Entry) (middle : List Entry) (last : Entry)
        (back : List Entry) (from to : ℕ) →
        IsInOrder (front ++ (first ∷ (middle ++ (last ∷ back)))) →
        first.moment ≤ from → from ≤ to → to ≤ last.moment →
        (to ≡ last.moment → IsSettled last back) →
        consumption (front ++ (first ∷ (middle ++ (last ∷ back)))) from to
        ≡ consumption (first ∷ (middle ++ (last ∷ []))) from to }
{}

/// The places of a house add up, place by place or period by period: the sum of their consumptions
/// is the difference of the sums of their curves, and of the periods into which a period is cut it
/// is that of the whole.
pub fn the_places_of_a_house_add_up()
    ensures curves { (places : List (List Entry)) (from to : ℕ) → All IsInOrder places → from ≤ to →
        house_consumption places from to
        ≡ between (house_curve places from) (house_curve places to) }
    ensures by_period { (places : List (List Entry)) (from : ℕ) (middle : List ℕ) (to : ℕ) →
        All IsInOrder places → IsNonDecreasing (from ∷ (middle ++ to ∷ [])) →
        sum_of (house_consumptions places (from ∷ (middle ++ to ∷ [])))
        ≡ house_consumption places from to }
    ensures by_place { (places : List (List Entry)) (from : ℕ) (middle : List ℕ) (to : ℕ) →
        All IsInOrder places → IsNonDecreasing (from ∷ (middle ++ to ∷ [])) →
        sum_of (map (λ entries. sum_of (consumptions entries (from ∷ (middle ++ to ∷ [])))) places)
        ≡ house_consumption places from to }
{}
