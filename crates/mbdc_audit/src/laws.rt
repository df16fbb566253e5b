//! Theorems about the definition of a right file.

ghost use Rattle.std.specs.Prelude.{◌≡◌, ◌<◌, ◌≤◌, ◌∷◌, ◌++◌, ℕ, false, true, Some, All, List, Option};
ghost use Rattle.std.specs.Prelude.{length, map, slice_index_or};
ghost use Rattle.mbdc_audit.specs.declared.consumption.entry.Entry.{Entry};
ghost use Rattle.mbdc_audit.specs.Consumption.Order.{IsInOrder};
ghost use Rattle.mbdc_audit.specs.Consumption.Period.{added, consumption, sum_of};
ghost use Rattle.mbdc_audit.specs.House.{House, Part, Place, Run, Span, Value, Window};
ghost use Rattle.mbdc_audit.specs.Amount.{amount, entries, known, mark, told};
ghost use Rattle.dc_records.specs.Record.{Entry as Record};
ghost use Rattle.mbdc_audit.specs.Evidence.{Gives};
ghost use Rattle.mbdc_audit.specs.File.{IsRight, Steps, all_opened, bare_house, empty};
ghost use Rattle.mbdc_audit.specs.Published.{Open, beside, house, is_whole, plain, says_of, shares_of};
ghost use Rattle.mbdc_audit.specs.Worked.{by_hand, meter, november, october, telegram, with_middle};
ghost use Rattle.dc_address.specs.declared.identity.Identity.{Identity};
ghost use Rattle.mbdc_audit.specs.Sound.{AreApart, Fitted, IsHouse, IsWindow, Tile, fitted, from, to};
ghost use Rattle.mbdc_audit.specs.declared.uses.Counted.{Counted};
ghost use Rattle.mbdc_audit.specs.declared.grade.Grade.TheVariants.{Measured, Hand, Estimated, Disturbed};

/// What amounts rest on. A number with the mark `measured` follows from telegrams: two files with the same telegrams
/// that both mark it so have the same amount, whatever values people and estimates put. The records of telegrams
/// determine one amount. The amounts of adjacent parts add up to that of the whole period, two adjacent periods to
/// their union, and two windows with the same deciding values at their common end to the amount of the joined list of
/// entries.
pub fn amounts_are_of_telegrams()
    ensures alone { (runs : List Run) (values : List Value) (from to : ℕ) →
        mark runs values from to ≡ Measured →
        amount runs values from to ≡ amount runs (told values) from to }
    ensures free { (runs : List Run) (values others : List Value) (from to : ℕ) →
        mark runs values from to ≡ Measured → mark runs others from to ≡ Measured →
        told values ≡ told others → amount runs values from to ≡ amount runs others from to }
    ensures records { (vib : List ℕ) (q : Counted) (day : Option ℕ) (records : List Record) (n m : ℕ) →
        Gives vib q day records n → Gives vib q day records m → n ≡ m }
    ensures parts { (runs : List Run) (values : List Value) → IsInOrder (entries runs values) →
        (from to : ℕ) (first : Part) (later : List Part) → Tile from to (first ∷ later) →
        sum_of (map (λ p. amount runs values p.from p.to) (first ∷ later)) ≡ amount runs values from to }
    ensures periods { (runs : List Run) (values : List Value) (from middle to : ℕ) →
        IsInOrder (entries runs values) → from ≤ middle → middle ≤ to →
        added (amount runs values from middle) (amount runs values middle to) ≡ amount runs values from to }
    ensures spans { (all one other : List Entry) (f f' g g' p p' q q' : List Entry) (a n d e : Entry)
        (m k : List Entry) (from middle to : ℕ) →
        IsInOrder all → IsInOrder one → IsInOrder other →
        all ≡ f ++ (a ∷ (m ++ (n ∷ g))) → one ≡ f' ++ (a ∷ (m ++ (n ∷ g'))) →
        all ≡ p ++ (d ∷ (k ++ (e ∷ q))) → other ≡ p' ++ (d ∷ (k ++ (e ∷ q'))) →
        a.moment ≤ from → from ≤ middle → middle < n.moment →
        d.moment ≤ middle → middle ≤ to → to < e.moment →
        added (consumption one from middle) (consumption other middle to) ≡ consumption all from to }
{}

/// In a sound house two runs of one use with the same identity don't overlap in time. The parts of a window sum to the
/// amount of the place in its span, if each of them has a number. In a right file the fields beside each number are
/// those that the definition gives. The lines of a file spell one house, but for the amounts, which they don't say.
pub fn a_sound_house_adds_up()
    ensures once { (h : House) → IsHouse h → (i j : ℕ) (d : Fitted) → i < j → j < length (fitted h) →
        (slice_index_or (fitted h) i d).used ≡ (slice_index_or (fitted h) j d).used →
        (slice_index_or (fitted h) i d).run.identity ≡ (slice_index_or (fitted h) j d).run.identity →
        AreApart (slice_index_or (fitted h) i d).run (slice_index_or (fitted h) j d).run }
    ensures place { (o : Open) (from to : ℕ) (first : Part) (later : List Part) →
        o.window.parts ≡ first ∷ later → Tile from to (first ∷ later) →
        IsInOrder (entries o.place.runs (known o.window.values)) →
        is_whole (shares_of house o) ≡ true →
        amount o.place.runs (known o.window.values) from to ≡ Some (plain (shares_of house o)) }
    ensures window { (h : House) (p : Place) (w : Window) (s : Span) (first : Part)
        (later : List Part) → IsWindow h p w s → w.parts ≡ first ∷ later →
        is_whole (shares_of house (record { place = p; window = w })) ≡ true →
        amount p.runs (known w.values) (from p s) (to p s)
        ≡ Some (plain (shares_of house (record { place = p; window = w }))) }
    ensures of_places { (lines : List (List ℕ)) (right : IsRight false lines) →
        All (λ o. All (λ n. n.beside ≡ says_of n.key.word o n.key) o.window.numbers) (all_opened right.house) }
    ensures of_house { (lines : List (List ℕ)) (right : IsRight false lines) →
        All (λ n. n.beside ≡ beside right.house n.key) right.house.numbers }
    ensures one_house { (lines : List (List ℕ)) (h g : House) → Steps 0 empty lines 12 h → Steps 0 empty lines 12 g →
        bare_house h ≡ bare_house g }
{}

/// Worked examples. 9.31 m3 are `measured`, also with a value by hand in between. A value by hand that looks like a
/// rollover gives 1,009.31 m3, marked `hand`; without a SIZE it disturbs. A repeated telegram that decides is an
/// estimate.
pub fn worked_examples()
    ensures amount { (i : Identity) →
        amount (meter i 0) (with_middle 416500000 (telegram 2)) october november ≡ Some 9310000 }
    ensures measured { (i : Identity) →
        mark (meter i 0) (known (with_middle 416500000 (telegram 2))) october november ≡ Measured }
    ensures between { (i : Identity) →
        mark (meter i 0) (known (with_middle 416500000 by_hand)) october november ≡ Measured }
    ensures turned { (i : Identity) →
        amount (meter i 1000000000) (with_middle 0 by_hand) october november ≡ Some 1009310000 }
    ensures turned_by_hand { (i : Identity) →
        mark (meter i 1000000000) (known (with_middle 0 by_hand)) october november ≡ Hand }
    ensures backwards { (i : Identity) →
        mark (meter i 0) (known (with_middle 0 by_hand)) october november ≡ Disturbed }
    ensures again { (i : Identity) →
        mark (meter i 0) (known (with_middle 421380000 (telegram 3))) october november ≡ Estimated }
{}
