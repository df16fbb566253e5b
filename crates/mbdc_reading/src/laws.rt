//! Theorems about what is read. The functions have no effect; their contracts state the theorems.

ghost use Rattle.std.specs.Prelude.{◌≡◌, ◌≢◌, ◌+◌, ◌<◌, ◌∷◌, ◌⊎◌, ℕ, Bool, List, length};
ghost use Rattle.std.specs.Prelude.{None, Ok, Err, true, false};
ghost use Rattle.dc_records.specs.declared.fault.BodyFault.{BodyFault};
ghost use Rattle.dc_records.specs.declared.fault.BodyFault.TheVariants.{PlainTextExtension};
ghost use Rattle.dc_records.specs.Record.{Entry};
ghost use Rattle.dc_records.specs.Body.{Ending, content_at};
ghost use Rattle.dc_units.specs.declared.point.Seen.TheVariants.{Point as Known, Other};
ghost use Rattle.dc_units.specs.declared.point.Point.{Point};
ghost use Rattle.dc_units.specs.declared.value.Value.TheVariants as value;
ghost use Rattle.dc_units.specs.Point.{seen_of};
ghost use Rattle.dc_units.specs.Quantity.{unit_of};
ghost use Rattle.mbdc_reading.specs.declared.codes.Kind.TheVariants.{Number};
ghost use Rattle.mbdc_reading.specs.declared.meaning.Meaning.{Meaning};
ghost use Rattle.mbdc_reading.specs.declared.reading.Found.TheVariants as found;
ghost use Rattle.mbdc_reading.specs.declared.value.Datum.TheVariants as datum;
ghost use Rattle.mbdc_reading.specs.Codes.{number_of};
ghost use Rattle.mbdc_reading.specs.Meaning.{after, folded, is_unknown, meaning_of, scaled};
ghost use Rattle.mbdc_reading.specs.Names.{names_of};
ghost use Rattle.mbdc_reading.specs.Parts.{len_of, maker_of, told_of, vifes_of};
ghost use Rattle.mbdc_reading.specs.Reading.{HasNone, or_unread, reading_of, type_at};
ghost use Rattle.mbdc_reading.specs.Sent.{end_at, entries_of, sent_at};
ghost use Rattle.mbdc_reading.specs.Text.{unit_text};

/// What a telegram has after its header has the same records and the same end here; what has a fault there has the same
/// one here, or a unit in plain text with VIFEs.
#[tactic(auto, using(crate::proofs::Telegrams::same_records, crate::proofs::Telegrams::same_fault))]
pub fn as_in_a_telegram()
    ensures records { (bytes : List ℕ) (x : List Entry × Ending) → content_at bytes ≡ Ok x
        → (entries_of (sent_at bytes) ≡ x.0) × (end_at bytes ≡ Ok x.1) }
    ensures fault { (bytes : List ℕ) (f : BodyFault) → content_at bytes ≡ Err f
        → (end_at bytes ≡ Err f) ⊎ (f ≡ PlainTextExtension) }
{}

/// What the due-date table reads as a point is read with its value and its unit; where it has none, there is a reason.
#[tactic(auto, using(crate::proofs::Readings::point_value, crate::proofs::Readings::point_none, crate::proofs::Readings::point_unit))]
pub fn as_the_table_reads()
    ensures value { (e : Entry) (len : ℕ) (p : Point) → seen_of e ≡ Known p
        → p.value ≢ value.None → (reading_of e len).found
        ≡ found.Value (type_at p.quantity) (datum.Known p.value) }
    ensures none { (e : Entry) (len : ℕ) (p : Point) → seen_of e ≡ Known p
        → p.value ≡ value.None → HasNone (reading_of e len).found }
    ensures unit { (e : Entry) (len : ℕ) (p : Point) → seen_of e ≡ Known p
        → unit_text (reading_of e len) e.vib ≡ unit_of p.quantity }
{}

/// Each VIFE of a block has a name, or its byte is a manufacturer's.
#[tactic(auto, using(crate::proofs::Readings::each_told))]
pub fn each_vife_is_told()
    ensures { (vib : List ℕ)
        → length (names_of false (told_of vib)) + len_of (maker_of vib) ≡ length (vifes_of vib) }
{}

/// A VIFE before a manufacturer's whose meaning isn't certain leaves a block without a meaning, and a record without a
/// meaning that isn't a point of the due-date table isn't read.
#[tactic(auto, using(crate::proofs::Readings::unknown, crate::proofs::Readings::unread))]
pub fn nothing_unknown_is_read()
    ensures meaning { (after_fc : Bool) (m : Meaning) (vifes : List ℕ)
        → is_unknown after_fc vifes ≡ true → folded after_fc m vifes ≡ None }
    ensures reading { (e : Entry) (len : ℕ) → seen_of e ≡ Other
        → meaning_of (number_of e.vib) (vifes_of e.vib) ≡ None
        → reading_of e len ≡ or_unread None }
{}

/// VIFE 00 changes no meaning.
#[tactic(auto, using(crate::proofs::Readings::no_error))]
pub fn no_error_changes_nothing()
    ensures { (m : Meaning) (others : List ℕ)
        → folded false m (0x80 ∷ others) ≡ folded false m others }
{}

/// A correction of numbers in the code's unit adds its power of ten to theirs.
#[tactic(auto, using(crate::proofs::Readings::correction))]
pub fn corrections_add_up()
    ensures { (m : Meaning) (n : ℕ) (others : List ℕ) → n < 8 → m.is_replaced ≡ false
        → m.kind ≡ Number → folded false m ((0xF0 + n) ∷ others)
        ≡ after (λ next. folded false next others) (scaled m (0x70 + n)) }
{}
