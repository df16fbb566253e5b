//! Laws of the definitions. A caller that needs one calls its function, which does nothing.

ghost use Rattle.std.specs.Prelude.{◌≡◌, ◌↔◌, ◌⊎◌, ℕ, List, [], ◌++◌, Ok, Err};
ghost use Rattle.dc_records.specs.declared.fault.BodyFault.{BodyFault};
ghost use Rattle.dc_records.specs.Record.{Entry, Spells};
ghost use Rattle.dc_records.specs.Stops.{Fails, IsFirstFault};
ghost use Rattle.dc_records.specs.Telegram.{Parsed, IsTelegram, HasFault, telegram_at};

/// The fault past a header, in one rule: once as many whole items as there are have been taken, it stands at the byte
/// that rules out every item and every end, or it is `Cut` and the text stops before such a byte.
pub fn first_fault()
    ensures { (text : List ℕ) (f : BodyFault) → Fails text f → IsFirstFault text f }
{}

/// A text spells one record at most, and no spelling of a record begins another.
pub fn one_record()
    ensures { (text more : List ℕ) (e d : Entry) → Spells text e → Spells (text ++ more) d
        → (more ≡ []) × (e ≡ d) }
{}

/// A text is one telegram or has one fault.
pub fn one_telegram()
    ensures some { (text : List ℕ) → ((t : Parsed) × IsTelegram text t)
        ⊎ ((f : BodyFault) × HasFault text f) }
    ensures one { (text : List ℕ) (s t : Parsed) → IsTelegram text s → IsTelegram text t → s ≡ t }
    ensures one_fault { (text : List ℕ) (f g : BodyFault) → HasFault text f → HasFault text g
        → f ≡ g }
    ensures apart { (text : List ℕ) (t : Parsed) (f : BodyFault) → IsTelegram text t
        → HasFault text f → ⊥ }
{}

/// What is read is what is spelled: `telegram_at` answers each telegram and each fault, and nothing else.
pub fn read_as_spelled()
    ensures telegrams { (text : List ℕ) (t : Parsed)
        → (telegram_at text ≡ Ok t) ↔ IsTelegram text t }
    ensures faults { (text : List ℕ) (f : BodyFault)
        → (telegram_at text ≡ Err f) ↔ HasFault text f }
{}
