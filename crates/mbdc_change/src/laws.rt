//! Theorems about changes and their spellings. The functions have no effect; their contracts state
//! the theorems.

ghost use Rattle.std.specs.Prelude.{◌≡◌, ℕ, ◌+◌, ◌^◌, ◌<◌, ◌≤◌, List, [], ◌∷◌, ◌++◌, length};
ghost use Rattle.mbdc_change.specs.declared.change.Change.{Change};
ghost use Rattle.mbdc_change.specs.State.{State};
ghost use Rattle.mbdc_change.specs.Apply.{applied};
ghost use Rattle.mbdc_change.specs.Accepts.{Accepts};
ghost use Rattle.mbdc_change.specs.History.{after, AcceptsAll};
ghost use Rattle.mbdc_change.specs.Size.{size_of};
ghost use Rattle.mbdc_change.specs.Encoding.{state_bytes, change_bytes, longest_change};
ghost use Rattle.mbdc_change.specs.Command.{longest_line};
ghost use Rattle.mbdc_change.specs.Valid.{IsChange, IsState};
ghost use Rattle.mbdc_change.specs.Spelled.{SpellsState, SpellsChanges};

/// The state after a list of changes is the state after its second part, from the state after its
/// first part; appending a change applies it last.
#[tactic(auto, using(crate::proofs::History::after_of_append, crate::proofs::History::after_of_push))]
pub fn after_goes_by_parts()
    ensures append { (s : State) (first then : List Change)
        → after s (first ++ then) ≡ after (after s first) then }
    ensures push { (s : State) (changes : List Change) (change : Change)
        → after s (changes ++ change ∷ []) ≡ applied change (after s changes) }
{}

/// A list of changes is accepted if its first part is, and its second part in the state after the
/// first; an appended change is accepted if it is in the state after the others.
#[tactic(auto, using(crate::proofs::History::accepted))]
pub fn acceptance_goes_by_parts()
    ensures append { (budget : ℕ) (s : State) (first then : List Change) → AcceptsAll budget s first
        → AcceptsAll budget (after s first) then → AcceptsAll budget s (first ++ then) }
    ensures parts { (budget : ℕ) (s : State) (first then : List Change)
        → AcceptsAll budget s (first ++ then) → AcceptsAll budget s first
        × AcceptsAll budget (after s first) then }
    ensures push { (budget : ℕ) (s : State) (changes : List Change) (change : Change)
        → AcceptsAll budget s changes → Accepts budget change (after s changes)
        → AcceptsAll budget s (changes ++ change ∷ []) }
{}

/// The encoding of a state has the state's size, less the unused bytes of its last line: it is
/// within the budget, and at least 33 bytes. The encoding of a change has 1 to 263 bytes.
#[tactic(auto, using(crate::proofs::CommandSpellings::change_sized, crate::proofs::Lengths::state_sized))]
pub fn length_of_spelling()
    ensures size { (s : State) → length (state_bytes s) + longest_line ≡ size_of s
        + length s.last_line }
    ensures fits { (budget : ℕ) (s : State) → IsState budget s → length (state_bytes s) ≤ budget }
    ensures some { (s : State) → 33 ≤ length (state_bytes s) }
    ensures change { (change : Change) → IsChange change → (1 ≤ length (change_bytes change))
        × (length (change_bytes change) ≤ longest_change) }
{}

/// No two states have the same encoding, and no two lists of changes; no change's encoding is a
/// prefix of another's. An empty list is encoded as no bytes, and an appended change by its own
/// bytes after the others'.
#[tactic(auto, using(crate::proofs::StateSpellings::spelled_once, crate::proofs::CommandSpellings::spelled_apart))]
pub fn one_spelling()
    ensures states { (budget other : ℕ) (bytes : List ℕ) (s t : State) → budget < 2 ^ 32
        → other < 2 ^ 32 → SpellsState budget bytes s → SpellsState other bytes t → s ≡ t }
    ensures changes { (bytes : List ℕ) (a b : List Change) → SpellsChanges bytes a
        → SpellsChanges bytes b → a ≡ b }
    ensures begins { (a b : Change) (x y : List ℕ) → IsChange a → IsChange b
        → change_bytes a ++ x ≡ change_bytes b ++ y → (a ≡ b) × (x ≡ y) }
    ensures none { SpellsChanges [] [] }
    ensures push { (bytes : List ℕ) (changes : List Change) (change : Change)
        → SpellsChanges bytes changes → IsChange change
        → SpellsChanges (bytes ++ change_bytes change) (changes ++ change ∷ []) }
{}
