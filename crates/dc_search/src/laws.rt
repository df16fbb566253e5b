//! Theorems about the definitions of a search.
ghost use Rattle.std.specs.Prelude.{◌≡◌, ◌<◌, ℕ, List, false};
ghost use Rattle.dc_search.specs.State.{SearchState, after, is_idle, rounds_left, step_of};

/// A search ends: each expected answer leaves fewer to come.
pub fn searches_end()
    ensures { (bytes : List ℕ) (s : SearchState) → is_idle (step_of s) ≡ false
        → rounds_left (after bytes s) < rounds_left s }
{}
