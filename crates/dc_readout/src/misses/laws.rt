//! What holds of the definitions alone.

ghost use Rattle.std.specs.Prelude.{◌≡◌, ◌++◌, ◌∷◌, ℕ, List, []};
ghost use Rattle.dc_readout.specs.Misses.{and_missed, misses_of};

/// Counted one after the other, failed tries give the number of each kind.
pub fn misses_are_counted()
    ensures { (answers : List (List ℕ)) (answer : List ℕ) →
        and_missed answer (misses_of answers) ≡ misses_of (answers ++ answer ∷ []) }
{}
