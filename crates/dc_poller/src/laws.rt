//! Theorems about the definitions of scripts.

ghost use Rattle.std.specs.Prelude.{◌≡◌, ℕ, Bool, List, Option};
ghost use Rattle.mbdc_change.specs.declared.change.Change.{Change};
ghost use Rattle.mbdc_change.specs.State.{State};
ghost use Rattle.dc_core.specs.Headline.{IsOpened};
ghost use Rattle.dc_core.specs.Images.{Machine};
ghost use Rattle.dc_core.specs.Transcript.{Turn};
ghost use Rattle.dc_poller.specs.Fold.{IsFolded, IsReadAs};
ghost use Rattle.dc_poller.specs.ImageRun.{IsOneLife};
ghost use Rattle.dc_poller.specs.ScriptLine.{LineSeen, IsLineOf};
ghost use Rattle.dc_poller.specs.Run.{IsRunOf, run_from};

use dc_sectors::Disk;
use mbdc_change::a_line_has_one_change;

/// A line of a script asks for at most one thing.
#[tactic(auto, using(crate::proofs::Scripts::one_line))]
pub fn a_script_line_asks_for_one_thing()
    ensures { (text : List ℕ) (asked other : LineSeen) → IsLineOf text asked → IsLineOf text other
        → asked ≡ other }
{}

/// The turns of a script that was run over an image, whole or up to a fault, are one life: cut off at any moment of
/// it, the disk was stopped in the sense of the headline (the clause `the_headline` of `Concentrator::open`).
pub fn a_run_is_one_life<D: Disk + Drop>()
    ensures { (state : State) (turns : List Turn) (first last : Machine D)
        → IsOpened D.Disk state first → D.keeps first.store.disk
        → IsRunOf D.Disk (run_from state first last) turns → IsOneLife D.Disk state turns last }
{}

/// A line is read one way by `fold`, so an input has one text.
pub fn an_input_has_one_fold()
    ensures line { (line : List ℕ) (a b : Option Change) → IsReadAs line a → IsReadAs line b
        → a ≡ b }
    ensures text { (input text other : List ℕ) (found found_2 : Bool) → IsFolded input text found
        → IsFolded input other found_2 → (text ≡ other) × (found ≡ found_2) }
{
    a_line_has_one_change();
}
