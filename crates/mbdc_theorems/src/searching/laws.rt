//! Theorems about searches. The functions have no effect; their contracts state the theorems.

ghost use Rattle.std.specs.Prelude.{◌≤◌, ◌+◌, ◌*◌, ℕ, IsTrue, List, length};
ghost use Rattle.dc_address.specs.declared.identity.Identity.{Identity as Meter};
ghost use Rattle.dc_search.specs.State.{SearchState, is_idle, step_of};
ghost use Rattle.dc_search.specs.Walk.{FindsAll};
ghost use Rattle.mbdc_bus.specs.Bus.{IsSearched};
ghost use Rattle.mbdc_bus.specs.Windows.{IsAskedAll};
ghost use Rattle.mbdc_theorems.specs.Answered.{IsAnsweredBy, OneIsAnswered};

use mbdc_bus::Bus;

/// A search by windows whose run these meters answered made the selections of the walk over them, as far as its budget
/// went: with forty selections a meter and one more it found every meter whose number no other has, every number of
/// several meters, and nothing else. Repeats aren't counted.
///
/// What came in the windows is said of this very run (`specs/Answered.antt`). `scan` and SEARCH make such a run
/// (`IsAskedAll` of their contracts).
pub fn every_meter_is_found<B: Bus>()
    // As far as its budget went.
    ensures walk { (meters : List Meter) (budget : ℕ) (old new : B) (search : SearchState)
        (run : IsAskedAll B.asks_all budget old new search) → IsAnsweredBy meters run
        → IsTrue (is_idle (step_of search)) → IsSearched meters budget search }
    // With forty selections a meter, and one more.
    ensures all { (meters : List Meter) (budget : ℕ) (old new : B) (search : SearchState)
        (run : IsAskedAll B.asks_all budget old new search) → IsAnsweredBy meters run
        → IsTrue (is_idle (step_of search)) → 1 + 40 * length meters ≤ budget
        → FindsAll meters search.found search.shared }
{}

/// Such a run exists: of each meter alone all that [`every_meter_is_found`] asks for holds at once.
pub fn a_search_may_be_answered()
    ensures { (meter : Meter) → OneIsAnswered meter }
{}
