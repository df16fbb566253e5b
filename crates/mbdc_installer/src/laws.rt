//! What holds of the definitions alone.

ghost use Rattle.std.specs.Prelude.{ℕ, List, Bool, true};
ghost use Rattle.dc_address.specs.declared.identity.Identity.{Identity as Meter};
ghost use Rattle.mbdc_bus.specs.Bus.{Exchange};
ghost use Rattle.mbdc_installer.specs.Confirming.{Confirms, HasMeters, IsKnown};
ghost use Rattle.mbdc_installer.specs.Course.{CountsAnswers};
ghost use Rattle.mbdc_installer.specs.Other.{AnswersInStep, HidesNone, IsClosedOnce};

use mbdc_bus::Bus;

/// The counts of a search's course are those of its answers.
pub fn a_course_counts_the_answers()
    ensures { (exchanges : List Exchange) → CountsAnswers exchanges }
{}

/// A meter that is confirmed after a selection by wildcards is on the line. Where the question was due, no other meter
/// that the selection matches has, in a digit that it leaves open, all bits of the meter's own digit and more: none can
/// answer in step with it unseen.
pub fn a_confirmed_meter_is_known<B: Bus>()
    ensures { (meters : List Meter) (wire : List ℕ) (meter : Meter) (is_due : Bool) (old new : B)
        → HasMeters B.asks_all meters → Confirms B.asks_all wire meter is_due old true new
        → IsKnown meters wire meter is_due }
{}

/// A wildcard that a frame of another CI closed is matched by no meter of CI 72, while one of its digits is open: such
/// a meter would have answered in step with that frame, and its CI has a bit that 72 lacks.
pub fn a_closed_wildcard_hides_no_meter<B: Bus>()
    ensures { (meters : List Meter) → AnswersInStep B.asks_all meters → HidesNone B.asks_all meters }
{}

/// Any wildcard may be closed, by a meter whose telegrams have no header.
pub fn any_wildcard_may_be_closed()
    ensures { (wire : List ℕ) → IsClosedOnce wire }
{}
