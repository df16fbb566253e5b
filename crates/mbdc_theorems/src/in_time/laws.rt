//! The theorems about a line in time. The functions have no effect; their contracts state the theorems.

ghost use Rattle.std.specs.Prelude.{ℕ, List, Option};
ghost use Rattle.mbdc_raw.specs.declared.line.Line.{Line};
ghost use Rattle.mbdc_theorems.specs.Asked.{Asks, IsAlike, IsToIt, Runs};
ghost use Rattle.mbdc_theorems.specs.InTime.{IsMet, LinesInTimeAreBuses};
ghost use Rattle.mbdc_theorems.specs.Asked.{OnWay};

use mbdc_raw::Wire;

/// Whatever a line takes for the answer to a request is no frame, or the answer to that very request.
pub fn every_answer_is_to_its_request<W: Wire + Drop>()
    ensures { (old new : Line (OnWay W)) (request answer : List ℕ) (reply due : Option (List ℕ))
        → Runs W.Wire old due → IsAlike old request due reply
        → Asks W.Wire request reply old answer new → IsToIt reply answer }
{}

/// A line in time is a bus line of a house: what it takes for the answer to a request is what the bus line may have
/// received.
pub fn a_line_in_time_is_a_bus_line<W: Wire + Drop>()
    ensures { LinesInTimeAreBuses W.Wire }
{}

/// The premises can be met: in such a run an acknowledgement is overdue, and a telegram late, with other values than
/// its repeat.
pub fn a_line_may_be_in_time()
    ensures { IsMet }
{}
