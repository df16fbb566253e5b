//! What the tellers make of all events of a poll. The functions have no effect; their contracts state the theorems.

ghost use Rattle.mbdc_poll.specs.Printed.{ArePrinted, AreTakenUpToAFailure};

use crate::Teller;
use mbdc_io::Sink;

/// Where a printer took the events of a poll, they are written in its form, in order, and nothing else.
pub fn events_are_printed<W: Sink + Drop>()
    ensures { ArePrinted W.Sink }
{}

/// A teller that may fail takes each event of a poll, or those up to its first failure.
pub fn events_are_taken_up_to_a_failure<N: Teller + Drop>()
    ensures { AreTakenUpToAFailure N.Teller }
{}
