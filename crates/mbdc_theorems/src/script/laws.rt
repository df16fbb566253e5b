//! Theorems about polls. The functions have no effect; their contracts state the theorems.

ghost use Rattle.mbdc_theorems.specs.Polled.{PollsAreServed, PollsEnd};

/// A poll over a line that loses nothing three times in a row ends in one whole reading.
///
/// The meter follows the standard, and nothing is pending when the poll begins. It takes at most
/// three requests for each part and each command of the readout.
pub fn a_poll_ends_in_a_reading()
    ensures { PollsEnd }
{}

/// Such a poll exists of each meter that may be read.
pub fn a_poll_may_be_served()
    ensures { PollsAreServed }
{}
