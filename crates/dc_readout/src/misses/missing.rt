//! Which failures of a readout are failed tries.

ghost use Rattle.std.specs.Prelude.{◌≡◌};
ghost use Rattle.dc_readout.specs.Missing.{is_missing};

use crate::Why;

/// Whether a readout that fails so had no answer of the meter itself: its last try is a failed one.
pub fn is_missing(why: &Why) -> bool
    ensures { result ≡ is_missing why.now }
{
    match why {
        Why::NoAnswer | Why::WrongFrame | Why::WrongAddress | Why::Stranger => true,
        Why::ApplicationError | Why::Content(_) | Why::TooManyParts => false,
    }
}
