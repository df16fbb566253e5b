//! What a place consumed in a period.

ghost use Rattle.std.specs.Prelude.{◌≡◌, ◌≤◌};
ghost use Rattle.mbdc_audit.specs.Consumption.Order.{IsInOrder};
ghost use Rattle.mbdc_audit.specs.Consumption.Period.{checked, consumption};

use crate::consumption::checked::difference;
use crate::consumption::reached::Reached;
use crate::consumption::walk::{amount_at, walk};
use crate::consumption::{AmountFault, Entry};

/// What the place consumed from a moment to another, or `None` where one of them is before its
/// first entry or after its last one.
///
/// # Errors
/// [`AmountFault::TooLarge`] if it is 2^64 or more.
pub fn consumption(entries: &[Entry], from: u64, to: u64) -> Result<Option<u64>, AmountFault>
    requires order { IsInOrder entries.now }
    requires period { from ≤ to }
    ensures { result ≡ checked (consumption entries.now from to) }
{
    let first = walk(entries, Reached { count: 0, sum: 0 }, from);
    let last = walk(entries, first, to);
    let before = amount_at(entries, first, from);
    let after = amount_at(entries, last, to);
    difference(before, after)
}
