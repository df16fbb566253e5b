//! A walk over the entries of a place.

ghost use Rattle.std.specs.Prelude.{◌≡◌};
ghost use Rattle.mbdc_audit.specs.Consumption.Order.{IsInOrder};
ghost use Rattle.mbdc_audit.specs.Consumption.Curve.{curve};
ghost use Rattle.mbdc_audit.specs.Consumption.Reached.{IsBefore, HasReached};

use crate::consumption::Entry;
use crate::consumption::reached::Reached;

/// Walks on past the entries at the moment or before it.
pub(crate) fn walk(entries: &[Entry], from: Reached, moment: u64) -> Reached
    requires order { IsInOrder entries.now }
    requires before { IsBefore moment entries.now from }
    ensures { HasReached moment entries.now result }
{
    let mut count = from.count;
    let mut sum = from.sum;
    while count < entries.len() && entries[count].moment <= moment {
        if count > 0 {
            sum += u128::from(entries[count - 1].step_to(&entries[count]));
        }
        count += 1;
    }
    Reached { count, sum }
}

/// The curve at the moment that the walk has reached.
pub(crate) fn amount_at(entries: &[Entry], reached: Reached, moment: u64) -> Option<u128>
    requires order { IsInOrder entries.now }
    requires reached { HasReached moment entries.now reached }
    ensures { result ≡ curve entries.now moment }
{
    if reached.count == 0 {
        return None;
    }
    let last = entries[reached.count - 1];
    if reached.count < entries.len() {
        let share = last.share_to(&entries[reached.count], moment);
        return Some(reached.sum + u128::from(share));
    }
    if last.moment == moment {
        Some(reached.sum)
    } else {
        None
    }
}
