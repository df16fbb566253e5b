//! A test of an order.

ghost use Rattle.std.specs.Prelude.{◌↔◌, IsTrue};
ghost use Rattle.mbdc_audit.specs.Consumption.Order.{IsInOrder};

use crate::consumption::Entry;

/// Whether the entries are in order of moment. Several may have one moment, as at an exchange.
pub fn is_in_order(entries: &[Entry]) -> bool
    ensures { IsTrue result ↔ IsInOrder entries.now }
{
    let mut last = 0;
    for entry in entries {
        if entry.moment < last {
            return false;
        }
        last = entry.moment;
    }
    true
}
