//! The serials under a key of an index.

ghost use Rattle.std.specs.Prelude.{◌≡◌};
ghost use Rattle.std.specs.List.Sorted.{IsStrictlySortedBy};
ghost use Rattle.dc_meters.specs.Orders.{filed_cmp, serials_under};

use crate::Filed;
use std::alloc::Allocator;
use std::collections::BTreeSet;
use std::collections::btree_set::Range;
use std::marker::Model;

/// Serials of readings, ascending. Contracts see the list of those still to come.
#[derive(Drop)]
pub struct Serials<'a, K> {
    filed: Range<'a, Filed<K>>,
}

impl<'a, K> Model for Serials<'a, K> {
    ghost use Rattle.std.specs.Prelude.{List, ℕ, map};

    ghost Value = { List ℕ };

    ghost view = { λ s. map (λ f. f.serial) s.filed };
}

impl<'a, K: Ord + Copy + Drop> Serials<'a, K> {
    /// The serials under a key.
    pub(crate) fn under<A: Allocator>(order: &'a BTreeSet<Filed<K>, A>, key: K) -> Serials<'a, K>
        ensures serials { result ≡ serials_under K.cmp key order.now.keys }
        ensures ordered { IsStrictlySortedBy (filed_cmp K.cmp) order.now.keys }
    {
        let first = Filed { key, serial: 0 };
        let last = Filed {
            key,
            serial: u64::MAX,
        };
        Serials {
            filed: order.range(first..=last),
        }
    }
}

impl<'a, K> Iterator for Serials<'a, K> {
    ghost use Rattle.std.specs.Iterator.{YieldsFirst, item_count};

    type Item = u64;

    ghost next_gives = { YieldsFirst (λ s. s) };

    ghost remaining = { item_count (λ s. s) };

    fn next(&mut self) -> Option<u64> {
        let filed = self.filed.next()?;
        Some(filed.serial)
    }
}
