//! Writes the whole state into the other half.

ghost use Rattle.std.specs.Prelude.{◌≡◌, ◌<◌, ◌≤◌, ◌+◌, ◌-◌, ◌*◌, ◌^◌, ℕ, zero, suc, IfOk, OnOk, IsErr};
ghost use Rattle.dc_sectors.specs.Runs.{LeavesOnly, Counts, IsSettled};
ghost use Rattle.mbdc_log.specs.Halves.{half_start, half_end, budget_of, shortest_half};
ghost use Rattle.mbdc_log.specs.Halves.{longest_half, SparesRest};
ghost use Rattle.mbdc_log.specs.Roots.{compacted};
ghost use Rattle.mbdc_log.specs.Stands.{IsReady, StandsForEither};

use crate::reading::VERSION;
use crate::rooting::put_root;
use crate::sites::base_site;
use crate::writing::write_state;
use dc_roots::Root;
use dc_sectors::{Disk, Failed};
use mbdc_io::kept::Kept;

/// Writes a base group of this version with the state of `kept` into the other half and syncs, and
/// then puts the root in force that names it. Returns that root, and the place of the next group.
pub(crate) fn compact_into_other_half<K: Kept, D: Disk>(
    disk: &mut D,
    root: &Root,
    half_len: u32,
    sequence: u64,
    kept: &K,
) -> Result<(Root, u32), Failed>
    requires half { root.now.half ≤ 1 }
    requires some { shortest_half ≤ half_len }
    requires most { half_len ≤ longest_half }
    requires fits { 3 + 2 * half_len ≤ D.sectors disk.old }
    requires generation { root.now.generation < 2 ^ 64 - 1 }
    requires budget { K.limit kept.now ≤ budget_of half_len }
    ensures ready { IsSettled D.Disk disk.old → (m place : ℕ) (was : K.State)
        → IsReady K.Language half_len root.now m place was (D.reads disk.old)
        → sequence ≡ root.now.base_sequence + suc m
        → IfOk result (λ o. IsReady K.Language half_len o.0 zero o.1 (K.state kept.now) (D.reads disk.new)) }
    ensures any_moment { IsSettled D.Disk disk.old
        → (m place : ℕ) (was : K.State) → IsReady K.Language half_len root.now m place was (D.reads disk.old)
        → sequence ≡ root.now.base_sequence + suc m
        → LeavesOnly D.Disk disk.old disk.new (StandsForEither K.Language half_len was (K.state kept.now)) }
    ensures durable { OnOk result (IsSettled D.Disk disk.new) }
    ensures root { IfOk result (λ o. o.0 ≡ compacted root.now sequence) }
    ensures from { IfOk result (λ o. half_start half_len o.0.half ≤ o.1) }
    ensures within { IfOk result (λ o. o.1 ≤ half_end half_len o.0.half) }
    ensures elsewhere { SparesRest half_len (D.reads disk.old) (D.reads disk.new) }
    ensures before { D.keeps disk.new → D.keeps disk.old }
    ensures counts { Counts D.Disk disk.old disk.new (IsErr result) }
{
    let _size = kept.size(); // for what it says: the state is one within its budget
    let based = Root {
        version: VERSION,
        half: 1 - root.half,
        base_sequence: sequence,
        ..*root
    };
    let site = base_site(half_len, &based);
    let count = write_state(disk, site, root.session, kept)?;
    disk.sync()?;
    match put_root(disk, &based) {
        Ok(next) => Ok((next, site.first + count)),
        Err(_) => Err(Failed),
    }
}
