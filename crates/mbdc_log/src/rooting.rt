//! Puts the next root in force.

ghost use Rattle.std.specs.Prelude.{◌≡◌, ◌≢◌, ◌<◌, ◌≤◌, ◌-◌, ◌^◌, ◌↔◌, ℕ, Option, IfOk, OnOk};
ghost use Rattle.std.specs.Prelude.{IsErrOf};
ghost use Rattle.dc_sectors.specs.Runs.{LeavesOnly, Counts, IsSettled};
ghost use Rattle.dc_roots.specs.Root.{next_of, slot};
ghost use Rattle.dc_roots.specs.Choice.{IsRootWrite};
ghost use Rattle.mbdc_log.specs.Roots.{IsRootDone};

use dc_roots::{Root, RootFault, write_next};
use dc_sectors::{Disk, Failed};

/// Writes that root with its generation + 1 into the other slot, and syncs. Until then the old root
/// or the next one is in force.
pub(crate) fn put_root<D: Disk>(disk: &mut D, root: &Root) -> Result<Root, RootFault>
    requires slots { 2 < D.sectors disk.old }
    requires half { root.now.half ≤ 1 }
    ensures next { IfOk result (λ next. next ≡ next_of root.now) }
    ensures worn { IsErrOf result RootFault.Worn ↔ (root.now.generation ≡ 2 ^ 64 - 1) }
    ensures unchanged { IsErrOf result RootFault.Worn → disk.new ≡ disk.old }
    ensures not_rootless { (unreadable : Option ℕ) → IsErrOf result (RootFault.NoRoot unreadable)
        → ⊥ }
    ensures done { IsSettled D.Disk disk.old
        → OnOk result (IsRootDone (next_of root.now) (D.reads disk.old) (D.reads disk.new)) }
    ensures durable { OnOk result (IsSettled D.Disk disk.new) }
    ensures any_moment { IsSettled D.Disk disk.old
        → LeavesOnly D.Disk disk.old disk.new (IsRootWrite (next_of root.now) (D.reads disk.old)) }
    ensures elsewhere { (m : ℕ) → m ≢ slot (next_of root.now).generation
        → D.reads disk.new m ≡ D.reads disk.old m }
    ensures before { D.keeps disk.new → D.keeps disk.old }
    ensures counts { Counts D.Disk disk.old disk.new (IsErrOf result RootFault.Device) }
{
    if root.generation == u64::MAX {
        return Err(RootFault::Worn);
    }
    let next = write_next(disk, root)?;
    match disk.sync() {
        Ok(()) => Ok(next),
        Err(Failed) => Err(RootFault::Device),
    }
}
