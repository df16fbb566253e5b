//! Writes the next root.

ghost use Rattle.std.specs.Prelude.{◌≡◌, ◌≢◌, ◌<◌, ◌≤◌, ◌-◌, ◌^◌, ◌↔◌, ℕ, Option, IfOk, OnOk};
ghost use Rattle.std.specs.Prelude.{IsErrOf};
ghost use Rattle.dc_sectors.specs.declared.sector.Sector.TheVariants.{Bytes};
ghost use Rattle.dc_sectors.specs.Disk.{IsImage, put, added};
ghost use Rattle.dc_sectors.specs.Runs.{LeavesOnly, Counts};
ghost use Rattle.dc_roots.specs.Root.{IsRoot, next_of, root_bytes, slot};

use crate::format::sector_of;
use crate::{Root, RootFault};
use dc_sectors::{Disk, Failed};

/// Writes that root with its generation + 1 into the slot of that generation, and returns it. It
/// doesn't sync, and no other sector is written.
///
/// # Errors
///
/// `Worn` if the generation is `u64::MAX`, with the disk unchanged; `Device` if the write failed.
pub fn write_next<D: Disk>(disk: &mut D, root: &Root) -> Result<Root, RootFault>
    requires slots { 2 < D.sectors disk.old }
    requires half { root.now.half ≤ 1 }
    ensures next { IfOk result (λ next. next ≡ next_of root.now) }
    ensures is_root { root.now.generation < 2 ^ 64 - 1
        → IsRoot (next_of root.now) (Bytes (root_bytes (next_of root.now))) }
    ensures worn { IsErrOf result RootFault.Worn ↔ (root.now.generation ≡ 2 ^ 64 - 1) }
    ensures unchanged { IsErrOf result RootFault.Worn → disk.new ≡ disk.old }
    ensures reads { OnOk result (D.reads disk.new
        ≡ put (D.reads disk.old) (slot (next_of root.now).generation)
        (root_bytes (next_of root.now))) }
    ensures elsewhere { (m : ℕ) → m ≢ slot (next_of root.now).generation
        → D.reads disk.new m ≡ D.reads disk.old m }
    ensures choices { OnOk result (D.choices disk.new
        ≡ added (D.choices disk.old) (slot (next_of root.now).generation)
        (root_bytes (next_of root.now))) }
    ensures any_moment { LeavesOnly D.Disk disk.old disk.new
        (IsImage (added (D.choices disk.old) (slot (next_of root.now).generation)
        (root_bytes (next_of root.now)))) }
    ensures not_rootless { (unreadable : Option ℕ) → IsErrOf result (RootFault.NoRoot unreadable)
        → ⊥ }
    ensures before { D.keeps disk.new → D.keeps disk.old }
    ensures counts { Counts D.Disk disk.old disk.new (IsErrOf result RootFault.Device) }
{
    let Some(generation) = root.generation.checked_add(1) else {
        return Err(RootFault::Worn);
    };
    let next = Root {
        generation,
        ..*root
    };
    let slot = 1 + (generation % 2) as u32;
    match disk.write(slot, &sector_of(&next)) {
        Ok(()) => Ok(next),
        Err(Failed) => Err(RootFault::Device),
    }
}
