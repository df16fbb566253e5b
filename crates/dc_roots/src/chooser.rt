//! Chooses the root in force.

ghost use Rattle.std.specs.Prelude.{◌≡◌, ◌<◌, ◌≤◌, IfOk, IsErrOf, IsErr};
ghost use Rattle.dc_sectors.specs.declared.sector.Sector.TheVariants.{Bytes};
ghost use Rattle.dc_sectors.specs.Disk.{Image, IsImage};
ghost use Rattle.dc_sectors.specs.Runs.{Passes, LeavesOnly, Counts};
ghost use Rattle.dc_roots.specs.Choice.{IsChoice};
ghost use Rattle.dc_roots.specs.Held.{IsHeld, NamesHalf};

use crate::format::root_of;
use crate::{Root, RootFault};
use dc_sectors::{Disk, Failed, ReadFault};

/// The contents of a root slot.
#[derive(Clone, Copy)]
pub enum Held {
    /// A valid root that belongs to the slot.
    Valid(Root),
    /// Readable, without a valid root.
    Other,
    /// Unreadable.
    Lost,
}

/// The contents of a slot with these bytes.
fn held_by(bytes: &[u8; 512], slot: u32) -> Held
    ensures held { IsHeld slot (Bytes bytes.now) result }
    ensures half { NamesHalf result }
{
    match root_of(bytes) {
        None => Held::Other,
        Some(root) => {
            if root.slot() == slot {
                Held::Valid(root)
            } else {
                Held::Other
            }
        }
    }
}

/// Reads a slot: sector 1 or 2 of the disk. An unreadable sector is no failure.
pub fn read_slot<D: Disk>(disk: &mut D, slot: u32) -> Result<Held, Failed>
    requires { slot < D.sectors disk.old }
    ensures held { D.keeps disk.new → IfOk result (IsHeld slot (D.reads disk.old slot)) }
    ensures half { IfOk result NamesHalf }
    ensures reads { D.reads disk.new ≡ D.reads disk.old }
    ensures choices { D.choices disk.new ≡ D.choices disk.old }
    ensures time { Passes D.Disk disk.old disk.new (IsImage (D.choices disk.old)) }
    ensures before { D.keeps disk.new → D.keeps disk.old }
    ensures counts { Counts D.Disk disk.old disk.new (IsErr result) }
{
    match disk.read(slot) {
        Ok(bytes) => Ok(held_by(&bytes, slot)),
        Err(ReadFault::Unreadable) => Ok(Held::Lost),
        Err(ReadFault::Failed) => Err(Failed),
    }
}

/// Chooses between the contents of the two slots.
fn newer(first: Held, second: Held) -> Result<Root, RootFault>
    ensures choice { (image : Image) → IsHeld 1 (image 1) first → IsHeld 2 (image 2) second
        → IsChoice image result }
    ensures half { NamesHalf first → NamesHalf second → IfOk result (λ root. root.half ≤ 1) }
    ensures no_device { IsErrOf result RootFault.Device → ⊥ }
    ensures not_worn { IsErrOf result RootFault.Worn → ⊥ }
{
    match first {
        Held::Valid(a) => match second {
            Held::Valid(b) => {
                if a.generation < b.generation {
                    Ok(b)
                } else {
                    Ok(a)
                }
            }
            Held::Other => Ok(a),
            Held::Lost => Ok(a),
        },
        Held::Other => match second {
            Held::Valid(b) => Ok(b),
            Held::Other => Err(RootFault::NoRoot(None)),
            Held::Lost => Err(RootFault::NoRoot(Some(2))),
        },
        Held::Lost => match second {
            Held::Valid(b) => Ok(b),
            Held::Other => Err(RootFault::NoRoot(Some(1))),
            Held::Lost => Err(RootFault::NoRoot(Some(1))),
        },
    }
}

/// Reads both slots and returns the valid root of the greater generation.
///
/// # Errors
///
/// `NoRoot` if neither slot has a valid root, with the first unreadable one, if any; `Device` if a
/// read failed.
pub fn choose<D: Disk>(disk: &mut D) -> Result<Root, RootFault>
    requires { 2 < D.sectors disk.old }
    ensures choice { D.keeps disk.new → IsChoice (D.reads disk.old) result }
    ensures half { IfOk result (λ root. root.half ≤ 1) }
    ensures not_worn { IsErrOf result RootFault.Worn → ⊥ }
    ensures reads { D.reads disk.new ≡ D.reads disk.old }
    ensures choices { D.choices disk.new ≡ D.choices disk.old }
    ensures any_moment { LeavesOnly D.Disk disk.old disk.new (IsImage (D.choices disk.old)) }
    ensures before { D.keeps disk.new → D.keeps disk.old }
    ensures counts { Counts D.Disk disk.old disk.new (IsErrOf result RootFault.Device) }
{
    let first = match read_slot(disk, 1) {
        Ok(held) => held,
        Err(Failed) => return Err(RootFault::Device),
    };
    let second = match read_slot(disk, 2) {
        Ok(held) => held,
        Err(Failed) => return Err(RootFault::Device),
    };
    newer(first, second)
}
