//! The register of an image that is only read.

ghost use Rattle.std.specs.Prelude.{◌≡◌, ◌⊎◌, ◌<◌, ◌≤◌, Err, IfErr, IfOk, IsErrOf};
ghost use Rattle.dc_sectors.specs.Runs.{OnlyLooked, Counts};
ghost use Rattle.mbdc_ending.specs.Fault.{IfOpen};
ghost use Rattle.mbdc_log.specs.Halves.{fewest_sectors, half_len_of};
ghost use Rattle.mbdc_log.specs.declared.fault.OpenFault.TheVariants.{NotImage, Worn, Device};
ghost use Rattle.dc_core.specs.PendingImages.{IsUnread};
ghost use Rattle.mbdc_looks.specs.Register.{IsRegisterOf};

use crate::look::wear_of;
use dc_meters::House;
use dc_sectors::Disk;
use mbdc_ending::ProgramFault;
use mbdc_log::{FEWEST_SECTORS, Greatest, OpenFault, half_len_of, read_chain};
use std::alloc::Allocator;

/// Reads the register of an image, as opening reads it, and a sector that is ahead of it, if a scan of the halves found
/// one. Nothing is written.
///
/// # Errors
/// [`ProgramFault::Open`] where the image wouldn't be opened, and [`ProgramFault::NoMemory`].
pub fn register_of<A: Allocator + Copy, D: Disk>(
    alloc: A,
    disk: &mut D,
    greatest: &Greatest,
) -> Result<(House<A>, Option<u32>), ProgramFault>
    ensures read { D.keeps disk.new → IfOk result (λ read.
        IsRegisterOf (D.sectors disk.old) greatest.now (D.reads disk.old) read.0 read.1) }
    ensures small { D.sectors disk.old < fewest_sectors
        → result ≡ Err (ProgramFault.Open NotImage) }
    ensures refused { D.keeps disk.new → fewest_sectors ≤ D.sectors disk.old
        → IfErr result (λ fault. IfOpen fault (λ e. (e ≡ Worn)
        ⊎ IsUnread (half_len_of (D.sectors disk.old)) (D.reads disk.old) e)) }
    ensures looked { OnlyLooked D.Disk disk.old disk.new }
    ensures counts { Counts D.Disk disk.old disk.new (IsErrOf result (ProgramFault.Open Device)) }
{
    let sectors = disk.count();
    if sectors < FEWEST_SECTORS {
        return Err(ProgramFault::Open(OpenFault::NotImage));
    }
    match read_chain(alloc, disk, half_len_of(sectors)) {
        Ok(found) => match wear_of(&found.root, found.last) {
            Some(fault) => Err(ProgramFault::Open(fault)),
            None => {
                let ahead = greatest.ahead_of(found.root.session, found.last);
                Ok((found.house, ahead))
            }
        },
        Err(OpenFault::NoMemory) => Err(ProgramFault::NoMemory),
        Err(fault) => Err(ProgramFault::Open(fault)),
    }
}
