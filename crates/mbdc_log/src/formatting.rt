//! Formats a disk.

ghost use Rattle.std.specs.Prelude.{◌≡◌, ◌⊎◌, ◌<◌, ◌≤◌, ◌+◌, ◌*◌, ◌^◌, ◌↔◌, ℕ, OnOk, IsErr};
ghost use Rattle.std.specs.Prelude.{IsErrOf};
ghost use Rattle.dc_sectors.specs.Disk.{IsImage};
ghost use Rattle.dc_sectors.specs.Runs.{LeavesOnly, Counts, IsSettled};
ghost use Rattle.dc_roots.specs.declared.root.Root.{Root};
ghost use Rattle.dc_roots.specs.Choice.{HasRoot};
ghost use Rattle.mbdc_log.specs.declared.fault.FormatFault.TheVariants.{TooSmall};
ghost use Rattle.mbdc_log.specs.declared.fault.FormatFault.TheVariants.{AlreadyFormatted};
ghost use Rattle.mbdc_log.specs.declared.fault.FormatFault.TheVariants.{Device};
ghost use Rattle.mbdc_log.specs.Halves.{half_of, shortest_half, longest_half};
ghost use Rattle.mbdc_log.specs.Halves.{fewest_sectors, SparesRest};
ghost use Rattle.mbdc_log.specs.Roots.{first_root};
ghost use Rattle.mbdc_log.specs.Stands.{IsReadyFor, IsUnformatted, IsBlankOrEmpty, IsFormatting};
ghost use Rattle.mbdc_log.specs.Stands.{IsWiped, blank};

use crate::FormatFault;
use crate::halves::{FEWEST_SECTORS, half_end, half_len_of};
use crate::reading::VERSION;
use crate::rooting::put_root;
use crate::sites::base_site;
use crate::writing::write_group;
use dc_roots::{Root, RootFault, choose};
use dc_sectors::{Disk, Failed};
use mbdc_io::kept::Kept;

/// The session of the first groups and of the first root.
const FIRST_SESSION: u64 = 1;

/// Writes zeros to the sectors from 1 up to that one.
fn blank_sectors<D: Disk>(disk: &mut D, end: u32) -> Result<(), Failed>
    requires { end ≤ D.sectors disk.old }
    ensures blank { OnOk result ((k : ℕ) → 1 ≤ k → k < end → D.reads disk.new k ≡ blank) }
    ensures any_moment { IsSettled D.Disk disk.old
        → LeavesOnly D.Disk disk.old disk.new (IsWiped (D.reads disk.old)) }
    ensures elsewhere { (m : ℕ) → (m < 1) ⊎ (end ≤ m) → D.reads disk.new m ≡ D.reads disk.old m }
    ensures before { D.keeps disk.new → D.keeps disk.old }
    ensures counts { Counts D.Disk disk.old disk.new (IsErr result) }
{
    let zeros = [0; 512];
    for n in 1..end {
        disk.write(n, &zeros)?;
    }
    Ok(())
}

/// Lays out an image of the first state: zeros, the base group, and then the root.
fn lay_out<K: Kept, D: Disk>(disk: &mut D, half_len: u32) -> Result<(), Failed>
    requires some { shortest_half ≤ half_len }
    requires most { half_len ≤ longest_half }
    requires fits { 3 + 2 * half_len ≤ D.sectors disk.old }
    ensures ready { OnOk result (IsReadyFor K.Language half_len (first_root half_len) K.empty
        (D.reads disk.new)) }
    ensures durable { OnOk result (IsSettled D.Disk disk.new) }
    ensures any_moment { IsSettled D.Disk disk.old → IsUnformatted (D.reads disk.old)
        → LeavesOnly D.Disk disk.old disk.new (IsBlankOrEmpty K.Language half_len) }
    ensures elsewhere { SparesRest half_len (D.reads disk.old) (D.reads disk.new) }
    ensures before { D.keeps disk.new → D.keeps disk.old }
    ensures counts { Counts D.Disk disk.old disk.new (IsErr result) }
{
    blank_sectors(disk, half_end(half_len, 1))?;
    disk.sync()?;
    let root = Root {
        version: VERSION,
        half: 0,
        generation: 0,
        session: FIRST_SESSION,
        base_sequence: 1,
        half_len,
    };
    write_group(
        disk,
        base_site(half_len, &root),
        root.session,
        K::empty_bytes(),
    )?;
    disk.sync()?;
    match put_root(disk, &root) {
        Ok(_) => Ok(()),
        Err(_) => Err(Failed),
    }
}

/// Formats a borrowed disk.
pub(crate) fn format_on<K: Kept, D: Disk>(disk: &mut D) -> Result<(), FormatFault>
    ensures too_small { IsErrOf result TooSmall ↔ (D.sectors disk.old < fewest_sectors) }
    ensures untouched { IsErrOf result TooSmall → disk.new ≡ disk.old }
    ensures already { D.keeps disk.new → IsErrOf result AlreadyFormatted → (root : Root)
        × HasRoot root (D.reads disk.old) }
    ensures spared { D.keeps disk.new → (root : Root) → HasRoot root (D.reads disk.old)
        → D.reads disk.new ≡ D.reads disk.old }
    ensures spares_images { D.keeps disk.new → (root : Root) → HasRoot root (D.reads disk.old)
        → LeavesOnly D.Disk disk.old disk.new (IsImage (D.choices disk.old)) }
    ensures any_moment { D.keeps disk.new
        → LeavesOnly D.Disk disk.old disk.new
        (IsFormatting K.Language (half_of D.Disk disk.old) (D.choices disk.old)) }
    ensures never_over { D.keeps disk.new → (root : Root) → HasRoot root (D.reads disk.old)
        → OnOk result ⊥ }
    ensures ready { OnOk result (IsReadyFor K.Language (half_of D.Disk disk.old)
        (first_root (half_of D.Disk disk.old)) K.empty (D.reads disk.new)) }
    ensures durable { OnOk result (IsSettled D.Disk disk.new) }
    ensures elsewhere { SparesRest (half_of D.Disk disk.old) (D.reads disk.old) (D.reads disk.new) }
    ensures before { D.keeps disk.new → D.keeps disk.old }
    ensures counts { Counts D.Disk disk.old disk.new (IsErrOf result Device) }
{
    let count = disk.count();
    if count < FEWEST_SECTORS {
        return Err(FormatFault::TooSmall);
    }
    match disk.sync() {
        Ok(()) => {}
        Err(Failed) => return Err(FormatFault::Device),
    }
    match choose(disk) {
        Ok(_) => return Err(FormatFault::AlreadyFormatted),
        Err(RootFault::NoRoot(_)) => {}
        Err(_) => return Err(FormatFault::Device),
    }
    match lay_out::<K, D>(disk, half_len_of(count)) {
        Ok(()) => Ok(()),
        Err(Failed) => Err(FormatFault::Device),
    }
}
