//! Looks for sectors that are ahead of the state that an image reads as.

ghost use Rattle.std.specs.Prelude.{◌≡◌, ◌<◌, ◌≤◌, ◌+◌, ◌*◌, ◌-◌, ◌↔◌, IfOk, IfErr, IsErr, IsErrOf};
ghost use Rattle.std.specs.Prelude.{IsTrue, OnOk, Ok, Err, None};
ghost use Rattle.dc_sectors.specs.declared.sector.Sector.TheVariants.{Bytes};
ghost use Rattle.dc_sectors.specs.Disk.{IsImage};
ghost use Rattle.dc_sectors.specs.Runs.{OnlyLooked, LeavesOnly, Counts, IsSettled};
ghost use Rattle.mbdc_log.specs.Behind.{IsBehindAt};
ghost use Rattle.mbdc_log.specs.Halves.{fewest_sectors, half_of, longest_half};
ghost use Rattle.mbdc_log.specs.Refusal.{IsUnread};
ghost use Rattle.mbdc_log.specs.Stands.{EachStands, IsAhead, IsFirstAhead, Stands};
ghost use Rattle.mbdc_log.specs.declared.fault.OpenFault.TheVariants.{NotImage, Device};

use crate::OpenFault;
use crate::halves::{FEWEST_SECTORS, FIRST_SECTOR, half_end, half_len_of};
use crate::reading::{Found, read_image};
use dc_pages::stamp_of;
use dc_sectors::{Disk, Failed, ReadFault};
use mbdc_io::kept::Kept;

/// Whether bytes are those of a sector that is ahead of a session and of the sequence after the last one.
fn is_ahead(bytes: &[u8; 512], session: u64, last: u64) -> bool
    ensures { IsTrue result ↔ IsAhead session (last + 1) (Bytes bytes.now) }
{
    match stamp_of(bytes) {
        Some(stamp) => stamp.session > session || stamp.sequence.saturating_sub(last) > 1,
        None => false,
    }
}

/// Reads a sector and returns whether it is ahead. An unreadable one isn't.
fn reads_ahead<D: Disk>(disk: &mut D, n: u32, session: u64, last: u64) -> Result<bool, Failed>
    requires { n < D.sectors disk.old }
    ensures ahead { D.keeps disk.new
        → IfOk result (λ is. IsTrue is ↔ IsAhead session (last + 1) (D.reads disk.old n)) }
    ensures looked { OnlyLooked D.Disk disk.old disk.new }
    ensures counts { Counts D.Disk disk.old disk.new (IsErr result) }
{
    match disk.read(n) {
        Ok(bytes) => Ok(is_ahead(&bytes, session, last)),
        Err(ReadFault::Unreadable) => Ok(false),
        Err(ReadFault::Failed) => Err(Failed),
    }
}

/// Reads both halves and returns the first sector that is ahead, if one is.
pub(crate) fn first_ahead_of<D: Disk>(
    disk: &mut D,
    half_len: u32,
    session: u64,
    last: u64,
) -> Result<Option<u32>, Failed>
    requires most { half_len ≤ longest_half }
    requires fits { 3 + 2 * half_len ≤ D.sectors disk.old }
    ensures first { D.keeps disk.new → IfOk result (λ ahead.
        IsFirstAhead half_len session (last + 1) ahead (D.reads disk.old)) }
    ensures looked { OnlyLooked D.Disk disk.old disk.new }
    ensures counts { Counts D.Disk disk.old disk.new (IsErr result) }
{
    for n in FIRST_SECTOR..half_end(half_len, 1) {
        if reads_ahead(disk, n, session, last)? {
            return Ok(Some(n));
        }
    }
    Ok(None)
}

/// Returns the first sector that is ahead of the state that an image reads as, if one is. Such an image has lost a
/// sector that had been synced, which no crash does: opening it would go on from an older state. Nothing is written and
/// nothing is synced.
///
/// # Errors
/// Why the image reads as no state. An exhausted counter is no error here.
pub fn first_ahead<K: Kept, D: Disk>(
    alloc: K::Alloc,
    disk: &mut D,
) -> Result<Option<u32>, OpenFault>
    ensures small { D.sectors disk.old < fewest_sectors → result ≡ Err NotImage }

    // None exactly where the image stands for a state; else it reads as one, and this is the first sector that is
    // ahead.
    ensures told { D.keeps disk.new → IfOk result (λ ahead.
        IsBehindAt K.Language (half_of D.Disk disk.old) ahead (D.reads disk.old)) }
    ensures none { (state : K.State) → Stands K.Language (half_of D.Disk disk.old) state (D.reads disk.old)
        → D.keeps disk.new → IfOk result (λ ahead. ahead ≡ None) }

    // Err only where the image reads as no state, or where the device or memory failed.
    ensures refused { fewest_sectors ≤ D.sectors disk.old
        → D.keeps disk.new
        → IfErr result (λ fault. IsUnread K.Language (half_of D.Disk disk.old) (D.reads disk.old) fault) }
    ensures looked { OnlyLooked D.Disk disk.old disk.new }
    ensures counts { Counts D.Disk disk.old disk.new (IsErrOf result Device) }
{
    let count = disk.count();
    if count < FEWEST_SECTORS {
        return Err(OpenFault::NotImage);
    }
    let (_, ahead) = read_image::<K, D>(alloc, disk, half_len_of(count))?;
    Ok(ahead)
}

/// Makes what the image reads as durable, and returns the first sector that is ahead, as [`first_ahead`]. A program
/// calls it before it opens an image to write it: where no sector is ahead, each image that a crash may leave from then
/// on stands for a state, whatever wrote the image and whatever became of it. That is the premise of opening.
///
/// # Errors
/// As [`first_ahead`]; and [`OpenFault::Device`] where the sync failed.
pub fn settled_ahead<K: Kept, D: Disk>(
    alloc: K::Alloc,
    disk: &mut D,
) -> Result<Option<u32>, OpenFault>
    ensures small { D.sectors disk.old < fewest_sectors → result ≡ Err NotImage }
    ensures stands { D.keeps disk.new → result ≡ Ok None
        → EachStands K.Language (half_of D.Disk disk.new) (D.choices disk.new) }
    ensures told { D.keeps disk.new → IfOk result (λ ahead.
        IsBehindAt K.Language (half_of D.Disk disk.old) ahead (D.reads disk.old)) }
    ensures none { (state : K.State) → Stands K.Language (half_of D.Disk disk.old) state (D.reads disk.old)
        → D.keeps disk.new → IfOk result (λ ahead. ahead ≡ None) }
    ensures refused { fewest_sectors ≤ D.sectors disk.old
        → D.keeps disk.new
        → IfErr result (λ fault. IsUnread K.Language (half_of D.Disk disk.old) (D.reads disk.old) fault) }
    ensures unwritten { D.reads disk.new ≡ D.reads disk.old }
    ensures durable { OnOk result (IsSettled D.Disk disk.new) }
    ensures spares { LeavesOnly D.Disk disk.old disk.new (IsImage (D.choices disk.old)) }
    ensures before { D.keeps disk.new → D.keeps disk.old }
    ensures counts { Counts D.Disk disk.old disk.new (IsErrOf result Device) }
{
    if disk.count() < FEWEST_SECTORS {
        return Err(OpenFault::NotImage);
    }
    match disk.sync() {
        Ok(()) => {}
        Err(Failed) => return Err(OpenFault::Device),
    }
    first_ahead::<K, D>(alloc, disk)
}
