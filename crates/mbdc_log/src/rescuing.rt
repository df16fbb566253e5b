//! Rescues the state of an image whose chain is broken, and writes a state into a new image.

ghost use Rattle.std.specs.Prelude.{◌≡◌, ◌≢◌, ◌⊎◌, ◌<◌, ◌≤◌, ◌+◌, ◌*◌, ℕ, true, false, Err};
ghost use Rattle.std.specs.Prelude.{Ok, None, IfOk, IfErr, IfSome, IsErrOf, MatchOption};
ghost use Rattle.dc_sectors.specs.Disk.{Image, IsImage};
ghost use Rattle.dc_sectors.specs.Runs.{Counts, IsSettled};
ghost use Rattle.mbdc_log.specs.declared.fault.OpenFault.TheVariants.{NotImage, Damaged, Device, NoMemory};
ghost use Rattle.mbdc_log.specs.Greatest.{IsGreatest};
ghost use Rattle.mbdc_log.specs.Halves.{budget_of, fewest_sectors, half_of, longest_half};
ghost use Rattle.mbdc_log.specs.Refusal.{IsUnread, TellsOfImage};
ghost use Rattle.mbdc_log.specs.Rescue.{HasNoOlder, IsLost, IsRescued, IsSlot, IsRenewRefused, Stops};
ghost use Rattle.mbdc_log.specs.Rescue.{sector_in, without};
ghost use Rattle.mbdc_log.specs.Stands.{IsRead, Stands};

use crate::greatest::{Greatest, greatest_of};
use crate::halves::{FEWEST_SECTORS, half_end, half_len_of};
use crate::reading::{Found, read_chain};
use crate::{FormatFault, Log, OpenFault, StoreFault};
use dc_roots::{RootFault, choose};
use dc_sectors::{Disk, Failed, ReadFault};
use mbdc_io::kept::{Kept, KeptIn, Subject};
use std::marker::PhantomData;

/// The part of an image that a rescued state is read from.
#[derive(Clone, Copy)]
pub enum Source {
    /// The whole image: it reads as the state.
    Whole,
    /// All but this sector, where reading the whole image stops: the state before the group that begins there.
    Without(u32),
    /// All but the root in force, whose slot is the second number: the state that the older root leads to. Reading the
    /// whole image stops at the first number. A compaction may be lost.
    OtherRoot(u32, u32),
}

/// A state that is rescued, and what the image says of what is lost.
#[derive(Drop)]
pub struct Rescued<K: Kept> {
    /// The state, the root and the last group that it is read from.
    pub found: Found<K>,
    /// The part of the image that it is read from.
    pub source: Source,
    /// The greatest session and sequence of the whole image. Groups after `found.last`, up to that sequence, were
    /// written and aren't in the state; of later ones that were lost whole nothing is left.
    pub greatest: Greatest,
}

/// Why a state wasn't written into a new image.
#[derive(Clone, Copy)]
pub enum RenewFault {
    /// The disk wasn't formatted.
    Format(FormatFault),
    /// The image that was formatted wasn't opened.
    Open(OpenFault),
    /// The state wasn't written.
    Store(StoreFault),
}

/// Whether a fault is a fact of the image. The others are the device's and memory's.
fn is_of_image(fault: OpenFault) -> bool
    ensures of_image { result ≡ true → TellsOfImage fault }
    ensures other { result ≡ false → (fault ≡ Device) ⊎ (fault ≡ NoMemory) }
{
    match fault {
        OpenFault::Device | OpenFault::NoMemory => false,
        OpenFault::NotImage | OpenFault::Damaged(_) | OpenFault::Version | OpenFault::Worn => true,
    }
}

/// Clears a sector, and reads the image without it, if it leads to a state.
fn read_without<K: Kept, D: Disk>(
    alloc: K::Alloc,
    copy: &mut D,
    half_len: u32,
    n: u32,
) -> Result<Option<Found<K>>, OpenFault>
    requires n { n < D.sectors copy.old }
    requires most { half_len ≤ longest_half }
    requires fits { 3 + 2 * half_len ≤ D.sectors copy.old }
    ensures cleared { IfOk result (λ left. D.reads copy.new ≡ without n (D.reads copy.old)) }
    ensures left { D.keeps copy.new → IfOk result (λ left. MatchOption left
        (Stops K.Language half_len (without n (D.reads copy.old)))
        (λ found. IsRead K.Language half_len found.root found.place found.last (K.state found.house)
        (without n (D.reads copy.old)))) }
    ensures other { IfErr result (λ fault. (fault ≡ Device) ⊎ (fault ≡ NoMemory)) }
    ensures budget { IfOk result (λ left. IfSome left (λ found. K.limit found.house ≡ budget_of half_len)) }
    ensures before { D.keeps copy.new → D.keeps copy.old }
    ensures counts { Counts D.Disk copy.old copy.new (IsErrOf result Device) }
{
    match copy.write(n, &[0; 512]) {
        Ok(()) => {}
        Err(Failed) => return Err(OpenFault::Device),
    }
    match read_chain(alloc, copy, half_len) {
        Ok(found) => Ok(Some(found)),
        Err(fault) => {
            if is_of_image(fault) {
                Ok(None)
            } else {
                Err(fault)
            }
        }
    }
}

/// Reads the image without the root in force, if it leads to a state, and puts that root back. Returns its slot too.
fn read_older<K: Kept, D: Disk>(
    alloc: K::Alloc,
    copy: &mut D,
    half_len: u32,
) -> Result<Option<(Found<K>, u32)>, OpenFault>
    requires most { half_len ≤ longest_half }
    requires fits { 3 + 2 * half_len ≤ D.sectors copy.old }
    ensures back { D.keeps copy.new → IfOk result (λ older. D.reads copy.new ≡ D.reads copy.old) }
    ensures none { D.keeps copy.new → result ≡ Ok None → HasNoOlder K.Language half_len (D.reads copy.old) }
    ensures older { D.keeps copy.new → IfOk result (λ older. IfSome older (λ o. IsSlot o.1 (D.reads copy.old)
        × IsRead K.Language half_len o.0.root o.0.place o.0.last (K.state o.0.house)
        (without o.1 (D.reads copy.old)))) }
    ensures other { IfErr result (λ fault. (fault ≡ Device) ⊎ (fault ≡ NoMemory)) }
    ensures budget { IfOk result (λ older. IfSome older (λ o. K.limit o.0.house ≡ budget_of half_len)) }
    ensures before { D.keeps copy.new → D.keeps copy.old }
    ensures counts { Counts D.Disk copy.old copy.new (IsErrOf result Device) }
{
    let slot = match choose(copy) {
        Ok(root) => root.slot(),
        Err(RootFault::Device) => return Err(OpenFault::Device),
        Err(_) => return Ok(None),
    };
    let bytes = match copy.read(slot) {
        Ok(bytes) => bytes,
        Err(ReadFault::Unreadable) => return Ok(None),
        Err(ReadFault::Failed) => return Err(OpenFault::Device),
    };
    let left = read_without(alloc, copy, half_len, slot)?;
    match copy.write(slot, &bytes) {
        Ok(()) => {}
        Err(Failed) => return Err(OpenFault::Device),
    }
    match left {
        Some(found) => Ok(Some((found, slot))),
        None => Ok(None),
    }
}

/// The sector that a fault names, or else this one.
fn sector_in(at: u32, fault: OpenFault) -> u32
    ensures { result ≡ sector_in at fault }
{
    match fault {
        OpenFault::Damaged(n) => n,
        _ => at,
    }
}

/// Reads the image without the sector that a fault names, if it leads to a state. Returns the sector too.
fn read_before<K: Kept, D: Disk>(
    alloc: K::Alloc,
    copy: &mut D,
    half_len: u32,
    fault: OpenFault,
) -> Result<Option<(Found<K>, u32)>, OpenFault>
    requires most { half_len ≤ longest_half }
    requires fits { 3 + 2 * half_len ≤ D.sectors copy.old }
    ensures none { D.keeps copy.new → result ≡ Ok None → (n : ℕ) → fault ≡ Damaged n → n < 3 + 2 * half_len
        → Stops K.Language half_len (without n (D.reads copy.old)) }
    ensures before_it { D.keeps copy.new → IfOk result (λ left. IfSome left (λ f. (fault ≡ Damaged f.1)
        × IsRead K.Language half_len f.0.root f.0.place f.0.last (K.state f.0.house)
        (without f.1 (D.reads copy.old)))) }
    ensures other { IfErr result (λ f. (f ≡ Device) ⊎ (f ≡ NoMemory)) }
    ensures budget { IfOk result (λ left. IfSome left (λ f. K.limit f.0.house ≡ budget_of half_len)) }
    ensures before { D.keeps copy.new → D.keeps copy.old }
    ensures counts { Counts D.Disk copy.old copy.new (IsErrOf result Device) }
{
    let OpenFault::Damaged(n) = fault else {
        return Ok(None);
    };
    if n >= half_end(half_len, 1) {
        return Ok(None);
    }
    match read_without(alloc, copy, half_len, n)? {
        Some(found) => Ok(Some((found, n))),
        None => Ok(None),
    }
}

/// Reads what is left of an image: without the sector where reading stops, or by the older root.
fn read_parts<K: Kept, D: Disk>(
    alloc: K::Alloc,
    copy: &mut D,
    half_len: u32,
    fault: OpenFault,
) -> Result<(Found<K>, Source), OpenFault>
    requires of_image { TellsOfImage fault }
    requires most { half_len ≤ longest_half }
    requires fits { 3 + 2 * half_len ≤ D.sectors copy.old }
    ensures rescued { D.keeps copy.new → IsUnread K.Language half_len (D.reads copy.old) fault
        → IfOk result (λ found. IsRescued K.Language half_len found.1 found.0.root found.0.place found.0.last
        (K.state found.0.house) (D.reads copy.old)) }
    ensures lost { D.keeps copy.new → IsUnread K.Language half_len (D.reads copy.old) fault
        → IfErr result (λ f. TellsOfImage f → IsLost K.Language half_len f (D.reads copy.old)) }
    ensures refused { IfErr result (λ f. ((f ≡ Device) ⊎ (f ≡ NoMemory)) ⊎ (f ≡ fault)) }
    ensures budget { IfOk result (λ found. K.limit found.0.house ≡ budget_of half_len) }
    ensures before { D.keeps copy.new → D.keeps copy.old }
    ensures counts { Counts D.Disk copy.old copy.new (IsErrOf result Device) }
{
    let older = read_older(alloc, copy, half_len)?;
    match read_before(alloc, copy, half_len, fault)? {
        Some((found, n)) => return Ok((found, Source::Without(n))),
        None => {}
    }
    match older {
        Some((found, slot)) => Ok((found, Source::OtherRoot(sector_in(slot, fault), slot))),
        None => Err(fault),
    }
}

/// Rescues the state of an image: what it reads as; where its chain is broken, the state that the chain reads as up to
/// there; where the root in force leads to no state, that of the older root. Sectors are cleared in `copy`, so it has
/// to be a copy of the image, in memory.
///
/// # Errors
/// Why the image reads as no state, if it leads to none without the sector where reading stops, nor by the older root.
pub fn rescue<K: Kept, D: Disk>(alloc: K::Alloc, copy: &mut D) -> Result<Rescued<K>, OpenFault>
    ensures small { D.sectors copy.old < fewest_sectors → result ≡ Err NotImage }
    ensures rescued { D.keeps copy.new → IfOk result (λ r.
        IsRescued K.Language (half_of D.Disk copy.old) r.source r.found.root r.found.place r.found.last
        (K.state r.found.house) (D.reads copy.old)) }
    ensures greatest { D.keeps copy.new → IfOk result (λ r.
        IsGreatest (half_of D.Disk copy.old) r.greatest (D.reads copy.old)) }
    ensures refused { fewest_sectors ≤ D.sectors copy.old → D.keeps copy.new
        → IfErr result (λ fault. IsUnread K.Language (half_of D.Disk copy.old) (D.reads copy.old) fault) }
    ensures lost { fewest_sectors ≤ D.sectors copy.old → D.keeps copy.new → IfErr result (λ fault.
        TellsOfImage fault → IsLost K.Language (half_of D.Disk copy.old) fault (D.reads copy.old)) }
    ensures budget { IfOk result (λ r. K.limit r.found.house ≡ budget_of (half_of D.Disk copy.old)) }
    ensures before { D.keeps copy.new → D.keeps copy.old }
    ensures counts { Counts D.Disk copy.old copy.new (IsErrOf result Device) }
{
    let count = copy.count();
    if count < FEWEST_SECTORS {
        return Err(OpenFault::NotImage);
    }
    let half_len = half_len_of(count);
    let greatest = match greatest_of(copy, half_len) {
        Ok(greatest) => greatest,
        Err(Failed) => return Err(OpenFault::Device),
    };
    let fault = match read_chain(alloc, copy, half_len) {
        Ok(found) => {
            return Ok(Rescued {
                found,
                source: Source::Whole,
                greatest,
            });
        }
        Err(fault) => fault,
    };
    if !is_of_image(fault) {
        return Err(fault);
    }
    match read_parts(alloc, copy, half_len, fault) {
        Ok((found, source)) => Ok(Rescued {
            found,
            source,
            greatest,
        }),
        Err(fault) => Err(fault),
    }
}

/// What a store keeps, where it is of one type.
#[derive(Drop)]
struct Own<K: Kept> {
    of: PhantomData<K>,
}

impl<K: Kept> Subject for Own<K> {
    type Any = K;
}

impl<K: Kept> KeptIn<K::Alloc> for Own<K> {
    type Value = K;
}

/// Writes a state into a new image: formats the disk, opens the image, and writes the whole state into its other half.
/// Each image that a crash may leave then stands for that state. Up to then it stands for no other state but the first
/// one, or has no root.
///
/// # Errors
/// The first fault of the steps. The disk is returned.
pub fn renew<K: Kept, D: Disk + Drop>(
    alloc: K::Alloc,
    disk: D,
    kept: &K,
) -> Result<D, (RenewFault, D)>
    requires budget { K.limit kept.now ≤ budget_of (half_of D.Disk disk) }
    ensures stands { IfOk result (λ d. D.keeps d → (image : Image) → IsImage (D.choices d) image
        → Stands K.Language (half_of D.Disk d) (K.state kept.now) image) }
    ensures durable { IfOk result (λ d. D.keeps d → IsSettled D.Disk d) }
    // A fault is a fact: of a disk that keeps the disk model only its size, a root, a failure or memory is one.
    ensures refused { IfErr result (λ e. IsRenewRefused D.Disk disk e.1 e.0) }
{
    let disk = match Log::<D, Own<K>>::format(disk) {
        Ok(disk) => disk,
        Err((fault, disk)) => return Err((RenewFault::Format(fault), disk)),
    };
    let mut store = match Log::<D, Own<K>>::open(alloc, disk) {
        Ok((store, _)) => store,
        Err((fault, disk)) => return Err((RenewFault::Open(fault), disk)),
    };
    match store.compact(kept) {
        Ok(()) => Ok(store.close()),
        Err(fault) => Err((RenewFault::Store(fault), store.close())),
    }
}
