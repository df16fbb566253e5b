//! Reads an image: from the root in force to the state.

ghost use Rattle.std.specs.Prelude.{true, false, ◌≡◌, ◌≢◌, ◌⊎◌, ◌<◌, ◌≤◌, ◌+◌, ◌-◌, ◌*◌, ◌^◌, List};
ghost use Rattle.std.specs.Prelude.{ℕ, zero, suc, IfOk, IfErr, OnOk, OnErr, IsErrOf};
ghost use Rattle.dc_sectors.specs.Runs.{OnlyLooked, Counts};
ghost use Rattle.dc_roots.specs.declared.root.Root.{Root};
ghost use Rattle.mbdc_log.specs.declared.fault.OpenFault.{OpenFault};
ghost use Rattle.mbdc_log.specs.declared.fault.OpenFault.TheVariants.{Device};
ghost use Rattle.mbdc_log.specs.Halves.{half_start, half_end, budget_of, longest_half};
ghost use Rattle.mbdc_log.specs.Stands.{IsSequence, IsCurrent, IsReached, IsRead, Holds};
ghost use Rattle.mbdc_log.specs.Stands.{ReadsBy, Reads, IsFirstAhead};
ghost use Rattle.dc_pages.specs.Group.{IsKnown, IsComplete};
ghost use Rattle.mbdc_log.specs.Sites.{change_site};
ghost use Rattle.mbdc_log.specs.Refusal.{IsUnread};

use crate::OpenFault;
use crate::freshness::first_ahead_of;
use crate::halves::budget_of;
use crate::sites::{base_site, change_site};
use dc_pages::{GroupFault, read_group};
use dc_roots::{Root, RootFault, choose};
use dc_sectors::{Disk, Failed};
use mbdc_io::kept::{DecodeFault, Kept};

/// The version of the sectors that are written.
pub(crate) const VERSION: u8 = 2;

/// The older version, which is read too, and which opening converts to this one.
const FIRST_VERSION: u8 = 1;

/// Chooses the root in force, which must have a known version and halves of this length.
fn current_root<K: Kept, D: Disk>(disk: &mut D, half_len: u32) -> Result<Root, OpenFault>
    requires { 2 < D.sectors disk.old }
    ensures current { D.keeps disk.new
        → IfOk result (λ root. IsCurrent half_len root (D.reads disk.old)) }
    ensures half { IfOk result (λ root. root.half ≤ 1) }
    ensures known { IfOk result (λ root. IsKnown root.version) }
    ensures refused { D.keeps disk.new
        → IfErr result (λ fault. IsUnread K.Language half_len (D.reads disk.old) fault) }
    ensures looked { OnlyLooked D.Disk disk.old disk.new }
    ensures counts { Counts D.Disk disk.old disk.new (IsErrOf result Device) }
{
    match choose(disk) {
        Ok(root) => {
            if root.version != VERSION && root.version != FIRST_VERSION {
                Err(OpenFault::Version)
            } else if root.half_len != half_len {
                Err(OpenFault::Damaged(root.slot()))
            } else {
                Ok(root)
            }
        }
        Err(RootFault::NoRoot(None)) => Err(OpenFault::NotImage),
        Err(RootFault::NoRoot(Some(slot))) => Err(OpenFault::Damaged(slot)),
        Err(RootFault::Worn) | Err(RootFault::Device) => Err(OpenFault::Device),
    }
}

/// The content read so far: the root in force, the state, the place of the next group, and the
/// sequence of the last one.
#[derive(Drop)]
pub struct Found<K: Kept> {
    pub root: Root,
    pub house: K,
    pub place: u32,
    pub last: u64,
}

/// Reads the base group of the root in force.
fn read_base<K: Kept, D: Disk>(
    alloc: K::Alloc,
    disk: &mut D,
    root: Root,
    half_len: u32,
) -> Result<Found<K>, OpenFault>
    requires half { root.half ≤ 1 }
    requires most { half_len ≤ longest_half }
    requires fits { 3 + 2 * half_len ≤ D.sectors disk.old }
    ensures reached { D.keeps disk.new → IsCurrent half_len root (D.reads disk.old)
        → IfOk result (λ found. IsReached K.Language half_len root found.place found.last (K.state found.house)
        (D.reads disk.old)) }
    ensures root { IfOk result (λ found. found.root ≡ root) }
    ensures budget { IfOk result (λ found. K.limit found.house ≡ budget_of half_len) }
    ensures from { IfOk result (λ found. half_start half_len root.half ≤ found.place) }
    ensures within { IfOk result (λ found. found.place ≤ half_end half_len root.half) }
    ensures refused { D.keeps disk.new → IsCurrent half_len root (D.reads disk.old)
        → IfErr result (λ fault. IsUnread K.Language half_len (D.reads disk.old) fault) }
    ensures looked { OnlyLooked D.Disk disk.old disk.new }
    ensures counts { Counts D.Disk disk.old disk.new (IsErrOf result Device) }
{
    let site = base_site(half_len, &root);
    let group = match read_group(
        alloc,
        disk,
        site.first,
        site.limit,
        site.kind,
        site.version,
        site.sequence,
    ) {
        Ok(group) => group,
        Err(GroupFault::Incomplete(sector)) => return Err(OpenFault::Damaged(sector)),
        Err(GroupFault::Device) => return Err(OpenFault::Device),
        Err(GroupFault::NoMemory) => return Err(OpenFault::NoMemory),
    };
    match K::decode(alloc, group.payload.as_slice(), budget_of(half_len)) {
        Ok(house) => Ok(Found {
            root,
            house,
            place: site.first + group.sectors,
            last: root.base_sequence,
        }),
        Err(DecodeFault::Bad) => Err(OpenFault::Damaged(site.first)),
        Err(DecodeFault::NoMemory) => Err(OpenFault::NoMemory),
    }
}

/// Reads the next group of changes, if one is complete, and returns whether one was.
fn read_next<K: Kept, D: Disk>(
    alloc: K::Alloc,
    disk: &mut D,
    found: &mut Found<K>,
    half_len: u32,
) -> Result<bool, OpenFault>
    requires half { found.old.root.half ≤ 1 }
    requires most { half_len ≤ longest_half }
    requires fits { 3 + 2 * half_len ≤ D.sectors disk.old }
    requires within { found.old.place ≤ half_end half_len found.old.root.half }
    ensures more { D.keeps disk.new → K.limit found.old.house ≡ budget_of half_len
        → IsReached K.Language half_len found.old.root found.old.place found.old.last (K.state found.old.house)
        (D.reads disk.old)
        → OnOk result (IsReached K.Language half_len found.new.root found.new.place found.new.last
        (K.state found.new.house) (D.reads disk.old)) }
    ensures none { D.keeps disk.new → result ≡ Ok false → (sequence : ℕ)
        → sequence ≡ found.new.last + 1 → IsSequence sequence
        → IsComplete (change_site half_len found.new.root sequence found.new.place)
        (D.reads disk.old) → ⊥ }
    ensures refused { D.keeps disk.new → K.limit found.old.house ≡ budget_of half_len
        → IsReached K.Language half_len found.old.root found.old.place found.old.last (K.state found.old.house)
        (D.reads disk.old)
        → IfErr result (λ fault. IsUnread K.Language half_len (D.reads disk.old) fault) }
    ensures from { found.old.place ≤ found.new.place }
    ensures further { result ≡ Ok true → found.old.place < found.new.place }
    ensures within { OnOk result (found.new.place ≤ half_end half_len found.new.root.half) }
    ensures kept { (found.new.root ≡ found.old.root)
        × (K.limit found.new.house ≡ K.limit found.old.house) }
    ensures looked { OnlyLooked D.Disk disk.old disk.new }
    ensures counts { Counts D.Disk disk.old disk.new (IsErrOf result Device) }
{
    if found.last == u64::MAX {
        return Ok(false);
    }
    let next = found.last + 1;
    let site = change_site(half_len, &found.root, next, found.place);
    let group = match read_group(
        alloc,
        disk,
        site.first,
        site.limit,
        site.kind,
        site.version,
        site.sequence,
    ) {
        Ok(group) => group,
        Err(GroupFault::Incomplete(_)) => return Ok(false),
        Err(GroupFault::Device) => return Err(OpenFault::Device),
        Err(GroupFault::NoMemory) => return Err(OpenFault::NoMemory),
    };
    match found.house.replay(group.payload.as_slice()) {
        Ok(()) => {}
        Err(DecodeFault::Bad) => return Err(OpenFault::Damaged(found.place)),
        Err(DecodeFault::NoMemory) => return Err(OpenFault::NoMemory),
    }
    found.place += group.sectors;
    found.last = next;
    Ok(true)
}

/// Reads the groups of changes that follow, as long as they are complete.
fn read_groups<K: Kept, D: Disk>(
    alloc: K::Alloc,
    disk: &mut D,
    found: &mut Found<K>,
    half_len: u32,
) -> Result<(), OpenFault>
    requires half { found.old.root.half ≤ 1 }
    requires most { half_len ≤ longest_half }
    requires fits { 3 + 2 * half_len ≤ D.sectors disk.old }
    requires within { found.old.place ≤ half_end half_len found.old.root.half }
    ensures all { D.keeps disk.new → K.limit found.old.house ≡ budget_of half_len
        → IsReached K.Language half_len found.old.root found.old.place found.old.last (K.state found.old.house)
        (D.reads disk.old)
        → OnOk result (IsRead K.Language half_len found.new.root found.new.place found.new.last
        (K.state found.new.house) (D.reads disk.old)) }
    ensures refused { D.keeps disk.new → K.limit found.old.house ≡ budget_of half_len
        → IsReached K.Language half_len found.old.root found.old.place found.old.last (K.state found.old.house)
        (D.reads disk.old)
        → IfErr result (λ fault. IsUnread K.Language half_len (D.reads disk.old) fault) }
    ensures from { found.old.place ≤ found.new.place }
    ensures within { OnOk result (found.new.place ≤ half_end half_len found.new.root.half) }
    ensures root { found.new.root ≡ found.old.root }
    ensures budget { K.limit found.new.house ≡ K.limit found.old.house }
    ensures looked { OnlyLooked D.Disk disk.old disk.new }
    ensures counts { Counts D.Disk disk.old disk.new (IsErrOf result Device) }
{
    'groups: while read_next(alloc, disk, found, half_len)? {}
    Ok(())
}

/// Reads the root in force, its base group, and the groups of changes that follow.
pub fn read_chain<K: Kept, D: Disk>(
    alloc: K::Alloc,
    disk: &mut D,
    half_len: u32,
) -> Result<Found<K>, OpenFault>
    requires most { half_len ≤ longest_half }
    requires fits { 3 + 2 * half_len ≤ D.sectors disk.old }
    ensures all { D.keeps disk.new → IfOk result (λ found.
        IsRead K.Language half_len found.root found.place found.last (K.state found.house) (D.reads disk.old)) }
    ensures refused { D.keeps disk.new
        → IfErr result (λ fault. IsUnread K.Language half_len (D.reads disk.old) fault) }
    ensures budget { IfOk result (λ found. K.limit found.house ≡ budget_of half_len) }
    ensures half { IfOk result (λ found. found.root.half ≤ 1) }
    ensures known { IfOk result (λ found. IsKnown found.root.version) }
    ensures from { IfOk result (λ found. half_start half_len found.root.half ≤ found.place) }
    ensures within { IfOk result (λ found. found.place ≤ half_end half_len found.root.half) }
    ensures looked { OnlyLooked D.Disk disk.old disk.new }
    ensures counts { Counts D.Disk disk.old disk.new (IsErrOf result Device) }
{
    let root = current_root::<K, D>(disk, half_len)?;
    let mut found = read_base(alloc, disk, root, half_len)?;
    read_groups(alloc, disk, &mut found, half_len)?;
    Ok(found)
}

/// Reads the image: from the root in force to the state, and then every sector of both halves. With the state it
/// returns the first sector that is ahead of it, if one is.
pub fn read_image<K: Kept, D: Disk>(
    alloc: K::Alloc,
    disk: &mut D,
    half_len: u32,
) -> Result<(Found<K>, Option<u32>), OpenFault>
    requires most { half_len ≤ longest_half }
    requires fits { 3 + 2 * half_len ≤ D.sectors disk.old }
    ensures all { D.keeps disk.new → IfOk result (λ read.
        IsRead K.Language half_len read.0.root read.0.place read.0.last (K.state read.0.house) (D.reads disk.old)) }
    ensures ahead { D.keeps disk.new → IfOk result (λ read.
        IsFirstAhead half_len read.0.root.session (read.0.last + 1) read.1 (D.reads disk.old)) }
    ensures refused { D.keeps disk.new
        → IfErr result (λ fault. IsUnread K.Language half_len (D.reads disk.old) fault) }
    ensures budget { IfOk result (λ read. K.limit read.0.house ≡ budget_of half_len) }
    ensures half { IfOk result (λ read. read.0.root.half ≤ 1) }
    ensures known { IfOk result (λ read. IsKnown read.0.root.version) }
    ensures from { IfOk result (λ read. half_start half_len read.0.root.half ≤ read.0.place) }
    ensures within { IfOk result (λ read. read.0.place ≤ half_end half_len read.0.root.half) }
    ensures looked { OnlyLooked D.Disk disk.old disk.new }
    ensures counts { Counts D.Disk disk.old disk.new (IsErrOf result Device) }
{
    let found = read_chain(alloc, disk, half_len)?;
    match first_ahead_of(disk, half_len, found.root.session, found.last) {
        Ok(ahead) => Ok((found, ahead)),
        Err(Failed) => Err(OpenFault::Device),
    }
}
