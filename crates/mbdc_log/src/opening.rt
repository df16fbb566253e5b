//! Opens an image.

ghost use Rattle.std.specs.Prelude.{◌≡◌, ◌≢◌, ◌⊎◌, ◌<◌, ◌≤◌, ◌+◌, ◌-◌, ◌*◌, ◌^◌, ◌↔◌, ℕ, IsTrue};
ghost use Rattle.std.specs.Prelude.{IfOk, IfErr, OnOk, IsErrOf};
ghost use Rattle.dc_sectors.specs.Disk.{IsImage};
ghost use Rattle.dc_sectors.specs.Runs.{LeavesOnly, Counts, IsSettled};
ghost use Rattle.mbdc_log.specs.declared.fault.OpenFault.TheVariants.{Device};
ghost use Rattle.mbdc_log.specs.Halves.{half_start, half_end, budget_of, shortest_half};
ghost use Rattle.mbdc_log.specs.Halves.{longest_half, SparesRest};
ghost use Rattle.mbdc_log.specs.Roots.{opened, IsOpenedRoot};
ghost use Rattle.mbdc_log.specs.Stands.{image_version, IsRead, IsReady, IsBegun, StandsBy};
ghost use Rattle.mbdc_log.specs.Stands.{Stands, ReadsBy, Reads, EachStands, StandsForOne};
ghost use Rattle.dc_roots.specs.declared.root.Root.{Root};
ghost use Rattle.dc_roots.specs.Root.{slot};
ghost use Rattle.mbdc_log.specs.Refusal.{IsRefused, IsSpent, IsWorn};

use crate::OpenFault;
use crate::compacting::compact_into_other_half;
use crate::reading::{Found, VERSION, read_chain};
use crate::rooting::put_root;
use dc_roots::Root;
use dc_sectors::{Disk, Failed};
use mbdc_io::kept::Kept;

/// Begins a session: writes the next root, which differs only in generation and session.
fn begin_session<K: Kept, D: Disk>(disk: &mut D, root: &Root) -> Result<Root, OpenFault>
    requires slots { 2 < D.sectors disk.old }
    requires half { root.now.half ≤ 1 }
    requires generation { root.now.generation < 2 ^ 64 - 1 }
    requires session { root.now.session < 2 ^ 64 - 1 }
    ensures next { IfOk result (λ next. next ≡ opened root.now) }
    ensures only_device { IfErr result (λ fault. fault ≡ Device) }
    ensures ready { (half_len m place : ℕ) (state : K.State) → IsSettled D.Disk disk.old
        → StandsBy K.Language half_len root.now m place state (D.reads disk.old)
        → OnOk result (IsReady K.Language half_len (opened root.now) m place state (D.reads disk.new)) }
    ensures durable { OnOk result (IsSettled D.Disk disk.new) }
    ensures any_moment { (half_len m place : ℕ) (state : K.State) → IsSettled D.Disk disk.old
        → StandsBy K.Language half_len root.now m place state (D.reads disk.old)
        → LeavesOnly D.Disk disk.old disk.new (Stands K.Language half_len state) }
    ensures elsewhere { (m : ℕ) → m ≢ slot (opened root.now).generation
        → D.reads disk.new m ≡ D.reads disk.old m }
    ensures before { D.keeps disk.new → D.keeps disk.old }
    ensures counts { Counts D.Disk disk.old disk.new (IsErrOf result Device) }
{
    let begun = Root {
        session: root.session + 1,
        ..*root
    };
    match put_root(disk, &begun) {
        Ok(next) => Ok(next),
        Err(_) => Err(OpenFault::Device),
    }
}

/// Whether no session can begin on an image with that root, after a group of that sequence.
pub fn is_spent(root: &Root, last: u64) -> bool
    ensures { IsTrue result ↔ IsSpent root.now last }
{
    if root.generation == u64::MAX || root.session == u64::MAX {
        return true;
    }
    root.version != VERSION && (root.generation == u64::MAX - 1 || last >= u64::MAX - 1)
}

/// Begins a session on the image that was read. An image of version 1 is then compacted into one of this version.
fn begin<K: Kept, D: Disk>(
    disk: &mut D,
    found: &mut Found<K>,
    half_len: u32,
) -> Result<(), OpenFault>
    requires half { found.old.root.half ≤ 1 }
    requires some { shortest_half ≤ half_len }
    requires most { half_len ≤ longest_half }
    requires fits { 3 + 2 * half_len ≤ D.sectors disk.old }
    requires budget { K.limit found.old.house ≡ budget_of half_len }
    requires within { found.old.place ≤ half_end half_len found.old.root.half }
    requires unspent { IsSpent found.old.root found.old.last → ⊥ }
    ensures root { OnOk result (IsOpenedRoot found.old.root found.old.last found.new.root) }
    ensures version { OnOk result (found.new.root.version ≡ image_version) }
    ensures house { found.new.house ≡ found.old.house }
    ensures only_device { IfErr result (λ fault. fault ≡ Device) }
    ensures ready { IsSettled D.Disk disk.old → (m : ℕ)
        → StandsBy K.Language half_len found.old.root m found.old.place (K.state found.old.house)
        (D.reads disk.old)
        → found.old.last ≡ found.old.root.base_sequence + m
        → OnOk result (IsBegun K.Language half_len found.new.root found.new.place found.new.last
        (K.state found.old.house) (D.reads disk.new)) }
    ensures durable { OnOk result (IsSettled D.Disk disk.new) }
    ensures any_moment { IsSettled D.Disk disk.old → (m : ℕ)
        → StandsBy K.Language half_len found.old.root m found.old.place (K.state found.old.house)
        (D.reads disk.old)
        → found.old.last ≡ found.old.root.base_sequence + m
        → LeavesOnly D.Disk disk.old disk.new (Stands K.Language half_len (K.state found.old.house)) }
    ensures half { OnOk result (found.new.root.half ≤ 1) }
    ensures from { half_start half_len found.old.root.half ≤ found.old.place
        → OnOk result (half_start half_len found.new.root.half ≤ found.new.place) }
    ensures within { OnOk result (found.new.place ≤ half_end half_len found.new.root.half) }
    ensures elsewhere { SparesRest half_len (D.reads disk.old) (D.reads disk.new) }
    ensures before { D.keeps disk.new → D.keeps disk.old }
    ensures counts { Counts D.Disk disk.old disk.new (IsErrOf result Device) }
{
    let begun = begin_session::<K, D>(disk, &found.root)?;
    if begun.version == VERSION {
        found.root = begun;
        return Ok(());
    }
    let next = found.last + 1;
    match compact_into_other_half(disk, &begun, half_len, next, &found.house) {
        Ok((root, place)) => {
            found.root = root;
            found.place = place;
            found.last = next;
            Ok(())
        }
        Err(Failed) => Err(OpenFault::Device),
    }
}

/// Syncs, reads the image, and begins a session.
pub(crate) fn open_on<K: Kept, D: Disk>(
    alloc: K::Alloc,
    disk: &mut D,
    half_len: u32,
) -> Result<Found<K>, OpenFault>
    requires some { shortest_half ≤ half_len }
    requires most { half_len ≤ longest_half }
    requires fits { 3 + 2 * half_len ≤ D.sectors disk.old }
    ensures reads { D.keeps disk.new
        → IfOk result (λ found. Reads K.Language half_len (K.state found.house) (D.reads disk.old)) }
    ensures refused { D.keeps disk.new
        → IfErr result (λ fault. IsRefused K.Language half_len (D.reads disk.old) fault) }
    ensures unwritten { IfErr result (λ fault.
        fault ≢ Device → D.reads disk.new ≡ D.reads disk.old) }
    ensures spares_images { IfErr result (λ fault.
        fault ≢ Device → LeavesOnly D.Disk disk.old disk.new (IsImage (D.choices disk.old))) }
    ensures root { D.keeps disk.new → IfOk result (λ found. (root : Root) × (m : ℕ) × (place : ℕ)
        × ReadsBy K.Language half_len root m place (K.state found.house) (D.reads disk.old)
        × IsOpenedRoot root (root.base_sequence + m) found.root) }
    ensures version { IfOk result (λ found. found.root.version ≡ image_version) }
    ensures not_worn { D.keeps disk.new → OnOk result (IsWorn K.Language half_len (D.reads disk.old) → ⊥) }
    ensures ready { D.keeps disk.new → (was : K.State) → Stands K.Language half_len was (D.reads disk.old)
        → IfOk result (λ found. IsBegun K.Language half_len found.root found.place found.last (K.state found.house)
        (D.reads disk.new)) }
    ensures durable { OnOk result (IsSettled D.Disk disk.new) }
    ensures any_moment { D.keeps disk.new → EachStands K.Language half_len (D.choices disk.old)
        → LeavesOnly D.Disk disk.old disk.new (StandsForOne K.Language half_len (D.choices disk.old)) }
    ensures budget { IfOk result (λ found. K.limit found.house ≡ budget_of half_len) }
    ensures half { IfOk result (λ found. found.root.half ≤ 1) }
    ensures from { IfOk result (λ found. half_start half_len found.root.half ≤ found.place) }
    ensures within { IfOk result (λ found. found.place ≤ half_end half_len found.root.half) }
    ensures elsewhere { SparesRest half_len (D.reads disk.old) (D.reads disk.new) }
    ensures before { D.keeps disk.new → D.keeps disk.old }
    ensures counts { Counts D.Disk disk.old disk.new (IsErrOf result Device) }
{
    match disk.sync() {
        Ok(()) => {}
        Err(Failed) => return Err(OpenFault::Device),
    }
    let mut found = read_chain(alloc, disk, half_len)?;
    if is_spent(&found.root, found.last) {
        return Err(OpenFault::Worn);
    }
    begin(disk, &mut found, half_len)?;
    Ok(found)
}
