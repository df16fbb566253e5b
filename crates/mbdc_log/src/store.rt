//! The store: an image that is open.

ghost use Rattle.std.specs.Prelude.{◌≡◌, ◌≢◌, ◌⊎◌, ◌<◌, ◌≤◌, ◌+◌, ◌*◌, ◌-◌, ◌^◌, ◌↔◌, List, ℕ};
ghost use Rattle.std.specs.Prelude.{length, true, false, IsTrue, IfOk, IfErr, OnOk, MatchResult};
ghost use Rattle.std.specs.Prelude.{IsErrOf, Err};
ghost use Rattle.dc_sectors.specs.Disk.{Image, IsImage};
ghost use Rattle.dc_sectors.specs.Runs.{LeavesOnly, Counts, IsSettled};
ghost use Rattle.dc_roots.specs.declared.root.Root.{Root};
ghost use Rattle.dc_roots.specs.Choice.{HasRoot, IsChosen};
ghost use Rattle.mbdc_log.specs.Refusal.{IsRefused, IsWorn, TellsOfImage};
ghost use Rattle.mbdc_log.specs.declared.fault.OpenFault.TheVariants.{NotImage};
ghost use Rattle.mbdc_log.specs.declared.fault.OpenFault.TheVariants.{Worn as OpenWorn};
ghost use Rattle.mbdc_log.specs.declared.fault.OpenFault.TheVariants.{Device as OpenDevice};
ghost use Rattle.mbdc_log.specs.declared.fault.FormatFault.TheVariants.{TooSmall};
ghost use Rattle.mbdc_log.specs.declared.fault.FormatFault.TheVariants.{AlreadyFormatted};
ghost use Rattle.mbdc_log.specs.declared.fault.FormatFault.TheVariants.{Device as FormatDevice};
ghost use Rattle.mbdc_log.specs.declared.fault.StoreFault.TheVariants.{Device as StoreDevice};
ghost use Rattle.mbdc_log.specs.declared.fault.StoreFault.TheVariants.{Worn as StoreWorn};
ghost use Rattle.mbdc_log.specs.declared.fault.StoreFault.TheVariants.{Stopped};
ghost use Rattle.mbdc_log.specs.Halves.{half_of, half_end, budget_of, fewest_sectors};
ghost use Rattle.mbdc_log.specs.Halves.{SparesRest};
ghost use Rattle.mbdc_log.specs.Roots.{first_root, compacted, IsOpenedRoot};
ghost use Rattle.mbdc_log.specs.Stands.{EachStands, StandsForOne, StandsForEither, Stands};
ghost use Rattle.mbdc_log.specs.Stands.{ReadsBy, Reads, IsFormatting, image_version};

use crate::appending::append_group;
use crate::compacting::compact_into_other_half;
use crate::formatting::format_on;
use crate::halves::{FEWEST_SECTORS, budget_of, half_end, half_len_of};
use crate::opening::open_on;
use crate::reading::Found;
use crate::sites::change_site;
use crate::{FormatFault, OpenFault, StoreFault};
use dc_pages::PAYLOAD;
use dc_roots::Root;
use dc_sectors::{Disk, Failed};
use mbdc_io::kept::{Kept, KeptIn, Subject};
use std::alloc::Allocator;
use std::marker::{Model, PhantomData};

/// An open image. It writes groups of changes after the existing ones, and the whole state into the
/// other half.
#[derive(Drop)]
pub struct Log<D: Disk + Drop, S: Subject> {
    disk: D,
    root: Root,
    place: u32,
    last: u64,
    is_stopped: bool,
    of: PhantomData<S>,
}

impl<D: Disk + Drop, S: Subject> Model for Log<D, S> {
    ghost use Rattle.std.specs.Prelude.{◌≤◌, ◌≡◌};
    ghost use Rattle.mbdc_log.specs.Halves.{half_of, half_end};
    ghost use Rattle.mbdc_log.specs.Store.{Opened, IsLaidOut};

    ghost Value = { Opened D };

    ghost view = { λ s. record {
      disk = s.disk;
      root = s.root;
      place = s.place;
      last = s.last;
      is_stopped = s.is_stopped;
    } };

    ghost invariant = { λ s. IsLaidOut (D.sectors s.disk) s.root s.place };
}

impl<D: Disk + Drop, S: Subject> Log<D, S> {
    ghost use Rattle.mbdc_log.specs.Store.{Keeps, Fits};

    /// Formats the disk: an image of the first state, `K::empty`, in session 1.
    ///
    /// # Errors
    ///
    /// `TooSmall` under 131 sectors; `AlreadyFormatted` if no call failed and a slot has a valid
    /// root. Both write nothing. `Device` if a call failed: nothing was written if a slot had a
    /// valid root.
    pub fn format(mut disk: D) -> Result<D, (FormatFault, D)>
        ensures small { D.sectors disk < fewest_sectors → result ≡ Err (TooSmall, disk) }
        ensures too_small { IfErr result (λ e. e.0 ≡ TooSmall → D.sectors disk < fewest_sectors) }
        ensures already { IfErr result (λ e.
            D.keeps e.1 → e.0 ≡ AlreadyFormatted → (root : Root) × HasRoot root (D.reads disk)) }
        ensures never_over { (root : Root) → HasRoot root (D.reads disk)
            → IfOk result (λ d. D.keeps d → ⊥) }

        // Where a slot had a valid root, the disk reads as before, and each image of every moment is one of those
        // before.
        ensures spared { (root : Root) → HasRoot root (D.reads disk)
            → IfErr result (λ e. D.keeps e.1 → D.reads e.1 ≡ D.reads disk) }
        ensures spares_images { (root : Root) → HasRoot root (D.reads disk)
            → IfErr result (λ e. D.keeps e.1
            → LeavesOnly D.Disk disk e.1 (IsImage (D.choices disk))) }

        // On the way each image is one of those before, has no valid root, or stands for the first state.
        ensures any_moment { MatchResult result (λ d. D.keeps d → LeavesOnly D.Disk disk d
            (IsFormatting S.Any.Language (half_of D.Disk disk) (D.choices disk)))
            (λ e. D.keeps e.1 → LeavesOnly D.Disk disk e.1
            (IsFormatting S.Any.Language (half_of D.Disk disk) (D.choices disk))) }

        // Each image of the disk stands for the first state, by the first root.
        ensures formatted { IfOk result (λ d. (image : Image) → IsImage (D.choices d) image
            → Stands S.Any.Language (half_of D.Disk d) S.Any.empty image) }
        ensures root { IfOk result (λ d. IsChosen (first_root (half_of D.Disk d)) (D.reads d)) }
        ensures durable { IfOk result (λ d. IsSettled D.Disk d) }

        // Sector 0 and the sectors after the second half read as before.
        ensures elsewhere { MatchResult result (λ d.
            SparesRest (half_of D.Disk disk) (D.reads disk) (D.reads d))
            (λ e. SparesRest (half_of D.Disk disk) (D.reads disk) (D.reads e.1)) }
        ensures before { MatchResult result (λ d. D.keeps d → D.keeps disk)
            (λ e. D.keeps e.1 → D.keeps disk) }
        ensures counts { MatchResult result (λ d. Counts D.Disk disk d ⊥)
            (λ e. Counts D.Disk disk e.1 (e.0 ≡ FormatDevice)) }
    {
        match format_on::<<S as Subject>::Any, D>(&mut disk) {
            Ok(()) => Ok(disk),
            Err(fault) => Err((fault, disk)),
        }
    }

    /// Opens the image: reads the state, and begins a session by the next root. An image of version
    /// 1 becomes one of version 2: after the session's root the whole state is written into the
    /// other half, and the root after it names that half.
    ///
    /// # Errors
    ///
    /// The first in the order of the steps: [`OpenFault`]. The disk is returned.
    pub fn open<A: Allocator + Copy>(
        alloc: A,
        mut disk: D,
    ) -> Result<(Log<D, S>, <S as KeptIn<A>>::Value), (OpenFault, D)>
    where
        S: KeptIn<A>,
        ensures small { D.sectors disk < fewest_sectors → result ≡ Err (NotImage, disk) }

        // Ok gives exactly the state that the image reads as, and a refusal is a fact of the image.
        ensures reads { IfOk result (λ o.
            D.keeps o.0.disk → Reads S.Value.Language (half_of D.Disk disk) (S.Value.state o.1) (D.reads disk)) }
        ensures refused { fewest_sectors ≤ D.sectors disk
            → IfErr result (λ e. D.keeps e.1 → IsRefused S.Value.Language (half_of D.Disk disk) (D.reads disk) e.0) }
        ensures version { IfOk result (λ o. o.0.root.version ≡ image_version) }
        ensures root { IfOk result (λ o. D.keeps o.0.disk → (root : Root) × (m : ℕ) × (place : ℕ)
            × ReadsBy S.Value.Language (half_of D.Disk disk) root m place (S.Value.state o.1) (D.reads disk)
            × IsOpenedRoot root (root.base_sequence + m) o.0.root) }

        // Where the image stands for a state, as it does where none of its sectors is ahead (`first_ahead`), the store
        // keeps that state.
        ensures keeps { (was : S.Value.State) → Stands S.Value.Language (half_of D.Disk disk) was (D.reads disk)
            → IfOk result (λ o. D.keeps o.0.disk → Keeps S.Value.Language D.Disk o.0 (S.Value.state o.1)) }

        // Unless the device failed, a refusal wrote nothing: the disk reads as before, and so does each image of
        // every moment.
        ensures unwritten { IfErr result (λ e. e.0 ≢ OpenDevice → D.reads e.1 ≡ D.reads disk) }
        ensures spares_images { IfErr result (λ e. e.0 ≢ OpenDevice → LeavesOnly D.Disk disk e.1
            (IsImage (D.choices disk))) }
        ensures not_worn { IfOk result (λ o.
            D.keeps o.0.disk → IsWorn S.Value.Language (half_of D.Disk disk) (D.reads disk) → ⊥) }

        // Where each image stands for some state, a stop leaves one that stands for a state that one of them stood for.
        ensures kept { EachStands S.Value.Language (half_of D.Disk disk) (D.choices disk)
            → IfOk result (λ o. D.keeps o.0.disk → Keeps S.Value.Language D.Disk o.0 (S.Value.state o.1)) }
        ensures any_moment { EachStands S.Value.Language (half_of D.Disk disk) (D.choices disk)
            → MatchResult result (λ o. D.keeps o.0.disk
            → LeavesOnly D.Disk disk o.0.disk (StandsForOne S.Value.Language (half_of D.Disk disk) (D.choices disk)))
            (λ e. D.keeps e.1 → LeavesOnly D.Disk disk e.1
            (StandsForOne S.Value.Language (half_of D.Disk disk) (D.choices disk))) }

        // And such an image is refused only for an exhausted counter.
        ensures premise { fewest_sectors ≤ D.sectors disk
            → EachStands S.Value.Language (half_of D.Disk disk) (D.choices disk)
            → IfErr result (λ e. D.keeps e.1 → TellsOfImage e.0 → e.0 ≡ OpenWorn) }
        ensures durable { IfOk result (λ o. IsSettled D.Disk o.0.disk) }
        ensures running { IfOk result (λ o. o.0.is_stopped ≡ false) }
        ensures budget { IfOk result (λ o. S.Value.limit o.1 ≡ budget_of (half_of D.Disk disk)) }

        // Sector 0 and the sectors after the second half read as before.
        ensures elsewhere { MatchResult result (λ o.
            SparesRest (half_of D.Disk disk) (D.reads disk) (D.reads o.0.disk))
            (λ e. SparesRest (half_of D.Disk disk) (D.reads disk) (D.reads e.1)) }
        ensures before { MatchResult result (λ o. D.keeps o.0.disk → D.keeps disk)
            (λ e. D.keeps e.1 → D.keeps disk) }
        ensures counts { MatchResult result (λ o. Counts D.Disk disk o.0.disk ⊥)
            (λ e. Counts D.Disk disk e.1 (e.0 ≡ OpenDevice)) }
    {
        let count = disk.count();
        if count < FEWEST_SECTORS {
            return Err((OpenFault::NotImage, disk));
        }
        match open_on::<<S as KeptIn<A>>::Value, D>(alloc, &mut disk, half_len_of(count)) {
            Ok(found) => {
                let Found {
                    root,
                    house: kept,
                    place,
                    last,
                } = found;
                let store = Log {
                    disk,
                    root,
                    place,
                    last,
                    is_stopped: false,
                    of: PhantomData,
                };
                Ok((store, kept))
            }
            Err(fault) => Err((fault, disk)),
        }
    }

    /// Maximum size of a state on this image, in bytes.
    pub fn budget(&self) -> u32
        ensures { result ≡ budget_of (half_of D.Disk self.now.disk) }
    {
        budget_of(half_len_of(self.disk.count()))
    }

    /// Whether a failure of the disk has stopped the store.
    pub fn is_stopped(&self) -> bool
        ensures { result ≡ self.now.is_stopped }
    {
        self.is_stopped
    }

    /// Whether a group of this many bytes fits in the rest of the half: its pages of 488 bytes, and
    /// one commit sector.
    pub fn fits(&self, len: usize) -> bool
        ensures { IsTrue result ↔ Fits (D.sectors self.now.disk) self.now len }
    {
        let limit = half_end(half_len_of(self.disk.count()), self.root.half);
        let pages = len.div_ceil(PAYLOAD);
        pages < (limit - self.place) as usize
    }

    /// Writes a group of encoded changes after the existing groups, and syncs.
    ///
    /// # Errors
    ///
    /// `Stopped` after a failure; `Worn` if the sequence is exhausted, and nothing was written;
    /// `Device` if the disk failed, and the store is stopped from then on.
    pub fn append(&mut self, bytes: &[u8]) -> Result<(), StoreFault>
        requires some { 0 < length bytes.now }
        requires fits { Fits (D.sectors self.old.disk) self.old (length bytes.now) }
        ensures stopped { IsErrOf result Stopped ↔ (self.old.is_stopped ≡ true) }
        ensures worn { IsErrOf result StoreWorn ↔
            ((self.old.is_stopped ≡ false) × (2 ^ 64 - 1 ≤ self.old.last + 1)) }
        ensures unchanged { IsErrOf result Stopped ⊎ IsErrOf result StoreWorn
            → self.new ≡ self.old }
        ensures stops { IsErrOf result StoreDevice → self.new.is_stopped ≡ true }
        ensures running { OnOk result (self.new.is_stopped ≡ false) }
        ensures root { self.new.root ≡ self.old.root }
        ensures last { OnOk result (self.new.last ≡ self.old.last + 1) }

        // The changes are accepted in turn in the state that the store keeps.
        ensures kept { (was : S.Any.State) (changes : List S.Any.Change)
            → Keeps S.Any.Language D.Disk self.old was → S.Any.SpellsChanges bytes.now changes
            → S.Any.Accepts (budget_of (half_of D.Disk self.old.disk)) was changes
            → OnOk result (Keeps S.Any.Language D.Disk self.new (S.Any.after was changes)) }
        ensures any_moment { (was : S.Any.State) (changes : List S.Any.Change)
            → Keeps S.Any.Language D.Disk self.old was → S.Any.SpellsChanges bytes.now changes
            → S.Any.Accepts (budget_of (half_of D.Disk self.old.disk)) was changes
            → LeavesOnly D.Disk self.old.disk self.new.disk
            (StandsForEither S.Any.Language (half_of D.Disk self.old.disk) was (S.Any.after was changes)) }
        ensures elsewhere { SparesRest (half_of D.Disk self.old.disk)
            (D.reads self.old.disk) (D.reads self.new.disk) }
        ensures before { D.keeps self.new.disk → D.keeps self.old.disk }
        ensures counts { Counts D.Disk self.old.disk self.new.disk (IsErrOf result StoreDevice) }
    {
        if self.is_stopped {
            return Err(StoreFault::Stopped);
        }
        if self.last >= u64::MAX - 1 {
            return Err(StoreFault::Worn);
        }
        let half_len = half_len_of(self.disk.count());
        let next = self.last + 1;
        let site = change_site(half_len, &self.root, next, self.place);
        match append_group::<<S as Subject>::Any, D>(&mut self.disk, &self.root, site, bytes) {
            Ok(count) => {
                self.place += count;
                self.last = next;
                Ok(())
            }
            Err(Failed) => {
                self.is_stopped = true;
                Err(StoreFault::Device)
            }
        }
    }

    /// Writes the whole state of `kept` as the base group of the other half, and puts that half in
    /// force. Each image on the way stands for the state that the store keeps or for that of `kept`,
    /// and in the end for the latter.
    ///
    /// # Errors
    ///
    /// `Stopped` after a failure; `Worn` if the sequence or the generation is exhausted, and
    /// nothing was written; `Device` if the disk failed, and the store is stopped from then on.
    pub fn compact<K: Kept>(&mut self, kept: &K) -> Result<(), StoreFault>
        requires budget { K.limit kept.now ≤ budget_of (half_of D.Disk self.old.disk) }
        ensures stopped { IsErrOf result Stopped ↔ (self.old.is_stopped ≡ true) }
        ensures worn { IsErrOf result StoreWorn ↔ ((self.old.is_stopped ≡ false)
            × ((2 ^ 64 - 1 ≤ self.old.last + 1) ⊎ (self.old.root.generation ≡ 2 ^ 64 - 1))) }
        ensures unchanged { IsErrOf result Stopped ⊎ IsErrOf result StoreWorn
            → self.new ≡ self.old }
        ensures stops { IsErrOf result StoreDevice → self.new.is_stopped ≡ true }
        ensures running { OnOk result (self.new.is_stopped ≡ false) }
        ensures root { OnOk result (self.new.root ≡ compacted self.old.root (self.old.last + 1)) }
        ensures last { OnOk result (self.new.last ≡ self.old.last + 1) }
        ensures kept { (was : K.State) → Keeps K.Language D.Disk self.old was
            → OnOk result (Keeps K.Language D.Disk self.new (K.state kept.now)) }
        ensures any_moment { (was : K.State) → Keeps K.Language D.Disk self.old was
            → LeavesOnly D.Disk self.old.disk self.new.disk
            (StandsForEither K.Language (half_of D.Disk self.old.disk) was (K.state kept.now)) }
        ensures elsewhere { SparesRest (half_of D.Disk self.old.disk)
            (D.reads self.old.disk) (D.reads self.new.disk) }
        ensures before { D.keeps self.new.disk → D.keeps self.old.disk }
        ensures counts { Counts D.Disk self.old.disk self.new.disk (IsErrOf result StoreDevice) }
    {
        if self.is_stopped {
            return Err(StoreFault::Stopped);
        }
        if self.last >= u64::MAX - 1 || self.root.generation == u64::MAX {
            return Err(StoreFault::Worn);
        }
        let half_len = half_len_of(self.disk.count());
        let next = self.last + 1;
        match compact_into_other_half(&mut self.disk, &self.root, half_len, next, kept) {
            Ok((root, place)) => {
                self.root = root;
                self.place = place;
                self.last = next;
                Ok(())
            }
            Err(Failed) => {
                self.is_stopped = true;
                Err(StoreFault::Device)
            }
        }
    }

    /// Returns the disk, and writes nothing.
    pub fn close(self) -> D
        ensures { result ≡ self.disk }
    {
        let Log { disk, .. } = self;
        disk
    }
}
