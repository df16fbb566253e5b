//! Writes the pending changes.

ghost use Rattle.std.specs.Prelude.{◌≡◌, ◌⊎◌, ◌<◌, List, true, false, length, IsErrOf, OnOk};
ghost use Rattle.dc_sectors.specs.Runs.{LeavesOnly, Counts};
ghost use Rattle.mbdc_change.specs.declared.change.Change.{Change};
ghost use Rattle.mbdc_change.specs.State.{State};
ghost use Rattle.mbdc_change.specs.History.{after, AcceptsAll};
ghost use Rattle.mbdc_change.specs.Spelled.{SpellsChanges};
ghost use Rattle.mbdc_log.specs.Halves.{half_of, budget_of};
ghost use Rattle.dc_core.specs.PendingImages.{StandsForEither, Keeps};
ghost use Rattle.mbdc_log.specs.Store.{Fits};
ghost use Rattle.mbdc_log.specs.declared.fault.StoreFault.TheVariants.{Device, Worn, Stopped};
ghost use Rattle.dc_core.specs.Writing.{IsWornFor};

use crate::pending::waiting::Waiting;
use dc_meters::House;
use dc_recovery::Store;
use dc_sectors::Disk;
use mbdc_log::StoreFault;
use std::alloc::Allocator;

/// Writes the pending changes after the existing groups, or, if they don't fit in the half, the
/// register's whole state into the other half. It uses no memory.
///
/// # Errors
/// Those of the store: [`StoreFault`].
pub fn write_waiting<D: Disk + Drop, A: Allocator + Copy>(
    store: &mut Store<D>,
    waiting: &Waiting,
    house: &House<A>,
) -> Result<(), StoreFault>
    requires some { 0 < length waiting.now.bytes }
    requires budget { house.now.budget ≡ budget_of (half_of D.Disk store.old.disk) }
    ensures stopped { IsErrOf result Stopped → store.old.is_stopped ≡ true }
    ensures running { IsErrOf result Stopped ⊎ (store.old.is_stopped ≡ false) }
    ensures worn { IsErrOf result Worn
        → IsWornFor (D.sectors store.old.disk) store.old (length waiting.now.bytes) }

    // Changes that fit in the half become one more group, under the same root.
    ensures one_group { Fits (D.sectors store.old.disk) store.old (length waiting.now.bytes)
        → store.new.root ≡ store.old.root }
    ensures unchanged { IsErrOf result Stopped ⊎ IsErrOf result Worn → store.new ≡ store.old }
    ensures stops { IsErrOf result Device → store.new.is_stopped ≡ true }
    ensures goes_on { OnOk result (store.new.is_stopped ≡ false) }

    // The register is what the store keeps, after the pending changes. The store keeps that then, and a crash at
    // any moment leaves an image that stands for what was kept before or for that.
    ensures kept { (was : State) (changes : List Change)
        → Keeps D.Disk store.old was → SpellsChanges waiting.now.bytes changes
        → AcceptsAll (budget_of (half_of D.Disk store.old.disk)) was changes
        → house.now.state ≡ after was changes
        → OnOk result (Keeps D.Disk store.new (after was changes)) }
    ensures any_moment { (was : State) (changes : List Change)
        → Keeps D.Disk store.old was → SpellsChanges waiting.now.bytes changes
        → AcceptsAll (budget_of (half_of D.Disk store.old.disk)) was changes
        → house.now.state ≡ after was changes
        → LeavesOnly D.Disk store.old.disk store.new.disk
        (StandsForEither (half_of D.Disk store.old.disk) was (after was changes)) }
    ensures before { D.keeps store.new.disk → D.keeps store.old.disk }
    ensures counts { Counts D.Disk store.old.disk store.new.disk (IsErrOf result Device) }
{
    let bytes = waiting.as_slice();
    if store.fits(bytes.len()) {
        return store.append(bytes);
    }
    store.compact(house)
}

/// Writes changes after the existing groups as one group, however many they are, or, if that doesn't fit in the half,
/// the register's whole state into the other half. Either takes effect by one sector, so a crash leaves all of the
/// changes or none. It uses no memory.
///
/// # Errors
/// Those of the store: [`StoreFault`].
pub fn write_changes<D: Disk + Drop, A: Allocator + Copy>(
    store: &mut Store<D>,
    bytes: &[u8],
    register: &House<A>,
) -> Result<(), StoreFault>
    requires some { 0 < length bytes.now }
    requires budget { register.now.budget ≡ budget_of (half_of D.Disk store.old.disk) }
    ensures stopped { IsErrOf result Stopped → store.old.is_stopped ≡ true }
    ensures running { IsErrOf result Stopped ⊎ (store.old.is_stopped ≡ false) }
    ensures worn { IsErrOf result Worn
        → IsWornFor (D.sectors store.old.disk) store.old (length bytes.now) }

    // Changes that fit in the half become one more group, under the same root.
    ensures one_group { Fits (D.sectors store.old.disk) store.old (length bytes.now)
        → store.new.root ≡ store.old.root }
    ensures unchanged { IsErrOf result Stopped ⊎ IsErrOf result Worn → store.new ≡ store.old }
    ensures stops { IsErrOf result Device → store.new.is_stopped ≡ true }
    ensures goes_on { OnOk result (store.new.is_stopped ≡ false) }

    // The register is what the store keeps, after the changes. The store keeps that then, and a crash at
    // any moment leaves an image that stands for what was kept before or for that.
    ensures kept { (was : State) (changes : List Change)
        → Keeps D.Disk store.old was → SpellsChanges bytes.now changes
        → AcceptsAll (budget_of (half_of D.Disk store.old.disk)) was changes
        → register.now.state ≡ after was changes
        → OnOk result (Keeps D.Disk store.new (after was changes)) }
    ensures any_moment { (was : State) (changes : List Change)
        → Keeps D.Disk store.old was → SpellsChanges bytes.now changes
        → AcceptsAll (budget_of (half_of D.Disk store.old.disk)) was changes
        → register.now.state ≡ after was changes
        → LeavesOnly D.Disk store.old.disk store.new.disk
        (StandsForEither (half_of D.Disk store.old.disk) was (after was changes)) }
    ensures before { D.keeps store.new.disk → D.keeps store.old.disk }
    ensures counts { Counts D.Disk store.old.disk store.new.disk (IsErrOf result Device) }
{
    if store.fits(bytes.len()) {
        return store.append(bytes);
    }
    store.compact(register)
}
