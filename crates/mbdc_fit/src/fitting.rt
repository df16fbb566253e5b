//! The engine of `fit`.

ghost use Rattle.std.specs.Prelude.{◌≡◌, ◌≢◌, ◌<◌, ◌≤◌, Err, IfErr, IfOk};
ghost use Rattle.mbdc_io.specs.Failures.{HasRisen};
ghost use Rattle.dc_sectors.specs.Runs.{LeavesOnly};
ghost use Rattle.mbdc_log.specs.Halves.{budget_of, fewest_sectors, half_of};
ghost use Rattle.mbdc_log.specs.Refusal.{TellsOfImage};
ghost use Rattle.mbdc_log.specs.declared.fault.OpenFault.TheVariants.{Device, NotImage, Worn};
ghost use Rattle.dc_core.specs.PendingImages.{IsRefused, StandsForOne};
ghost use Rattle.mbdc_fit.specs.Fit.{Fits, FitsAll, IfDisk, IfOpen, IsBefore, IsStanding, Lists, ListsAll};

use crate::FitFault;
use crate::list::{Plan, Wish, plan_wish};
use dc_core::pending::write_changes;
use dc_meters::House;
use dc_recovery::Store;
use dc_sectors::Disk;
use mbdc_change::DecodeFault;
use std::alloc::Allocator;

// Plans what is asked, and writes it where nothing is wrong. The result is the plan. The house isn't used any more.
fn fit<D: Disk + Drop, A: Allocator + Copy>(
    alloc: A,
    store: &mut Store<D>,
    house: &mut House<A>,
    wish: &Wish<'_>,
) -> Result<Plan<A>, FitFault>
    requires { house.old.budget ≡ budget_of (half_of D.Disk store.old.disk) }
    ensures fitted { IfOk result (λ plan. ListsAll D.Disk wish.now house.old plan store.old store.new) }
    ensures broken { IfErr result (λ fault. IfDisk fault (λ e.
        Lists D.Disk wish.now house.old store.old store.new)) }
    ensures before { IfErr result (λ fault. IsBefore fault → store.new ≡ store.old) }
    ensures opened { IfErr result (λ fault. IfOpen fault (λ e. ⊥)) }
    ensures back { D.keeps store.new.disk → D.keeps store.old.disk }
    ensures count { D.sectors store.new.disk ≡ D.sectors store.old.disk }
{
    let plan = plan_wish(alloc, wish, house)?;
    let is_wrong = plan.is_wrong();
    if is_wrong {
        return Ok(plan);
    }
    if plan.changes().is_empty() {
        return Ok(plan);
    }
    match house.replay(plan.changes()) {
        Ok(()) => {}
        Err(DecodeFault::NoMemory) => return Err(FitFault::NoMemory),
        Err(DecodeFault::Bad) => unreachable!(),
    }
    match write_changes(store, plan.changes(), house) {
        Ok(()) => Ok(plan),
        Err(fault) => Err(FitFault::Disk(fault)),
    }
}

/// Opens the image, fits the meters of a list or does one command, and closes it. What is asked is planned on the
/// register first ([`plan_wish`]). Where a row or the command is wrong nothing is done. Otherwise the changes of the
/// plan are written as one group; a row that stands already asks for none. The result is the plan, of which
/// [`Plan::print`] prints what was done: where nothing is wrong in it, each row stands, and its commands are done. The
/// disk is returned in every case.
///
/// # Errors
/// [`FitFault::Open`] and [`FitFault::NoMemory`] before anything is done; [`FitFault::Disk`] where the image couldn't
/// be written: it has all that is asked then, or nothing of it.
pub fn fit_on<D: Disk + Drop, A: Allocator + Copy>(
    alloc: A,
    disk: D,
    wish: &Wish<'_>,
) -> (D, Result<Plan<A>, FitFault>)
    // Where each image of the disk stands for some state: all that is asked is done, or nothing.
    ensures fitted { IsStanding D.Disk disk → IfOk result.1 (λ plan.
        FitsAll D.Disk wish.now plan disk result.0) }
    ensures broken { IsStanding D.Disk disk → IfErr result.1 (λ fault.
        IfDisk fault (λ e. Fits D.Disk wish.now disk result.0)) }
    ensures before { IsStanding D.Disk disk → IfErr result.1 (λ fault.
        IsBefore fault → D.keeps result.0 → LeavesOnly D.Disk disk result.0
        (StandsForOne (half_of D.Disk disk) (D.choices disk))) }

    // An image that isn't opened is refused as by the store, and nothing is lost of it.
    ensures small { D.sectors disk < fewest_sectors
        → (result.1 ≡ Err (FitFault.Open NotImage)) × (result.0 ≡ disk) }
    ensures refused { fewest_sectors ≤ D.sectors disk → IfErr result.1 (λ fault. IfOpen fault (λ e.
        D.keeps result.0 → IsRefused (half_of D.Disk disk) (D.reads disk) e)) }
    ensures premise { fewest_sectors ≤ D.sectors disk
        → IsStanding D.Disk disk → IfErr result.1 (λ fault.
        IfOpen fault (λ e. D.keeps result.0 → TellsOfImage e → e ≡ Worn)) }
    ensures unwritten { IfErr result.1 (λ fault. IfOpen fault (λ e.
        e ≢ Device → D.reads result.0 ≡ D.reads disk)) }
    ensures device { IfErr result.1 (λ fault. IfOpen fault (λ e.
        e ≡ Device → HasRisen (D.failures disk) (D.failures result.0))) }
{
    match Store::open(alloc, disk) {
        Ok((mut store, mut house)) => {
            let fitted = fit(alloc, &mut store, &mut house, wish);
            (store.close(), fitted)
        }
        Err((fault, disk)) => (disk, Err(FitFault::Open(fault))),
    }
}
