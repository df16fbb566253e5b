//! The concentrator: a store, the register that it keeps, the pending changes, and the lines.

ghost use Rattle.std.specs.Prelude.{◌≡◌, ◌≢◌, ◌≤◌, ◌<◌, ℕ, List, Err, OnOk, IfOk, IfErr, IfSome};
ghost use Rattle.std.specs.Prelude.{IsSome, MatchResult, false, length};
ghost use Rattle.dc_sectors.specs.Disk.{Image, IsImage};
ghost use Rattle.dc_sectors.specs.Runs.{LeavesOnly, Counts, IsSettled};
ghost use Rattle.mbdc_change.specs.State.{State};
ghost use Rattle.mbdc_log.specs.Halves.{budget_of, half_of, fewest_sectors};
ghost use Rattle.dc_core.specs.PendingImages.{EachStands, Reads, Stands, StandsForOne};
ghost use Rattle.dc_core.specs.PendingImages.{IsRefused, IsWorn};
ghost use Rattle.mbdc_log.specs.Refusal.{TellsOfImage};
ghost use Rattle.mbdc_log.specs.declared.fault.OpenFault.TheVariants.{NotImage, Worn, Device};
ghost use Rattle.dc_readout.specs.Bound.{most_requests};
ghost use Rattle.dc_core.specs.Lines.{no_sessions, requests_on};
ghost use Rattle.dc_core.specs.Core.{Core, opened};
ghost use Rattle.dc_core.specs.Event.{starts, asks, started, asked};
ghost use Rattle.dc_core.specs.Step.{May, next, longest_request};
ghost use Rattle.dc_core.specs.Images.{IsAt};
ghost use Rattle.dc_core.specs.Transcript.{Turn};
ghost use Rattle.dc_core.specs.Headline.{IsOpened, WasStopped, IsKept, HoldsKept};

mod commit;
mod hear;
mod office;

use crate::StartFault;
use crate::pending::{Lines, Waiting, is_line};
use dc_address::Identity;
use dc_linkframe::FrameBuf;
use dc_meters::House;
use dc_readout::Session;
use dc_recovery::Store;
use dc_sectors::Disk;
use mbdc_log::OpenFault;
use std::alloc::Allocator;
use std::marker::Model;

/// The concentrator of a house. The state that it is in is defined in `specs/Core.antt`, and what a crash leaves of it
/// in `specs/Images.antt`.
#[derive(Drop)]
pub struct Concentrator<D: Disk + Drop, A: Allocator + Copy> {
    alloc: A,
    store: Store<D>,
    house: House<A>,
    waiting: Waiting,
    lines: Lines,
}

impl<D: Disk + Drop, A: Allocator + Copy> Model for Concentrator<D, A> {
    ghost use Rattle.dc_core.specs.Images.{Machine, IsWithin};

    ghost Value = { Machine D };

    ghost view = { λ c. record {
      store = c.store;
      house = c.house;
      waiting = c.waiting;
      lines = c.lines;
    } };

    ghost invariant = { λ c. IsWithin (D.sectors c.store.disk)
        (record { store = c.store; house = c.house; waiting = c.waiting; lines = c.lines }) };
}

impl<D: Disk + Drop, A: Allocator + Copy> Concentrator<D, A> {
    /// Opens the image, as [`Store::open`] does. Then nothing is pending, and no line has a
    /// session.
    ///
    /// # Errors
    /// The first in the order of the steps: [`OpenFault`]. The disk is returned.
    pub fn open(alloc: A, disk: D) -> Result<Concentrator<D, A>, (OpenFault, D)>
        // THE HEADLINE. Stopped before or within any disk call of any run of line answers, office lines and
        // commits, and opened again, the concentrator holds exactly the register and readings of a prefix of the
        // accepted telegrams and commands, and that prefix includes every telegram after which a frame count bit
        // was toggled, every command acknowledged and every reading uploaded. Its next life begins with that. Such an
        // image is refused only for an exhausted counter, where the device failed, or out of memory.
        ensures the_headline { (state : State) (done more : List Turn)
            → WasStopped D.Disk state done more disk
            → EachStands (half_of D.Disk disk) (D.choices disk)
            × IfOk result (λ c. D.keeps c.store.disk
            → IsKept state done more c.house.state × IsOpened D.Disk c.house.state c)
            × (fewest_sectors ≤ D.sectors disk
            → IfErr result (λ e. D.keeps e.1 → TellsOfImage e.0 → e.0 ≡ Worn)) }

        // The same of an image that was left by another disk (`what_a_power_cut_leaves_is_kept`).
        ensures on_any_disk { (state : State) (done more : List Turn) → IsSettled D.Disk disk
            → HoldsKept (half_of D.Disk disk) state done more (D.reads disk)
            → EachStands (half_of D.Disk disk) (D.choices disk)
            × IfOk result (λ c. D.keeps c.store.disk
            → IsKept state done more c.house.state × IsOpened D.Disk c.house.state c)
            × (fewest_sectors ≤ D.sectors disk
            → IfErr result (λ e. D.keeps e.1 → TellsOfImage e.0 → e.0 ≡ Worn)) }

        ensures small { D.sectors disk < fewest_sectors → result ≡ Err (NotImage, disk) }

        // Ok gives exactly the state that the image reads as, and a refusal is a fact of the image.
        ensures reads { IfOk result (λ c.
            D.keeps c.store.disk → Reads (half_of D.Disk disk) c.house.state (D.reads disk)) }
        ensures refused { fewest_sectors ≤ D.sectors disk
            → IfErr result (λ e. D.keeps e.1 → IsRefused (half_of D.Disk disk) (D.reads disk) e.0) }

        // Unless the device failed, a refusal wrote nothing: the disk reads as before, and so does each image of
        // every moment.
        ensures unwritten { IfErr result (λ e. e.0 ≢ Device → D.reads e.1 ≡ D.reads disk) }
        ensures spares_images { IfErr result (λ e.
            e.0 ≢ Device → LeavesOnly D.Disk disk e.1 (IsImage (D.choices disk))) }
        ensures not_worn { IfOk result (λ c.
            D.keeps c.store.disk → IsWorn (half_of D.Disk disk) (D.reads disk) → ⊥) }
        ensures durable { IfOk result (λ c. IsSettled D.Disk c.store.disk) }

        // Where each image stands for some state, the concentrator is in the opened state, and a crash leaves an image
        // that stands for a state that one of them stood for.
        ensures at { IfOk result (λ c.
            (D.keeps c.store.disk → EachStands (half_of D.Disk disk) (D.choices disk))
            → IsAt D.Disk c.store.disk c (opened c.house.state)) }

        // And so it is where the image that is read stands for a state, as where a look found none of its sectors ahead
        // (`mbdc_log::first_ahead`), whatever else a crash might have left before.
        ensures at_look { IfOk result (λ c.
            (D.keeps c.store.disk → (was : State) × Stands (half_of D.Disk disk) was (D.reads disk))
            → IsAt D.Disk c.store.disk c (opened c.house.state)) }
        ensures any_moment { EachStands (half_of D.Disk disk) (D.choices disk)
            → MatchResult result (λ c. D.keeps c.store.disk
            → LeavesOnly D.Disk disk c.store.disk
            (StandsForOne (half_of D.Disk disk) (D.choices disk)))
            (λ e. D.keeps e.1 → LeavesOnly D.Disk disk e.1
            (StandsForOne (half_of D.Disk disk) (D.choices disk))) }
        ensures premise { fewest_sectors ≤ D.sectors disk
            → EachStands (half_of D.Disk disk) (D.choices disk)
            → IfErr result (λ e. D.keeps e.1 → TellsOfImage e.0 → e.0 ≡ Worn) }
        ensures before { MatchResult result (λ c. D.keeps c.store.disk → D.keeps disk)
            (λ e. D.keeps e.1 → D.keeps disk) }
        ensures counts { MatchResult result (λ c. Counts D.Disk disk c.store.disk ⊥)
            (λ e. Counts D.Disk disk e.1 (e.0 ≡ Device)) }
        ensures running { IfOk result (λ c. c.store.is_stopped ≡ false) }
        ensures empty { IfOk result (λ c. c.waiting.count ≡ 0) }
        ensures idle { IfOk result (λ c. c.lines ≡ no_sessions) }
        ensures budget { IfOk result (λ c. c.house.budget ≡ budget_of (half_of D.Disk disk)) }
    {
        let (store, house) = Store::open(alloc, disk)?;
        Ok(Concentrator {
            alloc,
            store,
            house,
            waiting: Waiting::new(),
            lines: Lines::new(),
        })
    }

    /// Begins the readout of a meter on its line, 1 to 8.
    ///
    /// # Errors
    /// The first of `NoLine`, `Stopped`, `Unknown`, `Busy` that applies; nothing has changed.
    pub fn start(&mut self, line: u8, meter: &Identity) -> Result<(), StartFault>
        ensures may { (origin : D) (core : Core) → IsAt D.Disk origin self.old core
            → May self.old.house.budget core (starts line meter.now) (started result) }
        ensures at { (origin : D) (core : Core) → IsAt D.Disk origin self.old core
            → IsAt D.Disk origin self.new (next core (starts line meter.now) (started result)) }
        ensures store { self.new.store ≡ self.old.store }
        ensures house { self.new.house ≡ self.old.house }
        // Its session may make the requests of one readout; the other lines stay as they were.
        ensures begins { OnOk result (requests_on line self.new.lines ≤ most_requests) }
        ensures others { (other : ℕ) → 0 < other → other ≢ line
            → requests_on other self.new.lines ≡ requests_on other self.old.lines }
    {
        if !is_line(line) {
            return Err(StartFault::NoLine);
        }
        if self.store.is_stopped() {
            return Err(StartFault::Stopped);
        }
        let address = match self.house.meter(meter) {
            Some(row) if row.line() == line => row.address(),
            _ => return Err(StartFault::Unknown),
        };
        if self.lines.get(line).is_some() {
            return Err(StartFault::Busy);
        }
        self.lines.put(line, Some(Session::start(*meter, address)));
        Ok(())
    }

    /// The request to send on a line. `None` if the line doesn't exist, has no session, has a
    /// telegram that is pending, or if the disk has stopped the concentrator. A selection is the
    /// longest request, of 17 bytes.
    pub fn ask(&self, line: u8) -> Option<FrameBuf>
        ensures may { (origin : D) (core : Core) → IsAt D.Disk origin self.now core
            → May self.now.house.budget core (asks line) (asked result) }
        ensures short { IfSome result (λ request. length request ≤ longest_request) }
        ensures left { IsSome result → 0 < requests_on line self.now.lines }
    {
        if !is_line(line) || self.store.is_stopped() {
            return None;
        }
        let session = self.lines.get(line)?;
        session.ask()
    }

    /// The register, including the pending changes.
    pub fn house(&self) -> &House<A>
        ensures { result.now ≡ self.now.house }
    {
        &self.house
    }

    /// Whether the disk has stopped the concentrator: a commit failed, and nothing is kept from then
    /// on.
    pub fn is_stopped(&self) -> bool
        ensures { result ≡ self.now.store.is_stopped }
    {
        self.store.is_stopped()
    }

    /// Returns the disk, and writes nothing: the pending changes are dropped. Unless the disk has
    /// failed, each image that it may leave stands for what is committed, and so that is what
    /// opening it again returns.
    pub fn close(self) -> D
        ensures disk { result ≡ self.store.disk }
        ensures holds { (origin : D) → D.keeps origin → (core : Core)
            → IsAt D.Disk origin self core → core.stopped ≡ false
            → (image : Image) → IsImage (D.choices result) image
            → Stands (half_of D.Disk result) core.committed image }
        ensures reads { (origin : D) → D.keeps origin → (core : Core)
            → IsAt D.Disk origin self core → core.stopped ≡ false
            → (state : State) → Reads (half_of D.Disk result) state (D.reads result)
            → state ≡ core.committed }
    {
        let Concentrator { store, .. } = self;
        store.close()
    }
}
