//! Commits the pending changes.

ghost use Rattle.std.specs.Prelude.{◌≡◌, length, IsErrOf, OnOk};
ghost use Rattle.dc_sectors.specs.Runs.{LeavesOnly, Counts};
ghost use Rattle.mbdc_log.specs.Halves.{half_of};
ghost use Rattle.dc_core.specs.declared.fault.CommitFault.TheVariants.{Device, Worn};
ghost use Rattle.dc_core.specs.Core.{Core};
ghost use Rattle.dc_core.specs.Event.{commits, committed};
ghost use Rattle.dc_core.specs.Step.{May, next};
ghost use Rattle.dc_core.specs.PendingImages.{StandsForFront};
ghost use Rattle.dc_core.specs.Lines.{NoMoreRequests};
ghost use Rattle.mbdc_log.specs.Store.{Fits};
ghost use Rattle.dc_core.specs.Writing.{IsWornFor};
ghost use Rattle.dc_core.specs.Images.{IsAt};

use super::Concentrator;
use crate::CommitFault;
use crate::pending::write_waiting;
use dc_sectors::Disk;
use mbdc_log::StoreFault;
use std::alloc::Allocator;

impl<D: Disk + Drop, A: Allocator + Copy> Concentrator<D, A> {
    /// Writes all pending changes, as one group with one sync, or as the whole register if the
    /// group doesn't fit, and acknowledges the telegram on every line whose telegram it wrote.
    /// Returns the number of changes; if nothing is pending, 0 without a call of the disk. It uses
    /// no memory.
    ///
    /// # Errors
    /// `Stopped` after a failure; `Worn` if the sequence or the generation is exhausted, and
    /// nothing has changed; `Device` if the disk failed: the pending changes may be on the disk or
    /// not, and nothing more is requested or written.
    pub fn commit(&mut self) -> Result<usize, CommitFault>
        ensures may { (origin : D) (core : Core) → IsAt D.Disk origin self.old core
            → May self.old.house.budget core commits (committed result) }
        ensures at { (origin : D) (core : Core) → IsAt D.Disk origin self.old core
            → IsAt D.Disk origin self.new (next core commits (committed result)) }

        // A crash within it leaves what is committed and a prefix of the pending changes.
        ensures any_moment { (origin : D) → D.keeps origin → (core : Core)
            → IsAt D.Disk origin self.old core
            → LeavesOnly D.Disk self.old.store.disk self.new.store.disk
            (StandsForFront (half_of D.Disk self.old.store.disk) core.committed core.pending) }
        ensures worn { IsErrOf result Worn
            → IsWornFor (D.sectors self.old.store.disk) self.old.store
            (length self.old.waiting.bytes) }

        // A group that fits in the half is appended, under the same root.
        ensures one_group { Fits (D.sectors self.old.store.disk) self.old.store
            (length self.old.waiting.bytes)
            → self.new.store.root ≡ self.old.store.root }
        ensures unchanged { IsErrOf result Worn → self.new ≡ self.old }
        ensures empty { OnOk result (self.new.waiting.count ≡ 0) }
        ensures nothing { self.old.waiting.count ≡ 0 → self.new ≡ self.old }
        ensures house { self.new.house ≡ self.old.house }
        ensures no_more { NoMoreRequests self.old.lines self.new.lines }
        ensures counts { Counts D.Disk self.old.store.disk self.new.store.disk
            (IsErrOf result Device) }
    {
        let count = self.waiting.count();
        if count == 0 {
            return Ok(0);
        }
        match write_waiting(&mut self.store, &self.waiting, &self.house) {
            Ok(()) => {
                self.waiting.clear();
                self.lines.settle();
                Ok(count)
            }
            Err(StoreFault::Device) => Err(CommitFault::Device),
            Err(StoreFault::Worn) => Err(CommitFault::Worn),
            Err(StoreFault::Stopped) => Err(CommitFault::Stopped),
        }
    }
}
