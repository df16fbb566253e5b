//! Opens an image of a counter.

ghost use Rattle.std.specs.Prelude.{IfOk};
ghost use Rattle.mbdc_log.specs.Halves.{half_of};
ghost use Rattle.mbdc_log.specs.Stands.{Reads};
ghost use Rattle.mbdc_theorems.specs.Images.{ReadsCount};

use crate::counter::{Counter, Counting};
use dc_sectors::Disk;
use mbdc_io::kept::Language;
use mbdc_log::{Log, OpenFault};
use std::alloc::Global;

/// Opens an image: by the impl's ghosts, and by those that a definition writes out.
pub fn reopened<D: Disk + Drop>(
    heap: Global,
    disk: D,
) -> Result<(Log<D, Counting>, Counter), (OpenFault, D)>
    ensures quoted { IfOk result (λ o. D.keeps o.0.disk
        → Reads ⟦<Counter as Language>⟧ (half_of D.Disk disk) o.1.count (D.reads disk)) }
    ensures written_out { IfOk result (λ o. D.keeps o.0.disk
        → ReadsCount (half_of D.Disk disk) o.1.count (D.reads disk)) }
{
    Log::open(heap, disk)
}
