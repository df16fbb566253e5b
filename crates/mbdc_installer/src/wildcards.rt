//! Searches for meters by wildcards.

ghost use Rattle.std.specs.Prelude.{◌≡◌, IfOk, IsErrOf, OnOk};
ghost use Rattle.mbdc_io.specs.Failures.{HasRisen};
ghost use Rattle.mbdc_io.specs.Written.{PutsInto};
ghost use Rattle.mbdc_installer.specs.Scan.{Counts, Scanned};

use dc_search::put_search;
use mbdc_bus::{Bus, search_windows};
use mbdc_io::{IoFault, Sink};
use std::alloc::Allocator;
use thiserror::Error;

/// Why a scan didn't end.
#[derive(Clone, Copy, Debug, Error)]
pub enum ScanFault {
    /// A write failed.
    #[error("a write failed")]
    Write,
    /// Out of memory.
    #[error("out of memory")]
    NoMemory,
}

impl From<IoFault> for ScanFault {
    ghost use Rattle.mbdc_installer.specs.declared.wildcards.ScanFault.TheVariants.{Write};

    ghost from_gives = { λ _ fault. fault ≡ Write };

    fn from(_failed: IoFault) -> ScanFault {
        ScanFault::Write
    }
}

/// How much a search found.
#[derive(Clone, Copy)]
pub struct Count {
    /// Number of meters.
    pub meters: usize,
    /// Number of identification numbers that more than one meter has.
    pub shared: usize,
}

/// Searches a bus for meters by wildcards (EN 13757-3), with at most `budget` selections, and prints what it found:
/// each meter, each number that more than one meter has, whether the budget was spent, and the number of selections.
/// Returns how much it found.
///
/// # Errors
/// [`ScanFault::Write`], and [`ScanFault::NoMemory`] with nothing written.
pub fn scan<A: Allocator + Copy, B: Bus, W: Sink>(
    alloc: A,
    budget: u32,
    bus: &mut B,
    out: &mut W,
) -> Result<Count, ScanFault>
    ensures scanned { IfOk result (λ count. Scanned B.asks_all B.meters budget bus.old bus.new
        (PutsInto W.Sink out.old out.new) (Counts count)) }
    ensures write { IsErrOf result ScanFault.Write
        → HasRisen (W.put_failures out.old) (W.put_failures out.new) }
    ensures well { OnOk result (W.put_failures out.new ≡ W.put_failures out.old) }
    ensures unwritten { IsErrOf result ScanFault.NoMemory → out.new ≡ out.old }
{
    let Ok(search) = search_windows(alloc, budget, bus) else {
        return Err(ScanFault::NoMemory);
    };
    put_search(&search, out)?;
    Ok(Count {
        meters: search.found().len(),
        shared: search.shared().len(),
    })
}
