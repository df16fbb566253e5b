//! `SEARCH`: searches for meters over the gateway.

ghost use Rattle.std.specs.Prelude.{◌≡◌, true};
ghost use Rattle.mbdc_bus.specs.Bus.{AreExchanged};
ghost use Rattle.mbdc_io.specs.Written.{PutsInto};
ghost use Rattle.dc_poller.specs.Halt.{IsCounted};
ghost use Rattle.dc_poller.specs.Link.{link_by};
ghost use Rattle.dc_poller.specs.Search.{ComesOver, Talked};
ghost use Rattle.dc_poller.specs.Run.{AnyRun, SomeTurns};

use crate::halt::{Halt, written};
use crate::loss::{GATEWAY_LINE, put_loss};
use crate::quiet::{quiet_ask, quiet_commit};
use dc_core::{Concentrator, StartFault, put_committed, put_started};
use dc_search::put_search;
use dc_sectors::Disk;
use mbdc_bus::{Bus, search_over};
use mbdc_io::{IoFault, NoMemory, Sink};
use std::alloc::Allocator;

/// Searches for meters over the bus of the gateway, with at most `budget` selections. The pending changes are
/// committed first, and while a readout of the gateway's line is pending nothing is selected, since a
/// selection would restart that readout. The answers are taken as they come.
pub fn search<D: Disk + Drop, A: Allocator + Copy, B: Bus, W: Sink>(
    alloc: A,
    concentrator: &mut Concentrator<D, A>,
    bus: &mut B,
    budget: u32,
    out: &mut W,
) -> Result<(), Halt>
    ensures went { AnyRun D.Disk concentrator.old concentrator.new (λ run.
        SomeTurns D.Disk run (ComesOver B.meters B.lost budget bus.old bus.new
        (λ exchanges. AreExchanged B.asks bus.old exchanges bus.new)
        (PutsInto W.Sink out.old out.new) result)) }
    ensures counted { IsCounted result (W.put_failures out.old) (W.put_failures out.new) }
    ensures budget { concentrator.new.house.budget ≡ concentrator.old.house.budget }
    ensures untouched { B.lost bus.old ≡ true → bus.new ≡ bus.old }
{
    match quiet_commit(concentrator) {
        Ok(_) => match quiet_ask(concentrator, GATEWAY_LINE) {
            Some(_) => written(put_started(out, Err(StartFault::Busy))),
            None => search_bus(alloc, bus, budget, out),
        },
        Err(fault) => written(put_committed(out, Err(fault))),
    }
}

// Runs the search and writes its result. A loss of the bus is printed before it.
fn search_bus<A: Allocator + Copy, B: Bus, W: Sink>(
    alloc: A,
    bus: &mut B,
    budget: u32,
    out: &mut W,
) -> Result<(), Halt>
    ensures talked { Talked (B.meters bus.old) budget
        (link_by (B.lost bus.old)) (link_by (B.lost bus.new))
        (λ exchanges. AreExchanged B.asks bus.old exchanges bus.new)
        (PutsInto W.Sink out.old out.new) result }
    ensures counted { IsCounted result (W.put_failures out.old) (W.put_failures out.new) }
    ensures untouched { B.lost bus.old ≡ true → bus.new ≡ bus.old }
{
    let was_lost = bus.is_lost();
    let searched = search_over(alloc, budget, bus);
    match put_loss(was_lost, bus.is_lost(), out) {
        Ok(()) => match searched {
            Ok(search) => written(put_search(&search, out)),
            Err(NoMemory) => Err(Halt::NoMemory),
        },
        Err(IoFault) => Err(Halt::Write),
    }
}
