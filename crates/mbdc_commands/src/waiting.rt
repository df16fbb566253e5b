//! Waiting for the buses of a poll.

ghost use Rattle.mbdc_commands.specs.Waiting.{AddsAwaited};
ghost use Rattle.mbdc_poll.specs.Waiting.{is_awaited};

use mbdc_bus::HalfBus;
use mbdc_poll::{PollBus, Station, is_awaited};
use mbdc_raw::links::{Watch, Watched};
use std::mem;

/// Waits until one of several buses may have received something.
pub trait Waits<B> {
    // It added a bus to those that it waits for.
    ghost adds: { Self → B → Self → Type 0 };

    // It waited for the buses that were added.
    ghost waited: { Self → Self → Type 0 } = { λ _ _. Unit {0} };

    /// Adds a bus to those that the next wait is for.
    fn add_bus(&mut self, bus: &B)
        ensures { adds self.old bus.now self.new };

    /// Waits for the buses that were added, and forgets them.
    fn wait_for_all(&mut self)
        ensures { waited self.old self.new };
}

/// The wait for buses with filters. Where one of them has withheld its request, nothing is waited for.
#[derive(Drop)]
pub struct FilteredWatch {
    watch: Watch,
    withholds: bool,
}

impl FilteredWatch {
    /// Returns an empty set of buses.
    pub fn new() -> Self {
        FilteredWatch {
            watch: Watch::new(),
            withholds: false,
        }
    }
}

impl<B: HalfBus + Watched + Drop> Waits<PollBus<'_, '_, '_, B>> for FilteredWatch {
    ghost use Rattle.std.specs.Prelude.{⊤};

    // What a wait does is in no contract.
    ghost adds = { λ _ _ _. ⊤ };

    ghost waited = { λ _ _. ⊤ };

    fn add_bus(&mut self, bus: &PollBus<'_, '_, '_, B>)
        ensures { ⊤ }
    {
        let sparing = &bus.bus.bus.bus;
        self.withholds = self.withholds || bus.withholds || sparing.withholds;
        sparing.bus.bus.add_to(&mut self.watch);
    }

    fn wait_for_all(&mut self)
        ensures { ⊤ }
    {
        let watch = mem::replace(self, FilteredWatch::new());
        if !watch.withholds {
            watch.watch.wait();
        }
    }
}

/// Adds the buses of the lines that are awaited, and no others, in the order of the lines.
pub fn add_awaited<B: HalfBus + Drop, W: Waits<B>>(stations: &[Station<'_, B>], waits: &mut W)
    ensures { AddsAwaited W.adds stations.now waits.old waits.new }
{
    let Some((station, others)) = stations.split_first() else {
        return;
    };
    if is_awaited(station) {
        waits.add_bus(&station.bus);
    }
    add_awaited(others, waits);
}
