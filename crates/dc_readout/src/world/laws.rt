//! The two theorems about readouts on a lossy line, stated of the world alone.

ghost use Rattle.std.specs.Prelude.{List};
ghost use Rattle.std.specs.List.{AllByRecursion};
ghost use Rattle.dc_readout.specs.Meter.{Meter};
ghost use Rattle.dc_readout.specs.declared.world.event.WorldEvent.{WorldEvent};
ghost use Rattle.dc_readout.specs.World.{AreRegular, IsWhole, GoesOnFromCommitted, world_after};

/// Each readout held after any events is whole: the bodies of one meter from the first to the first
/// after which no more follow, in order, each once.
pub fn what_is_held_is_whole()
    ensures { (meters : List Meter) (events : List WorldEvent) → AreRegular meters
        → AllByRecursion (IsWhole meters) (world_after meters events).held }
{}

/// Whatever happens on the line, a meter advances past a body only if the bodies up to it are
/// committed.
pub fn a_meter_goes_on_from_what_is_committed()
    ensures { (meters : List Meter) (events : List WorldEvent) → AreRegular meters
        → GoesOnFromCommitted meters (world_after meters events) }
{}
