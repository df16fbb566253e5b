//! Plays the lives of a concentrator on one line.

ghost use Rattle.std.specs.Prelude.{◌≡◌, IfOk};
ghost use Rattle.std.specs.List.{AllByRecursion};
ghost use Rattle.dc_readout.specs.World.{AreRegular, IsWhole, world_after};

use crate::world::event::WorldEvent;
use crate::world::held::Held;
use crate::world::script::MeterScript;
use crate::world::world::World;
use mbdc_io::NoMemory;
use std::alloc::Allocator;

/// Plays these events, and returns the finished readouts in order: each is a whole readout of one
/// meter.
///
/// It runs the real session against meters that follow the standard. An event that doesn't apply is
/// skipped: a start while a session runs or of a meter that doesn't exist, an exchange without a
/// request, a commit without a received telegram.
pub fn play<A: Allocator + Copy>(
    alloc: A,
    scripts: &[MeterScript<A>],
    events: &[WorldEvent],
) -> Result<Vec<Held<A>, A>, NoMemory>
    requires { AreRegular scripts.now }
    ensures exact { IfOk result (λ held. held.items ≡ (world_after scripts.now events.now).held) }
    ensures whole { IfOk result (λ held. AllByRecursion (IsWhole scripts.now) held.items) }
{
    let mut world = World::new(alloc, scripts)?;
    for i in 0..events.len() {
        world.step(alloc, scripts, events[i])?;
    }
    Ok(world.into_held())
}
