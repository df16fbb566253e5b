//! The look at an image before it is opened to be written.

ghost use Rattle.std.specs.Prelude.{IfErr, OnOk};
ghost use Rattle.mbdc_commands.specs.Guard.{IsKeptShut, IsReady};

use dc_meters::House;
use dc_sectors::Disk;
use mbdc_ending::Ending;
use mbdc_log::{OpenFault, settled_ahead};
use std::alloc::Global;

/// Makes what the image reads as durable, and looks at it: what each command that writes an image begins with. Nothing
/// is written.
///
/// # Errors
/// The ending of the command: the image reads as no state, or a sector is ahead of the state that it reads as.
pub(crate) fn guarded<'a, D: Disk>(alloc: Global, disk: &mut D) -> Result<(), Ending<'a>>
    ensures ready { OnOk result (IsReady D.Disk disk.old disk.new) }
    ensures shut { IfErr result (IsKeptShut D.Disk disk.old disk.new) }
{
    match settled_ahead::<House<Global>, D>(alloc, disk) {
        Ok(None) => Ok(()),
        Ok(Some(sector)) => Err(Ending::Behind(sector)),
        Err(OpenFault::NoMemory) => Err(Ending::Memory),
        Err(fault) => Err(Ending::Open(fault)),
    }
}
