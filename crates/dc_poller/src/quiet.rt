//! Single events of a concentrator whose answers aren't written.

ghost use Rattle.std.specs.Prelude.{◌≡◌};
ghost use Rattle.dc_core.specs.Event.{asks, commits, asked, committed};
ghost use Rattle.dc_poller.specs.Run.{AnyRun, OneTurn};

use dc_core::{CommitFault, Concentrator};
use dc_linkframe::FrameBuf;
use dc_sectors::Disk;
use std::alloc::Allocator;

/// Commits the pending changes.
pub fn quiet_commit<D: Disk + Drop, A: Allocator + Copy>(
    concentrator: &mut Concentrator<D, A>,
) -> Result<usize, CommitFault>
    ensures went { AnyRun D.Disk concentrator.old concentrator.new (λ run.
        OneTurn D.Disk run commits (λ answer. answer ≡ committed result)) }
    ensures budget { concentrator.new.house.budget ≡ concentrator.old.house.budget }
{
    concentrator.commit()
}

/// Asks for a line's request.
pub fn quiet_ask<D: Disk + Drop, A: Allocator + Copy>(
    concentrator: &Concentrator<D, A>,
    line: u8,
) -> Option<FrameBuf>
    ensures went { AnyRun D.Disk concentrator.now concentrator.now (λ run.
        OneTurn D.Disk run (asks line) (λ answer. answer ≡ asked result)) }
{
    concentrator.ask(line)
}
