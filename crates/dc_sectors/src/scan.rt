//! What a record of writes and syncs says of one sector.

ghost use Rattle.std.specs.Prelude.{◌≡◌, ◌≤◌, ◌<◌, ◌+◌, ℕ, List, [], ◌∷◌};
ghost use Rattle.dc_sectors.specs.declared.sector.Sector.{Sector};
ghost use Rattle.dc_sectors.specs.Memory.{picked};
ghost use Rattle.dc_sectors.specs.Record.{reads_next, choices_next, choices_after, writes_next};

use crate::event::Event;
use crate::pick::Pick;
use crate::sector::Sector;

/// What the pick says of sector n, which read so when the record began.
pub fn picked(start: Sector, events: &[Event], n: u32, pick: Pick) -> Sector
    ensures { (image : ℕ → Sector) → image n ≡ start
        → result ≡ picked (choices_after image events.now n) pick }
{
    let mut scan = settled(start, pick);
    for event in events {
        scan = next(scan, event, n, pick);
    }
    scan.at_pick
}

/// What is known of a sector on the way over a record.
#[derive(Clone, Copy)]
pub struct Scan {
    reads: Sector,
    at_pick: Sector,
    writes: usize,
}

ghost use Rattle.dc_sectors.specs.Scan.{IsScan, IsWritten};

fn settled(reads: Sector, pick: Pick) -> Scan
    ensures reads { result.reads ≡ reads }
    ensures at_pick { result.at_pick ≡ picked (reads ∷ []) pick }
    ensures writes { result.writes ≡ 0 }
{
    let at_pick = match pick {
        Pick::Old => reads,
        Pick::Written(_) | Pick::Unreadable => Sector::Unreadable,
    };
    Scan {
        reads,
        at_pick,
        writes: 0,
    }
}

fn written(scan: Scan, bytes: &[u8; 512], done: bool, pick: Pick) -> Scan
    requires { scan.writes < usize.MAX }
    ensures { IsWritten scan bytes.now done pick result }
{
    let sector = Sector::Bytes(*bytes);
    Scan {
        reads: if done { sector } else { scan.reads },
        at_pick: match pick {
            Pick::Written(k) if k == scan.writes => sector,
            _ => scan.at_pick,
        },
        writes: scan.writes + 1,
    }
}

fn next(scan: Scan, event: &Event, n: u32, pick: Pick) -> Scan
    requires { scan.writes < usize.MAX }
    ensures is { (image : ℕ → Sector) (choices : ℕ → List Sector) (writes : ℕ → ℕ)
        → IsScan image choices writes n pick scan
        → IsScan (reads_next image event.now) (choices_next image choices event.now)
        (writes_next writes event.now) n pick result }
    ensures small { result.writes ≤ scan.writes + 1 }
{
    match event {
        Event::Write { at, bytes, done } if *at == n => written(scan, bytes, *done, pick),
        Event::Sync => settled(scan.reads, pick),
        _ => scan,
    }
}
