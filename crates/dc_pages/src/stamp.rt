//! The stamp of a sector.

ghost use Rattle.dc_sectors.specs.declared.sector.Sector.TheVariants.{Bytes};
ghost use Rattle.dc_pages.specs.Stamp.{IsStampOf};

use crate::head::{BASE, CHANGES, COMMIT, read_head};

/// The two versions of the format.
const FIRST_VERSION: u8 = 1;

const VERSION: u8 = 2;

/// What the sectors of one group have in common.
#[derive(Clone, Copy)]
pub struct Stamp {
    /// The session in which they were written.
    pub session: u64,
    /// The group's sequence number.
    pub sequence: u64,
}

/// The stamp of a page or commit sector, of either version of the format. Any other sector has none.
pub fn stamp_of(sector: &[u8; 512]) -> Option<Stamp>
    ensures { IsStampOf (Bytes sector.now) result }
{
    let head = read_head(sector);
    let is_kind = head.kind == BASE || head.kind == CHANGES || head.kind == COMMIT;
    let is_known = head.version == FIRST_VERSION || head.version == VERSION;
    if is_kind && is_known {
        Some(Stamp {
            session: head.session,
            sequence: head.sequence,
        })
    } else {
        None
    }
}
