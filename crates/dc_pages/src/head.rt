//! The head of a sector of a group.

ghost use Rattle.std.specs.Prelude.{◌≡◌, ◌++◌, drop};
ghost use Rattle.dc_pages.specs.Group.{IsHead, head_bytes, head_len};

use dc_sectors::{put_u16, put_u32, put_u64, u16_at, u32_at, u64_at};

/// The kind of a page of a whole state.
pub const BASE: u8 = 0x42;

/// The kind of a page of changes.
pub const CHANGES: u8 = 0x50;

/// The kind of a commit sector.
pub(crate) const COMMIT: u8 = 0x43;

/// Number of bytes of a head; the payload follows.
pub(crate) const HEAD: usize = 24;

/// Number of payload bytes of a page.
pub const PAYLOAD: usize = 488;

/// The fields of the head of a page or commit sector.
#[derive(Clone, Copy)]
pub(crate) struct Head {
    pub(crate) kind: u8,
    pub(crate) version: u8,
    pub(crate) used: u16,
    pub(crate) index: u32,
    pub(crate) session: u64,
    pub(crate) sequence: u64,
}

/// Reads the head of a sector.
pub(crate) fn read_head(sector: &[u8; 512]) -> Head
    ensures { IsHead result.kind result.version result.used result.index result.session
        result.sequence sector.now }
{
    Head {
        kind: sector[0],
        version: sector[1],
        used: u16_at(sector, 2),
        index: u32_at(sector, 4),
        session: u64_at(sector, 8),
        sequence: u64_at(sector, 16),
    }
}

/// Writes the head, and leaves the bytes after it.
pub(crate) fn write_head(sector: &mut [u8; 512], head: &Head)
    ensures { sector.new ≡ head_bytes head.now.kind head.now.version head.now.used head.now.index
        head.now.session head.now.sequence ++ drop head_len sector.old }
{
    sector[0] = head.kind;
    sector[1] = head.version;
    put_u16(sector, 2, head.used);
    put_u32(sector, 4, head.index);
    put_u64(sector, 8, head.session);
    put_u64(sector, 16, head.sequence);
}
