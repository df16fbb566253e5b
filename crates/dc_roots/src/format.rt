//! Encodes and decodes a root sector.

ghost use Rattle.std.specs.Prelude.{◌≡◌, MatchOption};
ghost use Rattle.dc_sectors.specs.declared.sector.Sector.TheVariants.{Bytes};
ghost use Rattle.dc_roots.specs.declared.root.Root.{Root};
ghost use Rattle.dc_roots.specs.Root.{IsRoot, root_bytes};

use crate::Root;
use dc_sectors::{put_u32, put_u64, u32_at, u64_at};

const MAGIC: [u8; 4] = [0x4D, 0x42, 0x44, 0x43];

/// Decodes a sector as a valid root. It doesn't check which slot the sector is in.
pub(crate) fn root_of(bytes: &[u8; 512]) -> Option<Root>
    ensures { MatchOption result ((root : Root) → IsRoot root (Bytes bytes.now) → ⊥)
        (λ root. IsRoot root (Bytes bytes.now)) }
{
    if bytes[..4] != MAGIC[..] || bytes[5] > 1 {
        return None;
    }
    Some(Root {
        version: bytes[4],
        half: bytes[5],
        generation: u64_at(bytes, 8),
        session: u64_at(bytes, 16),
        base_sequence: u64_at(bytes, 24),
        half_len: u32_at(bytes, 32),
    })
}

/// Encodes a root as a sector.
pub(crate) fn sector_of(root: &Root) -> [u8; 512]
    ensures { result ≡ root_bytes root.now }
{
    let mut bytes = [0; 512];
    bytes[..4].copy_from_slice(&MAGIC);
    bytes[4] = root.version;
    bytes[5] = root.half;
    put_u64(&mut bytes, 8, root.generation);
    put_u64(&mut bytes, 16, root.session);
    put_u64(&mut bytes, 24, root.base_sequence);
    put_u32(&mut bytes, 32, root.half_len);
    bytes
}
