//! The place of the halves of an image.

ghost use Rattle.std.specs.Prelude.{◌≡◌, ◌<◌, ◌≤◌, ◌^◌, ◌+◌, ◌*◌};
ghost use Rattle.mbdc_log.specs.Halves.{half_len_of, half_start, half_end, budget_of};
ghost use Rattle.mbdc_log.specs.Halves.{shortest_half, longest_half, fewest_sectors};

use dc_pages::PAYLOAD;

/// Minimum number of sectors of an image: halves of 64.
pub const FEWEST_SECTORS: u32 = 131;

/// The first sector of the first half.
pub(crate) const FIRST_SECTOR: u32 = 3;

/// Maximum number of sectors of a half.
const LONGEST_HALF: u32 = 65536;

/// Number of sectors of a half, on a disk of this many.
pub fn half_len_of(sectors: u32) -> u32
    requires { fewest_sectors ≤ sectors }
    ensures exact { result ≡ half_len_of sectors }
    ensures some { shortest_half ≤ result }
    ensures most { result ≤ longest_half }
    ensures fits { 3 + 2 * result ≤ sectors }
{
    ((sectors - 3) / 2).min(LONGEST_HALF)
}

/// The first sector of a half.
pub fn half_start(half_len: u32, half: u8) -> u32
    requires small { half ≤ 1 }
    requires most { half_len ≤ longest_half }
    ensures exact { result ≡ half_start half_len half }
{
    if half == 0 { 3 } else { 3 + half_len }
}

/// The number after the last sector of a half.
pub fn half_end(half_len: u32, half: u8) -> u32
    requires small { half ≤ 1 }
    requires most { half_len ≤ longest_half }
    ensures exact { result ≡ half_end half_len half }
    ensures within { result ≤ 3 + 2 * half_len }
    ensures room { half_start half_len half + half_len ≡ result }
{
    half_start(half_len, half) + half_len
}

/// Maximum size of a state, in bytes.
pub(crate) fn budget_of(half_len: u32) -> u32
    requires { half_len ≤ longest_half }
    ensures { result ≡ budget_of half_len }
{
    PAYLOAD as u32 * (half_len / 2)
}
