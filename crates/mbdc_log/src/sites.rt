//! The place of the groups of an image.

ghost use Rattle.std.specs.Prelude.{◌≡◌, ◌≤◌, ◌+◌, ◌*◌};
ghost use Rattle.mbdc_log.specs.Halves.{longest_half};
ghost use Rattle.mbdc_log.specs.Sites.{base_site, change_site};

use crate::halves::{half_end, half_start};
use dc_pages::{BASE, CHANGES, Site};
use dc_roots::Root;

/// The site of a root's base group: its half begins with it.
pub(crate) fn base_site(half_len: u32, root: &Root) -> Site
    requires half { root.now.half ≤ 1 }
    requires most { half_len ≤ longest_half }
    ensures exact { result ≡ base_site half_len root.now }
    ensures within { result.limit ≤ 3 + 2 * half_len }
{
    Site {
        kind: BASE,
        version: root.version,
        sequence: root.base_sequence,
        first: half_start(half_len, root.half),
        limit: half_end(half_len, root.half),
    }
}

/// The site of a group of changes of that sequence, at a place in the root's half.
pub(crate) fn change_site(half_len: u32, root: &Root, sequence: u64, place: u32) -> Site
    requires half { root.now.half ≤ 1 }
    requires most { half_len ≤ longest_half }
    ensures exact { result ≡ change_site half_len root.now sequence place }
    ensures within { result.limit ≤ 3 + 2 * half_len }
{
    Site {
        kind: CHANGES,
        version: root.version,
        sequence,
        first: place,
        limit: half_end(half_len, root.half),
    }
}
