//! Appends a group of changes.

ghost use Rattle.std.specs.Prelude.{◌<◌, ◌≤◌, ◌+◌, ◌*◌, List, ℕ, suc, length, IfOk, OnOk, IsErr};
ghost use Rattle.dc_sectors.specs.Runs.{LeavesOnly, Counts, IsSettled};
ghost use Rattle.dc_pages.specs.Draft.{FitsAt};
ghost use Rattle.dc_pages.specs.PagesWriting.{SameOutside};
ghost use Rattle.mbdc_log.specs.Stands.{IsReady, IsAppendable, StandsForEither};

use crate::writing::write_group;
use dc_pages::Site;
use dc_roots::Root;
use dc_sectors::{Disk, Failed};
use mbdc_io::kept::Kept;

/// Writes a group of changes and syncs, and returns its number of sectors.
pub(crate) fn append_group<K: Kept, D: Disk>(
    disk: &mut D,
    root: &Root,
    site: Site,
    bytes: &[u8],
) -> Result<u32, Failed>
    requires some { 0 < length bytes.now }
    requires room { FitsAt site.first site.limit (length bytes.now) }
    requires limit { site.limit ≤ D.sectors disk.old }
    ensures any_moment { IsSettled D.Disk disk.old
        → (half_len m : ℕ) (was : K.State) (changes : List K.Change)
        → IsAppendable K.Language half_len root.now m site was bytes.now changes (D.reads disk.old)
        → LeavesOnly D.Disk disk.old disk.new (StandsForEither K.Language half_len was (K.after was changes)) }
    ensures ready { IsSettled D.Disk disk.old
        → (half_len m : ℕ) (was : K.State) (changes : List K.Change)
        → IsAppendable K.Language half_len root.now m site was bytes.now changes (D.reads disk.old)
        → IfOk result (λ count. IsReady K.Language half_len root.now (suc m) (site.first + count)
        (K.after was changes) (D.reads disk.new)) }
    ensures durable { OnOk result (IsSettled D.Disk disk.new) }
    ensures within { IfOk result (λ count. site.first + count ≤ site.limit) }
    ensures elsewhere { SameOutside site (D.reads disk.old) (D.reads disk.new) }
    ensures before { D.keeps disk.new → D.keeps disk.old }
    ensures counts { Counts D.Disk disk.old disk.new (IsErr result) }
{
    let count = write_group(disk, site, root.session, bytes)?;
    disk.sync()?;
    Ok(count)
}
