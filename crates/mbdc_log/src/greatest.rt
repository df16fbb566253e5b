//! The greatest session and the greatest sequence of an image's sectors.

ghost use Rattle.std.specs.Prelude.{◌≡◌, ◌<◌, ◌≤◌, ◌+◌, ◌*◌, ℕ, IfOk, IsErr};
ghost use Rattle.dc_sectors.specs.Disk.{Image};
ghost use Rattle.dc_sectors.specs.Runs.{OnlyLooked, Counts};
ghost use Rattle.mbdc_log.specs.Greatest.{IsGreatest, IsGreatestBefore, IsOneAhead};
ghost use Rattle.mbdc_log.specs.Halves.{longest_half};
ghost use Rattle.dc_pages.specs.Stamp.{IsStampOf};

use crate::halves::{FIRST_SECTOR, half_end};
use dc_pages::{Stamp, stamp_of};
use dc_sectors::{Disk, Failed, ReadFault};

/// The greatest of some numbers that sectors carry, and a sector that carries it; 0 where no sector carries one.
#[derive(Clone, Copy)]
pub struct Peak {
    /// The number.
    pub number: u64,
    /// The sector.
    pub sector: u32,
}

/// The greatest session and the greatest sequence that the sectors of both halves carry.
#[derive(Clone, Copy)]
pub struct Greatest {
    /// The greatest session.
    pub session: Peak,
    /// The greatest sequence.
    pub sequence: Peak,
}

impl Peak {
    const NONE: Peak = Peak {
        number: 0,
        sector: 0,
    };

    /// The greater of the two numbers.
    fn or(self, number: u64, sector: u32) -> Peak
        ensures greater { self.number < number → (result.number ≡ number) × (result.sector ≡ sector) }
        ensures same { number ≤ self.number → result ≡ self }
    {
        if number > self.number {
            Peak { number, sector }
        } else {
            self
        }
    }
}

impl Greatest {
    /// Where no sector carries a stamp.
    pub const NONE: Greatest = Greatest {
        session: Peak::NONE,
        sequence: Peak::NONE,
    };

    /// With the stamp of one sector more.
    fn with(self, n: u32, stamp: Option<Stamp>) -> Greatest
        requires { 3 ≤ n }
        ensures { (image : Image) → IsStampOf (image n) stamp → IsGreatestBefore n self image
            → IsGreatestBefore (n + 1) result image }
    {
        match stamp {
            None => self,
            Some(stamp) => Greatest {
                session: self.session.or(stamp.session, n),
                sequence: self.sequence.or(stamp.sequence, n),
            },
        }
    }

    /// A sector that is ahead of a session and of the sequence after the last one, if one is.
    pub fn ahead_of(&self, session: u64, last: u64) -> Option<u32>
        ensures { (half_len : ℕ) (image : Image) → IsGreatest half_len self.now image
            → IsOneAhead half_len session (last + 1) result image }
    {
        if self.session.number > session {
            Some(self.session.sector)
        } else if self.sequence.number.saturating_sub(last) > 1 {
            Some(self.sequence.sector)
        } else {
            None
        }
    }
}

/// The stamp of a sector. An unreadable one has none.
fn stamp_at<D: Disk>(disk: &mut D, n: u32) -> Result<Option<Stamp>, Failed>
    requires { n < D.sectors disk.old }
    ensures stamp { D.keeps disk.new → IfOk result (IsStampOf (D.reads disk.old n)) }
    ensures looked { OnlyLooked D.Disk disk.old disk.new }
    ensures counts { Counts D.Disk disk.old disk.new (IsErr result) }
{
    match disk.read(n) {
        Ok(bytes) => Ok(stamp_of(&bytes)),
        Err(ReadFault::Unreadable) => Ok(None),
        Err(ReadFault::Failed) => Err(Failed),
    }
}

/// Reads both halves, each sector once, and returns the greatest session and the greatest sequence that they carry. It
/// uses no memory.
pub fn greatest_of<D: Disk>(disk: &mut D, half_len: u32) -> Result<Greatest, Failed>
    requires most { half_len ≤ longest_half }
    requires fits { 3 + 2 * half_len ≤ D.sectors disk.old }
    ensures greatest { D.keeps disk.new → IfOk result (λ greatest. IsGreatest half_len greatest (D.reads disk.old)) }
    ensures looked { OnlyLooked D.Disk disk.old disk.new }
    ensures counts { Counts D.Disk disk.old disk.new (IsErr result) }
{
    let mut greatest = Greatest::NONE;
    for n in FIRST_SECTOR..half_end(half_len, 1) {
        let stamp = stamp_at(disk, n)?;
        greatest = greatest.with(n, stamp);
    }
    Ok(greatest)
}
