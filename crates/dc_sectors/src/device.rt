//! The disk model: the effect of each call of a disk, and its possible contents after a crash.

ghost use Rattle.std.specs.Prelude.{◌≡◌, ◌≢◌, ◌⊎◌, ◌<◌, ◌≤◌, List, ℕ, OnOk, OnErr, IsErr};
ghost use Rattle.std.specs.Prelude.{IsErrOf, Contains};
ghost use Rattle.dc_sectors.specs.declared.sector.Sector.{Sector};
ghost use Rattle.dc_sectors.specs.declared.sector.ReadFault.TheVariants.{Failed as ReadFailed};
ghost use Rattle.dc_sectors.specs.Disk.{IsImage, Answers, Counted, put, added, settled, Elapses};

use crate::{Failed, ReadFault};

/// A disk of sectors of 512 bytes, numbered from 0.
///
/// What a read returns is stated under a premise, `keeps`: all that the disk has returned so far is
/// what the model states. Everything else holds of every disk.
pub trait Disk {
    /// Whether all that this disk's reads have returned so far is what the disk model states.
    ghost keeps: { Self → Type 0 };

    /// Number of sectors.
    ghost sectors: { Self → ℕ };

    /// What each sector reads now.
    ghost reads: { Self → ℕ → Sector };

    /// The possible contents of each sector after a crash at this moment.
    ghost choices: { Self → ℕ → List Sector };

    /// The moment, as a number that never falls.
    ghost moment: { Self → ℕ };

    /// The images that a crash at some moment since that one could leave, within a call or between
    /// two.
    ghost images_since: { Self → ℕ → (ℕ → Sector) → Type 0 };

    /// Number of failures of the device; a call that passes leaves it. It saturates at `u64::MAX`.
    ghost failures: { Self → ℕ };

    /// Number of sectors.
    fn count(&self) -> u32
        ensures { result ≡ sectors self.now };

    /// Reads a sector. A failure changes nothing but the count of failures.
    fn read(&mut self, n: u32) -> Result<[u8; 512], ReadFault>
        requires { n < sectors self.old }
        ensures answer { keeps self.new → Answers (reads self.old n) result }
        ensures before { keeps self.new → keeps self.old }
        ensures reads { reads self.new ≡ reads self.old }
        ensures choices { choices self.new ≡ choices self.old }
        ensures time { Elapses (moment self.old) (moment self.new) (images_since self.old)
            (images_since self.new) (IsImage (choices self.old)) }
        ensures counts { Counted sectors failures self.old self.new (IsErrOf result ReadFailed) };

    /// Writes a sector. The bytes are one of the sector's possible contents until a sync. A write
    /// that failed may have been made, wholly or in part.
    fn write(&mut self, n: u32, bytes: &[u8; 512]) -> Result<(), Failed>
        requires { n < sectors self.old }
        ensures before { keeps self.new → keeps self.old }
        ensures reads { OnOk result (reads self.new ≡ put (reads self.old) n bytes.now) }
        ensures elsewhere { (m : ℕ) → m ≢ n → reads self.new m ≡ reads self.old m }
        ensures choices { OnOk result (choices self.new ≡ added (choices self.old) n bytes.now) }
        ensures choices_err { OnErr result
            ((choices self.new ≡ added (choices self.old) n bytes.now)
            ⊎ (choices self.new ≡ choices self.old)) }
        ensures time { Elapses (moment self.old) (moment self.new) (images_since self.old)
            (images_since self.new) (IsImage (added (choices self.old) n bytes.now)) }
        ensures counts { Counted sectors failures self.old self.new (IsErr result) };

    /// Makes what each sector reads its only possible contents. A sync that failed changes nothing
    /// but the count of failures.
    fn sync(&mut self) -> Result<(), Failed>
        ensures before { keeps self.new → keeps self.old }
        ensures reads { reads self.new ≡ reads self.old }
        ensures choices { OnOk result (choices self.new ≡ settled (reads self.old)) }
        ensures choices_err { OnErr result (choices self.new ≡ choices self.old) }
        ensures time { Elapses (moment self.old) (moment self.new) (images_since self.old)
            (images_since self.new) (IsImage (choices self.old)) }
        ensures counts { Counted sectors failures self.old self.new (IsErr result) };

    /// What a sector reads is one of its possible contents.
    ghost reads_a_choice: { (disk : Self) (n : ℕ) → Contains (choices disk n) (reads disk n) };

    /// The images of this moment are among those since an earlier one.
    ghost counts_now: { (disk : Self) (t : ℕ) (image : ℕ → Sector) → t ≤ moment disk
        → IsImage (choices disk) image → images_since disk t image };

    /// Since this moment no image but its own is possible.
    ghost only_now: { (disk : Self) (image : ℕ → Sector) → images_since disk (moment disk) image
        → IsImage (choices disk) image };
}
