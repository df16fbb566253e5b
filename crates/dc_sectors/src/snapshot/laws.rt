//! What two equal readings say of a file.

ghost use Rattle.std.specs.Prelude.{ℕ, List, Option, [], ◌∷◌};
ghost use Rattle.std.specs.List.{All};
ghost use Rattle.dc_sectors.specs.Disk.{Image};
ghost use Rattle.dc_sectors.specs.File.{KeepsRule};
ghost use Rattle.dc_sectors.specs.FileCalls.{Measured};
ghost use Rattle.dc_sectors.specs.Instant.{NeverReturns, StandsAcross};
ghost use Rattle.dc_sectors.specs.Readings.{Reading, calls_after};

/// Where no sector of a file returns to what it held before, and each of these readings gave what its sector held
/// before an instant and after it, the readings are of that instant: a disk kept its model on them, if what the file
/// held then is its start. A sector that is being written holds what it held before or the new bytes.
pub fn what_was_read_twice_stood_between()
    ensures { (file : ℕ → Image) (instant : ℕ) (bytes : Option ℕ) (kept : List Reading) →
        NeverReturns file → All (StandsAcross file instant) kept →
        KeepsRule (file instant) (calls_after kept (Measured bytes ∷ [])) }
{}
