//! The calls of a file that a disk over it makes.

ghost use Rattle.std.specs.Prelude.{◌≡◌, ◌≤◌, ℕ, List, ◌∷◌, length, is_ok, IfOk};
ghost use Rattle.dc_sectors.specs.declared.sector.Sector.{Sector};
ghost use Rattle.dc_sectors.specs.FileCalls.{Call, Measured, Got, Put, Synced, value_of, came};

use crate::ReadFault;
use std::io;

/// A file, reduced to the calls of a disk over it. Its history has each call with its result.
pub trait FileCalls {
    /// The calls so far with their results, the newest first.
    ghost history: { Self → List Call };

    /// What the sectors held before the first call: a value, of which nothing is known.
    ghost start: { Self → List Sector };

    /// Returns the file's length in bytes.
    fn measure(&mut self) -> io::Result<u64>
        ensures noted { history self.new ≡ Measured (value_of result) ∷ history self.old }
        ensures start { start self.new ≡ start self.old };

    /// Reads once from that byte on into the first bytes of the buffer, and returns the number of
    /// bytes read.
    ///
    /// # Errors
    /// [`ReadFault::Failed`]; of a file that is only looked at [`ReadFault::Unreadable`] where the drive can't read
    /// them (EIO of POSIX).
    fn read_some(&mut self, at: u64, bytes: &mut [u8]) -> Result<usize, ReadFault>
        ensures count { IfOk result (λ n. n ≤ length bytes.old) }
        ensures noted { history self.new ≡ Got at (length bytes.old) (came result bytes.new)
            ∷ history self.old }
        ensures start { start self.new ≡ start self.old };

    /// Writes these bytes once from that byte on, and returns the number of bytes written.
    fn write_some(&mut self, at: u64, bytes: &[u8]) -> io::Result<usize>
        ensures count { IfOk result (λ n. n ≤ length bytes.now) }
        ensures noted { history self.new ≡ Put at bytes.now (value_of result) ∷ history self.old }
        ensures start { start self.new ≡ start self.old };

    /// Makes the written bytes durable, in one call.
    fn sync_once(&mut self) -> io::Result<()>
        ensures noted { history self.new ≡ Synced (is_ok result) ∷ history self.old }
        ensures start { start self.new ≡ start self.old };
}
