//! The log of a file's calls, and what the file held before them: ghost data, which only clauses read.

ghost use Rattle.std.specs.Prelude.{◌≡◌, List, [], ◌∷◌};
ghost use Rattle.std.specs.Borrow.{ftrue};
ghost use Rattle.dc_sectors.specs.declared.sector.Sector.{Sector};
ghost use Rattle.dc_sectors.specs.Note.{Note};

use std::marker::{Model, PhantomData};

/// The file's length was asked for.
pub const MEASURED: u64 = 0;

/// A read.
pub const GOT: u64 = 1;

/// A write.
pub const PUT: u64 = 2;

/// A sync.
pub const SYNCED: u64 = 3;

/// Of a file over another: a read that the drive couldn't do fails for another reason.
pub const FAILED: u64 = 4;

/// Of a file over another: a read for its own use.
pub const LOOKED: u64 = 5;

/// Of a file over another: a write fails, and the inner file isn't called.
pub const REFUSED: u64 = 6;

/// Of a file over another: the result of a sync, after which it may look at the inner file before it answers.
pub const TRIED: u64 = 7;

/// Of a file over another: the answer to a sync.
pub const ANSWERED: u64 = 8;

/// The calls of a file so far, the newest first, and what its sectors held before the first one. They use no memory.
/// No clause says what a new log has as the start, so what is proved of a log is proved of every start.
#[derive(Drop)]
pub struct CallLog {
    marker: PhantomData<u8>,
    pub ghost notes: { List Note },
    pub ghost start: { List Sector },
}

impl Model for CallLog {
    ghost also_owns = { λ _. ftrue };
}

impl CallLog {
    /// Returns a log with no call.
    pub fn new() -> CallLog
        ensures { result.notes ≡ [] }
    {
        CallLog {
            marker: PhantomData,
        }
    }

    /// Adds a call. The numbers are its kind, its place in the file, a count, and 1 if it
    /// succeeded.
    pub fn note(&mut self, _numbers: &[u64], _bytes: &[u8])
        ensures { self.new ≡ record self.old { notes = (_numbers.now, _bytes.now) ∷ self.old.notes } }
    {}
}
