//! A count of a disk's calls, and the failures that a test set.

ghost use Rattle.std.specs.Prelude.{◌≡◌};

use crate::Failed;
use mbdc_io::one_failure_more;

/// The calls of a disk so far, and the failures that a test set.
#[derive(Clone, Copy)]
pub struct Calls {
    /// Number of calls; it saturates at `u64::MAX`.
    pub made: u64,
    /// Number of calls that failed; it saturates at `u64::MAX`.
    pub failed: u64,
    /// Number of calls that pass before all fail.
    pub fuse: Option<u64>,
    /// Number of calls that pass before one fails.
    pub fails_at: Option<u64>,
}

impl Calls {
    ghost use Rattle.dc_sectors.specs.Calls.{passes, counted, failed_once_more};

    pub const NONE: Calls = Calls {
        made: 0,
        failed: 0,
        fuse: None,
        fails_at: None,
    };

    /// Counts a call, and returns whether it passes.
    pub fn begin(&mut self) -> bool
        ensures passes { result ≡ passes self.old }
        ensures counted { self.new ≡ counted self.old }
    {
        self.made = self.made.saturating_add(1);
        let burns = burns(&mut self.fuse);
        let counts_down = counts_down(&mut self.fails_at);
        burns && counts_down
    }

    /// Counts a failure.
    pub fn fail(&mut self) -> Failed
        ensures { self.new ≡ failed_once_more self.old }
    {
        self.failed = one_failure_more(self.failed);
        Failed
    }
}

ghost use Rattle.dc_sectors.specs.Calls.{are_left, fuse_next, fails_next};

fn burns(fuse: &mut Option<u64>) -> bool
    ensures passes { result ≡ are_left fuse.old }
    ensures next { fuse.new ≡ fuse_next fuse.old }
{
    match fuse {
        None => true,
        Some(0) => false,
        Some(left) => {
            *left -= 1;
            true
        }
    }
}

fn counts_down(fails_at: &mut Option<u64>) -> bool
    ensures passes { result ≡ are_left fails_at.old }
    ensures next { fails_at.new ≡ fails_next fails_at.old }
{
    match fails_at {
        None => true,
        Some(0) => {
            *fails_at = None;
            false
        }
        Some(left) => {
            *left -= 1;
            true
        }
    }
}
