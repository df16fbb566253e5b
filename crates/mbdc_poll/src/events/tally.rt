//! The meters that a poll is done with.

ghost use Rattle.std.specs.Prelude.{◌≡◌};
ghost use Rattle.mbdc_poll.specs.Tally.{tallied};

use crate::Event;

/// Counts the meters that a poll is done with.
#[derive(Clone, Copy)]
pub struct Tally {
    /// Number of meters that were read, failed or were refused.
    pub done: u64,
    /// Number of those that weren't read.
    pub failed: u64,
}

impl Tally {
    /// The counts after an event.
    pub fn after(self, event: &Event<'_>) -> Self
        ensures { result ≡ tallied event.now self }
    {
        match event {
            Event::Read { .. } => Tally {
                done: self.done.saturating_add(1),
                failed: self.failed,
            },
            Event::Failed { .. } | Event::Refused { .. } => Tally {
                done: self.done.saturating_add(1),
                failed: self.failed.saturating_add(1),
            },
            Event::Lost { .. } | Event::Late { .. } | Event::End { .. } => self,
        }
    }
}
