//! Checks and applies changes.

ghost use Rattle.std.specs.Prelude.{◌≡◌, ◌+◌, ◌<◌, true, OnOk, OnErr};
ghost use Rattle.mbdc_change.specs.Apply.{applied};
ghost use Rattle.mbdc_change.specs.Accepts.{refusal, is_next, refused_by, Accepts};
ghost use Rattle.mbdc_change.specs.Valid.{IsChange};

use super::House;
use mbdc_change::{Change, ChangeFault};
use mbdc_io::NoMemory;
use std::alloc::Allocator;

impl<A: Allocator + Copy> House<A> {
    /// Why the change is refused, if it is: the first of Known, Unknown, AddressTaken, Beyond and
    /// Full that applies. It doesn't check whether a command's number is the next.
    pub fn check(&self, change: &Change<'_>) -> Result<(), ChangeFault>
        ensures { result ≡ refused_by (refusal self.now.budget change.now self.now.state) }
    {
        match change {
            Change::Telegram { part, body, .. } => self.check_telegram(*part, body),
            Change::Command { command, .. } => self.check_command(command),
        }
    }

    /// Whether a command's number is one more than the last command's; true for a telegram.
    pub fn is_next(&self, change: &Change<'_>) -> bool
        ensures { result ≡ is_next change.now self.now.state }
    {
        match change {
            Change::Telegram { .. } => true,
            Change::Command { number, .. } => *number == self.last_number() + 1,
        }
    }

    /// Applies the change. If memory runs out, the house is unchanged.
    pub fn apply(&mut self, change: &Change<'_>) -> Result<(), NoMemory>
        requires change { IsChange change.now }
        requires accepted { Accepts self.old.budget change.now self.old.state }
        ensures ok { OnOk result (self.new
            ≡ record self.old { state = applied change.now self.old.state }) }
        ensures err { OnErr result (self.new ≡ self.old) }
    {
        match change {
            Change::Telegram { part, moment, body } => self.hear(*part, *moment, body),
            Change::Command { number, command } => self.command(*number, command),
        }
    }
}
