//! Takes the answers on a line.

ghost use Rattle.std.specs.Prelude.{◌≡◌, ◌<◌, ◌≤◌, OnOk};
ghost use Rattle.mbdc_change.specs.Fields.{last_moment};
ghost use Rattle.dc_core.specs.Lines.{requests_on, NoMoreRequests};
ghost use Rattle.dc_core.specs.Core.{Core};
ghost use Rattle.dc_core.specs.Event.{hears, heard};
ghost use Rattle.dc_core.specs.Step.{May, next};
ghost use Rattle.dc_core.specs.Images.{IsAt};

use super::Concentrator;
use crate::pending::{is_line, take};
use crate::{HearFault, LineHeard};
use dc_readout::Heard;
use dc_sectors::Disk;
use std::alloc::Allocator;

impl<D: Disk + Drop, A: Allocator + Copy> Concentrator<D, A> {
    /// Takes an answer received on a line, with its time stamp. No byte is silence. A telegram is
    /// added to the register and is pending until a commit; a failed session leaves its line. Only
    /// a telegram uses memory.
    ///
    /// # Errors
    /// The first of `NoLine`, `Stopped`, `Idle`, and for a telegram `PendingFull`, `Full`,
    /// `NoMemory` that applies; nothing has changed, and the request can be answered again.
    pub fn hear(&mut self, line: u8, moment: u64, answer: &[u8]) -> Result<LineHeard, HearFault>
        requires { moment ≤ last_moment }
        ensures may { (origin : D) (core : Core) → IsAt D.Disk origin self.old core
            → May self.old.house.budget core (hears line moment answer.now) (heard result) }
        ensures at { (origin : D) (core : Core) → IsAt D.Disk origin self.old core
            → IsAt D.Disk origin self.new
            (next core (hears line moment answer.now) (heard result)) }
        ensures store { self.new.store ≡ self.old.store }
        ensures budget { self.new.house.budget ≡ self.old.house.budget }
        // The line's session may make one request less, at least, and none may make more.
        ensures fewer { OnOk result
            (requests_on line self.new.lines < requests_on line self.old.lines) }
        ensures no_more { NoMoreRequests self.old.lines self.new.lines }
    {
        if !is_line(line) {
            return Err(HearFault::NoLine);
        }
        if self.store.is_stopped() {
            return Err(HearFault::Stopped);
        }
        let Some(mut session) = self.lines.get(line) else {
            return Err(HearFault::Idle);
        };
        if !session.is_asking() {
            return Err(HearFault::Idle);
        }
        match session.hear(answer) {
            Heard::Again => {
                self.lines.put(line, Some(session));
                Ok(LineHeard::Again)
            }
            Heard::Ready => {
                self.lines.put(line, Some(session));
                Ok(LineHeard::Ready)
            }
            Heard::Failed(why) => {
                self.lines.put(line, None);
                Ok(LineHeard::Failed(why))
            }
            Heard::New { part, telegram } => {
                take(&mut self.house, &mut self.waiting, part, moment, &telegram)?;
                self.lines.put(line, Some(session));
                let more = telegram.more_follows();
                Ok(LineHeard::Accepted { part, more })
            }
        }
    }
}
