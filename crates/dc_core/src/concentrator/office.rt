//! Answers a line of the billing office.

ghost use Rattle.std.specs.Prelude.{◌≡◌, ◌⊎◌, [], false, Some, Err, OnOk, OnErr, IfErr, IsErrOf};
ghost use Rattle.mbdc_io.specs.Failures.{HasRisen};
ghost use Rattle.mbdc_io.specs.Written.{Wrote};
ghost use Rattle.dc_sectors.specs.Runs.{LeavesOnly, Counts};
ghost use Rattle.mbdc_change.specs.Accepts.{Accepts};
ghost use Rattle.mbdc_change.specs.Apply.{applied};
ghost use Rattle.mbdc_change.specs.Valid.{IsChange};
ghost use Rattle.mbdc_log.specs.Halves.{half_of};
ghost use Rattle.dc_core.specs.PendingImages.{StandsForFront};
ghost use Rattle.dc_upload.specs.Line.{IsOfficeLine};
ghost use Rattle.dc_upload.specs.Reply.{refusal_line, reply_text, TakesMemory};
ghost use Rattle.dc_upload.specs.Verdict.{verdict_of, IfDo};
ghost use Rattle.dc_upload.specs.declared.code.Code.TheVariants.{Memory};
ghost use Rattle.dc_upload.specs.declared.verdict.Verdict.TheVariants.{Do};
ghost use Rattle.dc_core.specs.declared.fault.CommitFault.TheVariants.{Device};
ghost use Rattle.dc_core.specs.Core.{Core};
ghost use Rattle.dc_core.specs.Event.{offices};
ghost use Rattle.dc_core.specs.Step.{settled, removed_by, lines_after, ordered, after_commit};
ghost use Rattle.dc_core.specs.Step.{IsUnstored};
ghost use Rattle.dc_core.specs.Images.{IsAt};
ghost use Rattle.dc_core.specs.Run.{IsShown, Answered, Turned};

use super::Concentrator;
use crate::pending::Lines;
use crate::{CommitFault, WriteFault};
use dc_address::Identity;
use dc_meters::House;
use dc_sectors::Disk;
use dc_upload::{
    Code, OfficeLine, ReplyFault, Verdict, judge, parse_line, write_answer as write_by,
    write_refusal,
};
use mbdc_change::Change;
use mbdc_io::{IoFault, NoMemory, Sink};
use std::alloc::Allocator;

impl<D: Disk + Drop, A: Allocator + Copy> Concentrator<D, A> {
    /// Answers a line of the office, given without its line end. Pending changes are committed
    /// first, so that nothing is judged or shown that isn't on the disk; a new command is applied
    /// and committed before `OK`. A command that removes a meter ends its session. Only a new
    /// command and the table of a REPORT use memory.
    ///
    /// # Errors
    /// `WriteFault` if the writer failed. The line's effect remains, and a repeat of the command
    /// answers `OK`; a prefix of the reply is written.
    pub fn office<W: Sink>(&mut self, line: &[u8], out: &mut W) -> Result<(), WriteFault>
        ensures turned { (origin : D) (core : Core) → IsAt D.Disk origin self.old core
            → Turned D.Disk origin self.old.house.budget core (offices line.now)
            (Wrote W.Sink result out.old out.new) self.old self.new }
        ensures count { D.sectors self.new.store.disk ≡ D.sectors self.old.store.disk }
        ensures budget { self.new.house.budget ≡ self.old.house.budget }
        ensures fault { OnErr result (HasRisen (W.put_failures out.old) (W.put_failures out.new)) }
        ensures well { OnOk result (W.put_failures out.new ≡ W.put_failures out.old) }
    {
        match self.reply(line, out) {
            Ok(()) => Ok(()),
            Err(IoFault) => Err(WriteFault),
        }
    }

    // Reads a line and answers it.
    fn reply<W: Sink>(&mut self, text: &[u8], out: &mut W) -> Result<(), IoFault>
        ensures turned { (origin : D) (core : Core) → IsAt D.Disk origin self.old core
            → Turned D.Disk origin self.old.house.budget core (offices text.now)
            (Wrote W.Sink result out.old out.new) self.old self.new }
        ensures count { D.sectors self.new.store.disk ≡ D.sectors self.old.store.disk }
        ensures budget { self.new.house.budget ≡ self.old.house.budget }
        ensures fault { OnErr result (HasRisen (W.put_failures out.old) (W.put_failures out.new)) }
        ensures well { OnOk result (W.put_failures out.new ≡ W.put_failures out.old) }
    {
        let Some(line) = parse_line(text) else {
            return write_refusal(Code::Syntax, out);
        };
        match self.settle() {
            Ok(()) => {}
            Err(_) => return write_refusal(Code::Store, out),
        }
        self.answer(&line, out)
    }

    // Commits the pending changes; a stopped store takes no line.
    fn settle(&mut self) -> Result<(), CommitFault>
        ensures ok { (origin : D) (core : Core) → IsAt D.Disk origin self.old core
            → OnOk result ((core.stopped ≡ false) × IsAt D.Disk origin self.new (settled core)) }
        ensures err { (origin : D) (core : Core) → IsAt D.Disk origin self.old core
            → IfErr result (λ fault. IsUnstored core fault × IsAt D.Disk origin self.new
            (after_commit core (Err fault))) }
        ensures any_moment { (origin : D) → D.keeps origin → (core : Core)
            → IsAt D.Disk origin self.old core
            → LeavesOnly D.Disk self.old.store.disk self.new.store.disk
            (StandsForFront (half_of D.Disk self.old.store.disk) core.committed core.pending) }
        ensures failed { IfErr result (λ fault. IsShown D.Disk self.old self.new (Some fault)) }
        ensures empty { OnOk result (self.new.waiting.count ≡ 0) }
        ensures house { self.new.house ≡ self.old.house }
        ensures counts { Counts D.Disk self.old.store.disk self.new.store.disk
            (IsErrOf result Device) }
    {
        if self.store.is_stopped() {
            return Err(CommitFault::Stopped);
        }
        self.commit()?;
        Ok(())
    }

    // Answers a line when nothing is pending.
    fn answer<W: Sink>(&mut self, line: &OfficeLine, out: &mut W) -> Result<(), IoFault>
        requires line { IsOfficeLine line.now }
        requires empty { self.old.waiting.count ≡ 0 }
        ensures answered { (origin : D) (core : Core)
            → IsAt D.Disk origin self.old core → core.stopped ≡ false
            → Answered D.Disk origin self.old.house.budget core line.now
            (Wrote W.Sink result out.old out.new) self.old self.new }
        ensures count { D.sectors self.new.store.disk ≡ D.sectors self.old.store.disk }
        ensures budget { self.new.house.budget ≡ self.old.house.budget }
        ensures fault { OnErr result (HasRisen (W.put_failures out.old) (W.put_failures out.new)) }
        ensures well { OnOk result (W.put_failures out.new ≡ W.put_failures out.old) }
    {
        let verdict = judge(&self.house, line);
        match &verdict {
            Verdict::Do(change) => self.obey(change, line, out),
            Verdict::Repeat | Verdict::Show | Verdict::Refuse(_) => {
                write_answer(self.alloc, &self.house, line, &verdict, out)
            }
        }
    }

    // Does a new command when nothing is pending.
    fn obey<W: Sink>(
        &mut self,
        change: &Change<'_>,
        line: &OfficeLine,
        out: &mut W,
    ) -> Result<(), IoFault>
        requires empty { self.old.waiting.count ≡ 0 }
        requires is_change { IsChange change.now }
        requires accepted { Accepts self.old.house.budget change.now self.old.house.state }
        requires verdict { verdict_of self.old.house line.now ≡ Do change.now }
        ensures answered { (origin : D) (core : Core)
            → IsAt D.Disk origin self.old core → core.stopped ≡ false
            → Answered D.Disk origin self.old.house.budget core line.now
            (Wrote W.Sink result out.old out.new) self.old self.new }
        ensures count { D.sectors self.new.store.disk ≡ D.sectors self.old.store.disk }
        ensures budget { self.new.house.budget ≡ self.old.house.budget }
        ensures fault { OnErr result (HasRisen (W.put_failures out.old) (W.put_failures out.new)) }
        ensures well { OnOk result (W.put_failures out.new ≡ W.put_failures out.old) }
    {
        match self.order(change) {
            Ok(()) => {}
            Err(NoMemory) => return write_refusal(Code::Memory, out),
        }
        match self.settle() {
            Ok(()) => {}
            Err(_) => return write_refusal(Code::Store, out),
        }
        // the line is a repeat now
        write_answer(self.alloc, &self.house, line, &Verdict::Repeat, out)
    }

    // Takes a command when nothing is pending: adds it to the register and the pending changes, and
    // ends the session of a meter that it removes.
    fn order(&mut self, change: &Change<'_>) -> Result<(), NoMemory>
        requires empty { self.old.waiting.count ≡ 0 }
        requires is_change { IsChange change.now }
        requires accepted { Accepts self.old.house.budget change.now self.old.house.state }
        ensures at { (origin : D) (core : Core) → IsAt D.Disk origin self.old core
            → OnOk result (IsAt D.Disk origin self.new (ordered change.now core)) }
        ensures house { OnOk result (self.new.house
            ≡ record self.old.house { state = applied change.now self.old.house.state }) }
        ensures err { OnErr result (self.new ≡ self.old) }
        ensures store { self.new.store ≡ self.old.store }
    {
        self.house.apply(change)?;
        self.waiting.push(change);
        end_removed(&mut self.lines, change);
        Ok(())
    }
}

// Writes the reply to a line that is no new command, by its verdict; or that memory ran out.
fn write_answer<A: Allocator + Copy, W: Sink>(
    alloc: A,
    house: &House<A>,
    line: &OfficeLine,
    verdict: &Verdict,
    out: &mut W,
) -> Result<(), IoFault>
    requires verdict { verdict.now ≡ verdict_of house.now line.now }
    requires answered { IfDo verdict.now (λ _. ⊥) }
    ensures told { Wrote W.Sink result out.old out.new
        (reply_text house.now line.now)
        ⊎ (TakesMemory line.now × Wrote W.Sink result out.old out.new
        (refusal_line Memory)) }
    ensures fault { OnErr result (HasRisen (W.put_failures out.old) (W.put_failures out.new)) }
    ensures well { OnOk result (W.put_failures out.new ≡ W.put_failures out.old) }
{
    match write_by(alloc, house, line, verdict, out) {
        Ok(()) => Ok(()),
        Err(ReplyFault::NoMemory) => write_refusal(Code::Memory, out),
        Err(ReplyFault::Write) => Err(IoFault),
    }
}

// Ends the session of a meter that the change removes.
fn end_removed(lines: &mut Lines, change: &Change<'_>)
    ensures { lines.new ≡ lines_after (removed_by change.now) lines.old }
{
    if let Some(meter) = removed_by(change) {
        lines.end(&meter);
    }
}

fn removed_by(change: &Change<'_>) -> Option<Identity>
    ensures { result ≡ removed_by change.now }
{
    match change {
        Change::Telegram { .. } => None,
        Change::Command { command, .. } => command.meter_removed(),
    }
}
