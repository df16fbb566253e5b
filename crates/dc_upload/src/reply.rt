//! Writes the replies to a billing office's lines.

ghost use Rattle.std.specs.Prelude.{◌≡◌, ◌++◌, IfErr, OnOk};
ghost use Rattle.mbdc_change.specs.Valid.{IsState};
ghost use Rattle.mbdc_io.specs.Written.{PutsInto, Wrote};
ghost use Rattle.dc_upload.specs.Reply.{detail_of, done_line, end_line, refusal_line};
ghost use Rattle.dc_upload.specs.Reply.{register_text, reply_text, report_text, shown_text, Tells};
ghost use Rattle.dc_upload.specs.Line.{IsOfficeLine};
ghost use Rattle.dc_upload.specs.Verdict.{IfDo, verdict_of};

use crate::register::write_meters;
use crate::window::write_window;
use crate::{Code, OfficeLine, ReplyFault, Verdict, judge};
use dc_meters::House;
use dc_report::{Date, counted_due_table};
use mbdc_io::{IoFault, Sink, put_number_word};
use std::alloc::Allocator;

/// Writes the reply to a line by the verdict on it ([`judge`](crate::judge)). The line is no new
/// command; one that was just done is a repeat. A REPORT allocates its table before anything is
/// written; no other line uses memory, and a WINDOW costs what it shows.
///
/// # Errors
/// NoMemory: out of memory for a REPORT's table; nothing was written. Write: a write failed; a
/// prefix of the reply is written then.
#[tactic(auto, unfolding(crate::specs::Reply::reply_text))]
pub fn write_answer<A: Allocator + Copy, W: Sink>(
    alloc: A,
    house: &House<A>,
    line: &OfficeLine,
    verdict: &Verdict,
    out: &mut W,
) -> Result<(), ReplyFault>
    requires verdict { verdict.now ≡ verdict_of house.now line.now }
    requires answered { IfDo verdict.now (λ _. ⊥) }
    ensures text { OnOk result (PutsInto W.Sink out.old out.new
        (reply_text house.now line.now)) }
    ensures well { OnOk result (W.put_failures out.new ≡ W.put_failures out.old) }
    ensures fault { IfErr result (λ fault. Tells W.Sink line.now
        (reply_text house.now line.now) out.old out.new fault) }
{
    match verdict {
        Verdict::Repeat => Ok(write_done(house.last_number(), out)?),
        Verdict::Show => write_shown(alloc, house, line, out),
        Verdict::Refuse(code) => Ok(write_refusal(*code, out)?),
        Verdict::Do(_) => unreachable!(),
    }
}

/// Writes the reply to a line, which is no new command; one that was just done is a repeat.
///
/// # Errors
/// As of [`write_answer`].
pub fn write_reply<A: Allocator + Copy, W: Sink>(
    alloc: A,
    house: &House<A>,
    line: &OfficeLine,
    out: &mut W,
) -> Result<(), ReplyFault>
    requires line { IsOfficeLine line.now }
    requires answered { IfDo (verdict_of house.now line.now) (λ _. ⊥) }
    ensures text { OnOk result (PutsInto W.Sink out.old out.new
        (reply_text house.now line.now)) }
    ensures well { OnOk result (W.put_failures out.new ≡ W.put_failures out.old) }
    ensures fault { IfErr result (λ fault. Tells W.Sink line.now
        (reply_text house.now line.now) out.old out.new fault) }
{
    let verdict = judge(house, line);
    write_answer(alloc, house, line, &verdict, out)
}

/// Writes `OK number`: the command is done.
#[tactic(auto, using(mbdc_io::proofs::Pieces::written), unfolding(crate::specs::Reply::done_line))]
fn write_done<W: Sink>(number: u64, out: &mut W) -> Result<(), IoFault>
    ensures { Wrote W.Sink result out.old out.new (done_line number) }
{
    out.put(b"OK")?;
    put_number_word(out, number)?;
    out.put(b"\n")
}

/// Writes `ERR`, the code's word and its number, if it has one.
///
/// # Errors
/// A write failed; a prefix of the line is written then.
#[tactic(auto, using(mbdc_io::proofs::Pieces::written), unfolding(crate::specs::Reply::refusal_line))]
pub fn write_refusal<W: Sink>(code: Code, out: &mut W) -> Result<(), IoFault>
    ensures { Wrote W.Sink result out.old out.new (refusal_line code) }
{
    out.put(b"ERR ")?;
    out.put(code.word().as_bytes())?;
    put_detail(out, code)?;
    out.put(b"\n")
}

fn put_detail<W: Sink>(out: &mut W, code: Code) -> Result<(), IoFault>
    ensures { Wrote W.Sink result out.old out.new (detail_of code) }
{
    match code {
        Code::Order { last } => put_number_word(out, last),
        Code::Gone { confirmed } => put_number_word(out, confirmed),
        _ => Ok(()),
    }
}

fn write_shown<A: Allocator + Copy, W: Sink>(
    alloc: A,
    house: &House<A>,
    line: &OfficeLine,
    out: &mut W,
) -> Result<(), ReplyFault>
    ensures text { OnOk result (PutsInto W.Sink out.old out.new
        (shown_text line.now house.now.state)) }
    ensures well { OnOk result (W.put_failures out.new ≡ W.put_failures out.old) }
    ensures fault { IfErr result (λ fault. Tells W.Sink line.now
        (shown_text line.now house.now.state) out.old out.new fault) }
{
    match *line {
        OfficeLine::Command(_) => {}
        OfficeLine::Window { from, count } => write_window(house, from, count, out)?,
        OfficeLine::Register => write_register(house, out)?,
        OfficeLine::Report { date } => write_report(alloc, house, date, out)?,
    }
    Ok(())
}

#[tactic(auto, using(mbdc_io::proofs::Pieces::written), unfolding(crate::specs::Reply::register_text))]
fn write_register<A: Allocator + Copy, W: Sink>(
    house: &House<A>,
    out: &mut W,
) -> Result<(), IoFault>
    ensures { Wrote W.Sink result out.old out.new
        (register_text house.now.state) }
{
    write_meters(house, out)?;
    write_end(house.meters().len(), out)
}

// The table is complete before anything is written.
#[tactic(auto, unfolding(crate::specs::Reply::report_text))]
fn write_report<A: Allocator + Copy, W: Sink>(
    alloc: A,
    house: &House<A>,
    date: Date,
    out: &mut W,
) -> Result<(), ReplyFault>
    ensures text { OnOk result (PutsInto W.Sink out.old out.new
        (report_text date house.now.state)) }
    ensures well { OnOk result (W.put_failures out.new ≡ W.put_failures out.old) }
    ensures fault { IfErr result (λ fault. Tells W.Sink (OfficeLine.Report date)
        (report_text date house.now.state) out.old out.new fault) }
{
    let table = counted_due_table(alloc, house, date)?;
    Ok(put_table(&table.bytes, table.rows, out)?)
}

#[tactic(auto, using(mbdc_io::proofs::Pieces::written))]
fn put_table<W: Sink>(table: &[u8], rows: usize, out: &mut W) -> Result<(), IoFault>
    ensures { Wrote W.Sink result out.old out.new (table.now ++ end_line rows) }
{
    out.put(table)?;
    write_end(rows, out)
}

/// Writes `END count`.
#[tactic(auto, using(mbdc_io::proofs::Pieces::written), unfolding(crate::specs::Reply::end_line))]
pub(crate) fn write_end<W: Sink>(count: usize, out: &mut W) -> Result<(), IoFault>
    ensures { Wrote W.Sink result out.old out.new (end_line count) }
{
    out.put(b"END")?;
    put_number_word(out, count as u64)?;
    out.put(b"\n")
}
