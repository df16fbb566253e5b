//! `POLL`: the readout of a meter over a bus line.

ghost use Rattle.std.specs.Prelude.{◌≡◌, ◌<◌, ◌≤◌, ℕ, List, Option, true, false, [], IfOk, OnOk, OnErr};
ghost use Rattle.std.specs.Prelude.{length};
ghost use Rattle.dc_address.specs.declared.identity.Identity.{Identity as Meter};
ghost use Rattle.dc_readout.specs.Summary.{Summary};
ghost use Rattle.dc_core.specs.Lines.{requests_on, NoMoreRequests};
ghost use Rattle.dc_core.specs.Step.{longest_request};
ghost use Rattle.mbdc_bus.specs.Limits.{most_answer};
ghost use Rattle.mbdc_io.specs.Written.{Wrote};
ghost use Rattle.dc_poller.specs.Halt.{CountsPuts};
ghost use Rattle.dc_poller.specs.Link.{link_by, loss_text, IsHeardOver};
ghost use Rattle.dc_poller.specs.Poll.{to_start, to_ask, to_send, to_hear};
ghost use Rattle.dc_poller.specs.Poll.{to_commit, to_make_room, to_hear_again, behind_heard};
ghost use Rattle.dc_poller.specs.Way.{phase_at, Judged, Polled, PollEnds, RoundEnds, Spends, WentOver};
ghost use Rattle.dc_poller.specs.Run.{AnyRun};

use crate::loss::put_lost;
use crate::told::{told_ask, told_commit, told_hear, told_start};
use dc_address::Identity;
use dc_core::{Concentrator, HearFault, LineHeard};
use dc_linkframe::FrameBuf;
use dc_sectors::Disk;
use mbdc_bus::{AnswerBuf, Bus};
use mbdc_change::Moment;
use mbdc_io::{IoFault, Sink};
use std::alloc::Allocator;

/// Reads a meter over a bus line, with this time stamp. Each request waits by itself until no other answer is under
/// way.
pub fn poll<D: Disk + Drop, A: Allocator + Copy, B: Bus, W: Sink>(
    line: u8,
    concentrator: &mut Concentrator<D, A>,
    bus: &mut B,
    meter: &Identity,
    moment: Moment,
    out: &mut W,
) -> Result<(), IoFault>
    ensures went { AnyRun D.Disk concentrator.old concentrator.new (λ run.
        Polled D.Disk run line moment.seconds meter.now (phase_at to_start (B.lost bus.old))
        W.Sink out.old out.new result (PollEnds result (link_by (B.lost bus.new)))
        (WentOver B.asks bus.old bus.new)) }
    ensures counted { CountsPuts W.Sink result out.old out.new }
    ensures budget { concentrator.new.house.budget ≡ concentrator.old.house.budget }
    ensures untouched { B.lost bus.old ≡ true → bus.new ≡ bus.old }
{
    let started = told_start(concentrator, line, meter, out)?;
    match started {
        Ok(()) => read_parts(line, concentrator, bus, moment, out),
        Err(_) => Ok(()),
    }
}

// Goes from round to round, until the session has no request left: each takes one away of those that it may make
// (`a_readout_makes_few_requests` of dc_readout), so no readout is cut off.
fn read_parts<D: Disk + Drop, A: Allocator + Copy, B: Bus, W: Sink>(
    line: u8,
    concentrator: &mut Concentrator<D, A>,
    bus: &mut B,
    moment: Moment,
    out: &mut W,
) -> Result<(), IoFault>
    ensures went { (meter : Meter) → AnyRun D.Disk concentrator.old concentrator.new (λ run.
        Polled D.Disk run line moment.seconds meter (phase_at to_ask (B.lost bus.old)) W.Sink
        out.old out.new result (PollEnds result (link_by (B.lost bus.new)))
        (WentOver B.asks bus.old bus.new)) }
    ensures counted { CountsPuts W.Sink result out.old out.new }
    ensures budget { concentrator.new.house.budget ≡ concentrator.old.house.budget }
    ensures untouched { B.lost bus.old ≡ true → bus.new ≡ bus.old }
{
    'rounds: loop {
        let more = ask_and_hear(line, concentrator, bus, moment, out)?;
        if !more {
            return Ok(());
        }
    }
}

// One round: a request and its answer, which is committed if it is a part. Returns whether the poll
// goes on.
fn ask_and_hear<D: Disk + Drop, A: Allocator + Copy, B: Bus, W: Sink>(
    line: u8,
    concentrator: &mut Concentrator<D, A>,
    bus: &mut B,
    moment: Moment,
    out: &mut W,
) -> Result<bool, IoFault>
    ensures went { (meter : Meter) → AnyRun D.Disk concentrator.old concentrator.new (λ run.
        Polled D.Disk run line moment.seconds meter (phase_at to_ask (B.lost bus.old)) W.Sink
        out.old out.new result (RoundEnds result (link_by (B.lost bus.new)))
        (WentOver B.asks bus.old bus.new)) }
    ensures counted { CountsPuts W.Sink result out.old out.new }
    ensures fewer { Spends result line concentrator.old.lines concentrator.new.lines }
    ensures budget { concentrator.new.house.budget ≡ concentrator.old.house.budget }
    ensures untouched { B.lost bus.old ≡ true → bus.new ≡ bus.old }
{
    let asked = told_ask(concentrator, line, out)?;
    match asked {
        Some(request) => exchange(line, concentrator, bus, &request, moment, out),
        None => Ok(false),
    }
}

// Sends a request over the bus, and takes the answer.
fn exchange<D: Disk + Drop, A: Allocator + Copy, B: Bus, W: Sink>(
    line: u8,
    concentrator: &mut Concentrator<D, A>,
    bus: &mut B,
    request: &FrameBuf,
    moment: Moment,
    out: &mut W,
) -> Result<bool, IoFault>
    requires { length request.now ≤ longest_request }
    ensures went { (meter : Meter) → AnyRun D.Disk concentrator.old concentrator.new (λ run.
        Polled D.Disk run line moment.seconds meter
        (phase_at (to_send request.now) (B.lost bus.old)) W.Sink out.old out.new result
        (RoundEnds result (link_by (B.lost bus.new))) (WentOver B.asks bus.old bus.new)) }
    ensures counted { CountsPuts W.Sink result out.old out.new }
    ensures fewer { Spends result line concentrator.old.lines concentrator.new.lines }
    ensures budget { concentrator.new.house.budget ≡ concentrator.old.house.budget }
    ensures untouched { B.lost bus.old ≡ true → bus.new ≡ bus.old }
{
    let answer = ask_bus(bus, request, out)?;
    hear(line, concentrator, moment, answer.as_slice(), out)
}

// Sends the request, and returns the bus's answer. If the bus is lost, that is printed.
fn ask_bus<B: Bus, W: Sink>(
    bus: &mut B,
    request: &FrameBuf,
    out: &mut W,
) -> Result<AnswerBuf, IoFault>
    requires { length request.now ≤ longest_request }
    ensures lost { B.lost bus.old ≡ true → B.lost bus.new ≡ true }
    ensures untouched { B.lost bus.old ≡ true → bus.new ≡ bus.old }
    ensures heard { IfOk result (λ answer. (length answer ≤ most_answer)
        × IsHeardOver (link_by (B.lost bus.new)) answer) }
    // The request goes out as it is, and the answer is what came to it; also where the loss isn't written.
    ensures asked { IfOk result (λ answer. B.asks bus.old request.now answer bus.new) }
    ensures unwritten { OnErr result ((B.lost bus.old ≡ false) × (B.lost bus.new ≡ true)
        × B.asks bus.old request.now [] bus.new) }
    ensures told { Wrote W.Sink result out.old out.new
        (loss_text (link_by (B.lost bus.old)) (link_by (B.lost bus.new))) }
{
    let was = bus.is_lost();
    let answer = bus.ask(request);
    if was || !bus.is_lost() {
        return Ok(answer);
    }
    put_lost(out)?;
    Ok(answer)
}

// Takes an answer. If the maximum number of changes is pending, they are committed, and the answer
// is taken again.
fn hear<D: Disk + Drop, A: Allocator + Copy, W: Sink>(
    line: u8,
    concentrator: &mut Concentrator<D, A>,
    moment: Moment,
    bytes: &[u8],
    out: &mut W,
) -> Result<bool, IoFault>
    ensures went { Judged D.Disk line moment.seconds (to_hear bytes.now) concentrator.old
        concentrator.new W.Sink out.old out.new result }
    ensures counted { CountsPuts W.Sink result out.old out.new }
    ensures fewer { Spends result line concentrator.old.lines concentrator.new.lines }
    ensures budget { concentrator.new.house.budget ≡ concentrator.old.house.budget }
{
    let answer = told_hear(concentrator, line, moment, bytes, out)?;
    match answer {
        Ok(heard) => after_heard(concentrator, Ok(heard), out),
        Err(fault) => match fault {
            HearFault::PendingFull => hear_again(line, concentrator, moment, bytes, out),
            _ => Ok(false),
        },
    }
}

// Makes room, and takes the answer again.
fn hear_again<D: Disk + Drop, A: Allocator + Copy, W: Sink>(
    line: u8,
    concentrator: &mut Concentrator<D, A>,
    moment: Moment,
    bytes: &[u8],
    out: &mut W,
) -> Result<bool, IoFault>
    ensures went { Judged D.Disk line moment.seconds (to_make_room bytes.now) concentrator.old
        concentrator.new W.Sink out.old out.new result }
    ensures counted { CountsPuts W.Sink result out.old out.new }
    ensures fewer { Spends result line concentrator.old.lines concentrator.new.lines }
    ensures budget { concentrator.new.house.budget ≡ concentrator.old.house.budget }
{
    let committed = told_commit(concentrator, out)?;
    match committed {
        Ok(_) => hear_once_more(line, concentrator, moment, bytes, out),
        Err(_) => Ok(false),
    }
}

// Takes the answer for which room was made.
fn hear_once_more<D: Disk + Drop, A: Allocator + Copy, W: Sink>(
    line: u8,
    concentrator: &mut Concentrator<D, A>,
    moment: Moment,
    bytes: &[u8],
    out: &mut W,
) -> Result<bool, IoFault>
    ensures went { Judged D.Disk line moment.seconds (to_hear_again bytes.now) concentrator.old
        concentrator.new W.Sink out.old out.new result }
    ensures counted { CountsPuts W.Sink result out.old out.new }
    ensures fewer { Spends result line concentrator.old.lines concentrator.new.lines }
    ensures budget { concentrator.new.house.budget ≡ concentrator.old.house.budget }
{
    let answer = told_hear(concentrator, line, moment, bytes, out)?;
    after_heard(concentrator, answer, out)
}

// Commits a part that was accepted. Returns whether the poll goes on.
fn after_heard<D: Disk + Drop, A: Allocator + Copy, W: Sink>(
    concentrator: &mut Concentrator<D, A>,
    answer: Result<LineHeard, HearFault>,
    out: &mut W,
) -> Result<bool, IoFault>
    ensures went { (line : ℕ) (moment : ℕ) → Judged D.Disk line moment (behind_heard answer)
        concentrator.old concentrator.new W.Sink out.old out.new result }
    ensures counted { CountsPuts W.Sink result out.old out.new }
    // If an answer that was taken is one request less, so is the round.
    ensures fewer { (line : ℕ) (before : List (Option Summary)) → OnOk answer
        (requests_on line concentrator.old.lines < requests_on line before)
        → Spends result line before concentrator.new.lines }
    ensures budget { concentrator.new.house.budget ≡ concentrator.old.house.budget }
{
    match answer {
        Ok(heard) => match heard {
            LineHeard::Again => Ok(true),
            LineHeard::Ready => Ok(true),
            LineHeard::Accepted { .. } => commit_part(concentrator, out),
            LineHeard::Failed(_) => Ok(false),
        },
        Err(_) => Ok(false),
    }
}

fn commit_part<D: Disk + Drop, A: Allocator + Copy, W: Sink>(
    concentrator: &mut Concentrator<D, A>,
    out: &mut W,
) -> Result<bool, IoFault>
    ensures went { (line : ℕ) (moment : ℕ) → Judged D.Disk line moment to_commit
        concentrator.old concentrator.new W.Sink out.old out.new result }
    ensures counted { CountsPuts W.Sink result out.old out.new }
    ensures no_more { NoMoreRequests concentrator.old.lines concentrator.new.lines }
    ensures budget { concentrator.new.house.budget ≡ concentrator.old.house.budget }
{
    let answer = told_commit(concentrator, out)?;
    Ok(answer.is_ok())
}
