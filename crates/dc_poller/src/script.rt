//! Executes the lines of a script on a concentrator.

ghost use Rattle.std.specs.Prelude.{◌≡◌, ◌≤◌, ◌*◌, ◌++◌, ℕ, codes, length};
ghost use Rattle.std.specs.Prelude.{IfOk, OnOk, OnErr};
ghost use Rattle.dc_core.specs.Run.{event_of, IsInTime};
ghost use Rattle.dc_core.specs.Text.{answer_text};
ghost use Rattle.mbdc_io.specs.Written.{PutsInto, Wrote};
ghost use Rattle.mbdc_io.specs.Words.{number_word};
ghost use Rattle.mbdc_io.specs.Lines.{lines_of, longest_input_line};
ghost use Rattle.dc_poller.specs.Halt.{CountsPuts, IsCounted, OnNoMemory, OnWrite};
ghost use Rattle.dc_poller.specs.Link.{HasBus, link_of};
ghost use Rattle.dc_poller.specs.Script.{ScriptCut, ScriptRan, moment_behind, no_gateway};
ghost use Rattle.dc_poller.specs.ScriptLine.{IsPlain, poll as polls, search as searches, seen};
ghost use Rattle.dc_poller.specs.Starved.{ScriptStarved};
ghost use Rattle.dc_poller.specs.Traffic.{AreCarried, CutOver, RanOver, StarvedOver};
ghost use Rattle.dc_poller.specs.Run.{AnyRun, OneTurn};

use crate::halt::{Halt, written};
use crate::loss::GATEWAY_LINE;
use crate::notes::CommandNotes;
use crate::poll::poll;
use crate::script_line::ScriptLine;
use crate::searching::search;
use dc_address::Identity;
use dc_core::{Concentrator, Event, WriteFault};
use dc_meters::House;
use dc_sectors::Disk;
use mbdc_bus::Bus;
use mbdc_change::{Command, Moment};
use mbdc_io::{IoFault, Sink, first_line, put_number_word};
use std::alloc::Allocator;

/// Executes the lines of an input, up to the first that spells nothing, and returns whether there
/// was one. `bytes` is room for an answer. The commands that were done are noted.
pub fn run_lines<D: Disk + Drop, A: Allocator + Copy, B: Bus + Drop, W: Sink, N: CommandNotes>(
    alloc: A,
    concentrator: &mut Concentrator<D, A>,
    gateway: &mut Option<B>,
    input: &[u8],
    bytes: &mut [u8],
    out: &mut W,
    notes: &mut N,
) -> Result<bool, Halt>
    requires { longest_input_line ≤ 2 * length bytes.old }
    ensures ran { AnyRun D.Disk concentrator.old concentrator.new (λ run.
        IfOk result (λ faulty.
        ScriptRan D.Disk run (link_of B.lost gateway.old) (lines_of input.now) faulty
        (PutsInto W.Sink out.old out.new) (AreCarried B.lost B.asks gateway.old gateway.new))) }
    ensures cut { AnyRun D.Disk concentrator.old concentrator.new (λ run.
        OnWrite result (ScriptCut D.Disk run (link_of B.lost gateway.old) (lines_of input.now)
        (AreCarried B.lost B.asks gateway.old gateway.new))) }
    ensures starved { AnyRun D.Disk concentrator.old concentrator.new (λ run.
        OnNoMemory result (ScriptStarved D.Disk run (link_of B.lost gateway.old)
        (lines_of input.now) (PutsInto W.Sink out.old out.new) (AreCarried B.lost B.asks gateway.old gateway.new))) }
    // Memory is refused to a search alone, which needs a gateway.
    ensures through { OnNoMemory result (HasBus (link_of B.lost gateway.old)) }
    ensures counted { IsCounted result (W.put_failures out.old) (W.put_failures out.new) }
{
    let mut rest = input;
    let mut moment = Moment { seconds: 0 };
    let mut count = 0;
    'lines: while !rest.is_empty() {
        let (line, after) = first_line(rest);
        let Some(asked) = ScriptLine::parse(line, bytes) else {
            return match put_syntax(out, count + 1) {
                Ok(()) => Ok(true),
                Err(IoFault) => Err(Halt::Write),
            };
        };
        let last = concentrator.house().last_number();
        if let Err(halt) = run_line(alloc, concentrator, gateway, &asked, moment, out) {
            note_done(&asked, last, concentrator.house(), notes);
            return Err(halt);
        }
        note_done(&asked, last, concentrator.house(), notes);
        moment = moment_behind(&asked, moment);
        count += 1;
        rest = after;
    }
    Ok(false)
}

// Notes the command of a line, if the house has it done now: its last command was another one before.
fn note_done<A: Allocator + Copy, N: CommandNotes>(
    asked: &ScriptLine<'_>,
    last: u64,
    house: &House<A>,
    notes: &mut N,
) {
    if let ScriptLine::Office { text } = *asked
        && house.last_number() != last
        && let Some(done) = Command::parse_line(text)
    {
        notes.note(&done);
    }
}

// Executes a line, at the script's time.
fn run_line<D: Disk + Drop, A: Allocator + Copy, B: Bus + Drop, W: Sink>(
    alloc: A,
    concentrator: &mut Concentrator<D, A>,
    gateway: &mut Option<B>,
    asked: &ScriptLine<'_>,
    moment: Moment,
    out: &mut W,
) -> Result<(), Halt>
    ensures ran { AnyRun D.Disk concentrator.old concentrator.new (λ run.
        OnOk result (RanOver D.Disk run moment.seconds (seen asked.now) B.lost B.asks gateway.old gateway.new
        (PutsInto W.Sink out.old out.new))) }
    ensures cut { AnyRun D.Disk concentrator.old concentrator.new (λ run.
        OnWrite result (CutOver D.Disk run moment.seconds (seen asked.now) B.lost B.asks gateway.old gateway.new)) }
    ensures starved { AnyRun D.Disk concentrator.old concentrator.new (λ run.
        OnNoMemory result (StarvedOver D.Disk run (seen asked.now) B.lost B.asks
        gateway.old gateway.new (PutsInto W.Sink out.old out.new))) }
    ensures through { OnNoMemory result (HasBus (link_of B.lost gateway.old)) }
    ensures had { HasBus (link_of B.lost gateway.new) → HasBus (link_of B.lost gateway.old) }
    ensures counted { IsCounted result (W.put_failures out.old) (W.put_failures out.new) }
    ensures budget { concentrator.new.house.budget ≡ concentrator.old.house.budget }
{
    match *asked {
        ScriptLine::Search { budget } => search_line(alloc, concentrator, gateway, budget, out),
        _ => written(run_plain(concentrator, gateway, asked, moment, out)),
    }
}

// Executes a line that is no search, at the script's time.
fn run_plain<D: Disk + Drop, A: Allocator + Copy, B: Bus + Drop, W: Sink>(
    concentrator: &mut Concentrator<D, A>,
    gateway: &mut Option<B>,
    asked: &ScriptLine<'_>,
    moment: Moment,
    out: &mut W,
) -> Result<(), IoFault>
    requires { IsPlain (seen asked.now) }
    ensures ran { AnyRun D.Disk concentrator.old concentrator.new (λ run.
        OnOk result (RanOver D.Disk run moment.seconds (seen asked.now) B.lost B.asks gateway.old gateway.new
        (PutsInto W.Sink out.old out.new))) }
    ensures cut { AnyRun D.Disk concentrator.old concentrator.new (λ run.
        OnErr result (CutOver D.Disk run moment.seconds (seen asked.now) B.lost B.asks gateway.old gateway.new)) }
    ensures counted { CountsPuts W.Sink result out.old out.new }
    ensures had { HasBus (link_of B.lost gateway.new) → HasBus (link_of B.lost gateway.old) }
    ensures budget { concentrator.new.house.budget ≡ concentrator.old.house.budget }
{
    match *asked {
        ScriptLine::Nothing | ScriptLine::At { .. } | ScriptLine::Search { .. } => Ok(()),
        ScriptLine::Poll { line, meter } => {
            poll_line(concentrator, gateway, line, &meter, moment, out)
        }
        ScriptLine::Start { line, meter } => {
            run_event(concentrator, &Event::Start { line, meter }, out)
        }
        ScriptLine::Ask { line } => run_event(concentrator, &Event::Ask { line }, out),
        ScriptLine::Hear { line, answer } => {
            let heard = Event::Hear {
                line,
                moment: moment.seconds,
                answer,
            };
            run_event(concentrator, &heard, out)
        }
        ScriptLine::Commit => run_event(concentrator, &Event::Commit, out),
        ScriptLine::Office { text } => run_event(concentrator, &Event::Office { text }, out),
    }
}

// ---- over the gateway

// Executes a `POLL`.
fn poll_line<D: Disk + Drop, A: Allocator + Copy, B: Bus + Drop, W: Sink>(
    concentrator: &mut Concentrator<D, A>,
    gateway: &mut Option<B>,
    line: u8,
    meter: &Identity,
    moment: Moment,
    out: &mut W,
) -> Result<(), IoFault>
    ensures ran { AnyRun D.Disk concentrator.old concentrator.new (λ run.
        OnOk result (RanOver D.Disk run moment.seconds (polls line meter.now) B.lost B.asks
        gateway.old gateway.new (PutsInto W.Sink out.old out.new))) }
    ensures cut { AnyRun D.Disk concentrator.old concentrator.new (λ run.
        OnErr result (CutOver D.Disk run moment.seconds (polls line meter.now) B.lost B.asks
        gateway.old gateway.new)) }
    ensures counted { CountsPuts W.Sink result out.old out.new }
    ensures had { HasBus (link_of B.lost gateway.new) → HasBus (link_of B.lost gateway.old) }
    ensures budget { concentrator.new.house.budget ≡ concentrator.old.house.budget }
{
    if line != GATEWAY_LINE {
        return put_no_gateway(out);
    }
    match gateway {
        Some(bus) => poll(line, concentrator, bus, meter, moment, out),
        None => put_no_gateway(out),
    }
}

// Executes a `SEARCH`.
fn search_line<D: Disk + Drop, A: Allocator + Copy, B: Bus + Drop, W: Sink>(
    alloc: A,
    concentrator: &mut Concentrator<D, A>,
    gateway: &mut Option<B>,
    budget: u32,
    out: &mut W,
) -> Result<(), Halt>
    ensures ran { (moment : ℕ) → AnyRun D.Disk concentrator.old concentrator.new (λ run.
        OnOk result (RanOver D.Disk run moment (searches budget) B.lost B.asks
        gateway.old gateway.new (PutsInto W.Sink out.old out.new))) }
    ensures cut { (moment : ℕ) → AnyRun D.Disk concentrator.old concentrator.new (λ run.
        OnWrite result (CutOver D.Disk run moment (searches budget) B.lost B.asks
        gateway.old gateway.new)) }
    ensures starved { AnyRun D.Disk concentrator.old concentrator.new (λ run.
        OnNoMemory result (StarvedOver D.Disk run (searches budget) B.lost B.asks
        gateway.old gateway.new (PutsInto W.Sink out.old out.new))) }
    ensures through { OnNoMemory result (HasBus (link_of B.lost gateway.old)) }
    ensures had { HasBus (link_of B.lost gateway.new) → HasBus (link_of B.lost gateway.old) }
    ensures counted { IsCounted result (W.put_failures out.old) (W.put_failures out.new) }
    ensures budget { concentrator.new.house.budget ≡ concentrator.old.house.budget }
{
    match gateway {
        Some(bus) => search(alloc, concentrator, bus, budget, out),
        None => written(put_no_gateway(out)),
    }
}

// Writes that a line has no bus.
fn put_no_gateway<W: Sink>(out: &mut W) -> Result<(), IoFault>
    ensures { Wrote W.Sink result out.old out.new no_gateway }
{
    out.put(b"NO GATEWAY\n")
}

// ---- events

// Executes one event, and writes the text of its answer.
fn run_event<D: Disk + Drop, A: Allocator + Copy, W: Sink>(
    concentrator: &mut Concentrator<D, A>,
    event: &Event<'_>,
    out: &mut W,
) -> Result<(), IoFault>
    requires { IsInTime event.now }
    ensures went { AnyRun D.Disk concentrator.old concentrator.new (λ run.
        OneTurn D.Disk run (event_of event.now) (λ answer. OnOk result
        (PutsInto W.Sink out.old out.new (answer_text answer)))) }
    ensures counted { CountsPuts W.Sink result out.old out.new }
    ensures budget { concentrator.new.house.budget ≡ concentrator.old.house.budget }
{
    match concentrator.run(&[*event], out) {
        Ok(()) => Ok(()),
        Err(WriteFault) => Err(IoFault),
    }
}

// The script's time after a line.
fn moment_behind(asked: &ScriptLine<'_>, moment: Moment) -> Moment
    ensures { result.seconds ≡ moment_behind moment.seconds (seen asked.now) }
{
    match *asked {
        ScriptLine::At { moment } => moment,
        _ => moment,
    }
}

#[tactic(auto, using(mbdc_io::proofs::Pieces::written))]
fn put_syntax<W: Sink>(out: &mut W, line: usize) -> Result<(), IoFault>
    ensures { Wrote W.Sink result out.old out.new
        (codes "LINE" ++ number_word line ++ codes " SYNTAX\n") }
{
    out.put(b"LINE")?;
    put_number_word(out, line as u64)?;
    out.put(b" SYNTAX\n")
}
