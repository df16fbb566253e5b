//! Single events of a concentrator: each answer is written as a line of text, and returned.

ghost use Rattle.std.specs.Prelude.{◌≡◌, ◌<◌, ◌≤◌, IfOk, IfSome, OnOk, length};
ghost use Rattle.dc_core.specs.Lines.{requests_on, NoMoreRequests};
ghost use Rattle.dc_core.specs.Event.{starts, asks, hears, commits, started, asked, heard};
ghost use Rattle.dc_core.specs.Event.{committed};
ghost use Rattle.dc_core.specs.Step.{longest_request};
ghost use Rattle.mbdc_io.specs.Written.{PutsInto};
ghost use Rattle.dc_poller.specs.Halt.{CountsPuts};
ghost use Rattle.dc_poller.specs.Poll.{told_text};
ghost use Rattle.dc_poller.specs.Run.{AnyRun, OneTurn};

use dc_address::Identity;
use dc_core::{
    CommitFault, Concentrator, HearFault, LineHeard, StartFault, put_asked, put_committed,
    put_heard, put_started,
};
use dc_linkframe::FrameBuf;
use dc_sectors::Disk;
use mbdc_change::Moment;
use mbdc_io::{IoFault, Sink};
use std::alloc::Allocator;

/// Begins a readout.
pub fn told_start<D: Disk + Drop, A: Allocator + Copy, W: Sink>(
    concentrator: &mut Concentrator<D, A>,
    line: u8,
    meter: &Identity,
    out: &mut W,
) -> Result<Result<(), StartFault>, IoFault>
    ensures went { AnyRun D.Disk concentrator.old concentrator.new (λ run.
        OneTurn D.Disk run (starts line meter.now) (λ answer. IfOk result (λ told.
        (answer ≡ started told) × PutsInto W.Sink out.old out.new (told_text (started told))))) }
    ensures counted { CountsPuts W.Sink result out.old out.new }
    ensures budget { concentrator.new.house.budget ≡ concentrator.old.house.budget }
{
    let answer = concentrator.start(line, meter);
    put_started(out, answer)?;
    Ok(answer)
}

/// Asks for a line's request. If there isn't one, nothing is written.
pub fn told_ask<D: Disk + Drop, A: Allocator + Copy, W: Sink>(
    concentrator: &Concentrator<D, A>,
    line: u8,
    out: &mut W,
) -> Result<Option<FrameBuf>, IoFault>
    ensures went { AnyRun D.Disk concentrator.now concentrator.now (λ run.
        OneTurn D.Disk run (asks line) (λ answer. IfOk result (λ told. (answer ≡ asked told)
        × PutsInto W.Sink out.old out.new (told_text (asked told))))) }
    ensures short { IfOk result (λ told.
        IfSome told (λ request. length request ≤ longest_request)) }
    ensures counted { CountsPuts W.Sink result out.old out.new }
{
    match concentrator.ask(line) {
        None => Ok(None),
        Some(request) => {
            put_asked(out, Some(request))?;
            Ok(Some(request))
        }
    }
}

/// Takes an answer on a line.
pub fn told_hear<D: Disk + Drop, A: Allocator + Copy, W: Sink>(
    concentrator: &mut Concentrator<D, A>,
    line: u8,
    moment: Moment,
    bytes: &[u8],
    out: &mut W,
) -> Result<Result<LineHeard, HearFault>, IoFault>
    ensures went { AnyRun D.Disk concentrator.old concentrator.new (λ run.
        OneTurn D.Disk run (hears line moment.seconds bytes.now) (λ answer. IfOk result (λ told.
        (answer ≡ heard told) × PutsInto W.Sink out.old out.new (told_text (heard told))))) }
    ensures counted { CountsPuts W.Sink result out.old out.new }
    ensures fewer { IfOk result (λ told. OnOk told
        (requests_on line concentrator.new.lines < requests_on line concentrator.old.lines)) }
    ensures no_more { NoMoreRequests concentrator.old.lines concentrator.new.lines }
    ensures budget { concentrator.new.house.budget ≡ concentrator.old.house.budget }
{
    let answer = concentrator.hear(line, moment.seconds, bytes);
    put_heard(out, answer)?;
    Ok(answer)
}

/// Commits the pending changes.
pub fn told_commit<D: Disk + Drop, A: Allocator + Copy, W: Sink>(
    concentrator: &mut Concentrator<D, A>,
    out: &mut W,
) -> Result<Result<usize, CommitFault>, IoFault>
    ensures went { AnyRun D.Disk concentrator.old concentrator.new (λ run.
        OneTurn D.Disk run commits (λ answer. IfOk result (λ told. (answer ≡ committed told)
        × PutsInto W.Sink out.old out.new (told_text (committed told))))) }
    ensures counted { CountsPuts W.Sink result out.old out.new }
    ensures no_more { NoMoreRequests concentrator.old.lines concentrator.new.lines }
    ensures budget { concentrator.new.house.budget ≡ concentrator.old.house.budget }
{
    let answer = concentrator.commit();
    put_committed(out, answer)?;
    Ok(answer)
}
