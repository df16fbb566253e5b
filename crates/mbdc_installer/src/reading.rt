//! Reads one meter.

ghost use Rattle.std.specs.Prelude.{◌≡◌, ◌<◌, ◌≤◌, ℕ, List, [], None, Some, IfOk, OnOk, OnErr, length};
ghost use Rattle.std.specs.Prelude.{option_map};
ghost use Rattle.mbdc_io.specs.Failures.{HasRisen};
ghost use Rattle.dc_core.specs.Step.{longest_request};
ghost use Rattle.dc_linkframe.specs.Frame.{spelling};
ghost use Rattle.dc_readout.specs.Misses.{misses_of};
ghost use Rattle.mbdc_io.specs.Stream.{PutsFront};
ghost use Rattle.mbdc_io.specs.Written.{PutsInto, Wrote};
ghost use Rattle.dc_readout.specs.Summary.{asked_by, begun, verdict_by};
ghost use Rattle.dc_readout.specs.Bound.{requests_left};
ghost use Rattle.mbdc_installer.specs.Read.{IsCutOff, IsReadOn, Tells, TellsFrom, after, and_heard};
ghost use Rattle.mbdc_installer.specs.Read.{is_failure, printed};

use dc_address::{Identity, Primary};
use dc_core::{LineHeard, put_heard};
use dc_linkframe::FrameBuf;
use dc_readout::misses::{Misses, is_missing};
use dc_readout::{Heard, Session};
use mbdc_bus::Bus;
use mbdc_decode::put_frames;
use mbdc_io::{IoFault, Sink};

/// The end of a readout.
#[derive(Clone, Copy)]
pub enum Readout {
    /// Each telegram was printed, up to the last.
    Whole,
    /// It failed, as the last line states. This is what its failed tries brought.
    Failed(Misses),
}

/// Reads a meter on a bus, by its primary address or by secondary addressing, and prints its
/// telegrams as `decode` does. A telegram is printed before the next one is requested, since the
/// meter then discards it. If the readout fails, the last line states why, and what its failed tries brought is
/// counted. It ends after at most 102 requests, whatever the bus answers.
///
/// # Errors
/// A write failed. No further request goes out then, so the meter still has the telegram that wasn't printed.
pub fn read<B: Bus, W: Sink>(
    bus: &mut B,
    meter: &Identity,
    address: Option<Primary>,
    out: &mut W,
) -> Result<Readout, IoFault>
    ensures read { IfOk result (λ readout. IsReadOn B.asks bus.old bus.new
        (begun meter.now address) (PutsInto W.Sink out.old out.new) (Tells readout)) }
    ensures unwritten { OnErr result (IsCutOff B.asks bus.old bus.new (begun meter.now address)
        (PutsFront (W.written out.old) (W.written out.new))) }
    ensures failed { OnErr result (HasRisen (W.put_failures out.old) (W.put_failures out.new)) }
    ensures well { OnOk result (W.put_failures out.new ≡ W.put_failures out.old) }
{
    let session = Session::start(*meter, address);
    read_on(bus, session, Misses::none(), out)
}

// Continues a session whose failed tries brought this. Each request takes one away of those that it may still make.
fn read_on<B: Bus, W: Sink>(
    bus: &mut B,
    session: Session,
    misses: Misses,
    out: &mut W,
) -> Result<Readout, IoFault>
    ensures read { IfOk result (λ readout. IsReadOn B.asks bus.old bus.new session
        (PutsInto W.Sink out.old out.new) (TellsFrom misses readout)) }
    ensures unwritten { OnErr result (IsCutOff B.asks bus.old bus.new session
        (PutsFront (W.written out.old) (W.written out.new))) }
    ensures failed { OnErr result (HasRisen (W.put_failures out.old) (W.put_failures out.new)) }
    ensures well { OnOk result (W.put_failures out.new ≡ W.put_failures out.old) }
{
    let Some(request) = session.ask() else {
        return Ok(Readout::Whole);
    };
    let mut session = session;
    let mut misses = misses;
    let is_over = exchange(bus, &mut session, &request, &mut misses, out)?;
    if is_over {
        return Ok(Readout::Failed(misses));
    }
    read_on(bus, session, misses, out)
}

// Sends a request, prints its answer, and counts a failed try; then the telegram is acknowledged. Returns whether the
// session failed.
fn exchange<B: Bus, W: Sink>(
    bus: &mut B,
    session: &mut Session,
    request: &FrameBuf,
    misses: &mut Misses,
    out: &mut W,
) -> Result<bool, IoFault>
    requires asked { option_map spelling (asked_by session.old) ≡ Some request.now }
    requires short { length request.now ≤ longest_request }
    ensures fewer { OnOk result (requests_left session.new < requests_left session.old) }
    ensures exchanged { (answer : List ℕ) × B.asks bus.old request.now answer bus.new
        × IfOk result (λ failed. (session.new ≡ after session.old answer)
        × (failed ≡ is_failure (verdict_by session.old answer))
        × (misses.new ≡ and_heard (verdict_by session.old answer) answer misses.old))
        × Wrote W.Sink result out.old out.new
        (printed (verdict_by session.old answer) answer) }
{
    let answer = bus.ask(request);
    let heard = session.hear(answer.as_slice());
    match heard {
        Heard::New { .. } => {
            put_frames(answer.as_slice(), out)?;
            session.settle();
            Ok(false)
        }
        Heard::Failed(why) => {
            put_heard(out, Ok(LineHeard::Failed(why)))?;
            if is_missing(&why) {
                misses.count(answer.as_slice());
            }
            Ok(true)
        }
        Heard::Again => {
            misses.count(answer.as_slice());
            Ok(false)
        }
        Heard::Ready => Ok(false),
    }
}
