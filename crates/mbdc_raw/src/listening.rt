//! What is taken of a wire: the answer of one meter, those of several, and what is dropped.

ghost use Rattle.std.specs.Prelude.{◌≡◌, ◌≤◌, ◌<◌, ◌⊎◌, false, IfOk, OnOk, OnErr, IfSome, IfNone};
ghost use Rattle.mbdc_io.specs.Failures.{HasRisen};
ghost use Rattle.mbdc_raw.specs.Heard.{Answers, Drains, Gathers, Waits, ends_early, past_echo};
ghost use Rattle.mbdc_raw.specs.Turn.{late_at};
ghost use Rattle.mbdc_raw.specs.declared.state.State.TheVariants.{Busy, Quiet};

use crate::hearing::Hearing;
use crate::state::State;
use crate::wire::{Came, Wire};
use dc_linkframe::FrameBuf;
use mbdc_bus::{AnswerBuf, MOST_ANSWER};
use mbdc_io::IoFault;

// Maximum number of pieces taken in one call.
const MOST_PIECES: usize = 512;

/// Drops what has arrived, while a request waits. Bytes make the line busy, and are late where a request met silence or
/// had its window; silence makes it quiet. Returns whether bytes still come.
pub fn drain<W: Wire>(wire: &mut W, state: &mut State, late: &mut u64) -> Result<bool, IoFault>
    ensures drained { IfOk result (λ loud.
        Drains W.hears wire.old state.old late.old loud wire.new state.new late.new) }
    ensures fewer { IfOk result (λ loud. loud ≡ false
        → (state.new ≡ Quiet) ⊎ (W.waits_left wire.new < W.waits_left wire.old)) }
    ensures no_more { OnOk result (W.waits_left wire.new ≤ W.waits_left wire.old) }
    ensures well { OnOk result (W.failures wire.new ≡ W.failures wire.old) }
    ensures failed { OnErr result (HasRisen (W.failures wire.old) (W.failures wire.new)) }
{
    let mut room = [0; MOST_ANSWER];
    let mut count = 0;
    'drops: while count < MOST_PIECES {
        match wire.hear(&mut room)? {
            Came::Bytes(_came) => {
                hear_late(state, late);
            }
            Came::Nothing => return Ok(false),
            Came::Gap => return Ok(false),
            Came::Overdue => return Ok(false),
            Came::Silence => {
                *state = State::Quiet;
                return Ok(false);
            }
        }
        count += 1;
    }
    Ok(true)
}

// Bytes came: they are late where a request met silence or had its window, and make the line busy.
fn hear_late(state: &mut State, late: &mut u64)
    ensures state { state.new ≡ Busy }
    ensures late { late.new ≡ late_at state.old late.old }
{
    match state {
        State::Quiet | State::Listened => *late = late.saturating_add(1),
        State::Answered | State::Overdue | State::Busy => {}
    }
    *state = State::Busy;
}

/// Takes all bytes that have arrived, until silence. Returns whether it came, or nothing where more
/// may come.
pub fn gather<W: Wire>(wire: &mut W, all: &mut AnswerBuf) -> Result<Option<bool>, IoFault>
    ensures gathered { IfOk result (λ quiet.
        Gathers W.hears wire.old all.old quiet wire.new all.new) }
    ensures fewer { IfOk result (λ quiet. IfNone quiet
        (W.waits_left wire.new < W.waits_left wire.old)) }
    ensures no_more { OnOk result (W.waits_left wire.new ≤ W.waits_left wire.old) }
    ensures well { OnOk result (W.failures wire.new ≡ W.failures wire.old) }
    ensures failed { OnErr result (HasRisen (W.failures wire.old) (W.failures wire.new)) }
{
    let mut room = [0; MOST_ANSWER];
    let mut count = 0;
    'pieces: while count < MOST_PIECES {
        match wire.hear(&mut room)? {
            Came::Bytes(came) => {
                let (given, _) = room.split_at(came);
                all.append(given);
            }
            Came::Nothing => return Ok(None),
            Came::Gap => return Ok(None),
            Came::Overdue => return Ok(None),
            Came::Silence => return Ok(Some(true)),
        }
        count += 1;
    }
    Ok(Some(false))
}

/// Takes what has arrived so far, and returns the answer once it is complete, and whether it is the silence of one that
/// is overdue.
pub fn hear<W: Wire>(
    wire: &mut W,
    hearing: &mut Hearing,
    early: &mut bool,
) -> Result<Option<AnswerBuf>, IoFault>
    ensures heard { IfOk result (λ heard. IfSome heard (λ answer.
        (is : Answers W.hears wire.old hearing.old answer wire.new hearing.new)
        × (early.new ≡ ends_early is.end))) }
    ensures waits { IfOk result (λ heard. IfNone heard
        (Waits W.hears wire.old hearing.old wire.new hearing.new)) }
    ensures fewer { IfOk result (λ heard. IfNone heard
        (W.waits_left wire.new < W.waits_left wire.old)) }
    ensures no_more { OnOk result (W.waits_left wire.new ≤ W.waits_left wire.old) }
    ensures well { OnOk result (W.failures wire.new ≡ W.failures wire.old) }
    ensures failed { OnErr result (HasRisen (W.failures wire.old) (W.failures wire.new)) }
{
    let mut room = [0; MOST_ANSWER];
    let mut count = hearing.wanted();
    *early = false;
    'pieces: while count > 0 {
        let (part, _) = room.split_at_mut(count);
        match wire.hear(part)? {
            Came::Bytes(came) => {
                let (given, _) = room.split_at(came);
                hearing.append(given);
            }
            Came::Nothing => return Ok(None),
            Came::Gap => {
                return if hearing.has_begun() {
                    Ok(Some(hearing.take()))
                } else {
                    Ok(None)
                };
            }
            Came::Overdue => {
                if hearing.has_begun() {
                    return Ok(None);
                }
                *early = true;
                return Ok(Some(hearing.take()));
            }
            Came::Silence => return Ok(Some(hearing.take())),
        }
        count = hearing.wanted();
    }
    Ok(Some(hearing.take()))
}

/// All bytes that came, without the echo of the request.
pub fn without_echo(request: &FrameBuf, all: &AnswerBuf) -> AnswerBuf
    ensures { result ≡ past_echo request.now all.now }
{
    let bytes = all.as_slice();
    let mut answer = AnswerBuf::new();
    if bytes.starts_with(request.as_slice()) {
        let (_, rest) = bytes.split_at(request.as_slice().len());
        answer.append(rest);
    } else {
        answer.append(bytes);
    }
    answer
}
