//! What may be under way on a line, and which frame answers a request.

ghost use Rattle.std.specs.Prelude.{◌≡◌, ◌≤◌, bytes_eq, length};
ghost use Rattle.dc_linkframe.specs.Reading.{frame_of};
ghost use Rattle.mbdc_bus.specs.Limits.{most_answer};
ghost use Rattle.mbdc_raw.specs.Turn.{is_answer, is_copy, is_reset, is_wrong, kind_of};
ghost use Rattle.mbdc_raw.specs.Turn.{last_behind, last_waited, may_go, repeats_of, repeats_out};
ghost use Rattle.mbdc_raw.specs.Turn.{wants_ack};

use dc_linkframe::control::{SELECTED, SND_NKE, SND_UD};
use dc_linkframe::{Frame, FrameBuf, parse};
use mbdc_bus::AnswerBuf;

/// What may be under way on a line.
#[derive(Clone, Copy)]
pub enum State {
    /// Nothing: nothing came for the patience since the last request and the last byte.
    Quiet,
    /// Nothing, if each meter began its answer within the window after a request that several may
    /// answer: such requests alone go out at once.
    Listened,
    /// Nothing but a copy of the last answer: the one request since has its answer.
    Answered,
    /// The acknowledgement of the last request, which is overdue: it may be repeated at once.
    Overdue,
    /// The answer to the last request, or what came before it.
    Busy,
}

/// How the answer to a request is taken.
#[derive(Clone, Copy)]
pub enum Kind {
    /// The first frame: one meter answers.
    One,
    /// All bytes: several meters may answer.
    All,
    /// None: the reset of all selected meters.
    Nobody,
}

/// Whether a request may go out, which several meters may answer or not: on a quiet line any, and after an answer one
/// that differs from the request that it answered. Where an acknowledgement is overdue its request is repeated; after
/// such repeats none that is acknowledged goes out until the line is quiet. The reset of all selected meters also goes
/// out as the first request of a line: what comes is dropped until the line is quiet.
pub fn may_go(state: State, repeats: u8, last: &FrameBuf, request: &FrameBuf, many: bool) -> bool
    ensures { result ≡ may_go state repeats last.now request.now many }
{
    let is_acked = wants_ack(request.as_slice());
    let is_apart = repeats == 0 || !is_acked;
    match state {
        State::Quiet => true,
        State::Listened => many && is_apart,
        State::Answered => last.as_slice() != request.as_slice() && is_apart,
        State::Overdue => !many && (last.as_slice() == request.as_slice() && is_acked),
        State::Busy => last.as_slice().is_empty() && is_reset(request.as_slice()),
    }
}

/// How the answer to this request is taken, of which several meters may send one or not.
pub fn kind_of(request: &FrameBuf, many: bool) -> Kind
    ensures { result ≡ kind_of (frame_of request.now) many }
{
    if is_reset(request.as_slice()) {
        return Kind::Nobody;
    }
    if many { Kind::All } else { Kind::One }
}

/// Whether these bytes are the reset of all selected meters.
pub fn is_reset(request: &[u8]) -> bool
    ensures { result ≡ is_reset (frame_of request.now) }
{
    match parse(request) {
        Ok(Frame::Short { control, address }) => control == SND_NKE && address == SELECTED,
        _ => false,
    }
}

/// Whether an acknowledgement answers this request.
pub fn wants_ack(request: &[u8]) -> bool
    ensures { result ≡ wants_ack (frame_of request.now) }
{
    match parse(request) {
        Ok(Frame::Short { control, .. }) => control == SND_NKE,
        Ok(Frame::Long { control, .. }) => control == SND_UD,
        _ => false,
    }
}

/// Whether these bytes are a whole frame of the kind that answers the request.
pub fn is_answer(request: &[u8], answer: &[u8]) -> bool
    ensures { result ≡ is_answer (frame_of request.now) (frame_of answer.now) }
{
    match parse(answer) {
        Ok(Frame::Ack) => wants_ack(request),
        Ok(Frame::Long { .. }) => !wants_ack(request),
        _ => false,
    }
}

/// Whether these bytes are a frame of another kind.
pub fn is_wrong(request: &[u8], answer: &[u8]) -> bool
    ensures { result ≡ is_wrong (frame_of request.now) (frame_of answer.now) }
{
    match parse(answer) {
        Ok(Frame::Ack) => !wants_ack(request),
        Ok(Frame::Long { .. }) => wants_ack(request),
        Ok(Frame::Short { .. }) => true,
        Err(_) => false,
    }
}

/// Whether an answer is that of before, byte for byte.
pub fn is_copy(last: &Option<AnswerBuf>, answer: &AnswerBuf) -> bool
    ensures { result ≡ is_copy last.now answer.now }
{
    match last {
        Some(last) => last.as_slice() == answer.as_slice(),
        None => false,
    }
}

/// A copy of an answer's bytes.
pub fn copy_of(answer: &[u8]) -> AnswerBuf
    ensures { length answer.now ≤ most_answer → result ≡ answer.now }
{
    let mut copy = AnswerBuf::new();
    copy.append(answer);
    copy
}

/// The last answer, once a request goes out. On a quiet line a telegram is still remembered: its
/// copy may come later than the patience allows, and would pass for the next telegram.
pub fn last_behind(state: State, last: Option<AnswerBuf>) -> Option<AnswerBuf>
    ensures { result ≡ last_behind state last }
{
    match state {
        State::Quiet => {
            let answer = last?;
            match parse(answer.as_slice()) {
                Ok(Frame::Ack) => None,
                _ => Some(answer),
            }
        }
        State::Listened => None,
        State::Answered => last,
        State::Overdue => last,
        State::Busy => last,
    }
}

/// Number of early repeats of the request that goes out, and then of those of an acknowledged request of which
/// acknowledgements may be under way.
pub fn repeats_by(state: State, repeats: u8) -> (u8, u8)
    ensures of { result.0 ≡ repeats_of state repeats }
    ensures out { result.1 ≡ repeats_out state repeats }
{
    match state {
        State::Quiet => (0, 0),
        State::Overdue => (repeats.saturating_add(1), repeats.saturating_add(1)),
        State::Listened | State::Answered | State::Busy => (0, repeats),
    }
}

/// The last answer, while a request waits. Where that one was answered, and the line is quiet now, it
/// may have the same answer again.
pub fn last_waited(
    answered: &FrameBuf,
    request: &FrameBuf,
    before: State,
    after: State,
    last: Option<AnswerBuf>,
) -> Option<AnswerBuf>
    ensures { result ≡ last_waited (bytes_eq answered.now request.now) before after last }
{
    match (before, after) {
        (State::Answered, State::Quiet) => {
            if answered.as_slice() == request.as_slice() {
                None
            } else {
                last
            }
        }
        _ => last,
    }
}
