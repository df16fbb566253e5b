//! A meter's answer, and what is received of it.

ghost use Rattle.std.specs.Prelude.{◌≡◌, ◌≤◌, length, Some, None, unwrap_or, if◌then◌else◌};
ghost use Rattle.dc_linkframe.specs.Buffer.{capacity};
ghost use Rattle.dc_linkframe.specs.Frame.{ack};
ghost use Rattle.dc_readout.specs.Meter.{answer_to, response, body_at, is_own};
ghost use Rattle.dc_readout.specs.Request.{frame_asked};
ghost use Rattle.dc_readout.specs.Reply.{bytes_heard, bytes_of};
ghost use Rattle.dc_readout.specs.Regular.{Fits};

use crate::world::position::Position;
use crate::world::request::Request;
use crate::world::script::{MAX_BODY, MeterScript};
use dc_address::{Mask, Primary};
use dc_linkframe::control::{RSP_UD, VARIABLE_DATA};
use dc_linkframe::{ACK, FrameBuf, write_long};
use std::alloc::Allocator;

// A byte that is no frame.
const NOISE: u8 = 0x00;

/// What is received as the answer to a request.
#[derive(Clone, Copy)]
pub enum Reply {
    /// No byte: the request isn't for the meter, or it has no more telegrams.
    Silence,
    /// A byte that is no frame.
    Noise,
    /// The acknowledgement.
    Acknowledged,
    /// A telegram, in its frame.
    Telegram(FrameBuf),
}

impl Reply {
    /// The reply's bytes; silence has none.
    pub fn as_slice(&self) -> &[u8]
        ensures bytes { result.now ≡ bytes_heard self.now }
        ensures fits { length (bytes_heard self.now) ≤ capacity }
    {
        match self {
            Reply::Silence => &[],
            Reply::Noise => &[NOISE],
            Reply::Acknowledged => &[ACK],
            Reply::Telegram(frame) => frame.as_slice(),
        }
    }
}

/// The acknowledgement, if a meter answers.
pub(crate) fn acknowledged_if(answers: bool) -> Reply
    ensures { bytes_heard result ≡ bytes_of (if answers then Some ack else None) }
{
    if answers {
        Reply::Acknowledged
    } else {
        Reply::Silence
    }
}

// A meter without a primary address answers from 0.
fn sender_of(own: Option<Primary>) -> u8
    ensures { result ≡ unwrap_or own 0 }
{
    match own {
        Some(own) => own.get(),
        None => 0,
    }
}

/// Whether this is the meter's own address.
pub(crate) fn is_own(own: Option<Primary>, address: u8) -> bool
    ensures { result ≡ is_own own address }
{
    match own {
        Some(own) => own.get() == address,
        None => false,
    }
}

/// The telegram with the body at the meter's position. After the last body the meter is silent, and
/// it is silent if the body doesn't fit a frame.
pub(crate) fn respond<A: Allocator>(script: &MeterScript<A>, place: usize) -> Reply
    ensures { Fits script.now.bodies
        → bytes_heard result ≡ bytes_of (response script.now (body_at place script.now.bodies)) }
{
    if place == 0 || place > script.bodies.len() {
        return Reply::Silence;
    }
    let body = script.bodies.at(place - 1);
    if body.len() > MAX_BODY {
        return Reply::Silence;
    }
    let mut frame = FrameBuf::new();
    write_long(
        RSP_UD,
        sender_of(script.address),
        VARIABLE_DATA,
        body,
        &mut frame,
    );
    Reply::Telegram(frame)
}

/// The answer of a meter that the request brought to this position.
pub(crate) fn reply_to<A: Allocator>(
    request: Request,
    script: &MeterScript<A>,
    position: &Position,
) -> Reply
    requires { Fits script.now.bodies }
    ensures { bytes_heard result ≡ bytes_of
        (answer_to (frame_asked request) script.now position.now) }
{
    match request {
        Request::Reset(address) => acknowledged_if(is_own(script.address, address)),
        Request::Select(meter) => acknowledged_if(Mask::of(&meter).matches(&script.identity)),
        Request::Data { address, .. } => {
            if position.hears(script.address, address) {
                respond(script, position.place())
            } else {
                Reply::Silence
            }
        }
    }
}
