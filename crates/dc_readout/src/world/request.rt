//! The request of a session, as the meters on its line read it.

ghost use Rattle.std.specs.Prelude.{◌≡◌, ◌<◌, IsSome, option_map};
ghost use Rattle.dc_readout.specs.Answer.{max_parts};
ghost use Rattle.dc_readout.specs.Summary.{asked_by};
ghost use Rattle.dc_readout.specs.Request.{frame_asked};

use crate::Session;
use dc_address::Identity;
use dc_linkframe::control::{SND_NKE, req_ud2};
use dc_linkframe::{Frame, parse};

/// A request, as the meters read it.
#[derive(Clone, Copy)]
pub(crate) enum Request {
    /// The reset of the link at an address.
    Reset(u8),
    /// The selection of a meter.
    Select(Identity),
    /// The request for data from an address, with its frame count bit.
    Data { bit: bool, address: u8 },
}

/// The request that the session sends, read from its bytes.
pub(crate) fn request_of(session: &Session) -> Option<Request>
    ensures exact { option_map frame_asked result ≡ asked_by session.now }
    ensures left { IsSome result → session.now.settled < max_parts }
{
    let sent = session.ask()?;
    match parse(sent.as_slice()).ok()? {
        Frame::Short { control, address } if control == SND_NKE => Some(Request::Reset(address)),
        Frame::Short { control, address } => Some(Request::Data {
            bit: control == req_ud2(true),
            address,
        }),
        // The only long frame that a session sends.
        Frame::Long { .. } => Some(Request::Select(session.meter())),
        Frame::Ack => None,
    }
}
