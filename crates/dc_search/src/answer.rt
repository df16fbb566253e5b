//! What a search learns from the answer to a request.

ghost use Rattle.std.specs.Prelude.{◌≡◌, Some};
ghost use Rattle.dc_search.specs.Answer.{answer_of, identity_at, identity_in};
ghost use Rattle.dc_linkframe.specs.Frame.{seen};

use dc_address::Identity;
use dc_linkframe::control::{VARIABLE_DATA, is_rsp_ud};
use dc_linkframe::{Frame, parse};
use dc_records::Header;

/// The identity in the header of a telegram's body.
fn identity_at(body: &[u8]) -> Option<Identity>
    ensures { result ≡ identity_at body.now }
{
    match Header::read(body) {
        Ok(header) => Some(header.identity),
        Err(_) => None,
    }
}

/// The meter that sent the telegram in a frame.
fn meter_in(frame: &Frame<'_>) -> Option<Identity>
    ensures { result ≡ identity_in (Some (seen frame.now)) }
{
    match frame {
        Frame::Long {
            control,
            ci,
            body,
            ..
        } if is_rsp_ud(*control) && *ci == VARIABLE_DATA => identity_at(body),
        _ => None,
    }
}

/// The meter that sent a readable response with a telegram.
#[tactic(auto, unfolding(crate::specs::Answer::answer_of))]
pub fn meter_of(bytes: &[u8]) -> Option<Identity>
    ensures { result ≡ answer_of bytes.now }
{
    match parse(bytes) {
        Ok(frame) => meter_in(&frame),
        Err(_) => None,
    }
}
