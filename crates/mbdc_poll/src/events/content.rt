//! What an answer says that the register doesn't take.

ghost use Rattle.std.specs.Prelude.{◌≡◌, option_map};
ghost use Rattle.mbdc_poll.specs.Content.{untaken};
ghost use Rattle.mbdc_reading.specs.Content.{content_view};

use dc_linkframe::control::VARIABLE_DATA;
use dc_linkframe::{Frame, parse};
use dc_records::Telegram;
use mbdc_reading::content::{Content, content_of};

/// What an answer says where its frame is no telegram that the register takes: an encrypted one, one with another
/// header or none, fixed data, or records with a fault.
#[tactic(auto, unfolding(crate::specs::Content::untaken_body))]
pub(crate) fn untaken(answer: &[u8]) -> Option<Content<'_>>
    ensures { option_map content_view result ≡ untaken answer.now }
{
    let Ok(Frame::Long { ci, body, .. }) = parse(answer) else {
        return None;
    };
    if ci == VARIABLE_DATA && Telegram::parse(body).is_ok() {
        return None;
    }
    content_of(ci, body)
}
