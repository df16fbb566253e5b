//! The steps of a search, and the frames that it sends.

ghost use Rattle.std.specs.Prelude.{◌≡◌, ◌≤◌, IfSome, length, option_map};
ghost use Rattle.dc_linkframe.specs.Frame.{spelling};
ghost use Rattle.dc_search.specs.Request.{request_by};

use dc_address::Mask;
use dc_linkframe::FrameBuf;
use dc_linkframe::control::{SELECTED, write_request, write_selection};

/// The next step of a search.
#[derive(Clone, Copy)]
pub enum Step {
    /// Select the meters that match.
    Select(Mask),
    /// Request data from the selected meter (REQ_UD2).
    Request,
    /// The search is done.
    Done,
    /// A selection is due, but the budget is spent.
    Budget,
}

impl Step {
    /// The frame to send: the selection by the mask, or the request for data with frame count bit
    /// 1; `None` at the end.
    pub fn request(&self) -> Option<FrameBuf>
        ensures exact { result ≡ option_map spelling (request_by self.now) }
        ensures short { IfSome result (λ request. length request ≤ 17) }
    {
        let mut buf = FrameBuf::new();
        match self {
            Step::Select(mask) => write_selection(&mask.wire(), &mut buf),
            Step::Request => write_request(true, SELECTED, &mut buf),
            Step::Done | Step::Budget => return None,
        }
        Some(buf)
    }
}
