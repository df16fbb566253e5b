//! A link of the block protocol as a bus in two halves.

ghost use Rattle.std.specs.Prelude.{◌≡◌, None, IsTrue};
ghost use Rattle.mbdc_bus.specs.Blocks.{is_short};

use crate::blocks::gateway::Gateway;
use crate::{AnswerBuf, HalfBus};
use dc_linkframe::FrameBuf;
use mbdc_io::{Sink, Source};

/// A gateway, and the request to exchange with it. Taking the answer performs the whole exchange,
/// which waits for the answer's end; so no answer is late.
#[derive(Drop)]
pub struct BlockLink<R: Source + Drop, W: Sink + Drop> {
    /// The gateway.
    pub gateway: Gateway<R, W>,
    /// The request, until its answer is taken.
    pub request: Option<FrameBuf>,
    ghost short: { IsTrue (is_short request) },
}

impl<R: Source + Drop, W: Sink + Drop> BlockLink<R, W> {
    /// A link on which no request was sent yet.
    pub fn new(gateway: Gateway<R, W>) -> Self
        ensures gateway { result.gateway ≡ gateway }
        ensures none { result.request ≡ None }
    {
        BlockLink {
            gateway,
            request: None,
        }
    }
}

impl<R: Source + Drop, W: Sink + Drop> HalfBus for BlockLink<R, W> {
    ghost use Rattle.mbdc_bus.specs.Link.{LinkGives, LinkSends};

    ghost lost = { λ link. link.gateway.lost };

    ghost waits_left = { λ _. 0 };

    ghost sends = { LinkSends R.Source W.Sink };

    // The gateway takes all that comes until its block ends.
    ghost opens = { LinkSends R.Source W.Sink };

    // It never waits.
    ghost waits = { λ _ _. ⊥ };

    ghost gives = { LinkGives R.Source W.Sink };

    // The exchange is taken whole, so nothing is late.
    ghost late = { λ _. 0 };

    fn is_lost(&self) -> bool {
        self.gateway.is_lost()
    }

    fn send(&mut self, request: &FrameBuf) {
        if !self.gateway.is_lost() {
            self.request = Some(*request);
        }
    }

    fn send_open(&mut self, request: &FrameBuf) {
        self.send(request);
    }

    fn hear(&mut self) -> Option<AnswerBuf> {
        if self.gateway.is_lost() {
            return Some(AnswerBuf::new());
        }
        match self.request {
            Some(request) => {
                self.request = None;
                Some(self.gateway.ask(&request))
            }
            None => Some(AnswerBuf::new()),
        }
    }

    fn late(&self) -> u64 {
        0
    }
}
