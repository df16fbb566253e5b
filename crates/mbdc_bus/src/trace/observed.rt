//! A bus with an observer.

ghost use Rattle.std.specs.Prelude.{◌≡◌, true};

use crate::trace::observer::Observer;
use crate::{AnswerBuf, HalfBus};
use dc_linkframe::FrameBuf;

/// A bus with an observer, which sees each request and each answer. A lost bus is untouched, and so is its observer.
#[derive(Drop)]
pub struct Observed<B: HalfBus + Drop, O: Observer + Drop> {
    /// The bus.
    pub bus: B,
    /// What sees its exchanges.
    pub observer: O,
}

impl<B: HalfBus + Drop, O: Observer + Drop> HalfBus for Observed<B, O> {
    ghost use Rattle.mbdc_bus.specs.Observed.{Gives, Sends, Unseen};

    ghost lost = { λ observed. B.lost observed.bus };

    ghost waits_left = { λ observed. B.waits_left observed.bus };

    ghost sends = { Sends B.lost B.sends O.sees_request };

    ghost opens = { Sends B.lost B.opens O.sees_request };

    ghost waits = { Unseen B.waits };

    ghost gives = { Gives B.lost B.gives O.sees_answer };

    ghost late = { λ observed. B.late observed.bus };

    fn is_lost(&self) -> bool {
        self.bus.is_lost()
    }

    fn send(&mut self, request: &FrameBuf) {
        if !self.bus.is_lost() {
            self.observer.see_request(request.as_slice());
        }
        self.bus.send(request);
    }

    fn send_open(&mut self, request: &FrameBuf) {
        if !self.bus.is_lost() {
            self.observer.see_request(request.as_slice());
        }
        self.bus.send_open(request);
    }

    fn hear(&mut self) -> Option<AnswerBuf> {
        let was_lost = self.bus.is_lost();
        let answer = self.bus.hear()?;
        if !was_lost {
            self.observer.see_answer(answer.as_slice());
        }
        Some(answer)
    }

    fn late(&self) -> u64 {
        self.bus.late()
    }
}
