//! A whole bus over its two halves, for callers that use one bus at a time.

ghost use Rattle.std.specs.Prelude.{◌≡◌, ◌≤◌, true, [], ◌∷◌, length};
ghost use Rattle.mbdc_bus.specs.Limits.{most_request};
ghost use Rattle.mbdc_bus.specs.Both.{Asked};
ghost use Rattle.mbdc_bus.specs.Halves.{Runs};

use crate::answer_buf::AnswerBuf;
use crate::bus::Bus;
use crate::half::HalfBus;
use dc_linkframe::FrameBuf;

/// A way to wait until a bus may have received something.
pub trait Pause<B> {
    /// Waits until something may have arrived on the bus, or its time-out is over.
    fn pause(&mut self, bus: &B);
}

/// A bus, and the way to wait for its answers.
#[derive(Drop)]
pub struct Both<B: HalfBus + Drop, P: Pause<B> + Drop> {
    /// The bus.
    pub bus: B,
    /// The way to wait.
    pub pause: P,
}

impl<B: HalfBus + Drop, P: Pause<B> + Drop> Both<B, P> {
    /// Waits for the answer to the request that was sent last. It is silence if the bus is lost.
    fn await_answer(&mut self) -> AnswerBuf
        ensures heard { Runs B.gives B.waits self.old.bus (result ∷ []) self.new.bus }
        ensures silence { B.lost self.new.bus ≡ true → result ≡ [] }
    {
        let mut heard = self.bus.hear();
        'waits: while heard.is_none() {
            self.pause.pause(&self.bus);
            heard = self.bus.hear();
        }
        heard.unwrap_or_default()
    }
}

impl<B: HalfBus + Drop, P: Pause<B> + Drop> Bus for Both<B, P> {
    ghost use Rattle.std.specs.Prelude.{None, []};
    ghost use Rattle.mbdc_bus.specs.Both.{BothAsk};

    // The meters on it aren't known to contracts.
    ghost meters = { λ _. None };

    ghost selected = { λ _. [] };

    ghost lost = { λ both. B.lost both.bus };

    ghost asks = { BothAsk B.sends B.HalfBus };

    ghost asks_all = { BothAsk B.opens B.HalfBus };

    ghost late = { λ both. B.late both.bus };

    ghost silent = { λ old new request answer asked. asked.silence };

    fn is_lost(&self) -> bool {
        self.bus.is_lost()
    }

    fn ask(&mut self, request: &FrameBuf) -> AnswerBuf {
        if self.bus.is_lost() {
            return AnswerBuf::new();
        }
        self.bus.send(request);
        self.await_answer()
    }

    fn ask_all(&mut self, request: &FrameBuf) -> AnswerBuf {
        if self.bus.is_lost() {
            return AnswerBuf::new();
        }
        self.bus.send_open(request);
        self.await_answer()
    }

    fn late(&self) -> u64 {
        self.bus.late()
    }
}
