//! A gateway as a bus, and as a bus of a script.

ghost use Rattle.std.specs.Prelude.{◌≡◌, true};

use crate::blocks::gateway::Gateway;
use crate::{AnswerBuf, Bus};
use dc_linkframe::FrameBuf;
use mbdc_io::{Sink, Source};

impl<R: Source + Drop, W: Sink + Drop> Bus for Gateway<R, W> {
    ghost use Rattle.std.specs.Prelude.{None, []};
    ghost use Rattle.mbdc_bus.specs.Asking.{Asks};
    ghost use Rattle.mbdc_bus.specs.Silence.{gateway_is_silent};

    // The meters at the other end of a gateway aren't known.
    ghost meters = { λ _. None };

    ghost selected = { λ _. [] };

    ghost lost = { λ gateway. gateway.lost };

    ghost asks = { Asks R.Source W.Sink };

    // The gateway takes all that comes until its block ends.
    ghost asks_all = { Asks R.Source W.Sink };

    // Blocks mark the end of a gateway's answer, so nothing is late.
    ghost late = { λ _. 0 };

    ghost silent = { gateway_is_silent R.Source W.Sink };

    fn is_lost(&self) -> bool {
        Gateway::is_lost(self)
    }

    fn ask(&mut self, request: &FrameBuf) -> AnswerBuf {
        Gateway::ask(self, request)
    }

    fn ask_all(&mut self, request: &FrameBuf) -> AnswerBuf {
        Gateway::ask(self, request)
    }

    fn late(&self) -> u64 {
        0
    }
}
