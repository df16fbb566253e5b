//! A bus of one of two kinds, or none.

ghost use Rattle.std.specs.Prelude.{◌≡◌, true};

use dc_linkframe::FrameBuf;
use mbdc_bus::{AnswerBuf, HalfBus};

/// A bus of one of two kinds, or none.
#[derive(Drop)]
pub enum LinkBus<A: HalfBus + Drop, B: HalfBus + Drop> {
    /// A bus of the first kind.
    First(A),
    /// A bus of the second kind.
    Second(B),
    /// No bus: it counts as lost from the start.
    Absent,
}

impl<A: HalfBus + Drop, B: HalfBus + Drop> HalfBus for LinkBus<A, B> {
    ghost use Rattle.mbdc_raw.specs.Bus.{gives_by, lost_by, left_by, sends_by, waits_by};

    ghost lost = { lost_by A.lost B.lost };

    ghost waits_left = { left_by A.waits_left B.waits_left };

    ghost sends = { sends_by A.sends B.sends };

    ghost opens = { sends_by A.opens B.opens };

    ghost waits = { waits_by A.waits B.waits };

    ghost gives = { gives_by A.gives B.gives };

    ghost late = { left_by A.late B.late };

    fn is_lost(&self) -> bool {
        match self {
            LinkBus::First(bus) => bus.is_lost(),
            LinkBus::Second(bus) => bus.is_lost(),
            LinkBus::Absent => true,
        }
    }

    fn send(&mut self, request: &FrameBuf) {
        match self {
            LinkBus::First(bus) => bus.send(request),
            LinkBus::Second(bus) => bus.send(request),
            LinkBus::Absent => {}
        }
    }

    fn send_open(&mut self, request: &FrameBuf) {
        match self {
            LinkBus::First(bus) => bus.send_open(request),
            LinkBus::Second(bus) => bus.send_open(request),
            LinkBus::Absent => {}
        }
    }

    fn hear(&mut self) -> Option<AnswerBuf> {
        match self {
            LinkBus::First(bus) => bus.hear(),
            LinkBus::Second(bus) => bus.hear(),
            LinkBus::Absent => Some(AnswerBuf::new()),
        }
    }

    fn late(&self) -> u64 {
        match self {
            LinkBus::First(bus) => bus.late(),
            LinkBus::Second(bus) => bus.late(),
            LinkBus::Absent => 0,
        }
    }
}
