//! A bus over which a filter decides what goes out and what is heard.

ghost use Rattle.std.specs.Prelude.{◌≡◌, ◌≤◌, List, [], ℕ, Option, None, IfSome, false, length};
ghost use Rattle.mbdc_bus.specs.Limits.{most_request};

use crate::addressing::{Addressed, Addressing};
use crate::confirming::MOST_CLEAR;
use crate::recounting::{Count, Known, Recounting};
use crate::remembering::Remembering;
use crate::retrying::Retrying;
use crate::sparing::{Doubt, Sparing};
use arrayvec::ArrayVec;
use dc_linkframe::FrameBuf;
use mbdc_bus::{AnswerBuf, HalfBus};

/// What decides, between a readout and its bus, which requests go out and which answers are heard. A lost bus isn't
/// asked about.
pub trait Filter {
    // What it keeps after a request, and what goes out in its place, if anything.
    ghost asks: { Self → List ℕ → Option (List ℕ) → Self → Type 0 };

    // What it keeps after an answer of the bus, and what is heard of it.
    ghost hears: { Self → List ℕ → List ℕ → Self → Type 0 };

    /// Takes a request. Returns what goes out in its place: mostly the request itself, and nothing where it is withheld.
    fn ask(&mut self, request: &FrameBuf) -> Option<FrameBuf>
        ensures step { asks self.old request.now result self.new }
        ensures short { length request.now ≤ most_request → IfSome result (λ out. length out ≤ most_request) };

    /// Takes an answer of the bus. Returns what is heard: silence stays silence.
    fn hear(&mut self, answer: AnswerBuf) -> AnswerBuf
        ensures step { hears self.old answer result self.new }
        ensures silence { answer ≡ [] → result ≡ [] };
}

/// A bus with a filter. For a request that is withheld silence is given at once.
#[derive(Drop)]
pub struct Filtered<B: HalfBus + Drop, F: Filter + Drop> {
    /// The bus.
    pub bus: B,
    /// The filter.
    pub filter: F,
    /// Whether the last request was withheld.
    pub withholds: bool,
}

impl<B: HalfBus + Drop, F: Filter + Drop> HalfBus for Filtered<B, F> {
    ghost use Rattle.mbdc_poll.specs.Filtered.{Gives, Opens, Sends, Waits};

    ghost lost = { λ filtered. B.lost filtered.bus };

    ghost waits_left = { λ filtered. B.waits_left filtered.bus };

    ghost sends = { Sends B.HalfBus F.Filter };

    ghost opens = { Opens B.HalfBus };

    ghost waits = { Waits B.HalfBus };

    ghost gives = { Gives B.HalfBus F.Filter };

    ghost late = { λ filtered. B.late filtered.bus };

    fn is_lost(&self) -> bool {
        self.bus.is_lost()
    }

    fn send(&mut self, request: &FrameBuf) {
        if self.bus.is_lost() {
            self.bus.send(request);
            return;
        }
        let out = self.filter.ask(request);
        self.withholds = out.is_none();
        if let Some(out) = out {
            self.bus.send(&out);
        }
    }

    fn send_open(&mut self, request: &FrameBuf) {
        if !self.bus.is_lost() {
            self.withholds = false;
        }
        self.bus.send_open(request);
    }

    fn hear(&mut self) -> Option<AnswerBuf> {
        if self.withholds {
            return Some(AnswerBuf::new());
        }
        let was_lost = self.bus.is_lost();
        let answer = self.bus.hear()?;
        Some(if was_lost {
            answer
        } else {
            self.filter.hear(answer)
        })
    }

    fn late(&self) -> u64 {
        self.bus.late()
    }
}

/// A bus with the filters of a poll.
pub type PollBus<'a, 'b, 'c, B> = Filtered<
    Filtered<Filtered<Filtered<Filtered<B, Addressing<'c>>, Sparing<'a>>, Retrying>, Remembering>,
    Recounting<'b>,
>;

/// This bus with the filters of a poll: it asks some meters by their primary addresses in place of their selections,
/// asks who was silent in the last poll one question, asks who is busy again, drops copies of telegrams, takes a
/// telegram only once it has come twice where one lately had wrong bits, and begins a readout anew that differs from
/// what is known. A copy that comes of a first question is no silence.
pub fn with_filters<'a, 'b, 'c, B: HalfBus + Drop>(
    bus: B,
    doubts: &'a mut [Doubt],
    known: &'b mut [Known],
    selected: &'c mut [Addressed],
) -> PollBus<'a, 'b, 'c, B>
    ensures bus { result.bus.bus.bus.bus.bus ≡ bus }
    ensures selected { result.bus.bus.bus.bus.filter.selected.now ≡ selected.old }
    ensures by_selection { result.bus.bus.bus.bus.filter.address ≡ None }
    ensures doubts { result.bus.bus.bus.filter.doubts.now ≡ doubts.old }
    ensures known { result.filter.known.now ≡ known.old }
    ensures clear { result.bus.filter.clear ≡ 200 }
    ensures goes_on { result.filter.count.is_given_up ≡ false }
    ensures begins { (result.withholds ≡ false) × (result.bus.withholds ≡ false)
        × (result.bus.bus.withholds ≡ false) × (result.bus.bus.bus.withholds ≡ false)
        × (result.bus.bus.bus.bus.withholds ≡ false) }
{
    let addressing = Filtered {
        bus,
        filter: Addressing {
            selected,
            address: None,
        },
        withholds: false,
    };
    let sparing = Filtered {
        bus: addressing,
        filter: Sparing {
            doubts,
            out: FrameBuf::new(),
        },
        withholds: false,
    };
    let retrying = Filtered {
        bus: sparing,
        filter: Retrying { dropped: 0 },
        withholds: false,
    };
    let remembering = Filtered {
        bus: retrying,
        filter: Remembering {
            request: FrameBuf::new(),
            is_answered: false,
            clear: MOST_CLEAR,
            telegrams: ArrayVec::new(),
        },
        withholds: false,
    };
    let count = Count {
        request: FrameBuf::new(),
        is_answered: false,
        telegrams: 0,
        is_given_up: false,
    };
    Filtered {
        bus: remembering,
        filter: Recounting { known, count },
        withholds: false,
    }
}
