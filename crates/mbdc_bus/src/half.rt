//! A bus in two halves: send a request, and take its answer once it is complete.

ghost use Rattle.std.specs.Prelude.{◌≡◌, ◌≤◌, ◌<◌, ℕ, Bool, true, List, [], IfSome, IfNone};
ghost use Rattle.std.specs.Prelude.{length};
ghost use Rattle.mbdc_bus.specs.Limits.{most_request};
ghost use Rattle.mbdc_bus.specs.Halves.{most_waits};

use crate::answer_buf::AnswerBuf;
use dc_linkframe::FrameBuf;

/// A bus on which a request is sent first, and its answer is taken once it is complete.
///
/// No call waits. A caller with several buses waits for all of them at once, and then calls
/// [`hear`](HalfBus::hear) on each.
pub trait HalfBus {
    // Whether the bus is lost: it is silent and untouched from then on.
    ghost lost: { Self → Bool };

    // Number of times that `hear` can still find the answer incomplete.
    ghost waits_left: { Self → ℕ };

    // The effect on the bus of sending a request, of sending one that several meters may answer, of
    // finding no complete answer, and of taking an answer.
    ghost sends: { Self → List ℕ → Self → Type 0 };

    ghost opens: { Self → List ℕ → Self → Type 0 };

    ghost waits: { Self → Self → Type 0 };

    ghost gives: { Self → List ℕ → Self → Type 0 };

    // Number of times that bytes came which nothing on the bus could have sent.
    ghost late: { Self → ℕ };

    /// Whether the bus is lost.
    fn is_lost(&self) -> bool
        ensures lost { result ≡ lost self.now }
        ensures few { waits_left self.now ≤ most_waits };

    /// Sends a request. It goes out once it may: [`hear`](HalfBus::hear) waits for that, too.
    fn send(&mut self, request: &FrameBuf)
        requires { length request.now ≤ most_request }
        ensures step { sends self.old request.now self.new }
        ensures few { waits_left self.new ≤ most_waits }
        ensures untouched { lost self.old ≡ true → self.new ≡ self.old };

    /// Sends a request that several meters may answer: [`hear`](HalfBus::hear) then returns every
    /// byte that came while one of them may begin to answer, and not only the first frame.
    fn send_open(&mut self, request: &FrameBuf)
        requires { length request.now ≤ most_request }
        ensures step { opens self.old request.now self.new }
        ensures few { waits_left self.new ≤ most_waits }
        ensures untouched { lost self.old ≡ true → self.new ≡ self.old };

    /// Takes the answer to the request that was sent last, once it is complete; no byte is silence.
    /// A lost bus is silent.
    fn hear(&mut self) -> Option<AnswerBuf>
        ensures answer { IfSome result (λ answer. gives self.old answer self.new) }
        ensures waits { IfNone result (waits self.old self.new) }
        ensures fewer { IfNone result (waits_left self.new < waits_left self.old) }
        ensures no_more { waits_left self.new ≤ waits_left self.old }
        ensures silence { lost self.new ≡ true → IfSome result (λ answer. answer ≡ []) }
        ensures untouched { lost self.old ≡ true → self.new ≡ self.old }
        ensures at_once { lost self.old ≡ true → IfNone result ⊥ };

    /// Number of times that bytes came which nothing on the bus could have sent; it saturates.
    fn late(&self) -> u64
        ensures { result ≡ late self.now };
}
