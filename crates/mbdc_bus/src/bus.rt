//! A bus of meters over any transport, and a search on it.

ghost use Rattle.std.specs.Prelude.{◌≡◌, ◌≤◌, ℕ, Bool, true, List, [], Option, IfSome, IfOk, OnErr};
ghost use Rattle.std.specs.Prelude.{IsTrue, length};
ghost use Rattle.dc_address.specs.declared.identity.Identity.{Identity as Meter};
ghost use Rattle.mbdc_bus.specs.Limits.{most_request};
ghost use Rattle.mbdc_bus.specs.Bus.{HasAsked, HasHeard, IsHeard, IsSearched};
ghost use Rattle.dc_search.specs.State.{SearchState, is_idle, step_of};

use crate::answer_buf::AnswerBuf;
use dc_linkframe::FrameBuf;
use dc_search::Search;
use mbdc_io::NoMemory;
use std::alloc::Allocator;

/// Meters that take request frames and answer them.
pub trait Bus {
    // The meters on the bus, or `None` where they aren't known.
    ghost meters: { Self → Option (List Meter) };

    // The selected meters.
    ghost selected: { Self → List Meter };
    // Whether the bus is lost, and silent from now on.
    ghost lost: { Self → Bool };

    // What a request and its answer do to the bus.
    ghost asks: { Self → List ℕ → List ℕ → Self → Type 0 };

    // The same of a request that several meters may answer.
    ghost asks_all: { Self → List ℕ → List ℕ → Self → Type 0 };

    // Number of times that bytes came which nothing on the bus could have sent.
    ghost late: { Self → ℕ };

    // If the bus is lost over a request, the answer is silence.
    ghost silent: { (old new : Self) (request answer : List ℕ)
        → asks old request answer new → lost new ≡ true → answer ≡ [] };

    /// Whether the bus is lost, and silent from now on.
    fn is_lost(&self) -> bool
        ensures { result ≡ lost self.now };

    /// Sends a request and returns the answer; no byte is silence.
    fn ask(&mut self, request: &FrameBuf) -> AnswerBuf
        requires { length request.now ≤ most_request }
        ensures meters { meters self.new ≡ meters self.old }
        ensures heard { IfSome (meters self.old)
            (λ told. IsHeard told (selected self.old) (selected self.new) request.now result) }
        ensures asked { asks self.old request.now result self.new }
        // A lost bus is silent, and isn't touched.
        ensures silence { lost self.old ≡ true → result ≡ [] }
        ensures untouched { lost self.old ≡ true → self.new ≡ self.old };

    /// Sends a request that several meters may answer, and returns every byte that comes while one
    /// of them may begin to answer; no byte is silence.
    fn ask_all(&mut self, request: &FrameBuf) -> AnswerBuf
        requires { length request.now ≤ most_request }
        ensures meters { meters self.new ≡ meters self.old }
        ensures heard { IfSome (meters self.old)
            (λ told. IsHeard told (selected self.old) (selected self.new) request.now result) }
        ensures asked { asks_all self.old request.now result self.new }
        // A lost bus is silent, and isn't touched.
        ensures silence { lost self.old ≡ true → result ≡ [] }
        ensures untouched { lost self.old ≡ true → self.new ≡ self.old };

    /// Number of times that bytes came which nothing on the bus could have sent; it saturates.
    fn late(&self) -> u64
        ensures { result ≡ late self.now };
}

/// Searches a bus with at most `budget` selections: sends each step's request, and passes the
/// answer to the search. It ends whatever the bus answers.
///
/// # Errors
/// Out of memory.
pub fn search_over<A: Allocator + Copy, B: Bus>(
    alloc: A,
    budget: u32,
    bus: &mut B,
) -> Result<Search<A>, NoMemory>
    // The search is done, or the budget is spent.
    ensures ended { IfOk result (λ search. IsTrue (is_idle (step_of search))) }
    ensures within { IfOk result (λ search. search.selections ≤ budget) }

    // It is what the answers lead to.
    ensures heard { IfOk result (λ search. HasHeard budget search) }
    // The requests of its steps and their answers are all that happened to the bus, even if memory
    // ran out at the last answer.
    ensures asked { IfOk result (λ search. HasAsked B.asks budget bus.old bus.new search) }
    ensures stopped { OnErr result ((search : SearchState)
        × HasAsked B.asks budget bus.old bus.new search) }
    // Where the bus states its meters, it follows their walk.
    ensures walk { IfOk result (λ search.
        IfSome (B.meters bus.old) (λ told. IsSearched told budget search)) }
    ensures meters { B.meters bus.new ≡ B.meters bus.old }
    // Over a lost bus it finds no meter, and the bus isn't touched.
    ensures nobody { B.lost bus.old ≡ true → IfOk result (λ search. IsSearched [] budget search) }
    ensures untouched { B.lost bus.old ≡ true → bus.new ≡ bus.old }
{
    let mut search = Search::new(alloc, budget);
    'steps: while let Some(request) = search.next().request() {
        let answer = bus.ask(&request);
        if search.heard(answer.as_slice()).is_err() {
            return Err(NoMemory);
        }
    }
    Ok(search)
}
