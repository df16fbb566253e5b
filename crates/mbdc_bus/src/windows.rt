//! A search on a bus on which several meters may answer one request.

ghost use Rattle.std.specs.Prelude.{◌≡◌, ◌≤◌, ◌<◌, ℕ, true, false, List, [], ◌∷◌, ◌==◌, ◌≢◌, Some, IfOk, IfSome, OnErr};
ghost use Rattle.std.specs.Prelude.{IsTrue, length, option_map};
ghost use Rattle.dc_address.specs.declared.identity.Identity.{Identity as Meter};
ghost use Rattle.mbdc_bus.specs.Limits.{most_request};
ghost use Rattle.mbdc_bus.specs.Bus.{HasHeard, IsHeard, IsSearched};
ghost use Rattle.mbdc_bus.specs.Windows.{Asking, Insists, IsAskedAll, Questions, Reads, are_several};
ghost use Rattle.mbdc_bus.specs.Windows.{data_request, noise};
ghost use Rattle.dc_linkframe.specs.Frame.{spelling};
ghost use Rattle.dc_search.specs.Answer.{answer_of};
ghost use Rattle.dc_search.specs.Request.{request_by};
ghost use Rattle.dc_search.specs.State.{SearchState, is_idle, step_of};
ghost use Rattle.dc_search.specs.declared.step.Step.TheVariants.{Request};

use crate::answer_buf::AnswerBuf;
use crate::bus::Bus;
use dc_address::Identity;
use dc_linkframe::{Frame, FrameBuf, parse};
use dc_search::{Search, Step, meter_of};
use mbdc_io::NoMemory;
use std::alloc::Allocator;

/// Maximum number of windows of one request.
pub const TRIES: u8 = 3;

// A byte that is no frame.
const NOISE: u8 = 0x00;

/// Searches a bus on which several meters may answer one request, with at most `budget` selections, as
/// [`search_over`](crate::search_over) does.
///
/// A request that is met by silence is sent three times. A telegram is requested once more, and has to come again from
/// the same meter, alone. Where bytes come to a selection that aren't one acknowledgement, several meters match; they
/// aren't requested, unless all eight digits are fixed. Selections that are repeated aren't counted.
///
/// # Errors
/// Out of memory.
pub fn search_windows<A: Allocator + Copy, B: Bus>(
    alloc: A,
    budget: u32,
    bus: &mut B,
) -> Result<Search<A>, NoMemory>
    // The search is done, or the budget is spent.
    ensures ended { IfOk result (λ search. IsTrue (is_idle (step_of search))) }
    ensures within { IfOk result (λ search. search.selections ≤ budget) }
    // It is what the answers lead to, and its questions are all that happened to the bus.
    ensures heard { IfOk result (λ search. HasHeard budget search) }
    ensures asked { IfOk result (λ search. IsAskedAll B.asks_all budget bus.old bus.new search) }
    ensures stopped { OnErr result ((search : SearchState)
        × IsAskedAll B.asks_all budget bus.old bus.new search) }
    // Where the bus states its meters, it follows their walk.
    ensures walk { IfOk result (λ search.
        IfSome (B.meters bus.old) (λ told. IsSearched told budget search)) }
    ensures meters { B.meters bus.new ≡ B.meters bus.old }
    // Over a lost bus it finds no meter, and the bus isn't touched.
    ensures nobody { B.lost bus.old ≡ true → IfOk result (λ search. IsSearched [] budget search) }
    ensures untouched { B.lost bus.old ≡ true → bus.new ≡ bus.old }
{
    let mut search = Search::new(alloc, budget);
    let mut has_several = false;
    'steps: while let Some(request) = search.next().request() {
        let answer = question(&search, &request, &mut has_several, bus);
        if search.heard(answer.as_slice()).is_err() {
            return Err(NoMemory);
        }
    }
    Ok(search)
}

// Asks what the search's next step asks. `has_several` is whether several meters acknowledged the last selection, with
// digits left to fix.
fn question<A: Allocator + Copy, B: Bus>(
    search: &Search<A>,
    request: &FrameBuf,
    has_several: &mut bool,
    bus: &mut B,
) -> AnswerBuf
    requires due { option_map spelling (request_by (step_of search.now)) ≡ Some request.now }
    requires short { length request.now ≤ most_request }
    ensures asked { Questions B.asks_all
        (record { bus = bus.old; has_several = has_several.old }) request.now result
        (record { bus = bus.new; has_several = has_several.new }) }
    ensures kept { step_of search.now ≡ Request → has_several.new ≡ has_several.old }
    ensures one { has_several.old ≡ false → are_several result ≡ false
        → has_several.new ≡ false }
    ensures meters { B.meters bus.new ≡ B.meters bus.old }
    ensures heard { has_several.old ≡ false → IfSome (B.meters bus.old)
        (λ told. IsHeard told (B.selected bus.old) (B.selected bus.new) request.now result) }
    ensures silence { has_several.old ≡ false → B.lost bus.old ≡ true → result ≡ [] }
    ensures untouched { B.lost bus.old ≡ true → bus.new ≡ bus.old }
{
    match search.next() {
        Step::Select(_) => {
            let answer = insist(bus, request, TRIES);
            *has_several = are_several(&answer) && !is_full(search);
            answer
        }
        _ if *has_several => bytes_of_noise(),
        _ => read_twice(bus, request),
    }
}

// Whether all eight digits of the selection are fixed.
fn is_full<A: Allocator + Copy>(search: &Search<A>) -> bool
    ensures { (digits : List ℕ) (rest : List (List ℕ)) → search.now.due ≡ digits ∷ rest
        → result ≡ (length digits == 8) }
{
    match search.due() {
        Some(branch) => branch.is_full(),
        None => false,
    }
}

// Whether bytes came that aren't one acknowledgement.
fn are_several(answer: &AnswerBuf) -> bool
    ensures { result ≡ are_several answer.now }
{
    let bytes = answer.as_slice();
    !bytes.is_empty() && !matches!(parse(bytes), Ok(Frame::Ack))
}

/// Bytes that are no frame, as several meters that answer at once.
pub fn bytes_of_noise() -> AnswerBuf
    ensures { result ≡ noise }
{
    let mut answer = AnswerBuf::new();
    answer.append(&[NOISE]);
    answer
}

/// Requests a telegram, and once more where it comes: it has to come again from the same meter, alone. Else several
/// meters answer, and bytes that are no frame are returned.
pub fn read_twice<B: Bus>(bus: &mut B, request: &FrameBuf) -> AnswerBuf
    requires { length request.now ≤ most_request }
    ensures read { Reads B.asks_all request.now bus.old result bus.new }
    ensures meters { B.meters bus.new ≡ B.meters bus.old }
    ensures heard { IfSome (B.meters bus.old)
        (λ told. request.now ≡ data_request
        → IsHeard told (B.selected bus.old) (B.selected bus.new) request.now result) }
    ensures silence { B.lost bus.old ≡ true → result ≡ [] }
    ensures untouched { B.lost bus.old ≡ true → bus.new ≡ bus.old }
{
    let first = insist(bus, request, TRIES);
    let Some(meter) = meter_of(first.as_slice()) else {
        return first;
    };
    let again = insist(bus, request, TRIES);
    if is_from(&again, &meter) {
        first
    } else {
        bytes_of_noise()
    }
}

// Whether an answer is a telegram of this meter.
fn is_from(answer: &AnswerBuf, meter: &Identity) -> bool
    ensures yes { result ≡ true → answer_of answer.now ≡ Some meter.now }
    ensures no { result ≡ false → answer_of answer.now ≢ Some meter.now }
{
    match meter_of(answer.as_slice()) {
        Some(sender) => sender == *meter,
        None => false,
    }
}

/// Sends a request that several meters may answer, and again while nothing comes, `most` times at most ([`TRIES`]).
pub fn insist<B: Bus>(bus: &mut B, request: &FrameBuf, most: u8) -> AnswerBuf
    requires short { length request.now ≤ most_request }
    requires some { 0 < most }
    ensures asked { Insists B.asks_all request.now most bus.old result bus.new }
    ensures meters { B.meters bus.new ≡ B.meters bus.old }
    ensures heard { IfSome (B.meters bus.old)
        (λ told. IsHeard told (B.selected bus.old) (B.selected bus.new) request.now result) }
    ensures silence { B.lost bus.old ≡ true → result ≡ [] }
    ensures untouched { B.lost bus.old ≡ true → bus.new ≡ bus.old }
{
    let answer = bus.ask_all(request);
    if most == 1 || !answer.as_slice().is_empty() {
        return answer;
    }
    insist(bus, request, most - 1)
}
