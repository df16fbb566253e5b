//! The protocol's rules, said of a session's whole past and of what it knows of it.

ghost use Rattle.std.specs.Prelude.{◌≡◌, ◌≢◌, ◌↔◌, ◌+◌, ◌%◌, ◌<◌, ◌≤◌, ℕ, List, [], Option, Some};
ghost use Rattle.std.specs.Prelude.{true, false, IsSome};
ghost use Rattle.dc_linkframe.specs.Frame.{FrameSeen};
ghost use Rattle.dc_records.specs.Body.{continues};
ghost use Rattle.dc_records.specs.Telegram.{Parsed};
ghost use Rattle.dc_readout.specs.declared.why.Why.{Why};
ghost use Rattle.dc_readout.specs.Why.{number_of};
ghost use Rattle.dc_address.specs.declared.identity.Identity.{Identity};
ghost use Rattle.dc_readout.specs.Summary.{Summary, again, new, failed, begun, request_of};
ghost use Rattle.dc_readout.specs.Summary.{asked_by, verdict_by, heard_by, settled_by};
ghost use Rattle.dc_readout.specs.Summary.{IsPending, IsSound};
ghost use Rattle.dc_readout.specs.Bound.{most_requests, requests_left, requests_in};
ghost use Rattle.dc_readout.specs.Session.{Call, Past, IsLawful, past_of, settled_in, summary};
ghost use Rattle.dc_readout.specs.Session.{asked, judged, and_heard, and_settled};
ghost use Rattle.dc_readout.specs.Taken.{IsTaken};
ghost use Rattle.dc_readout.specs.Protocol.{IsRequest, IsFollowed, and_then};

/// The frame count bit of a request is the parity of the telegrams that were settled.
pub fn the_bit_changes_with_a_settled_telegram()
    // It is 1 where their number is even.
    ensures parity { (past : Past) (request : FrameSeen) → asked past ≡ Some request
        → IsRequest request
        → request ≡ request_of past.address (settled_in past.calls) }
    // Between two requests with different bits lies exactly one settled telegram.
    ensures between { (past : Past) (calls : List Call) (request next : FrameSeen)
        → IsFollowed past calls request next
        → IsRequest request → IsRequest next → request ≢ next → settled_in calls ≡ 1 }
{}

/// A request is repeated until it is answered validly or has failed three times.
pub fn requests_are_repeated()
    // The same bytes go out again.
    ensures same { (past : Past) (answer : List ℕ) → IsLawful (and_heard answer past)
        → judged past answer ≡ again
        → asked (and_heard answer past) ≡ asked past }
    // No request is tried a fourth time.
    ensures three { (past : Past) → IsLawful past → (summary past).tries < 3 }
    // Each other request is tried from the first try on.
    ensures anew { (past : Past) (answer : List ℕ) → judged past answer ≢ again
        → (summary (and_heard answer past)).tries ≡ 0 }
    // A missing, wrong or foreign answer ends the session only at the third try.
    ensures third { (past : Past) (answer : List ℕ) (why : Why) → IsLawful past
        → judged past answer ≡ failed why
        → number_of why ≤ 3 → (summary past).tries ≡ 2 }
{}

/// Nothing is asked while a telegram waits to be settled, after a failure, and after a settled telegram that no
/// other follows.
pub fn nothing_more_is_asked()
    ensures while_it_waits { (past : Past) (answer : List ℕ) (part : ℕ) (t : Parsed)
        → IsLawful (and_heard answer past)
        → judged past answer ≡ new part t → asked (and_heard answer past) ≡ None }
    ensures after_failure { (past : Past) (answer : List ℕ) (why : Why) (calls : List Call)
        → judged past answer ≡ failed why
        → IsLawful (and_then calls (and_heard answer past)) → (calls ≡ [])
        × (asked (and_heard answer past) ≡ None) }
    ensures after_the_last { (past : Past) (answer : List ℕ) (part : ℕ) (t : Parsed)
        (calls : List Call)
        → judged past answer ≡ new part t → continues t.ending ≡ false
        → IsLawful (and_then calls (and_settled (and_heard answer past)))
        → (calls ≡ []) × (asked (and_settled (and_heard answer past)) ≡ None) }
    // Where more follow, the next request has the other bit.
    ensures but_the_next { (past : Past) (answer : List ℕ) (part : ℕ) (t : Parsed)
        → IsLawful (and_heard answer past)
        → judged past answer ≡ new part t → continues t.ending ≡ true
        → asked (and_settled (and_heard answer past))
        ≡ Some (request_of past.address (settled_in past.calls + 1)) }
{}

/// A readout makes at most 102 requests: three tries at the reset, at the selection and at each of 32
/// parts. None is cut off where that many may be made.
pub fn a_readout_makes_few_requests()
    ensures begins { (meter : Identity) (address : Option ℕ)
        → requests_left (begun meter address) ≡ most_requests }
    // A request takes one away, whatever is heard in answer.
    ensures falls { (s : Summary) (answer : List ℕ) → IsSome (asked_by s)
        → requests_left (heard_by s (verdict_by s answer)) < requests_left s }
    ensures rests { (s : Summary) → IsSound s.stage s.tries s.settled → IsPending s.stage
        → requests_left (settled_by s) ≤ requests_left s }
    // Those that were made and those that are left are never more.
    ensures whole { (past : Past) → IsLawful past
        → requests_in past.calls + requests_left (summary past) ≤ most_requests }
{}

/// A session's summary follows its past, call by call.
pub fn the_summary_follows_the_past()
    ensures begins { (meter : Identity) (address : Option ℕ)
        → summary (past_of meter address) ≡ begun meter address }
    ensures heard { (past : Past) (answer : List ℕ) → IsLawful past
        → summary (and_heard answer past) ≡ heard_by (summary past) (judged past answer) }
    ensures settled { (past : Past) → IsLawful (and_settled past)
        → summary (and_settled past) ≡ settled_by (summary past) }
{}

/// A telegram that a session takes was asked for, it is the next part, and it is the meter's own and whole; more
/// follow only below the last part that a readout has.
pub fn a_taken_telegram_was_asked_for()
    ensures { (s : Summary) (answer : List ℕ) (part : ℕ) (t : Parsed)
        → verdict_by s answer ≡ new part t → IsTaken s part t }
{}

/// Two requests for a telegram at one address are the same where their sessions' counts of settled telegrams have
/// one parity, and only there.
pub fn requests_differ_by_the_parity_of_what_is_settled()
    ensures { (s later : Summary) (request next : FrameSeen) → later.address ≡ s.address
        → asked_by s ≡ Some request → asked_by later ≡ Some next → IsRequest request
        → IsRequest next
        → (request ≡ next) ↔ (s.settled % 2 ≡ later.settled % 2) }
{}
