//! What holds of the definitions alone.

ghost use Rattle.std.specs.Prelude.{◌≡◌, ◌≢◌, ◌<◌, ◌≤◌, ◌*◌, ◌++◌, ◌∷◌, ℕ, Bool, true, false, List, [], Some};
ghost use Rattle.std.specs.Prelude.{is_some, length};
ghost use Rattle.std.specs.List.{AllByRecursion};
ghost use Rattle.std.specs.List.Sorted.{IsStrictlySortedBy};
ghost use Rattle.std.specs.Map.{keys_of};
ghost use Rattle.dc_address.specs.Identity.{identity_cmp, wire_of};
ghost use Rattle.dc_address.specs.declared.identity.Identity.{Identity};
ghost use Rattle.mbdc_change.specs.State.{State};
ghost use Rattle.dc_core.specs.Core.{Core};
ghost use Rattle.dc_linkframe.specs.Reading.{frame_of};
ghost use Rattle.dc_core.specs.declared.line_heard.LineHeard.{LineHeard};
ghost use Rattle.dc_core.specs.Transcript.{Turn, IsChain, leads};
ghost use Rattle.mbdc_poll.specs.Addressing.{IsFrom, IsReadByAddress, ReaddressesNothing};
ghost use Rattle.mbdc_poll.specs.Committed.{IsCommittedWhereNoneIsAsked};
ghost use Rattle.mbdc_poll.specs.Confirming.{telegram_in};
ghost use Rattle.mbdc_poll.specs.Failures.{BroughtIsTold};
ghost use Rattle.mbdc_poll.specs.Happening.{Happening, happened_turns, tells};
ghost use Rattle.mbdc_poll.specs.Keeping.{AreTrue, IsSettled, Store, all_kept, store_behind};
ghost use Rattle.mbdc_poll.specs.PendingRoom.{AnswersFindRoom};
ghost use Rattle.mbdc_poll.specs.Planned.{queue_on};
ghost use Rattle.mbdc_poll.specs.Queue.{Part, part, AreApart, Goes, GoesWell, IsToldAs, IsTried};
ghost use Rattle.mbdc_poll.specs.Queue.{Lacks, meter_of, most_asks, read_in, requests_in};
ghost use Rattle.mbdc_poll.specs.Queue.{starts_in};
ghost use Rattle.mbdc_poll.specs.Recounting.{IsBegunAnew, DropsNothing as DropsNoReadout, sent_in};
ghost use Rattle.mbdc_poll.specs.Remembering.{IsDropped, IsTakenTwice, DropsNothing as DropsNoTelegram};
ghost use Rattle.mbdc_poll.specs.Retrying.{DropsNothing as DropsNoAnswer, IsAskedAgain};
ghost use Rattle.mbdc_poll.specs.Sparing.{IsAskedOnce, SparesNothing};
ghost use Rattle.mbdc_poll.specs.declared.end.End.{End};
ghost use Rattle.mbdc_poll.specs.declared.event.Event.{Event as Told};
ghost use Rattle.mbdc_poll.specs.declared.phase.Phase.{Phase};
ghost use Rattle.mbdc_poll.specs.declared.phase.Phase.TheVariants.{Free};

use crate::timer::Timer;
use mbdc_bus::HalfBus;

/// What holds of the queue of a line.
///
/// One that is at its end went through all its meters, in passes: in the first each was started, in order, and in each
/// later one those that failed in the one before it. There are no more passes than tries, so each was started once at
/// least and no more often than the tries. However far a queue went, no more starts were made than its meters times the
/// tries, and in each no more requests were sent than any readout sends. After the event of how a meter ended (it was
/// read, its last try failed, or it was refused) it isn't started again. Where no start, answer or commit of a line is
/// refused and no readout of it fails, every meter of its queue is started once and read, in order. The queues of a
/// plan have each meter once, where those of the register ascend.
pub fn a_queue_goes_in_passes()
    ensures started { (tries line : ℕ) (meters : List Identity) (happened : List Happening) (pass : ℕ)
        (stop : Phase) →
        Goes tries line (part meters [] 1 Free) happened (part [] [] pass stop) →
        IsTried tries meters (starts_in happened) }
    ensures few { (tries line : ℕ) (meters : List Identity) (happened : List Happening) (last : Part) →
        0 < tries → Goes tries line (part meters [] 1 Free) happened last →
        (length (starts_in happened) ≤ tries * length meters)
        × (requests_in happened ≤ most_asks * (tries * length meters)) }
    ensures once { (tries line : ℕ) (meters : List Identity) (front back : List Happening) (end : End)
        (told : Told) (last : Part) →
        AreApart meters → IsToldAs end told →
        Goes tries line (part meters [] 1 Free) (front ++ tells line told ∷ back) last →
        Lacks (meter_of end) (starts_in back) }
    ensures read { (tries line : ℕ) (meters : List Identity) (happened : List Happening) (pass : ℕ) →
        AllByRecursion GoesWell happened →
        Goes tries line (part meters [] 1 Free) happened (part [] [] pass Free) →
        (starts_in happened ≡ meters) × (read_in happened ≡ meters) }
    ensures apart { (state : State) (only : List Identity) (line : ℕ) (lost : Bool) →
        IsStrictlySortedBy identity_cmp (keys_of state.meters) →
        AreApart (queue_on state only line lost) }
{}

/// The event of a failed readout has its line and its last answer, and says how many of its failed tries brought what.
pub fn what_a_failed_readout_brought_is_told<B: HalfBus + Drop>()
    ensures { BroughtIsTold B.HalfBus }
{}

/// Where a line has no request any more, all that was accepted is committed, unless a commit answered a fault; and the
/// same at each event. Where the turns of a run say so, nothing is pending in the concentrator. Each answer is received
/// with fewer changes pending than the maximum, so none is refused because too many are.
pub fn what_is_read_is_committed<B: HalfBus + Drop, T: Timer<B>>()
    ensures asked { IsCommittedWhereNoneIsAsked T.tells T.passes }
    ensures told { (core : Core) (store : Store) (front back : List Happening) (line : ℕ)
        (told : Told) →
        AreTrue core store (front ++ tells line told ∷ back) →
        IsSettled (store_behind store (happened_turns front)) }
    ensures pending { (budget : ℕ) (core : Core) (turns : List Turn) →
        core.pending ≡ [] → IsChain budget core turns →
        store_behind all_kept turns ≡ all_kept → (leads core turns).pending ≡ [] }
    ensures room { AnswersFindRoom T.tells T.passes }
{}

/// [`Sparing`](crate::Sparing) lets all through where each meter that was silent in the last poll answers its first
/// question in this one: the talk is one on the bus itself, with no more requests. Where silence comes of that
/// question, it goes out once, though the readout makes its request again.
pub fn a_silent_meter_gets_one_question<B: HalfBus + Drop>()
    ensures spares { SparesNothing B.HalfBus }
    ensures once { (question : List ℕ) → IsAskedOnce question }
{}

/// [`Retrying`](crate::Retrying) lets all through where no meter answers that it is busy. Where one does twice, the
/// readout hears silence twice, and the third answer to the same request.
pub fn a_busy_meter_is_asked_again<B: HalfBus + Drop>()
    ensures retries { DropsNoAnswer B.HalfBus }
    ensures asked_again { (request third : List ℕ) (answer : LineHeard) → IsAskedAgain request third answer }
{}

/// [`Remembering`](crate::Remembering) lets all through where no telegram is one of the last 64 before it, and no
/// answer is a frame with a wrong checksum. Where a copy of the first telegram comes third, the readout hears
/// silence and asks the same again. It hears what comes then: a third telegram, or the first one, which its meter
/// sends. After a wrong checksum it hears silence in place of a telegram, and that telegram once it comes again.
pub fn a_dropped_telegram_is_asked_for_again<B: HalfBus + Drop>()
    ensures remembers { DropsNoTelegram B.HalfBus }
    ensures third { (answer : LineHeard) → IsDropped 3 answer }
    ensures sent_again { (answer : LineHeard) → IsDropped 1 answer }
    ensures twice { (telegram : List ℕ) (answer : LineHeard)
        → is_some (telegram_in (frame_of telegram)) ≡ true → IsTakenTwice telegram answer }
{}

/// [`Recounting`](crate::Recounting) lets all through where each meter sends as many telegrams as in its last
/// reading. Where one telegram comes in place of two, the readout hears silence, and its next requests aren't sent.
/// After the next reset it hears that telegram.
pub fn a_readout_that_differs_begins_anew<B: HalfBus + Drop>()
    ensures recounts { DropsNoReadout B.HalfBus }
    ensures anew { (meter : Identity) (telegram : List ℕ) (answer : LineHeard)
        → sent_in (frame_of telegram) ≡ Some (meter, false) → IsBegunAnew meter telegram answer }
{}

/// [`Addressing`](crate::Addressing) lets all through where no meter is read by another address than it is registered
/// with. Where one of two is, its reset and the request for its telegram go to that address, and the other one is
/// selected and asked as ever. Of both the address is noted that their telegrams have.
pub fn a_meter_is_read_by_its_address<B: HalfBus + Drop>()
    ensures addresses { ReaddressesNothing B.HalfBus }
    ensures by_address { (one other : Identity) (asked known known_other : ℕ) (first second : List ℕ)
        (answer : LineHeard) → wire_of one ≢ wire_of other → IsFrom one known first
        → IsFrom other known_other second
        → IsReadByAddress one other asked known known_other first second answer }
{}
