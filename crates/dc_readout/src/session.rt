//! One session: what it asks, how it judges what it hears, and what it then knows.

ghost use Rattle.std.specs.Prelude.{◌≡◌, ◌+◌, ◌<◌, ◌≤◌, ◌↔◌, ℕ, length, false, IsSome, IsTrue};
ghost use Rattle.std.specs.Prelude.{option_map};
ghost use Rattle.dc_linkframe.specs.Frame.{spelling, longest_body};
ghost use Rattle.dc_linkframe.specs.Reading.{frame_of};
ghost use Rattle.dc_records.specs.Body.{continues};
ghost use Rattle.dc_records.specs.Telegram.{Parsed, parsed};
ghost use Rattle.dc_readout.specs.Answer.{max_parts, missed, answered};
ghost use Rattle.dc_readout.specs.Bound.{requests_left};
ghost use Rattle.dc_readout.specs.declared.stage.Stage.TheVariants.{Ended};
ghost use Rattle.dc_readout.specs.Seen.{meaning, verdict};
ghost use Rattle.dc_readout.specs.Session.{Past, SumsUp, past_of, asked, judged, and_heard};
ghost use Rattle.dc_readout.specs.Session.{and_settled};
ghost use Rattle.dc_readout.specs.Summary.{begun, asked_by, verdict_by, heard_by, settled_by};
ghost use Rattle.dc_readout.specs.Summary.{ready, new, failed, meaning_at, verdict_of_meaning};
ghost use Rattle.dc_readout.specs.Summary.{IsPending, parts_left, request_bit, link_address};

use crate::answers::{Meaning, to_command, to_request};
use crate::heard::Heard;
use crate::stage::Stage;
use crate::why::Why;
use dc_address::{Identity, Mask, Primary};
use dc_linkframe::FrameBuf;
use dc_linkframe::control::{SELECTED, write_request, write_reset, write_selection};
use dc_records::Telegram;
use std::marker::Model;

// A request is tried at most three times.
const MAX_TRIES: u8 = 3;

/// The readout of one meter, from the reset of its line to its last telegram.
#[derive(Clone, Copy)]
pub struct Session {
    meter: Identity,
    address: Option<Primary>,
    stage: Stage,
    tries: u8,
    settled: u8,
}

impl Model for Session {
    ghost use Rattle.dc_readout.specs.Summary.{Summary, IsSound};

    ghost Value = { Summary };

    ghost view = { λ s. record {
      meter = s.meter;
      address = s.address;
      stage = s.stage;
      tries = s.tries;
      settled = s.settled;
    } };

    ghost invariant = { λ s. IsSound s.stage s.tries s.settled };

    ghost inverse = { λ s. record {
      meter = s.meter;
      address = s.address;
      stage = s.stage;
      tries = s.tries;
      settled = s.settled;
    } };
}

impl Session {
    /// A session with this meter, at its primary address or by selection.
    pub fn start(meter: Identity, address: Option<Primary>) -> Session
        ensures exact { result ≡ begun meter address }
        ensures past { SumsUp (past_of meter address) result }
    {
        Session {
            meter,
            address,
            stage: Stage::Resets,
            tries: 0,
            settled: 0,
        }
    }

    /// The request that waits for an answer; none while a telegram waits to be settled, and after the end.
    #[tactic(auto, unfolding(crate::specs::Summary::selection_of))]
    pub fn ask(&self) -> Option<FrameBuf>
        ensures exact { result ≡ option_map spelling (asked_by self.now) }
        // Where a request goes out, a part is left.
        ensures left { IsSome result → self.now.settled < max_parts }
        ensures past { (past : Past) → SumsUp past self.now
            → result ≡ option_map spelling (asked past) }
    {
        let mut buf = FrameBuf::new();
        match self.stage {
            Stage::Resets => write_reset(self.link_address(), &mut buf),
            Stage::Selects => write_selection(&Mask::of(&self.meter).wire(), &mut buf),
            Stage::Requests => write_request(self.request_bit(), self.link_address(), &mut buf),
            Stage::Pending { .. } | Stage::Ended => return None,
        }
        Some(buf)
    }

    /// Judges what was heard in answer to the request; no byte means silence.
    pub fn hear<'a>(&mut self, answer: &'a [u8]) -> Heard<'a>
        requires { IsSome (asked_by self.old) }
        ensures exact { verdict result ≡ verdict_by self.old answer.now }
        ensures after { self.new ≡ heard_by self.old (verdict result) }
        // One request less may follow.
        ensures fewer { requests_left self.new < requests_left self.old }
        // A telegram came in one frame.
        ensures fits { (part : ℕ) (t : Parsed) → verdict result ≡ new part t
            → length t.body ≤ longest_body }
        ensures past { (past : Past) → SumsUp past self.old
            → (verdict result ≡ judged past answer.now)
            × SumsUp (and_heard answer.now past) self.new }
    {
        self.judge(answer)
    }

    /// The telegram that was heard last is kept: the next one is asked for, or the readout is at its end.
    pub fn settle(&mut self)
        requires { IsPending self.old.stage }
        ensures exact { self.new ≡ settled_by self.old }
        ensures no_more { requests_left self.new ≤ requests_left self.old }
        ensures past { (past : Past) → SumsUp past self.old → SumsUp (and_settled past) self.new }
    {
        // a part is left if more follow
        let _ = &self.stage;
        self.leave_telegram();
    }

    /// The meter that it reads.
    pub fn meter(&self) -> Identity
        ensures { result ≡ self.now.meter }
    {
        self.meter
    }

    /// Whether a request waits for an answer: what `ask` gives is one.
    pub fn is_asking(&self) -> bool
        ensures { IsTrue result ↔ IsSome (asked_by self.now) }
    {
        matches!(self.stage, Stage::Resets | Stage::Selects | Stage::Requests)
    }

    /// Whether it is at its end: nothing is asked any more, and no telegram waits to be settled.
    pub fn is_over(&self) -> bool
        ensures { IsTrue result ↔ (self.now.stage ≡ Ended) }
    {
        matches!(self.stage, Stage::Ended)
    }

    /// Whether a telegram was settled: without one the next is the readout's first.
    pub fn has_settled(&self) -> bool
        ensures { IsTrue result ↔ (0 < self.now.settled) }
    {
        self.settled > 0
    }

    /// Whether a telegram waits to be settled.
    pub fn is_pending(&self) -> bool
        ensures { IsTrue result ↔ IsPending self.now.stage }
    {
        matches!(self.stage, Stage::Pending { .. })
    }

    // The same by the summary alone, from which `settle` draws its clauses.
    fn leave_telegram(&mut self)
        requires { IsPending self.old.stage }
        ensures { self.new ≡ settled_by self.old }
    {
        self.settled += 1;
        self.stage = match self.stage {
            Stage::Pending { more: true } => Stage::Requests,
            _ => Stage::Ended,
        };
    }

    // The same by the summary alone, from which `hear` draws its clauses.
    fn judge<'a>(&mut self, answer: &'a [u8]) -> Heard<'a>
        requires { IsSome (asked_by self.old) }
        ensures exact { verdict result ≡ verdict_by self.old answer.now }
        ensures after { self.new ≡ heard_by self.old (verdict result) }
        ensures fits { (part : ℕ) (t : Parsed) → verdict result ≡ new part t
            → length t.body ≤ longest_body }
    {
        match self.meaning_of(answer) {
            Meaning::Acknowledged => self.go_on(),
            Meaning::Answered(telegram) => self.wait_for(telegram),
            Meaning::Missed(why) => self.miss(why),
            Meaning::Broken(why) => self.fail(why),
        }
    }

    fn meaning_of<'a>(&self, answer: &'a [u8]) -> Meaning<'a>
        requires { IsSome (asked_by self.now) }
        ensures exact { meaning result
            ≡ meaning_at self.now.stage self.now.meter self.now.address self.now.settled
            (frame_of answer.now) }
        ensures fits { (t : Parsed) → meaning result ≡ answered t → length t.body ≤ longest_body }
    {
        match self.stage {
            // Whatever answers the reset of every selected meter will do.
            Stage::Resets if self.address.is_none() => Meaning::Acknowledged,
            Stage::Resets | Stage::Selects => to_command(answer),
            Stage::Requests => to_request(&self.meter, self.address, self.settled + 1, answer),
            Stage::Pending { .. } | Stage::Ended => unreachable!(),
        }
    }

    fn go_on(&mut self) -> Heard<'static>
        requires { IsSome (asked_by self.old) }
        ensures answer { verdict result ≡ ready }
        ensures after { self.new ≡ heard_by self.old ready }
    {
        let next = match (self.stage, self.address) {
            (Stage::Resets, None) => Stage::Selects,
            _ => Stage::Requests,
        };
        self.enter(next);
        Heard::Ready
    }

    fn wait_for<'a>(&mut self, telegram: Telegram<'a>) -> Heard<'a>
        requires asks { IsSome (asked_by self.old) }
        requires fits { self.old.settled + 1 ≡ max_parts
            → continues (parsed telegram).ending ≡ false }
        ensures answer { verdict result ≡ new (self.old.settled + 1) (parsed telegram.entry) }
        ensures after { self.new ≡ heard_by self.old (verdict result) }
    {
        let part = self.settled + 1;
        let more = telegram.more_follows();
        self.enter(Stage::Pending { more });
        Heard::New { part, telegram }
    }

    // The third failed try ends the session.
    fn miss(&mut self, why: Why) -> Heard<'static>
        requires { IsSome (asked_by self.old) }
        ensures answer { verdict result
            ≡ verdict_of_meaning self.old.tries self.old.settled (missed why) }
        ensures after { self.new ≡ heard_by self.old (verdict result) }
    {
        if self.tries + 1 == MAX_TRIES {
            return self.fail(why);
        }
        self.tries += 1;
        Heard::Again
    }

    fn fail(&mut self, why: Why) -> Heard<'static>
        requires { IsSome (asked_by self.old) }
        ensures answer { verdict result ≡ failed why }
        ensures after { self.new ≡ heard_by self.old (failed why) }
    {
        self.enter(Stage::Ended);
        Heard::Failed(why)
    }

    // The count of tries begins anew with each different request.
    fn enter(&mut self, stage: Stage)
        requires { parts_left stage self.old.settled }
        ensures { self.new ≡ record self.old { stage = stage; tries = 0 } }
    {
        self.stage = stage;
        self.tries = 0;
    }

    fn link_address(&self) -> u8
        ensures { result ≡ link_address self.now.address }
    {
        self.address.map_or(SELECTED, |address| address.get())
    }

    // The frame count bit changes with each settled telegram.
    fn request_bit(&self) -> bool
        ensures { result ≡ request_bit self.now.settled }
    {
        self.settled % 2 == 0
    }
}
