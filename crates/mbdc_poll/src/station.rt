//! One line of a poll: its bus, and the meters left to read on it.

ghost use Rattle.std.specs.Prelude.{◌≡◌, ◌⊎◌, ◌<◌, ◌≤◌, ◌+◌, ◌-◌, ℕ, List, [], IfNone, IfSome, OnOk};
ghost use Rattle.std.specs.Prelude.{IfErr, length, nat_lt, slice_get, true, false};
ghost use Rattle.dc_core.specs.Step.{longest_request};
ghost use Rattle.mbdc_bus.specs.Halves.{most_waits};
ghost use Rattle.mbdc_poll.specs.Missed.{and_heard, nothing_brought};
ghost use Rattle.mbdc_poll.specs.Queue.{most_asks};
ghost use Rattle.mbdc_poll.specs.Station.{IsAfter, Listens, after_answer, ended, is_answered};
ghost use Rattle.mbdc_poll.specs.Station.{next_pass, stored_by, taken_of};
ghost use Rattle.mbdc_poll.specs.declared.end.End.TheVariants.{Read, Refused};
ghost use Rattle.mbdc_poll.specs.declared.end.Refusal.TheVariants.{Start};
ghost use Rattle.mbdc_poll.specs.declared.phase.Phase.TheVariants.{Free, Busy};
ghost use Rattle.mbdc_poll.specs.declared.phase.Request.TheVariants.{Quiet, Sent};

use crate::brought::Brought;
use crate::end::{End, Refusal};
use crate::phase::{Phase, Request};
use dc_address::Identity;
use dc_core::{CommitFault, HearFault, LineHeard, StartFault};
use dc_linkframe::FrameBuf;
use mbdc_bus::{AnswerBuf, HalfBus};
use std::mem;

// No readout asks more often: three tries at a reset, a selection and each of 32 parts, and once more where nothing
// is to be asked.
pub(crate) const MOST_ASKS: u8 = 103;

/// A line's bus, and the meters that are still to be read on it. They are read in passes: the first goes through all in
/// order, each later one through those that failed in the one before it.
#[derive(Drop)]
pub struct Station<'a, B: HalfBus + Drop> {
    /// The bus.
    pub bus: B,
    /// The meters that are still to be read: those that are left in this pass, the present one first, and then those
    /// that failed in it.
    pub left: &'a mut [Identity],
    /// How many are left in this pass.
    pub due: usize,
    /// The number of the pass, from 1.
    pub pass: u8,
    /// How its readout is found.
    pub phase: Phase,
    /// The state of its request.
    pub request: Request,
    /// Whether the event of its loss went out.
    pub said: bool,
    /// What the tries of its readout brought.
    pub brought: Brought,
}

impl<'a, B: HalfBus + Drop> Station<'a, B> {
    /// These meters, of which none was started. Their order changes as they are read.
    pub fn new(bus: B, meters: &'a mut [Identity]) -> Station<'a, B>
        ensures fresh { IsAfter
            (record { left = meters.old; due = length meters.old; pass = 1; phase = Free }) bus Quiet
            false result }
        ensures brought { result.brought ≡ nothing_brought }
    {
        let due = meters.len();
        Station {
            bus,
            left: meters,
            due,
            pass: 1,
            phase: Phase::Free,
            request: Request::Quiet,
            said: false,
            brought: Brought::nothing(),
        }
    }

    // The meter whose turn it is.
    pub(crate) fn present(&self) -> Option<Identity>
        ensures { result ≡ slice_get self.now.left.now 0 }
    {
        self.left.first().copied()
    }

    // Where no meter is left in this pass, the next one goes through those that failed.
    pub(crate) fn pass_on(&mut self)
        requires { self.old.due ≡ 0 → self.old.pass < 255 }
        ensures after { IsAfter
            (next_pass self.old.left.now self.old.due self.old.pass self.old.phase)
            self.old.bus self.old.request self.old.said self.new }
        ensures brought { self.new.brought ≡ self.old.brought }
    {
        if self.due == 0 {
            self.due = self.left.len();
            self.pass += 1;
        }
    }

    // Its readout began, or that was refused.
    pub(crate) fn started(&mut self, meter: Identity, answer: Result<(), StartFault>)
        ensures ok { OnOk answer (IsAfter (record {
          left = self.old.left.now;
          due = self.old.due;
          pass = self.old.pass;
          phase = Busy most_asks;
        }) self.old.bus self.old.request self.old.said self.new) }
        ensures err { IfErr answer (λ fault. IsAfter
            (ended self.old.left.now self.old.due self.old.pass (Refused meter (Start fault)))
            self.old.bus self.old.request self.old.said self.new) }
        ensures brought { self.new.brought ≡ nothing_brought }
    {
        self.brought = Brought::nothing();
        match answer {
            Ok(()) => self.phase = Phase::Busy(MOST_ASKS),
            Err(fault) => self.leave(End::Refused(meter, Refusal::Start(fault))),
        }
    }

    // A request was sent, with this many left after it; without a request the meter is finished.
    pub(crate) fn asked(&mut self, meter: Identity, asks: u8, request: Option<FrameBuf>)
        requires short { IfSome request (λ bytes. length bytes ≤ longest_request) }
        ensures sent { IfSome request (λ bytes. B.sends self.old.bus bytes self.new.bus
            × (B.waits_left self.new.bus ≤ most_waits)
            × IsAfter (record {
              left = self.old.left.now;
              due = self.old.due;
              pass = self.old.pass;
              phase = Busy asks;
            }) self.new.bus Sent self.old.said self.new) }
        ensures over { IfNone request (IsAfter
            (ended self.old.left.now self.old.due self.old.pass (Read meter))
            self.old.bus self.old.request self.old.said self.new) }
        ensures brought { self.new.brought ≡ self.old.brought }
    {
        match request {
            Some(request) => {
                self.bus.send(&request);
                self.phase = Phase::Busy(asks);
                self.request = Request::Sent;
            }
            None => self.leave(End::Read(meter)),
        }
    }

    // Where a request is out, what was heard of it is taken, once it is complete. Returns whether something was heard
    // that isn't judged.
    pub(crate) fn listen(&mut self) -> bool
        ensures answered { result ≡ is_answered self.new.request }
        ensures out { self.old.request ≡ Sent
            → Listens B.HalfBus self.old self.new }
        ensures kept { (self.old.request ≡ Sent) ⊎ (self.new ≡ self.old) }
    {
        if let Request::Sent = self.request {
            if let Some(answer) = self.bus.hear() {
                self.request = Request::Answered(answer);
            }
        }
        matches!(self.request, Request::Answered(_))
    }

    // What becomes of the readout by what was heard. Whether a telegram was accepted.
    pub(crate) fn judged(
        &mut self,
        meter: Identity,
        asks: u8,
        tries: u8,
        answer: Result<LineHeard, HearFault>,
    )
        requires busy { self.old.phase ≡ Busy asks }
        requires due { (0 < self.old.due) × (self.old.due ≤ length self.old.left.now) }
        ensures after { IsAfter (after_answer (nat_lt self.old.pass tries)
            self.old.left.now self.old.due self.old.pass asks meter answer)
            self.old.bus Quiet self.old.said self.new }
        ensures brought { self.new.brought
            ≡ and_heard (taken_of self.old.request) answer self.old.brought }
    {
        self.take_answer(&answer);
        match answer {
            Ok(LineHeard::Again) | Ok(LineHeard::Ready) => {}
            Ok(LineHeard::Accepted { .. }) => self.phase = Phase::Pending(asks),
            Ok(LineHeard::Failed(why)) => {
                if self.pass < tries {
                    // The present meter comes last in the next pass.
                    self.left.rotate_left(1);
                    self.due -= 1;
                    self.phase = Phase::Free;
                } else {
                    self.leave(End::Failed(meter, why));
                }
            }
            Err(fault) => self.leave(End::Refused(meter, Refusal::Hear(fault))),
        }
    }

    // What was heard of the request is what it brought.
    fn take_answer(&mut self, answer: &Result<LineHeard, HearFault>)
        ensures { self.new ≡ record self.old {
          request = Quiet;
          brought = and_heard (taken_of self.old.request) answer.now self.old.brought;
        } }
    {
        let bytes = match mem::replace(&mut self.request, Request::Quiet) {
            Request::Answered(bytes) => bytes,
            Request::Quiet | Request::Sent => AnswerBuf::new(),
        };
        self.brought.hear(bytes, answer);
    }

    // What becomes of it by a commit.
    pub(crate) fn stored(&mut self, stored: &Result<usize, CommitFault>)
        ensures after { IsAfter (stored_by
            self.old.left.now self.old.due self.old.pass self.old.phase stored.now)
            self.old.bus self.old.request self.old.said self.new }
        ensures brought { self.new.brought ≡ self.old.brought }
    {
        if let Phase::Pending(asks) = self.phase {
            match stored {
                Ok(_) => self.phase = Phase::Busy(asks),
                // The present meter's telegram isn't stored.
                Err(fault) => {
                    if let Some(meter) = self.present() {
                        self.leave(End::Refused(meter, Refusal::Commit(*fault)));
                    }
                }
            }
        }
    }

    // The present meter is done with.
    pub(crate) fn leave(&mut self, end: End)
        ensures after { IsAfter (ended self.old.left.now self.old.due self.old.pass end)
            self.old.bus self.old.request self.old.said self.new }
        ensures brought { self.new.brought ≡ self.old.brought }
    {
        let left = mem::replace(&mut self.left, &mut []);
        if let Some((_, more)) = left.split_first_mut() {
            self.left = more;
        }
        self.due = self.due.saturating_sub(1);
        self.phase = Phase::Over(end);
    }
}

/// What was heard; nothing is silence.
pub(crate) fn taken_of(request: &Request) -> &[u8]
    ensures { result.now ≡ taken_of request.now }
{
    match request {
        Request::Answered(bytes) => bytes.as_slice(),
        _ => &[],
    }
}
