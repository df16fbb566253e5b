//! A line over a wire, on which one request at most is under way, until the line is lost.

ghost use Rattle.std.specs.Prelude.{◌≡◌, ◌≤◌, ◌<◌, [], None, Some, true, false, IfSome, IfNone};
ghost use Rattle.std.specs.Prelude.{IfOk, OnOk, OnErr};
ghost use Rattle.mbdc_io.specs.Failures.{HasRisen};
ghost use Rattle.mbdc_raw.specs.Line.{Gives, GivesAll, GivesAtMostOne, GivesNothing, LineGives};
ghost use Rattle.mbdc_raw.specs.Line.{LineSends, LineWaits, Looks, WaitsAll, WaitsNothing, WaitsOne};
ghost use Rattle.mbdc_raw.specs.Line.{is_loud, judged, left_of};
ghost use Rattle.mbdc_raw.specs.declared.line.Gone.TheVariants.{Loud};
ghost use Rattle.mbdc_raw.specs.declared.line.Gone.{Gone as Left};
ghost use Rattle.mbdc_raw.specs.declared.line.Line.{Line};
ghost use Rattle.mbdc_raw.specs.declared.state.Kind.TheVariants.{One};
ghost use Rattle.mbdc_raw.specs.declared.state.State.TheVariants.{Busy};

use crate::hearing::Hearing;
use crate::listening::{drain, gather, hear, without_echo};
use crate::state::{
    Kind, State, copy_of, is_answer, is_copy, is_wrong, kind_of, last_behind, last_waited, may_go,
    repeats_by,
};
use crate::wire::{Asking, Wire};
use dc_linkframe::FrameBuf;
use mbdc_bus::{AnswerBuf, HalfBus};
use mbdc_io::IoFault;

/// A request that isn't sent yet.
#[derive(Clone, Copy, Drop)]
pub struct Held {
    /// The request.
    pub request: FrameBuf,
    /// Whether several meters may answer it.
    pub many: bool,
}

/// What became of a request that is held.
#[derive(Clone, Copy)]
pub enum Gone {
    /// It was sent.
    Out,
    /// It waits until the line is quiet.
    Waits,
    /// It waits, and bytes still come.
    Loud,
}

/// A line over a wire: what may be under way on it, and whether it is lost.
#[derive(Drop)]
pub struct Line<W: Wire + Drop> {
    /// The wire.
    pub wire: W,
    /// Whether the wire failed; the line is silent from then on.
    pub lost: bool,
    /// What may be under way.
    pub state: State,
    /// How the answer to the last request is taken.
    pub kind: Kind,
    /// The request that was sent last, and the bytes received since.
    pub hearing: Hearing,
    /// All bytes received since a request that several meters may answer.
    pub gathered: AnswerBuf,
    /// The request that isn't sent yet.
    pub held: Option<Held>,
    /// The last answer to another request, of which a copy may come.
    pub last: Option<AnswerBuf>,
    /// Whether a copy came since the last request.
    pub copied: bool,
    /// Number of times that bytes came late, or a frame of the wrong kind.
    pub late: u64,
    /// Number of early repeats of a request of which acknowledgements may be under way.
    pub repeats: u8,
}

impl<W: Wire + Drop> Line<W> {
    /// Returns a newly connected line: what was asked before may be under way on it.
    pub fn new(wire: W) -> Self
        ensures { result ≡ record {
          wire = wire;
          lost = false;
          state = Busy;
          kind = One;
          hearing = record { request = []; bytes = [] };
          gathered = [];
          held = None;
          last = None;
          copied = false;
          late = 0;
          repeats = 0;
        } }
    {
        Line {
            wire,
            lost: false,
            state: State::Busy,
            kind: Kind::One,
            hearing: Hearing::new(&FrameBuf::new()),
            gathered: AnswerBuf::new(),
            held: None,
            last: None,
            copied: false,
            late: 0,
            repeats: 0,
        }
    }

    /// Sends a request, now or once it may go out. A link that has closed is opened again before it,
    /// once: what was under way may come on it. Once the line is lost, the wire isn't touched.
    pub fn put(&mut self, request: &FrameBuf, many: bool)
        ensures { LineSends W.Wire many self.old request.now self.new }
    {
        if self.lost {
            return;
        }
        if self.wire.reopen() {
            self.state = State::Busy;
        }
        self.held = Some(Held {
            request: *request,
            many,
        });
        if self.look(request, many).is_err() {
            self.lost = true;
        }
    }

    // Sends the request that is held, if it may go out, or takes the answer by the kind of the last request. Where
    // bytes come without end, a request that is held is given up: silence.
    fn take_by_kind(&mut self) -> Result<Option<AnswerBuf>, IoFault>
        requires { self.old.lost ≡ false }
        ensures gives { IfOk result (λ taken. IfSome taken (λ answer.
            Gives W.Wire self.old answer self.new)) }
        ensures waits { IfOk result (λ taken. IfNone taken (LineWaits W.Wire self.old self.new)) }
        ensures fewer { IfOk result (λ taken. IfNone taken
            (left_of W.waits_left self.new < left_of W.waits_left self.old)) }
        ensures no_more { OnOk result
            (left_of W.waits_left self.new ≤ left_of W.waits_left self.old) }
        ensures well { OnOk result (W.failures self.new.wire ≡ W.failures self.old.wire) }
        ensures failed { OnErr result
            (HasRisen (W.failures self.old.wire) (W.failures self.new.wire)) }
        ensures lost { self.new.lost ≡ self.old.lost }
    {
        if let Some(held) = self.held {
            return match self.look(&held.request, held.many)? {
                Gone::Out => Ok(None),
                Gone::Waits => Ok(None),
                Gone::Loud => {
                    self.held = None;
                    Ok(Some(AnswerBuf::new()))
                }
            };
        }
        match self.kind {
            Kind::One => self.take_one(),
            Kind::All => {
                let Some(quiet) = gather(&mut self.wire, &mut self.gathered)? else {
                    return Ok(None);
                };
                let answer = without_echo(self.hearing.request(), &self.gathered);
                self.state = if quiet { State::Listened } else { self.state };
                Ok(Some(answer))
            }
            Kind::Nobody => {
                let mut dropped = AnswerBuf::new();
                let Some(quiet) = gather(&mut self.wire, &mut dropped)? else {
                    return Ok(None);
                };
                self.state = if quiet { State::Answered } else { self.state };
                Ok(Some(AnswerBuf::new()))
            }
        }
    }

    // Drops what has arrived, and sends the request that is held if it may go out.
    fn look(&mut self, request: &FrameBuf, many: bool) -> Result<Gone, IoFault>
        requires running { self.old.lost ≡ false }
        requires held { self.old.held ≡ Some (record { request = request.now; many = many }) }
        ensures looks { IfOk result (λ gone. Looks W.Wire request.now many self.old gone self.new) }
        ensures fewer { IfOk result (λ gone. is_loud gone ≡ false
            → left_of W.waits_left self.new < left_of W.waits_left self.old) }
        ensures no_more { OnOk result
            (left_of W.waits_left self.new ≤ left_of W.waits_left self.old) }
        ensures well { OnOk result (W.failures self.new.wire ≡ W.failures self.old.wire) }
        ensures failed { OnErr result
            (HasRisen (W.failures self.old.wire) (W.failures self.new.wire)) }
        ensures lost { self.new.lost ≡ self.old.lost }
    {
        let before = self.state;
        let loud = drain(&mut self.wire, &mut self.state, &mut self.late)?;
        let answered = self.hearing.request();
        self.last = last_waited(answered, request, before, self.state, self.last.take());
        if loud {
            return Ok(Gone::Loud);
        }
        if !may_go(
            self.state,
            self.repeats,
            self.hearing.request(),
            request,
            many,
        ) {
            return Ok(Gone::Waits);
        }
        let (repeats, repeats_out) = repeats_by(self.state, self.repeats);
        let asking = Asking {
            many,
            late: self.late,
            repeats,
        };
        self.wire.send(request.as_slice(), asking)?;
        self.repeats = repeats_out;
        self.last = last_behind(self.state, self.last.take());
        self.state = State::Busy;
        self.kind = kind_of(request, many);
        self.hearing = Hearing::new(request);
        self.gathered = AnswerBuf::new();
        self.held = None;
        self.copied = false;
        Ok(Gone::Out)
    }

    // Takes the answer of one meter; copies of the last one are dropped. Where two come at once,
    // the request is given up: silence on a busy line. So is a request whose answer is overdue.
    fn take_one(&mut self) -> Result<Option<AnswerBuf>, IoFault>
        requires { self.old.held ≡ None }
        ensures gives { IfOk result (λ taken. IfSome taken (λ answer.
            GivesAtMostOne W.Wire self.old answer self.new)) }
        ensures waits { IfOk result (λ taken. IfNone taken (WaitsOne W.Wire self.old self.new)) }
        ensures fewer { IfOk result (λ taken. IfNone taken
            (W.waits_left self.new.wire < W.waits_left self.old.wire)) }
        ensures no_more { OnOk result (W.waits_left self.new.wire ≤ W.waits_left self.old.wire) }
        ensures well { OnOk result (W.failures self.new.wire ≡ W.failures self.old.wire) }
        ensures failed { OnErr result
            (HasRisen (W.failures self.old.wire) (W.failures self.new.wire)) }
        ensures lost { self.new.lost ≡ self.old.lost }
        ensures held { self.new.held ≡ None }
    {
        let mut early = false;
        let heard = hear(&mut self.wire, &mut self.hearing, &mut early)?;
        let first = match heard {
            None => return Ok(None),
            Some(first) => first,
        };
        if !is_copy(&self.last, &first) {
            self.judge(&first, early);
            return Ok(Some(first));
        }
        self.copied = true;
        let then = hear(&mut self.wire, &mut self.hearing, &mut early)?;
        let answer = match then {
            None => return Ok(None),
            Some(answer) => answer,
        };
        if is_copy(&self.last, &answer) {
            return Ok(Some(AnswerBuf::new()));
        }
        self.judge(&answer, early);
        Ok(Some(answer))
    }

    // Judges what was taken as the answer, and whether it is one that is overdue.
    fn judge(&mut self, answer: &AnswerBuf, early: bool)
        ensures { self.new ≡ judged early answer.now self.old }
    {
        let request = self.hearing.request();
        let is_answered = is_answer(request.as_slice(), answer.as_slice());
        if is_wrong(request.as_slice(), answer.as_slice()) {
            self.late = self.late.saturating_add(1);
        }
        if is_answered {
            self.last = Some(copy_of(answer.as_slice()));
        }
        self.state = if answer.as_slice().is_empty() {
            if early { State::Overdue } else { State::Quiet }
        } else if is_answered && !self.copied {
            State::Answered
        } else {
            State::Busy
        };
    }
}

impl<W: Wire + Drop> HalfBus for Line<W> {
    ghost use Rattle.std.specs.Prelude.{true, false};
    ghost use Rattle.mbdc_raw.specs.Line.{LineGives, LineSends, LineWaits, left_of};

    ghost lost = { λ line. line.lost };

    ghost waits_left = { left_of W.waits_left };

    ghost sends = { LineSends W.Wire false };

    ghost opens = { LineSends W.Wire true };

    ghost waits = { LineWaits W.Wire };

    ghost gives = { LineGives W.Wire };

    ghost late = { λ line. line.late };

    fn is_lost(&self) -> bool {
        self.lost
    }

    fn send(&mut self, request: &FrameBuf) {
        self.put(request, false);
    }

    fn send_open(&mut self, request: &FrameBuf) {
        self.put(request, true);
    }

    // A lost line is silent, and the wire isn't touched.
    fn hear(&mut self) -> Option<AnswerBuf> {
        if self.lost {
            return Some(AnswerBuf::new());
        }
        match self.take_by_kind() {
            Ok(answer) => answer,
            Err(_) => {
                self.lost = true;
                Some(AnswerBuf::new())
            }
        }
    }

    fn late(&self) -> u64 {
        self.late
    }
}
