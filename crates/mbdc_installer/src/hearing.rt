//! What a search believes of what comes where several meters may answer.
//!
//! Who answers a wildcard is [confirmed](is_confirmed). Where one may answer alone its data is requested right after
//! the selection: a frame of another CI than 72 [closes the wildcard](look), and then nobody answered the selection.

ghost use Rattle.std.specs.Prelude.{◌≡◌, ◌≤◌, None, [], length, true};
ghost use Rattle.dc_linkframe.specs.Reading.{frame_of};
ghost use Rattle.mbdc_bus.specs.Limits.{most_request};
ghost use Rattle.mbdc_installer.specs.Hearing.{Hears, Selects, Takes, acknowledged, is_looked, looked_at};
ghost use Rattle.mbdc_installer.specs.Hearing.{new_wildcard, selection_in};

use crate::confirming::{Confirmed, could_be_in_step, is_confirmed, is_open};
use crate::other::{Looked, MOST_OTHERS, Other, is_closed, look};
use crate::primary::is_ack;
use arrayvec::ArrayVec;
use dc_linkframe::control::SELECTION;
use dc_linkframe::{Frame, FrameBuf, parse};
use dc_search::meter_of;
use mbdc_bus::{AnswerBuf, Bus, bytes_of_noise};

/// What a search knows of the wildcard that it selected by last, and of those before it.
#[derive(Drop)]
pub(crate) struct Wildcard {
    /// Whether answers are confirmed, and wildcards closed: only those of a search are.
    pub confirms: bool,
    /// The eight bytes of the last selection, until somebody's answer to it is confirmed.
    pub wire: Option<[u8; 8]>,
    /// What came to the request for data right after the selection, until the search requests it.
    pub held: Option<AnswerBuf>,
    /// The last telegram that was confirmed.
    pub last: Option<Confirmed>,
    /// The wildcards that were closed.
    pub others: ArrayVec<Other, MOST_OTHERS>,
    /// Number of stray acknowledgements: nothing came to three requests for the data of who gave one.
    pub strays: u64,
}

impl Wildcard {
    /// That of a search that hasn't begun, or of what is no search.
    pub fn new(confirms: bool) -> Wildcard
        ensures { result ≡ new_wildcard confirms }
    {
        Wildcard {
            confirms,
            wire: None,
            held: None,
            last: None,
            others: ArrayVec::new(),
            strays: 0,
        }
    }
}

/// Sends a request that several meters may answer. A wildcard that a frame of another CI closed is silent. The first
/// telegram after a selection is returned only where the meter that it names answers its whole identity and hides
/// nobody; otherwise noise is, as of meters that answer out of step.
pub(crate) fn ask<B: Bus>(bus: &mut B, wildcard: &mut Wildcard, request: &FrameBuf) -> AnswerBuf
    requires { length request.now ≤ most_request }
    ensures heard { Hears B.lost B.asks_all request.now bus.old wildcard.old result bus.new wildcard.new }
    // A lost bus is silent, and nothing is touched.
    ensures silence { B.lost bus.old ≡ true → result ≡ [] }
    ensures untouched { B.lost bus.old ≡ true → bus.new ≡ bus.old }
    ensures same { B.lost bus.old ≡ true → wildcard.new ≡ wildcard.old }
{
    if bus.is_lost() {
        return AnswerBuf::new();
    }
    if let Some(wire) = selection_in(request) {
        return select(bus, wildcard, &wire, request);
    }
    let answer = take_or_ask(bus, &mut wildcard.held, request);
    let Some(wire) = wildcard.wire else {
        return answer;
    };
    let Some(meter) = meter_of(answer.as_slice()) else {
        return answer;
    };
    wildcard.wire = None;
    let is_due = could_be_in_step(&wildcard.last, &meter, &answer);
    if !is_confirmed(bus, &wire, &meter, is_due) {
        return bytes_of_noise();
    }
    let mut telegram = AnswerBuf::new();
    telegram.append(answer.as_slice());
    wildcard.last = Some(Confirmed { meter, telegram });
    answer
}

// Selects by these eight bytes, and looks who answers alone.
fn select<B: Bus>(
    bus: &mut B,
    wildcard: &mut Wildcard,
    wire: &[u8; 8],
    request: &FrameBuf,
) -> AnswerBuf
    requires { length request.now ≤ most_request }
    ensures { Selects B.asks_all wire.now request.now bus.old wildcard.old result bus.new wildcard.new }
{
    if is_closed(wire, wildcard.others.as_slice()) {
        return AnswerBuf::new();
    }
    let answer = bus.ask_all(request);
    wildcard.wire = wildcard.confirms.then_some(*wire);
    wildcard.held = None;
    if !is_looked(wildcard, wire, &answer) {
        return answer;
    }
    match look(bus, wire) {
        Looked::Kept(telegram) => {
            if telegram.as_slice().is_empty() {
                wildcard.strays = wildcard.strays.saturating_add(1);
            }
            wildcard.held = Some(telegram);
            answer
        }
        Looked::Closed(format) => {
            wildcard.wire = None;
            wildcard.others.push(Other {
                wire: *wire,
                format,
            });
            AnswerBuf::new()
        }
    }
}

// Whether one meter may answer alone: where one acknowledged, or where no digit is open.
fn is_looked(wildcard: &Wildcard, wire: &[u8; 8], answer: &AnswerBuf) -> bool
    ensures { result ≡ is_looked wildcard.now wire.now answer.now }
{
    wildcard.confirms
        && wildcard.others.len() < MOST_OTHERS
        && (is_ack(answer) || !is_open(wire, 7) && !answer.as_slice().is_empty())
}

// What was held, or else what comes to the request.
fn take_or_ask<B: Bus>(bus: &mut B, held: &mut Option<AnswerBuf>, request: &FrameBuf) -> AnswerBuf
    requires { length request.now ≤ most_request }
    ensures taken { Takes B.asks_all request.now held.old bus.old result bus.new }
    ensures empty { held.new ≡ None }
{
    match held.take() {
        Some(answer) => answer,
        None => bus.ask_all(request),
    }
}

// The eight bytes of a selection.
fn selection_in(request: &FrameBuf) -> Option<[u8; 8]>
    ensures { result ≡ selection_in (frame_of request.now) }
{
    match parse(request.as_slice()) {
        Ok(Frame::Long { ci, body, .. }) if ci == SELECTION => {
            let (wire, _) = body.split_first_chunk::<8>()?;
            Some(*wire)
        }
        _ => None,
    }
}
