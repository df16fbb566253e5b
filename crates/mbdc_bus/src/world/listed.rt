//! A bus in memory: a list of meters, each with one telegram.

ghost use Rattle.std.specs.Prelude.{◌≡◌, None, Some, true};
ghost use Rattle.mbdc_bus.specs.Bus.{Acknowledge, IsHeard, Respond};
ghost use Rattle.mbdc_bus.specs.Listed.{chosen};
ghost use Rattle.dc_search.specs.Bus.{IsMatching};

use crate::world::order::{Order, order_of};
use crate::{AnswerBuf, Bus};
use dc_address::{Identity, Mask};
use dc_linkframe::{ACK, FrameBuf};
use dc_search::bus::{Matching, matches_on, telegram_of};
use std::marker::Model;

// A byte that is no frame, as read when answers collide.
const NOISE: u8 = 0x00;

/// Meters that each answer with one telegram. It shows that a search over a bus finds what its
/// contract states.
#[derive(Drop)]
pub struct ListedBus<'a> {
    meters: &'a [Identity],
    mask: Option<Mask>,
}

impl<'a> Model for ListedBus<'a> {
    ghost use Rattle.mbdc_bus.specs.Listed.{Listed};

    ghost Value = { Listed };

    ghost view = { λ bus. record { meters = bus.meters.now; mask = bus.mask } };
}

impl<'a> ListedBus<'a> {
    /// A bus of these meters, none of them selected.
    pub fn new(meters: &'a [Identity]) -> ListedBus<'a>
        ensures { result ≡ record { meters = meters.now; mask = None } }
    {
        ListedBus { meters, mask: None }
    }

    // Finds the selected meters.
    fn matching(&self) -> Matching
        ensures { IsMatching result (chosen self.now) }
    {
        match &self.mask {
            Some(mask) => matches_on(self.meters, mask),
            None => Matching::Nobody,
        }
    }

    fn select(&mut self, mask: Mask)
        ensures { self.new ≡ record self.old { mask = Some mask } }
    {
        self.mask = Some(mask);
    }

    // What is received after a selection.
    fn acknowledge(&self) -> AnswerBuf
        ensures { Acknowledge (chosen self.now) result }
    {
        let mut answer = AnswerBuf::new();
        if !matches!(self.matching(), Matching::Nobody) {
            answer.append(&[ACK]);
        }
        answer
    }

    // What is received after the request for data that follows.
    fn respond(&self) -> AnswerBuf
        ensures { Respond (chosen self.now) result }
    {
        let mut answer = AnswerBuf::new();
        match self.matching() {
            Matching::Nobody => {}
            Matching::One(meter) => answer.append(telegram_of(&meter).as_slice()),
            Matching::More => answer.append(&[NOISE]),
        }
        answer
    }
}

impl<'a> Bus for ListedBus<'a> {
    ghost use Rattle.std.specs.Prelude.{Some, false};
    ghost use Rattle.mbdc_bus.specs.NeverLost.{never_lost};

    ghost meters = { λ bus. Some bus.meters };

    ghost selected = { chosen };

    // It is never lost.
    ghost lost = { λ _. false };

    ghost asks = { λ old request answer new.
        IsHeard old.meters (chosen old) (chosen new) request answer };

    ghost asks_all = { λ old request answer new.
        IsHeard old.meters (chosen old) (chosen new) request answer };

    ghost late = { λ _. 0 };

    ghost silent = { λ old new request answer asked is_lost. never_lost answer is_lost };

    fn is_lost(&self) -> bool {
        false
    }

    fn ask(&mut self, request: &FrameBuf) -> AnswerBuf {
        match order_of(request.as_slice()) {
            Order::Select(mask) => {
                self.select(mask);
                self.acknowledge()
            }
            Order::Data => self.respond(),
            Order::Other => AnswerBuf::new(),
        }
    }

    fn ask_all(&mut self, request: &FrameBuf) -> AnswerBuf {
        self.ask(request)
    }

    fn late(&self) -> u64 {
        0
    }
}
