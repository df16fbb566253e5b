//! A bus on which a search is given up that hears noise alone, and on which it believes who is confirmed.

ghost use Rattle.std.specs.Prelude.{◌≡◌};
ghost use Rattle.mbdc_installer.specs.Listening.{heard_as, is_given_up, left_with};

use crate::hearing::{self, Wildcard};
use crate::other::{Noting, Other};
use dc_linkframe::{FrameBuf, parse};
use mbdc_bus::{AnswerBuf, Bus};
use std::cell::Cell;

/// Number of answers, none of which is a frame, after which a search is given up.
pub(crate) const MOST_NOISE: u8 = 16;

/// A bus that counts as lost once that many answers came, none of which is a frame.
#[derive(Drop)]
pub(crate) struct Listening<'c, B: Bus + Drop> {
    /// The bus.
    pub bus: B,
    /// Number of answers that may still be noise; none once a frame came, or where nothing is given up.
    pub left: Option<u8>,
    /// What a search knows of its wildcards.
    pub wildcard: Wildcard,
    /// Set once it is given up: what noise alone said isn't printed.
    pub is_hushed: &'c Cell<bool>,
}

impl<B: Bus + Drop> Listening<'_, B> {
    /// Whether it was given up.
    pub fn is_given_up(&self) -> bool
        ensures { result ≡ is_given_up self.now.left }
    {
        matches!(self.left, Some(0))
    }

    // Counts an answer. The one by which the search is given up is silence.
    fn heard(&mut self, answer: AnswerBuf) -> AnswerBuf
        ensures bus { self.new.bus ≡ self.old.bus }
        ensures left { self.new.left ≡ left_with self.old.wildcard.others.items answer self.old.left }
        ensures answer { result ≡ heard_as self.new.left answer }
        ensures wildcard { self.new.wildcard ≡ self.old.wildcard }
        ensures hushed { self.new.is_hushed ≡ self.old.is_hushed }
    {
        self.left = left_with(self.wildcard.others.as_slice(), &answer, self.left);
        if self.is_given_up() {
            self.is_hushed.set(true);
            AnswerBuf::new()
        } else {
            answer
        }
    }
}

// How many answers may still be noise after this one: silence is not counted, and after a frame nothing is given up. A
// frame that closed a wildcard is a frame.
fn left_with(others: &[Other], answer: &AnswerBuf, left: Option<u8>) -> Option<u8>
    ensures { result ≡ left_with others.now answer.now left }
{
    if answer.as_slice().is_empty() {
        return left;
    }
    if !others.is_empty() || parse(answer.as_slice()).is_ok() {
        return None;
    }
    Some(left?.saturating_sub(1))
}

impl<B: Bus + Drop> Bus for Listening<'_, B> {
    ghost use Rattle.std.specs.Prelude.{None, [], false, ◌||◌};
    ghost use Rattle.mbdc_installer.specs.Listening.{Confirmed, Hears, Passed, is_given_up, late_of};

    // The meters on it aren't known to contracts.
    ghost meters = { λ _. None };

    ghost selected = { λ _. [] };

    ghost lost = { λ listening. is_given_up listening.left || B.lost listening.bus };

    ghost asks = { Hears B.lost (Passed B.asks) };

    ghost asks_all = { Hears (λ _. false) (Confirmed B.lost B.asks_all) };

    ghost late = { late_of B.lost B.late };

    ghost silent = { λ old new request answer asked. asked.silence };

    fn is_lost(&self) -> bool {
        self.is_given_up() || self.bus.is_lost()
    }

    fn ask(&mut self, request: &FrameBuf) -> AnswerBuf {
        if self.is_given_up() {
            return AnswerBuf::new();
        }
        let answer = self.bus.ask(request);
        self.heard(answer)
    }

    fn ask_all(&mut self, request: &FrameBuf) -> AnswerBuf {
        if self.is_given_up() {
            return AnswerBuf::new();
        }
        let answer = hearing::ask(&mut self.bus, &mut self.wildcard, request);
        self.heard(answer)
    }

    fn late(&self) -> u64 {
        if self.bus.is_lost() {
            return self.bus.late();
        }
        self.bus.late().saturating_add(self.wildcard.strays)
    }
}

impl<B: Bus + Drop> Noting for Listening<'_, B> {
    ghost others = { λ listening. listening.wildcard.others.items };

    fn others(&self) -> &[Other] {
        self.wildcard.others.as_slice()
    }
}
