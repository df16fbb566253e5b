//! A filter that remembers telegrams: a copy of an earlier one is dropped, and on a line with wrong bits one that none
//! before it confirms.

ghost use Rattle.std.specs.Prelude.{◌≡◌, ◌≤◌, ◌∷◌, length, take};
ghost use Rattle.mbdc_bus.specs.Limits.{most_answer};
ghost use Rattle.mbdc_poll.specs.Remembering.{is_copy, most_before};

use crate::confirming::{MOST_CLEAR, clear_after, is_unconfirmed};
use crate::filtered::Filter;
use arrayvec::ArrayVec;
use dc_linkframe::control::{VARIABLE_DATA, is_rsp_ud};
use dc_linkframe::{Frame, FrameBuf, parse};
use mbdc_bus::AnswerBuf;

// Number of telegrams that are remembered.
const MOST_TELEGRAMS: usize = 64;

/// The filter that remembers the last 64 telegrams that came. It drops two kinds of telegrams: silence is heard, so the
/// readout makes its request again. All else passes.
///
/// * A copy of one of them. A telegram that the same request brings twice in a row is no copy: its meter sends it.
/// * Where one of the last 200 answers was a frame with a wrong checksum, a telegram with which none of them agrees but
///   for the access number. Some wrong bits leave the sum of a frame's bytes as it is, and nobody may check parity.
///   Where values with storage number 0 change in between, all others have to agree.
#[derive(Drop)]
pub struct Remembering {
    /// The last request.
    pub request: FrameBuf,
    /// Whether it brought the latest telegram.
    pub is_answered: bool,
    /// Number of answers since one with a wrong checksum, at most 200.
    pub clear: u8,
    /// The telegrams that came, the latest first.
    pub telegrams: ArrayVec<AnswerBuf, MOST_TELEGRAMS>,
}

impl Filter for Remembering {
    ghost use Rattle.mbdc_poll.specs.Remembering.{Asks, Hears};

    ghost asks = { Asks };

    ghost hears = { Hears };

    fn ask(&mut self, request: &FrameBuf) -> Option<FrameBuf> {
        if self.request.as_slice() != request.as_slice() {
            self.request = *request;
            self.is_answered = false;
        }
        Some(*request)
    }

    #[tactic(auto, using(dc_readout::proofs::Moves::no_frame_of_nothing))]
    fn hear(&mut self, answer: AnswerBuf) -> AnswerBuf {
        let has_wrong_bits = self.clear < MOST_CLEAR;
        self.clear = clear_after(self.clear, answer.as_slice());
        let is_telegram = match parse(answer.as_slice()) {
            Ok(Frame::Long { control, ci, .. }) => is_rsp_ud(control) && ci == VARIABLE_DATA,
            _ => false,
        };
        if !is_telegram {
            return answer;
        }
        let telegrams = self.telegrams.as_slice();
        let is_dropped = is_copy(self.is_answered, telegrams, answer.as_slice())
            || has_wrong_bits && is_unconfirmed(telegrams, answer.as_slice());
        note(&mut self.telegrams, answer.as_slice());
        self.is_answered = true;
        if is_dropped { AnswerBuf::new() } else { answer }
    }
}

// Whether a telegram is a copy of one of these, the latest first.
fn is_copy(is_answered: bool, telegrams: &[AnswerBuf], telegram: &[u8]) -> bool
    ensures { result ≡ is_copy is_answered telegrams.now telegram.now }
{
    match telegrams {
        // The request that is out brought it last.
        [latest, ..] if is_answered && latest.as_slice() == telegram => false,
        _ => telegrams
            .iter()
            .any(|earlier| earlier.as_slice() == telegram),
    }
}

// Notes the latest telegram.
fn note(telegrams: &mut ArrayVec<AnswerBuf, MOST_TELEGRAMS>, telegram: &[u8])
    requires { length telegram.now ≤ most_answer }
    ensures { telegrams.new.items ≡ telegram.now ∷ take most_before telegrams.old.items }
{
    let mut latest = AnswerBuf::new();
    latest.append(telegram);
    telegrams.truncate(MOST_TELEGRAMS - 1);
    telegrams.insert(0, latest);
}
