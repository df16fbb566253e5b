//! A filter that asks a meter that was silent in the last poll one question in this one.

ghost use Rattle.std.specs.Prelude.{◌≡◌, bytes_eq, map};
ghost use Rattle.mbdc_poll.specs.Sparing.{first_question, is_spared, noted_by};
ghost use Rattle.mbdc_poll.specs.declared.sparing.Fate.TheVariants.{Unasked};

use crate::filtered::Filter;
use dc_address::{Identity, Mask, Primary};
use dc_linkframe::FrameBuf;
use dc_linkframe::control::{write_reset, write_selection};
use mbdc_bus::AnswerBuf;

/// What came of the first question to a meter in this poll.
#[derive(Clone, Copy)]
pub enum Fate {
    /// It didn't go out yet.
    Unasked,
    /// Silence.
    Silent,
    /// Some byte.
    Answered,
}

/// A meter that was silent in the last poll.
#[derive(Clone, Copy)]
pub struct Doubt {
    /// Its first question: the reset of its primary address, or its selection.
    pub question: FrameBuf,
    /// What came of it.
    pub fate: Fate,
}

impl Doubt {
    /// The doubt about this meter, at its primary address or by selection, before its first question.
    #[tactic(auto, unfolding(dc_readout::specs::Summary::selection_of))]
    pub fn of(meter: &Identity, address: Option<Primary>) -> Doubt
        ensures question { result.question ≡ first_question meter.now address }
        ensures fate { result.fate ≡ Unasked }
    {
        let mut question = FrameBuf::new();
        match address {
            Some(address) => write_reset(address.get(), &mut question),
            None => write_selection(&Mask::of(meter).wire(), &mut question),
        }
        Doubt {
            question,
            fate: Fate::Unasked,
        }
    }
}

/// The filter by which the first question to each of some meters goes out as any request, but where nothing answers it,
/// isn't sent again. All else passes.
#[derive(Drop)]
pub struct Sparing<'a> {
    /// The meters that were silent in the last poll.
    pub doubts: &'a mut [Doubt],
    /// The last request.
    pub out: FrameBuf,
}

impl Sparing<'_> {
    // Whether this is a first question that met silence.
    fn spares(&self, request: &[u8]) -> bool
        ensures { result ≡ is_spared self.now.doubts.now request.now }
    {
        self.doubts.iter().any(|doubt| {
            matches!(doubt.fate, Fate::Silent) && doubt.question.as_slice() == request
        })
    }
}

impl Filter for Sparing<'_> {
    ghost use Rattle.mbdc_poll.specs.Sparing.{Asks, Hears};

    ghost asks = { Asks };

    ghost hears = { Hears };

    fn ask(&mut self, request: &FrameBuf) -> Option<FrameBuf> {
        self.out = *request;
        if self.spares(request.as_slice()) {
            None
        } else {
            Some(*request)
        }
    }

    fn hear(&mut self, answer: AnswerBuf) -> AnswerBuf {
        let is_silent = answer.as_slice().is_empty();
        note(self.doubts, self.out.as_slice(), is_silent);
        answer
    }
}

// Notes whether silence came of a request. Only the first answer counts.
fn note(doubts: &mut [Doubt], request: &[u8], is_silent: bool)
    ensures { doubts.new ≡ map (noted_by request.now is_silent) doubts.old }
{
    if let Some((doubt, others)) = doubts.split_first_mut() {
        note(others, request, is_silent);
        if doubt.question.as_slice() == request {
            doubt.fate = match doubt.fate {
                Fate::Unasked if is_silent => Fate::Silent,
                Fate::Unasked => Fate::Answered,
                Fate::Silent | Fate::Answered => doubt.fate,
            };
        }
    }
}
