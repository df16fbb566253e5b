//! What the tries of a readout brought.

ghost use Rattle.std.specs.Prelude.{◌≡◌};
ghost use Rattle.mbdc_poll.specs.Missed.{and_heard, nothing_brought};

use dc_core::{HearFault, LineHeard};
use dc_readout::misses::{Misses, is_missing};
use mbdc_bus::AnswerBuf;

/// What the tries of a readout brought.
#[derive(Drop)]
pub struct Brought {
    /// How many of the failed ones brought what.
    pub misses: Misses,
    /// The last answer; no byte is silence.
    pub last: AnswerBuf,
}

impl Brought {
    /// Before the first answer.
    pub fn nothing() -> Brought
        ensures { result ≡ nothing_brought }
    {
        Brought {
            misses: Misses::none(),
            last: AnswerBuf::new(),
        }
    }

    /// Takes what was heard. Where the try failed, it is counted.
    pub(crate) fn hear(&mut self, bytes: AnswerBuf, answer: &Result<LineHeard, HearFault>)
        ensures { self.new ≡ and_heard bytes answer.now self.old }
    {
        match answer {
            Ok(LineHeard::Again) => self.misses.count(bytes.as_slice()),
            Ok(LineHeard::Failed(why)) => {
                if is_missing(why) {
                    self.misses.count(bytes.as_slice());
                }
            }
            Ok(LineHeard::Ready) | Ok(LineHeard::Accepted { .. }) | Err(_) => {}
        }
        self.last = bytes;
    }
}
