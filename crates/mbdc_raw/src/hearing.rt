//! An answer that is being received.

ghost use Rattle.std.specs.Prelude.{◌≡◌, ◌+◌, ◌<◌, ◌≤◌, ◌++◌, ◌==◌, [], length, not};
ghost use Rattle.mbdc_bus.specs.Limits.{most_answer};
ghost use Rattle.mbdc_raw.specs.Heard.{answer_of, heard_of, missing_of, wanted_of};

use dc_linkframe::{FrameBuf, Need, need};
use mbdc_bus::{AnswerBuf, MOST_ANSWER};
use std::marker::Model;
use std::mem;

/// A request, and the bytes received since. The echo of the request is no part of the answer.
#[derive(Drop)]
pub struct Hearing {
    request: FrameBuf,
    answer: AnswerBuf,
    // Whether the bytes received begin with the request.
    echoed: bool,
}

impl Model for Hearing {
    ghost use Rattle.mbdc_raw.specs.Heard.{Hearing, IsKept, came_by};

    ghost Value = { Hearing };

    ghost view = { λ h. record {
      request = h.request;
      bytes = came_by h.request h.answer h.echoed;
    } };

    ghost invariant = { λ h. IsKept h.request h.answer h.echoed };
}

// Number of bytes that an answer lacks: 0 if it is over.
fn missing(answer: &[u8]) -> usize
    requires { length answer.now ≤ most_answer }
    ensures { result ≡ missing_of answer.now }
{
    let room = MOST_ANSWER - answer.len();
    match need(answer) {
        Need::Whole(_) => 0,
        Need::More(count) => count.min(room),
        Need::Bad => room,
    }
}

impl Hearing {
    /// Begins after a request was sent, with no byte received.
    pub fn new(request: &FrameBuf) -> Hearing
        ensures { result ≡ record { request = request.now; bytes = [] } }
    {
        Hearing {
            request: *request,
            answer: AnswerBuf::new(),
            echoed: request.as_slice().is_empty(),
        }
    }

    /// The request.
    pub fn request(&self) -> &FrameBuf
        ensures { result.now ≡ self.now.request }
    {
        &self.request
    }

    /// Number of bytes to read next: 0 if the answer is over.
    pub fn wanted(&self) -> usize
        ensures wanted { result ≡ wanted_of self.now.request self.now.bytes }
        ensures fits { length self.now.bytes + result ≤ length self.now.request + most_answer }
    {
        let answer = self.answer.as_slice();
        let request = self.request.as_slice();
        let count = missing(answer);
        if self.echoed {
            return count;
        }
        if request.starts_with(answer) {
            return count.min(request.len() - answer.len());
        }
        count
    }

    /// Whether a byte of the answer was received.
    pub fn has_begun(&self) -> bool
        ensures { result ≡ not (length (answer_of self.now) == 0) }
    {
        !self.answer.as_slice().is_empty()
    }

    /// Appends received bytes.
    pub fn append(&mut self, more: &[u8])
        requires { length more.now ≤ wanted_of self.old.request self.old.bytes }
        ensures { self.new ≡ record self.old { bytes = self.old.bytes ++ more.now } }
    {
        self.answer.append(more);
        if self.echoed {
            return;
        }
        if self.answer.as_slice() == self.request.as_slice() {
            self.echoed = true;
            self.answer = AnswerBuf::new();
        }
    }

    /// Takes the answer. The next one is for the same request.
    pub fn take(&mut self) -> AnswerBuf
        ensures answer { result ≡ answer_of self.old }
        ensures exact { heard_of result ≡ result }
        ensures kept { self.new ≡ record self.old { bytes = [] } }
    {
        self.echoed = self.request.as_slice().is_empty();
        mem::replace(&mut self.answer, AnswerBuf::new())
    }
}
