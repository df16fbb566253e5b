//! How far a search is, by what goes over its bus.

ghost use Rattle.std.specs.Prelude.{◌≡◌};
ghost use Rattle.mbdc_installer.specs.Course.{after_answer, after_request, new_course, one_if};

use crate::other::format_of;
use dc_address::Identity;
use dc_linkframe::control::{SELECTION, SND_NKE};
use dc_linkframe::{Frame, parse};
use dc_search::meter_of;

/// How far a search is: what its requests and their answers come to so far, repeats too. Counts stay at the greatest
/// number of 64 bits.
#[derive(Clone, Copy)]
pub struct Course {
    /// Number of selections.
    pub selections: u64,
    /// Number of resets.
    pub resets: u64,
    /// The address that was reset last.
    pub address: u8,
    /// Whether the last request asked for a telegram: it was neither a selection nor a reset.
    pub is_request: bool,
    /// Number of selections and resets that no byte came to.
    pub silent: u64,
    /// Number of selections and resets that bytes came to which are no frame.
    pub unreadable: u64,
    /// Number of requests for a telegram that bytes came to which are no frame.
    pub collided: u64,
    /// Whether any byte came.
    pub is_answered: bool,
    /// Whether any frame came.
    pub is_understood: bool,
    /// Whether any response of another CI than 72 came.
    pub is_other: bool,
    /// The meter whose telegram came last.
    pub meter: Option<Identity>,
}

impl Course {
    /// A search that hasn't begun.
    pub fn new() -> Self
        ensures { result ≡ new_course }
    {
        Course {
            selections: 0,
            resets: 0,
            address: 0,
            is_request: false,
            silent: 0,
            unreadable: 0,
            collided: 0,
            is_answered: false,
            is_understood: false,
            is_other: false,
            meter: None,
        }
    }

    /// The course after a request.
    pub fn after_request(self, request: &[u8]) -> Self
        ensures { result ≡ after_request request.now self }
    {
        match parse(request) {
            Ok(Frame::Long { ci, .. }) if ci == SELECTION => Course {
                selections: self.selections.saturating_add(1),
                is_request: false,
                ..self
            },
            Ok(Frame::Short { control, address }) if control == SND_NKE => Course {
                resets: self.resets.saturating_add(1),
                address,
                is_request: false,
                ..self
            },
            _ => Course {
                is_request: true,
                ..self
            },
        }
    }

    /// The course after an answer; no byte is silence.
    pub fn after_answer(self, answer: &[u8]) -> Self
        ensures { result ≡ after_answer answer.now self }
    {
        let is_silent = answer.is_empty();
        let is_frame = parse(answer).is_ok();
        let is_noise = !is_silent && !is_frame;
        Course {
            silent: one_if(!self.is_request && is_silent, self.silent),
            unreadable: one_if(!self.is_request && is_noise, self.unreadable),
            collided: one_if(self.is_request && is_noise, self.collided),
            is_answered: self.is_answered || !is_silent,
            is_understood: self.is_understood || is_frame,
            is_other: self.is_other || format_of(answer).is_some(),
            meter: meter_of(answer).or(self.meter),
            ..self
        }
    }
}

// A count, and one more where this is one.
pub(crate) fn one_if(is_one: bool, count: u64) -> u64
    ensures { result ≡ one_if is_one count }
{
    if is_one {
        count.saturating_add(1)
    } else {
        count
    }
}
