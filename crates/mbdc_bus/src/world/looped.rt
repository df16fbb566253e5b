//! A stream that serves its own gateway on each read: both sides of the gateway in one thread.

ghost use Rattle.std.specs.Prelude.{◌≡◌, ◌≤◌, None, IfOk, length};

use crate::world::line::SimulatedBus;
use crate::world::serving::serve;
use mbdc_io::{IoFault, Sink, Source, one_failure_more};
use std::alloc::Allocator;

/// A reader of answers. Once an answer is used up, a read takes the next request from `requests`,
/// answers it on the gateway's side, and reads that answer.
#[derive(Drop)]
pub struct Looped<S: Source + Drop, R: Source + Drop, W: Sink + Drop, A: Allocator> {
    answers: S,
    requests: R,
    replies: W,
    bus: SimulatedBus<A>,
    left: usize,
    failures: u64,
}

impl<S: Source + Drop, R: Source + Drop, W: Sink + Drop, A: Allocator> Looped<S, R, W, A> {
    /// Reads from `answers` what the bus replies to `requests` through `replies`.
    pub fn new(answers: S, requests: R, replies: W, bus: SimulatedBus<A>) -> Self
        ensures { result ≡ record {
          answers = answers;
          requests = requests;
          replies = replies;
          bus = bus;
          left = 0;
          failures = 0;
        } }
    {
        Looped {
            answers,
            requests,
            replies,
            bus,
            left: 0,
            failures: 0,
        }
    }

    // Reads some bytes of an answer.
    fn read(&mut self, room: &mut [u8]) -> Result<usize, IoFault>
        ensures count { IfOk result (λ n. n ≤ length room.old) }
        ensures failures { self.new.failures ≡ self.old.failures }
    {
        if self.left == 0 {
            self.left = serve(&mut self.requests, &mut self.replies, &mut self.bus)?;
        }
        let count = self.answers.take(room)?;
        self.left = self.left.saturating_sub(count);
        Ok(count)
    }
}

impl<S: Source + Drop, R: Source + Drop, W: Sink + Drop, A: Allocator> Source
    for Looped<S, R, W, A> {
    ghost left = { λ _. None };

    ghost take_failures = { λ s. s.failures };

    fn take(&mut self, room: &mut [u8]) -> Result<usize, IoFault> {
        let taken = self.read(room);
        if taken.is_err() {
            self.failures = one_failure_more(self.failures);
        }
        taken
    }
}
