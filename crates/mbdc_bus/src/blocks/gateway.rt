//! A gateway: its reader, its writer, and whether it is lost.

ghost use Rattle.std.specs.Prelude.{◌≡◌, ◌⊎◌, ◌≤◌, [], length, true, false};
ghost use Rattle.mbdc_io.specs.Failures.{HasRisen};
ghost use Rattle.mbdc_io.specs.Stream.{PutsFront};
ghost use Rattle.mbdc_io.specs.Written.{PutsInto};
ghost use Rattle.mbdc_bus.specs.Blocks.{block, most_block};
ghost use Rattle.mbdc_bus.specs.Talk.{HasNoAnswer, TakesAnswer, TakesFront};

use crate::AnswerBuf;
use crate::blocks::talk::{Talk, exchange};
use dc_linkframe::FrameBuf;
use mbdc_io::{Sink, Source};

/// A gateway's reader and writer, and whether it is lost.
#[derive(Drop)]
pub struct Gateway<R: Source + Drop, W: Sink + Drop> {
    /// The reader of answers.
    pub reader: R,
    /// The writer of requests.
    pub writer: W,
    /// Whether an exchange failed; the gateway is silent from then on.
    pub lost: bool,
}

impl<R: Source + Drop, W: Sink + Drop> Gateway<R, W> {
    /// Returns a gateway that isn't lost.
    pub fn new(reader: R, writer: W) -> Self
        ensures { result ≡ record { reader = reader; writer = writer; lost = false } }
    {
        Gateway {
            reader,
            writer,
            lost: false,
        }
    }

    /// Whether an exchange failed.
    pub fn is_lost(&self) -> bool
        ensures { result ≡ self.now.lost }
    {
        self.lost
    }

    /// Sends a request and returns the answer. A lost gateway is silent, and neither its reader nor
    /// its writer is touched.
    pub fn ask(&mut self, request: &FrameBuf) -> AnswerBuf
        requires { length request.now ≤ most_block }
        ensures untouched { self.old.lost ≡ true → self.new ≡ self.old }
        ensures silence { self.new.lost ≡ true → result ≡ [] }

        // While it isn't lost, this is an exchange that returned an answer.
        ensures answer { self.new.lost ≡ false
            → TakesAnswer (R.left self.old.reader) (R.left self.new.reader) result }
        ensures request { self.new.lost ≡ false
            → PutsInto W.Sink self.old.writer self.new.writer (block request.now) }
        ensures put { self.new.lost ≡ false
            → W.puts self.old.writer (block request.now) self.new.writer }
        ensures reader_well { self.new.lost ≡ false
            → R.take_failures self.new.reader ≡ R.take_failures self.old.reader }
        ensures writer_well { self.new.lost ≡ false
            → W.put_failures self.new.writer ≡ W.put_failures self.old.writer }

        // An exchange that fails makes it lost.
        ensures lost { self.old.lost ≡ false → self.new.lost ≡ true
            → HasRisen (W.put_failures self.old.writer) (W.put_failures self.new.writer)
            ⊎ (HasRisen (R.take_failures self.old.reader) (R.take_failures self.new.reader)
            ⊎ HasNoAnswer (R.left self.old.reader)) }
        ensures sent { self.old.lost ≡ false → self.new.lost ≡ true
            → PutsInto W.Sink self.old.writer self.new.writer (block request.now)
            ⊎ ((self.new.reader ≡ self.old.reader)
            × PutsFront (W.written self.old.writer) (W.written self.new.writer)
            (block request.now)) }
        ensures read { self.old.lost ≡ false → self.new.lost ≡ true
            → TakesFront (R.left self.old.reader) (R.left self.new.reader) }
    {
        if self.lost {
            return AnswerBuf::new();
        }
        match exchange(&mut self.reader, &mut self.writer, request) {
            Talk::Answer(answer) => answer,
            Talk::Lost => {
                self.lost = true;
                AnswerBuf::new()
            }
        }
    }
}
