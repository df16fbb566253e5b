//! One exchange with the gateway.

ghost use Rattle.std.specs.Prelude.{◌≡◌, ◌⊎◌, ◌≤◌, length};
ghost use Rattle.mbdc_io.specs.Failures.{HasRisen};
ghost use Rattle.mbdc_io.specs.Stream.{PutsFront};
ghost use Rattle.mbdc_io.specs.Written.{PutsInto};
ghost use Rattle.mbdc_bus.specs.Blocks.{block, most_block};
ghost use Rattle.mbdc_bus.specs.Talk.{HasNoAnswer, IfAnswer, OnLost, TakesAnswer, TakesFront};

use crate::AnswerBuf;
use crate::blocks::answer::take_answer;
use crate::blocks::block::put_block;
use dc_linkframe::FrameBuf;
use mbdc_io::{Sink, Source};

/// The result of an exchange with the gateway.
#[derive(Drop)]
pub enum Talk {
    /// The answer on the line; no byte is silence.
    Answer(AnswerBuf),
    /// The reader or the writer ended or failed, or the gateway sent more blocks than an answer may
    /// have. No answer follows.
    Lost,
}

/// Sends a request and takes the answer. It returns whatever the reader and the writer do.
///
/// The answer is the first 300 bytes of its blocks. Nothing after the block of length 0 is read.
pub fn exchange<R: Source, W: Sink>(reader: &mut R, writer: &mut W, request: &FrameBuf) -> Talk
    requires { length request.now ≤ most_block }
    // An answer was read, and the request went out as one block.
    ensures answer { IfAnswer result (λ answer.
        TakesAnswer (R.left reader.old) (R.left reader.new) answer) }
    ensures request { IfAnswer result (λ _.
        PutsInto W.Sink writer.old writer.new (block request.now)) }
    ensures put { IfAnswer result (λ _. W.puts writer.old (block request.now) writer.new) }
    ensures reader_well { IfAnswer result (λ _.
        R.take_failures reader.new ≡ R.take_failures reader.old) }
    ensures writer_well { IfAnswer result (λ _.
        W.put_failures writer.new ≡ W.put_failures writer.old) }

    // It is lost if no answer was there, or the reader or the writer failed.
    ensures lost { OnLost result (HasRisen (W.put_failures writer.old) (W.put_failures writer.new)
        ⊎ (HasRisen (R.take_failures reader.old) (R.take_failures reader.new)
        ⊎ HasNoAnswer (R.left reader.old))) }
    // The request was still written, or the reader wasn't touched.
    ensures sent { OnLost result (PutsInto W.Sink writer.old writer.new
        (block request.now)
        ⊎ ((reader.new ≡ reader.old) × PutsFront (W.written writer.old) (W.written writer.new)
        (block request.now))) }
    ensures read { OnLost result (TakesFront (R.left reader.old) (R.left reader.new)) }
{
    if put_block(writer, request.as_slice()).is_err() {
        return Talk::Lost;
    }
    match take_answer(reader) {
        Ok(answer) => Talk::Answer(answer),
        Err(_) => Talk::Lost,
    }
}
