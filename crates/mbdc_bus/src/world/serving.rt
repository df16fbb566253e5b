//! The gateway's side of an exchange.

ghost use Rattle.std.specs.Prelude.{◌≡◌, ◌+◌, ◌≤◌, length, IfOk, OnOk};
ghost use Rattle.mbdc_bus.specs.Blocks.{blocks_bytes, most_block};
ghost use Rattle.mbdc_bus.specs.Serving.{PutsAnswer, Serves, blocks_with};
ghost use Rattle.mbdc_io.specs.Written.{PutsInto};

use crate::AnswerBuf;
use crate::blocks::{MOST_BLOCK, put_block, take_content, take_length};
use crate::world::line::SimulatedBus;
use mbdc_io::{IoFault, Sink, Source};
use std::alloc::Allocator;

/// Takes one request from the reader, writes the bus's answer to it, and returns the number of
/// bytes written.
///
/// # Errors
/// The reader has ended, a take failed or a put failed.
pub fn serve<R: Source, W: Sink, A: Allocator>(
    reader: &mut R,
    writer: &mut W,
    bus: &mut SimulatedBus<A>,
) -> Result<usize, IoFault>
    ensures { IfOk result (Serves (R.left reader.old) (R.left reader.new) (W.written writer.old)
        (W.written writer.new) bus.old bus.new) }
{
    let count = take_length(reader)?;
    let mut request = AnswerBuf::new();
    take_content(reader, count, &mut request)?;
    let answer = bus.hear(request.as_slice());
    let put = put_answer(writer, &answer)?;
    Ok(put)
}

// Writes the blocks of an answer, and the block of length 0.
fn put_answer<W: Sink>(writer: &mut W, answer: &AnswerBuf) -> Result<usize, IoFault>
    ensures { IfOk result (PutsAnswer (W.written writer.old) (W.written writer.new) answer.now) }
{
    let bytes = answer.as_slice();
    let (front, back) = bytes.split_at(bytes.len().min(MOST_BLOCK));
    let count = put_some(writer, front)? + put_some(writer, back)?;
    put_block(writer, &[])?;
    Ok(count + 1)
}

// Writes one block of these bytes, or nothing for no bytes.
fn put_some<W: Sink>(writer: &mut W, bytes: &[u8]) -> Result<usize, IoFault>
    requires { length bytes.now ≤ most_block }
    ensures puts { OnOk result (PutsInto W.Sink writer.old writer.new
        (blocks_bytes (blocks_with bytes.now))) }
    ensures count { IfOk result (λ count. count ≡ length (blocks_bytes (blocks_with bytes.now))) }
    ensures most { IfOk result (λ count. count ≤ length bytes.now + 1) }
{
    if bytes.is_empty() {
        return Ok(0);
    }
    put_block(writer, bytes)?;
    Ok(bytes.len() + 1)
}
