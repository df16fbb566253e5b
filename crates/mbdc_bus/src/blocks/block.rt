//! Single blocks.

ghost use Rattle.std.specs.Prelude.{◌≡◌, ◌≤◌, ◌∷◌, [], ◌++◌, length, take, IfOk, OnOk, OnErr};
ghost use Rattle.mbdc_io.specs.Stream.{Puts, PutsFront, Takes};
ghost use Rattle.mbdc_io.specs.Written.{PutsInto};
ghost use Rattle.mbdc_io.specs.Failures.{HasRisen};
ghost use Rattle.mbdc_bus.specs.Blocks.{block, most_block};
ghost use Rattle.mbdc_bus.specs.Limits.{most_answer};
ghost use Rattle.mbdc_bus.specs.Talk.{HasStopped, IsContent, IsCut};

use crate::AnswerBuf;
use mbdc_io::{IoFault, Sink, Source};

/// Maximum number of bytes of a block, since its length is a byte.
pub const MOST_BLOCK: usize = 255;

/// Maximum number of blocks of an answer before the block of length 0.
pub const MOST_BLOCKS: usize = 600;

/// Writes these bytes as one block, in one put.
pub fn put_block<W: Sink>(writer: &mut W, bytes: &[u8]) -> Result<(), IoFault>
    requires { length bytes.now ≤ most_block }
    ensures bytes { OnOk result (PutsInto W.Sink writer.old writer.new
        (block bytes.now)) }
    ensures step { OnOk result (W.puts writer.old (block bytes.now) writer.new) }
    ensures well { OnOk result (W.put_failures writer.new ≡ W.put_failures writer.old) }
    ensures front { OnErr result (PutsFront (W.written writer.old) (W.written writer.new)
        (block bytes.now)) }
    ensures failed { OnErr result (HasRisen (W.put_failures writer.old)
        (W.put_failures writer.new)) }
{
    // A block fits the room of an answer.
    let mut spelled = AnswerBuf::new();
    spelled.append(&[bytes.len() as u8]);
    spelled.append(bytes);
    writer.put(spelled.as_slice())
}

/// Takes the length byte of the next block; the end of the input is a fault.
pub fn take_length<R: Source>(reader: &mut R) -> Result<u8, IoFault>
    ensures bytes { IfOk result (λ count.
        Takes (R.left reader.old) (R.left reader.new) (count ∷ [])) }
    ensures well { OnOk result (R.take_failures reader.new ≡ R.take_failures reader.old) }
    ensures left { OnErr result (R.left reader.new ≡ R.left reader.old) }
    ensures stopped { OnErr result (HasStopped R.left R.take_failures reader.old reader.new) }
{
    let mut length = [0; 1];
    let count = reader.take(&mut length)?;
    if count == 0 {
        return Err(IoFault);
    }
    Ok(length[0])
}

/// Takes this many bytes into the answer; the end of the input is a fault.
pub fn take_content<R: Source>(
    reader: &mut R,
    count: u8,
    answer: &mut AnswerBuf,
) -> Result<(), IoFault>
    requires { length answer.old ≤ most_answer }
    ensures byte { count ≤ most_block }
    ensures content { OnOk result (IsContent (R.left reader.old)
        (R.left reader.new) count answer.old answer.new) }
    ensures well { OnOk result (R.take_failures reader.new ≡ R.take_failures reader.old) }
    ensures cut { OnErr result (IsCut (R.left reader.old) (R.left reader.new) count) }
    ensures stopped { OnErr result (HasStopped R.left R.take_failures reader.old reader.new) }
{
    let mut room = [0; MOST_BLOCK];
    let mut left = usize::from(count);
    'takes: while left > 0 {
        let (wanted, _) = room.split_at_mut(left);
        let came = reader.take(wanted)?;
        if came == 0 {
            return Err(IoFault);
        }
        let (given, _) = room.split_at(came);
        answer.append(given);
        left -= came;
    }
    Ok(())
}
