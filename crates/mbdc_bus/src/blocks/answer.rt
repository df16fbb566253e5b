//! An answer, block by block.

ghost use Rattle.std.specs.Prelude.{◌≡◌, ◌⊎◌, IfOk, OnOk, OnErr};
ghost use Rattle.mbdc_io.specs.Failures.{HasRisen};
ghost use Rattle.mbdc_bus.specs.Talk.{HasNoAnswer, TakesAnswer, TakesFront};

use crate::AnswerBuf;
use crate::blocks::block::{MOST_BLOCKS, take_content, take_length};
use mbdc_io::{IoFault, Source};

/// Takes an answer, up to its block of length 0.
pub(crate) fn take_answer<R: Source>(reader: &mut R) -> Result<AnswerBuf, IoFault>
    ensures answer { IfOk result (λ answer.
        TakesAnswer (R.left reader.old) (R.left reader.new) answer) }
    ensures well { OnOk result (R.take_failures reader.new ≡ R.take_failures reader.old) }
    ensures lost { OnErr result (HasRisen (R.take_failures reader.old) (R.take_failures reader.new)
        ⊎ HasNoAnswer (R.left reader.old)) }
    ensures read { OnErr result (TakesFront (R.left reader.old) (R.left reader.new)) }
{
    let mut answer = AnswerBuf::new();
    for number in 0..MOST_BLOCKS {
        let count = take_length(reader)?;
        if count == 0 {
            return Ok(answer);
        }
        take_content(reader, count, &mut answer)?;
    }
    // After this many blocks only the block of length 0 is accepted.
    let count = take_length(reader)?;
    if count == 0 { Ok(answer) } else { Err(IoFault) }
}
