//! The words of a reply.

ghost use Rattle.std.specs.Prelude.{◌++◌, codes};
ghost use Rattle.mbdc_io.specs.Written.{Wrote};

use mbdc_io::{IoFault, Sink};

/// Writes a space and a word.
#[tactic(auto, using(mbdc_io::proofs::Pieces::written))]
pub fn put_word<W: Sink>(out: &mut W, word: &[u8]) -> Result<(), IoFault>
    ensures { Wrote W.Sink result out.old out.new (codes " " ++ word.now) }
{
    out.put(b" ")?;
    out.put(word)
}
