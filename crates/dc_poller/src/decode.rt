//! The engine of `decode`, with the faults of the program.

ghost use Rattle.std.specs.Prelude.{◌≡◌, IfSome, IfOk, OnOk};
ghost use Rattle.mbdc_io.specs.Written.{PutsInto};
ghost use Rattle.mbdc_decode.specs.Engine.{EngineEnds};
ghost use Rattle.mbdc_decode.specs.Text.{text_of, has_fault};

use mbdc_ending::ProgramFault;
use mbdc_io::{Sink, Source};
use std::alloc::Allocator;

/// Decodes the lines of hex digits left in the reader, as [`mbdc_decode::decode_lines`] does.
///
/// # Errors
/// [`ProgramFault::Read`], [`ProgramFault::TooLong`], [`ProgramFault::Write`], [`ProgramFault::NoMemory`].
pub fn decode_lines<A: Allocator + Copy, R: Source, W: Sink>(
    alloc: A,
    reader: &mut R,
    writer: &mut W,
) -> Result<bool, ProgramFault>
    // What is written is the text for the input, byte for byte, and the answer says whether a fault is in it.
    ensures text { OnOk result (IfSome (R.left reader.old)
        (λ input. PutsInto W.Sink writer.old writer.new (text_of input))) }
    ensures fault { IfOk result (λ found.
        IfSome (R.left reader.old) (λ input. found ≡ has_fault input)) }
    ensures ends { EngineEnds R.Source W.Sink ProgramFault.Read ProgramFault.TooLong ProgramFault.Write
        reader.old reader.new writer.old writer.new result }
{
    Ok(mbdc_decode::decode_lines(alloc, reader, writer)?)
}
