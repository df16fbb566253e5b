//! The command `decode`: from lines of hex digits in a source to text in a sink.

ghost use Rattle.std.specs.Prelude.{◌≡◌, ◌<◌, ◌≤◌, length, IfSome, IfOk, OnOk};
ghost use Rattle.mbdc_io.specs.Written.{PutsInto, Wrote};
ghost use Rattle.mbdc_io.specs.Lines.{longest_input_line, most_spelled};
ghost use Rattle.mbdc_decode.specs.Engine.{EngineEnds};
ghost use Rattle.mbdc_decode.specs.Text.{text_of, has_fault};

use crate::input::Input;
use crate::lines::put_lines_as;
use crate::text::Text;
use mbdc_io::{IoFault, Sink, Source, TextFault};
use std::alloc::Allocator;

/// Writes the text of an input's lines, and returns whether it has a fault. `digits` and `bytes` are
/// room for a line.
pub fn put_lines<W: Sink>(
    input: &[u8],
    digits: &mut [u8],
    bytes: &mut [u8],
    out: &mut W,
) -> Result<bool, IoFault>
    requires digits { longest_input_line ≤ length digits.old }
    requires bytes { most_spelled ≤ length bytes.old }
    ensures wrote { Wrote W.Sink result out.old out.new (text_of input.now) }
    ensures fault { IfOk result (λ bad. bad ≡ has_fault input.now) }
{
    put_lines_as::<Text, W>(input, digits, bytes, out)
}

/// Decodes the lines of hex digits left in the reader: writes the frames of each line, and the
/// telegram of a frame with CI 72h. Returns whether a line, a frame or a body has a fault.
///
/// The whole input is read, and all memory allocated, before anything is written. The text is
/// defined by `specs/Text.antt`, over the frames of EN 13757-2 and the telegrams of EN 13757-3.
///
/// # Errors
/// [`TextFault::Read`] and [`TextFault::Write`] if the reader or the writer failed,
/// [`TextFault::TooLong`] over 1 MiB, [`TextFault::NoMemory`] if memory ran out. Only after `Write`
/// may something have been written.
pub fn decode_lines<A: Allocator + Copy, R: Source, W: Sink>(
    alloc: A,
    reader: &mut R,
    writer: &mut W,
) -> Result<bool, TextFault>
    // What is written is the text for the input, byte for byte.
    ensures text { OnOk result (IfSome (R.left reader.old)
        (λ input. PutsInto W.Sink writer.old writer.new (text_of input))) }
    // The result is whether a fault is in that text.
    ensures fault { IfOk result (λ found.
        IfSome (R.left reader.old) (λ input. found ≡ has_fault input)) }
    ensures ends { EngineEnds R.Source W.Sink TextFault.Read TextFault.TooLong TextFault.Write
        reader.old reader.new writer.old writer.new result }
{
    Input::read(alloc, reader)?.put_as::<Text, W>(writer)
}
