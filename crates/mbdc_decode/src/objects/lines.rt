//! The command `decode --json`: from lines of hex digits in a source to JSON objects in a sink.

ghost use Rattle.std.specs.Prelude.{◌≡◌, ◌<◌, ◌≤◌, length, IfSome, IfOk};
ghost use Rattle.std.specs.Prelude.{OnOk};
ghost use Rattle.mbdc_io.specs.Lines.{longest_input_line, most_spelled};
ghost use Rattle.mbdc_io.specs.Written.{PutsInto, Wrote};
ghost use Rattle.mbdc_decode.specs.Engine.{EngineEnds};
ghost use Rattle.mbdc_decode.specs.Text.{has_fault};
ghost use Rattle.mbdc_decode.specs.Frame.{text_json, hex_fault_json};
ghost use Rattle.mbdc_decode.specs.JsonText.{value_line, json_text};

use crate::objects::frame::{put_hex_fault_json, put_text_json};
use crate::tokens::TokenWriter;
use crate::{Input, LineForm, put_lines_as};
use mbdc_io::{IoFault, Sink, Source, TextFault};
use std::alloc::Allocator;

/// The form of `decode --json`: an object on each line.
struct Objects;

impl LineForm for Objects {
    ghost use Rattle.mbdc_decode.specs.Frame.{text_json, hex_fault_json};
    ghost use Rattle.mbdc_decode.specs.JsonText.{value_line};

    ghost frame_text = { λ line bytes. value_line (text_json line bytes) };

    ghost fault_text = { λ line. value_line (hex_fault_json line) };

    #[tactic(auto, using(crate::proofs::Adding::whole, mbdc_io::proofs::Pieces::written), unfolding(crate::specs::JsonText::value_line))]
    fn put_frame<W: Sink>(
        line: u64,
        _start: usize,
        bytes: &[u8],
        out: &mut W,
    ) -> Result<bool, IoFault> {
        let mut tokens = TokenWriter::new(out);
        let bad = put_text_json(&mut tokens, line, bytes);
        tokens.outcome()?;
        out.put(b"\n")?;
        Ok(bad)
    }

    #[tactic(auto, using(crate::proofs::Adding::whole, mbdc_io::proofs::Pieces::written), unfolding(crate::specs::JsonText::value_line))]
    fn put_hex_fault<W: Sink>(line: u64, out: &mut W) -> Result<(), IoFault> {
        let mut tokens = TokenWriter::new(out);
        put_hex_fault_json(&mut tokens, line);
        tokens.outcome()?;
        out.put(b"\n")
    }
}

/// Writes the JSON lines of an input of hex digits, and returns whether it has a fault. `digits` and
/// `bytes` are room for a line.
pub fn put_json_lines<W: Sink>(
    input: &[u8],
    digits: &mut [u8],
    bytes: &mut [u8],
    out: &mut W,
) -> Result<bool, IoFault>
    requires digits { longest_input_line ≤ length digits.old }
    requires bytes { most_spelled ≤ length bytes.old }
    ensures wrote { Wrote W.Sink result out.old out.new (json_text input.now) }
    ensures fault { IfOk result (λ bad. bad ≡ has_fault input.now) }
{
    put_lines_as::<Objects, W>(input, digits, bytes, out)
}

/// Writes the lines of hex digits left in the reader as JSON Lines (RFC 8259): an object for each
/// frame and for each fault of a line or a frame, in order. Returns whether a line, a frame or a
/// body has a fault.
///
/// The whole input is read, and all memory allocated, before anything is written; many small pieces
/// are written, so callers pass a buffered sink. The text is defined by `specs/Text.antt`, over the
/// frames of EN 13757-2 and the telegrams of EN 13757-3; the value of a record is that of
/// [`point_of`](dc_units::point_of), as `decode` prints it.
///
/// # Errors
/// [`TextFault::Read`] and [`TextFault::Write`] if the reader or the writer failed,
/// [`TextFault::TooLong`] over 1 MiB, [`TextFault::NoMemory`] if memory ran out. Only after `Write`
/// may something have been written.
pub fn json_lines<A: Allocator + Copy, R: Source, W: Sink>(
    alloc: A,
    reader: &mut R,
    writer: &mut W,
) -> Result<bool, TextFault>
    // What is written is the text for the input, byte for byte.
    ensures text { OnOk result (IfSome (R.left reader.old)
        (λ input. PutsInto W.Sink writer.old writer.new (json_text input))) }
    // The result is whether a fault is in that text.
    ensures fault { IfOk result (λ found.
        IfSome (R.left reader.old) (λ input. found ≡ has_fault input)) }
    ensures ends { EngineEnds R.Source W.Sink TextFault.Read TextFault.TooLong TextFault.Write
        reader.old reader.new writer.old writer.new result }
{
    Input::read(alloc, reader)?.put_as::<Objects, W>(writer)
}
