//! A form in which the frames of input lines are written.

ghost use Rattle.std.specs.Prelude.{◌≡◌, ℕ, List, IfOk, OnOk, OnErr};
ghost use Rattle.mbdc_io.specs.Written.{Wrote};
ghost use Rattle.mbdc_decode.specs.Frames.{is_bad};

use mbdc_io::{IoFault, Sink};

/// A form in which the frames of input lines are written: the text of `decode`, JSON Lines, or tables.
///
/// A form writes one frame, or that a line isn't hex digits. [`put_lines_as`](crate::put_lines_as)
/// finds the lines and their frames, and calls the form for each in order. A line's number counts
/// from 1.
pub trait LineForm {
    // Whether the text has a definition.
    ghost IsDefined: { Type 0 } = { Unit {0} };

    // The text of a frame, or of bytes that aren't a frame, in the line with this number.
    ghost frame_text: { ℕ → List ℕ → List ℕ };

    // The text of a line that isn't pairs of hex digits, or is too long.
    ghost fault_text: { ℕ → List ℕ };

    /// Writes bytes that are read as one frame, and returns whether it has a fault. `start` is
    /// their place in the line's bytes, from 0.
    fn put_frame<W: Sink>(
        line: u64,
        start: usize,
        bytes: &[u8],
        out: &mut W,
    ) -> Result<bool, IoFault>
        ensures wrote { IsDefined
            → Wrote W.Sink result out.old out.new (frame_text line bytes.now) }
        ensures fault { IfOk result (λ bad. bad ≡ is_bad bytes.now) };

    /// Writes that a line isn't pairs of hex digits, or is too long.
    fn put_hex_fault<W: Sink>(line: u64, out: &mut W) -> Result<(), IoFault>
        ensures { IsDefined → Wrote W.Sink result out.old out.new (fault_text line) };
}
