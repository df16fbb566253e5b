//! The one loop over lines of hex digits and their frames, in any form.

ghost use Rattle.std.specs.Prelude.{◌≡◌, ◌≤◌, Some, None, length, take, flat_map, IfSome, IfOk};
ghost use Rattle.std.specs.Prelude.{MatchOption, OnOk, OnErr};
ghost use Rattle.mbdc_io.specs.Written.{Wrote};
ghost use Rattle.mbdc_io.specs.Lines.{longest_input_line, most_spelled};
ghost use Rattle.mbdc_decode.specs.Frames.{frames_of, any_bad};
ghost use Rattle.mbdc_decode.specs.Text.{decoded, is_bad_line, has_fault};
ghost use Rattle.mbdc_decode.specs.Form.{line_as, text_as};

use crate::form::LineForm;
use crate::frames::first_frame;
use mbdc_io::{IoFault, LONGEST, Sink, decode_hex_line, first_line};

/// Writes the frames in the bytes of the line with this number, and returns whether one has a fault.
pub fn put_frames_as<F: LineForm, W: Sink>(
    number: u64,
    bytes: &[u8],
    out: &mut W,
) -> Result<bool, IoFault>
    ensures wrote { F.IsDefined → Wrote W.Sink result out.old out.new
        (flat_map (F.frame_text number) (frames_of bytes.now)) }
    ensures fault { IfOk result (λ found. found ≡ any_bad (frames_of bytes.now)) }
{
    let mut found = false;
    let mut rest = bytes;
    'frames: while !rest.is_empty() {
        let (text, after) = first_frame(rest);
        let bad = F::put_frame(number, bytes.len() - rest.len(), text, out)?;
        found |= bad;
        rest = after;
    }
    Ok(found)
}

// Decodes a line of hex digits and returns the number of bytes; `None` if it isn't pairs of hex
// digits, or is too long. `digits` is room for the line without its spaces.
#[tactic(auto, unfolding(crate::specs::Text::decoded))]
fn decode_line(line: &[u8], digits: &mut [u8], bytes: &mut [u8]) -> Option<usize>
    requires digits { longest_input_line ≤ length digits.old }
    requires bytes { most_spelled ≤ length bytes.old }
    ensures count { IfSome result (λ n. n ≤ most_spelled) }
    ensures value { MatchOption result (decoded line.now ≡ None)
        (λ n. decoded line.now ≡ Some (take n bytes.new)) }
{
    if line.len() > LONGEST {
        return None;
    }
    decode_hex_line(line, digits, bytes)
}

// Writes a line, and returns whether it has a fault. `digits` and `bytes` are room for it.
#[tactic(auto, unfolding(crate::specs::Form::line_as, crate::specs::Text::is_bad_line))]
fn put_line_as<F: LineForm, W: Sink>(
    number: u64,
    line: &[u8],
    digits: &mut [u8],
    bytes: &mut [u8],
    out: &mut W,
) -> Result<bool, IoFault>
    requires digits { longest_input_line ≤ length digits.old }
    requires bytes { most_spelled ≤ length bytes.old }
    ensures wrote { F.IsDefined → Wrote W.Sink result out.old out.new
        (line_as F.LineForm number line.now) }
    ensures fault { IfOk result (λ bad. bad ≡ is_bad_line line.now) }
{
    match decode_line(line, digits, bytes) {
        Some(count) => put_frames_as::<F, W>(number, &bytes[..count], out),
        None => {
            F::put_hex_fault(number, out)?;
            Ok(true)
        }
    }
}

/// Writes the lines of an input in a form, and returns whether it has a fault. `digits` and `bytes`
/// are room for a line.
pub fn put_lines_as<F: LineForm, W: Sink>(
    input: &[u8],
    digits: &mut [u8],
    bytes: &mut [u8],
    out: &mut W,
) -> Result<bool, IoFault>
    requires digits { longest_input_line ≤ length digits.old }
    requires bytes { most_spelled ≤ length bytes.old }
    ensures wrote { F.IsDefined → Wrote W.Sink result out.old out.new
        (text_as F.LineForm input.now) }
    ensures fault { IfOk result (λ bad. bad ≡ has_fault input.now) }
{
    let mut any = false;
    let mut number = 1;
    let mut left = input;
    'lines: while !left.is_empty() {
        let (line, others) = first_line(left);
        let bad = put_line_as::<F, W>(number, line, digits, bytes, out)?;
        any |= bad;
        number += 1;
        left = others;
    }
    Ok(any)
}
