//! The form of `decode`: lines of text.

ghost use Rattle.std.specs.Prelude.{◌≡◌, IfOk, OnOk, OnErr};
ghost use Rattle.mbdc_io.specs.Written.{Wrote};
ghost use Rattle.mbdc_decode.specs.Frames.{frames_of, all_shown, any_bad};

use crate::form::LineForm;
use crate::frames::put_shown;
use crate::lines::put_frames_as;
use mbdc_io::{IoFault, Sink};

/// The form of `decode`: a line of text for each fact.
pub struct Text;

impl LineForm for Text {
    ghost use Rattle.std.specs.Prelude.{codes};
    ghost use Rattle.mbdc_decode.specs.Frames.{shown};

    ghost frame_text = { λ _ bytes. shown bytes };

    ghost fault_text = { λ _. codes "HEX FAULT\n" };

    fn put_frame<W: Sink>(
        _line: u64,
        _start: usize,
        bytes: &[u8],
        out: &mut W,
    ) -> Result<bool, IoFault> {
        put_shown(bytes, out)
    }

    fn put_hex_fault<W: Sink>(_line: u64, out: &mut W) -> Result<(), IoFault> {
        out.put(b"HEX FAULT\n")
    }
}

/// Writes the lines of the frames in a line's bytes, and returns whether one has a fault.
#[tactic(auto, unfolding(crate::specs::Frames::all_shown))]
pub fn put_frames<W: Sink>(bytes: &[u8], out: &mut W) -> Result<bool, IoFault>
    ensures wrote { Wrote W.Sink result out.old out.new
        (all_shown (frames_of bytes.now)) }
    ensures fault { IfOk result (λ bad. bad ≡ any_bad (frames_of bytes.now)) }
{
    put_frames_as::<Text, W>(1, bytes, out)
}
