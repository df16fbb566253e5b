//! The link frames of bytes, one after the other.

ghost use Rattle.std.specs.Prelude.{◌≡◌, ◌∷◌, ◌<◌, ◌≤◌, length, drop};
ghost use Rattle.mbdc_decode.specs.Frames.{frames_of, read_as};
ghost use Rattle.mbdc_library.specs.Frames.{between, frame_result, plain_read};

use crate::results::{DONE, END, FAULT};
use dc_linkframe::Frame;
use mbdc_decode::{first_frame, frames_are_told_in_turn, read_frame};

// Where the body of a long frame begins (EN 13757-2).
const BODY: u64 = 7;

/// A link frame (EN 13757-2), or bytes that are none, as C lays it out.
#[derive(Clone, Copy)]
#[repr(C)]
pub struct PlainFrame {
    /// 1 for an acknowledgement, 2 for a short frame, 3 for a long one, 0 for bytes that are none.
    pub kind: u64,
    /// The control byte of a short or a long frame.
    pub control: u64,
    /// The address of a short or a long frame.
    pub address: u64,
    /// The CI byte of a long frame.
    pub ci: u64,
    /// The place of a long frame's body.
    pub body_at: u64,
    /// The number of bytes of a long frame's body.
    pub body_size: u64,
    /// The place after the frame.
    pub next: u64,
}

/// Writes to `out` the frame that begins at a place of bytes, or that none does, and where the next one begins.
///
/// Returns `DONE`, `END` from the last byte on, or `FAULT` and the number of the frame's fault.
#[tactic(auto, using(crate::proofs::Cuts::cut, crate::proofs::Cuts::told))]
#[unsafe(no_mangle)]
pub extern "C" fn mbdc_next_frame(bytes: &[u8], at: u64, out: &mut PlainFrame) -> u64
    // The bytes from there to the next place are the next text that is read as a frame.
    ensures text { at < length bytes.now → frames_of (drop at bytes.now)
        ≡ between bytes.now at out.new.next ∷ frames_of (drop out.new.next bytes.now) }
    ensures frame { at < length bytes.now → out.new
        ≡ plain_read at out.new.next (read_as (between bytes.now at out.new.next)) }
    ensures result { at < length bytes.now → result
        ≡ frame_result (read_as (between bytes.now at out.new.next)) }
    // The walk ends.
    ensures on { at < length bytes.now → at < out.new.next }
    ensures within { at < length bytes.now → out.new.next ≤ length bytes.now }
    ensures end { length bytes.now ≤ at → result ≡ END }
    ensures untouched { length bytes.now ≤ at → out.new ≡ out.old }
{
    frames_are_told_in_turn();
    if at >= bytes.len() as u64 {
        return END;
    }
    let (_, left) = bytes.split_at(at as usize);
    let (text, rest) = first_frame(left);
    let found = read_frame(text);
    let (kind, control, address, ci, body_at, body_size) = match found {
        Ok(Frame::Ack) => (1, 0, 0, 0, 0, 0),
        Ok(Frame::Short { control, address }) => (2, control, address, 0, 0, 0),
        Ok(
            Frame::Long {
                control,
                address,
                ci,
                body,
            },
        ) => (3, control, address, ci, at + BODY, body.len()),
        Err(_) => (0, 0, 0, 0, 0, 0),
    };
    *out = PlainFrame {
        kind,
        control: u64::from(control),
        address: u64::from(address),
        ci: u64::from(ci),
        body_at,
        body_size: body_size as u64,
        next: (bytes.len() - rest.len()) as u64,
    };
    match found {
        Ok(_) => DONE,
        Err(fault) => FAULT + u64::from(fault.number()),
    }
}
