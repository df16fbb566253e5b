//! The frames of a line and their text.

ghost use Rattle.std.specs.Prelude.{◌≡◌, ◌<◌, ◌≤◌, ◌∷◌, drop, length, Ok, Err, MatchResult};
ghost use Rattle.std.specs.Prelude.{IfOk, OnOk, OnErr};
ghost use Rattle.dc_linkframe.specs.Frame.{seen};
ghost use Rattle.mbdc_io.specs.Written.{Wrote};
ghost use Rattle.mbdc_decode.specs.Frames.{front_len, frames_of, read_as, content_text};
ghost use Rattle.mbdc_decode.specs.Frames.{is_bad_content, short_line, long_line, frame_text};
ghost use Rattle.mbdc_decode.specs.Frames.{is_bad_frame, shown, is_bad};

use crate::line::{WORDS_ROOM, put_byte_word_before, put_number_before};
use crate::telegram::put_telegram;
use dc_linkframe::{Frame, FrameFault, Need, need, parse};
use dc_records::Telegram;
use dc_units::{put_byte, put_piece};
use mbdc_io::{IoFault, Sink, put_byte_word, put_fault_line};

/// The CI field of a variable data structure (EN 13757-3).
const VARIABLE_DATA: u8 = 0x72;

// Number of bytes of the first text.
fn front_len(bytes: &[u8]) -> usize
    ensures { result ≡ front_len bytes.now }
{
    match need(bytes) {
        Need::Whole(len) => len,
        Need::More(_) | Need::Bad => bytes.len(),
    }
}

/// Splits off the first text of a line's bytes, which is read as one frame, and returns it with the
/// rest.
#[tactic(auto, using(crate::proofs::Cuts::cuts))]
pub fn first_frame(bytes: &[u8]) -> (&[u8], &[u8])
    requires { 0 < length bytes.now }
    ensures frames { frames_of bytes.now ≡ result.0.now ∷ frames_of result.1.now }
    ensures shorter { length result.1.now < length bytes.now }
{
    bytes.split_at(front_len(bytes))
}

/// Reads a text as a frame, or returns its fault.
pub fn read(text: &[u8]) -> Result<Frame<'_>, FrameFault>
    ensures { MatchResult result (λ frame. read_as text.now ≡ Ok (seen frame))
        (λ fault. read_as text.now ≡ Err fault) }
{
    parse(text)
}

// Writes the text of a body, if the CI field states a telegram, and returns whether it has a fault.
#[tactic(auto, using(mbdc_io::proofs::Pieces::written), unfolding(crate::specs::Frames::content_text, crate::specs::Frames::is_bad_content))]
fn put_content<W: Sink>(ci: u8, body: &[u8], out: &mut W) -> Result<bool, IoFault>
    ensures wrote { Wrote W.Sink result out.old out.new
        (content_text ci body.now) }
    ensures fault { IfOk result (λ bad. bad ≡ is_bad_content ci body.now) }
{
    if ci != VARIABLE_DATA {
        return Ok(false);
    }
    match Telegram::parse(body) {
        Ok(telegram) => {
            put_telegram(&telegram, out)?;
            Ok(false)
        }
        Err(fault) => {
            put_fault_line(out, b"BODY FAULT", fault.number(), fault.name())?;
            Ok(true)
        }
    }
}

// Writes the line of a short frame.
#[tactic(auto, using(mbdc_io::proofs::Pieces::joined), unfolding(crate::specs::Frames::short_line))]
fn put_short<W: Sink>(control: u8, address: u8, out: &mut W) -> Result<(), IoFault>
    ensures { Wrote W.Sink result out.old out.new (short_line control address) }
{
    out.put(b"SHORT")?;
    put_byte_word(out, control)?;
    put_byte_word(out, address)?;
    out.put(b"\n")
}

// Writes the line of a long frame so that it ends with the room, and returns where it begins.
#[inline(always)]
#[tactic(auto, unfolding(crate::specs::Frames::long_line))]
fn put_long_before(control: u8, address: u8, ci: u8, body: &[u8], room: &mut [u8]) -> usize
    requires { WORDS_ROOM ≤ length room.old }
    ensures start { result ≤ length room.new }
    ensures written { drop result room.new ≡ long_line control address ci body.now }
{
    let end = room.len();
    put_byte(b'\n', room, end);
    let end = put_number_before(body.len() as u64, room, end - 1);
    let end = put_byte_word_before(ci, room, end);
    let end = put_byte_word_before(address, room, end);
    let end = put_byte_word_before(control, room, end);
    put_piece(b"LONG", room, end)
}

// Writes the line of a long frame.
fn put_long<W: Sink>(
    control: u8,
    address: u8,
    ci: u8,
    body: &[u8],
    out: &mut W,
) -> Result<(), IoFault>
    ensures { Wrote W.Sink result out.old out.new
        (long_line control address ci body.now) }
{
    let mut room = [0u8; WORDS_ROOM];
    let start = put_long_before(control, address, ci, body, &mut room);
    out.put(&room[start..])
}

// Writes the text of a frame, and returns whether its body has a fault.
#[tactic(auto, using(mbdc_io::proofs::Pieces::written))]
fn put_frame<W: Sink>(frame: Frame<'_>, out: &mut W) -> Result<bool, IoFault>
    ensures wrote { Wrote W.Sink result out.old out.new
        (frame_text (seen frame.entry)) }
    ensures fault { IfOk result (λ bad. bad ≡ is_bad_frame (seen frame.entry)) }
{
    match frame {
        Frame::Ack => {
            out.put(b"ACK\n")?;
            Ok(false)
        }
        Frame::Short { control, address } => {
            put_short(control, address, out)?;
            Ok(false)
        }
        Frame::Long {
            control,
            address,
            ci,
            body,
        } => {
            put_long(control, address, ci, body, out)?;
            put_content(ci, body, out)
        }
    }
}

/// Writes the line of a text, frame or fault, and returns whether it has a fault.
#[tactic(auto, using(mbdc_io::proofs::Pieces::written), unfolding(crate::specs::Frames::shown, crate::specs::Frames::is_bad))]
pub fn put_shown<W: Sink>(text: &[u8], out: &mut W) -> Result<bool, IoFault>
    ensures wrote { Wrote W.Sink result out.old out.new (shown text.now) }
    ensures fault { IfOk result (λ bad. bad ≡ is_bad text.now) }
{
    match read(text) {
        Ok(frame) => put_frame(frame, out),
        Err(fault) => {
            put_fault_line(out, b"FRAME FAULT", fault.number(), fault.name())?;
            Ok(true)
        }
    }
}
