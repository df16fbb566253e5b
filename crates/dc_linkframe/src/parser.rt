//! A text is read as a frame.

ghost use Rattle.std.specs.Prelude.{◌≡◌, Some, IfOk, IfErr, IsOkAnd, option_map, slice_index};
ghost use Rattle.std.specs.Result.{result_ok};
ghost use Rattle.dc_linkframe.specs.declared.fault.FrameFault.{FrameFault};
ghost use Rattle.dc_linkframe.specs.Frame.{FrameSeen, Spells, seen};
ghost use Rattle.dc_linkframe.specs.Fault.{fault_of};
ghost use Rattle.dc_linkframe.specs.Reading.{frame_of};

use crate::checksum::checksum;
use crate::fault::FrameFault;
use crate::frame::{ACK, Frame, LONG, SHORT, STOP};

/// Reads the frame that the whole text spells.
pub fn parse(text: &[u8]) -> Result<Frame<'_>, FrameFault>
    ensures found { IfOk result (λ frame. Spells text.now (seen frame)) }
    ensures only { (frame : FrameSeen) → Spells text.now frame
        → IsOkAnd result (λ f. seen f ≡ frame) }
    ensures refused { IfErr result (λ fault. fault_of text.now ≡ Some fault) }
    ensures fault { (fault : FrameFault) → fault_of text.now ≡ Some fault → result ≡ Err fault }
    ensures exact { option_map seen (result_ok result) ≡ frame_of text.now }
{
    read(text)
}

fn read(text: &[u8]) -> Result<Frame<'_>, FrameFault>
    ensures found { IfOk result (λ frame. Spells text.now (seen frame)) }
    ensures refused { IfErr result (λ fault. fault_of text.now ≡ Some fault) }
{
    match text {
        [] => Err(FrameFault::Empty),
        [ACK] => Ok(Frame::Ack),
        [ACK, ..] => Err(FrameFault::Trailing),
        [SHORT, ..] => read_short(text),
        [LONG, ..] => read_long(text),
        _ => Err(FrameFault::Start),
    }
}

fn read_short(text: &[u8]) -> Result<Frame<'_>, FrameFault>
    requires { slice_index text.now 0 ≡ SHORT }
    ensures found { IfOk result (λ frame. Spells text.now (seen frame)) }
    ensures refused { IfErr result (λ fault. fault_of text.now ≡ Some fault) }
{
    let [_, control, address, sum, stop, more @ ..] = text else {
        return Err(FrameFault::Truncated);
    };
    if !more.is_empty() {
        return Err(FrameFault::Trailing);
    }
    if *stop != STOP {
        return Err(FrameFault::Stop);
    }
    if *sum != checksum(&[*control, *address]) {
        return Err(FrameFault::Checksum);
    }
    Ok(Frame::Short {
        control: *control,
        address: *address,
    })
}

fn read_long(text: &[u8]) -> Result<Frame<'_>, FrameFault>
    requires { slice_index text.now 0 ≡ LONG }
    ensures found { IfOk result (λ frame. Spells text.now (seen frame)) }
    ensures refused { IfErr result (λ fault. fault_of text.now ≡ Some fault) }
{
    let [_, len, again, start, rest @ ..] = text else {
        return Err(FrameFault::Truncated);
    };
    let len_of_content = usize::from(*len);
    if rest.len() < len_of_content + 2 {
        return Err(FrameFault::Truncated);
    }
    if len != again || *start != LONG {
        return Err(FrameFault::Lengths);
    }
    let (content, end) = rest.split_at(len_of_content);
    let [control, address, ci, body @ ..] = content else {
        return Err(FrameFault::Lengths);
    };
    let [sum, stop] = end else {
        return Err(FrameFault::Trailing);
    };
    if *stop != STOP {
        return Err(FrameFault::Stop);
    }
    if *sum != checksum(content) {
        return Err(FrameFault::Checksum);
    }
    Ok(Frame::Long {
        control: *control,
        address: *address,
        ci: *ci,
        body,
    })
}
