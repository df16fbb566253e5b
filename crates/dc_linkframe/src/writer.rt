//! Frames are written as they are spelled.

ghost use Rattle.std.specs.Prelude.{◌≡◌, ◌≤◌, length};
ghost use Rattle.dc_linkframe.specs.Frame.{spelling, short, long, longest_body};

use crate::buffer::FrameBuf;
use crate::checksum::checksum;
use crate::frame::{LONG, SHORT, STOP};

/// Writes a short frame in place of what the buffer held.
pub fn write_short(control: u8, address: u8, buf: &mut FrameBuf)
    ensures { buf.new ≡ spelling (short control address) }
{
    *buf = FrameBuf::new();
    buf.append(&[SHORT, control, address, checksum(&[control, address]), STOP]);
}

/// Writes a long frame in place of what the buffer held.
pub fn write_long(control: u8, address: u8, ci: u8, body: &[u8], buf: &mut FrameBuf)
    requires { length body.now ≤ longest_body }
    ensures { buf.new ≡ spelling (long control address ci body.now) }
{
    let len = 3 + body.len() as u8;
    *buf = FrameBuf::new();
    buf.append(&[LONG, len, len, LONG, control, address, ci]);
    buf.append(body);
    let sum = checksum(&buf.as_slice()[4..]);
    buf.append(&[sum, STOP]);
}
