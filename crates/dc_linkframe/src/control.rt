//! What a master sends to a meter, and the bytes by which its answer is known (EN 13757-2, link layer;
//! EN 13757-3, CI field).

ghost use Rattle.std.specs.Prelude.{◌≡◌};
ghost use Rattle.dc_linkframe.specs.Control.{is_rsp_ud, req_ud2, request_to, reset_to};
ghost use Rattle.dc_linkframe.specs.Control.{selection_by};
ghost use Rattle.dc_linkframe.specs.Frame.{spelling};

use crate::buffer::FrameBuf;
use crate::writer::{write_long, write_short};

/// Control byte SND_NKE: the meter's link begins anew.
pub const SND_NKE: u8 = 0x40;

/// Control byte SND_UD, data for the meter: its frame count bit counts, and is 0.
pub const SND_UD: u8 = 0x53;

/// Control byte RSP_UD, the meter's data, with neither access demand nor flow control.
pub const RSP_UD: u8 = 0x08;

/// CI of data in the variable data structure, with the long header.
pub const VARIABLE_DATA: u8 = 0x72;

/// CI of an application error.
pub const APPLICATION_ERROR: u8 = 0x70;

/// CI of a selection of meters by identity.
pub const SELECTION: u8 = 0x52;

/// The address of whichever meters are selected.
pub const SELECTED: u8 = 0xFD;

/// Control byte REQ_UD2, the request for data, by its frame count bit.
pub fn req_ud2(bit: bool) -> u8
    ensures { result ≡ req_ud2 bit }
{
    if bit { 0x7B } else { 0x5B }
}

/// Whether a control byte is RSP_UD, with the bits for access demand and flow control either way.
pub fn is_rsp_ud(control: u8) -> bool
    ensures { result ≡ is_rsp_ud control }
{
    matches!(control, 0x08 | 0x18 | 0x28 | 0x38)
}

/// Writes the reset of the link at an address in place of what the buffer held.
pub fn write_reset(address: u8, buf: &mut FrameBuf)
    ensures { buf.new ≡ spelling (reset_to address) }
{
    write_short(SND_NKE, address, buf);
}

/// Writes the request for data from an address, by its frame count bit, in place of what the buffer held.
pub fn write_request(bit: bool, address: u8, buf: &mut FrameBuf)
    ensures { buf.new ≡ spelling (request_to bit address) }
{
    write_short(req_ud2(bit), address, buf);
}

/// Writes the selection by a mask's eight bytes in place of what the buffer held.
pub fn write_selection(mask: &[u8; 8], buf: &mut FrameBuf)
    ensures { buf.new ≡ spelling (selection_by mask.now) }
{
    write_long(SND_UD, SELECTED, SELECTION, mask, buf);
}
