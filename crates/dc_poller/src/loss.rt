//! The line of the gateway, and the loss of its bus.

ghost use Rattle.mbdc_io.specs.Written.{Wrote};
ghost use Rattle.dc_poller.specs.Link.{link_by, loss_line, loss_text};

use mbdc_io::{IoFault, Sink};

/// The bus line of `--gateway`.
pub const GATEWAY_LINE: u8 = 1;

/// Writes that the bus was lost, if it was lost since.
pub fn put_loss<W: Sink>(was: bool, is: bool, out: &mut W) -> Result<(), IoFault>
    ensures { Wrote W.Sink result out.old out.new (loss_text (link_by was) (link_by is)) }
{
    match (was, is) {
        (false, true) => put_lost(out),
        _ => Ok(()),
    }
}

/// Writes that the bus was lost.
pub fn put_lost<W: Sink>(out: &mut W) -> Result<(), IoFault>
    ensures { Wrote W.Sink result out.old out.new loss_line }
{
    out.put(b"GATEWAY LOST\n")
}
