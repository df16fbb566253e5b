//! The requests of a search, as the meters on a bus read them.

ghost use Rattle.std.specs.Prelude.{◌≡◌, ◌∷◌, [], ℕ, Some, true, option_map, length};
ghost use Rattle.dc_address.specs.Mask.{IsMask, MaskParts, mask_wire};
ghost use Rattle.dc_linkframe.specs.Control.{request_to, selected, selection_by};
ghost use Rattle.dc_linkframe.specs.Frame.{seen, spelling};
ghost use Rattle.mbdc_bus.specs.declared.world.order.Order.TheVariants.{Data, Select};

use dc_address::Mask;
use dc_linkframe::control::{SELECTED, SELECTION, SND_UD, req_ud2};
use dc_linkframe::{Frame, parse};

// Number of bytes of a secondary address.
const WIRE_LEN: usize = 8;

/// A request of a search.
#[derive(Clone, Copy)]
pub(crate) enum Order {
    /// Select the meters that match.
    Select(Mask),
    /// The selected meters send their data, on a request with frame count bit 1.
    Data,
    /// Any request that a search doesn't send.
    Other,
}

/// Reads a request.
pub(crate) fn order_of(request: &[u8]) -> Order
    ensures select { (mask : MaskParts) → IsMask mask
        → request.now ≡ spelling (selection_by (mask_wire mask)) → result ≡ Select mask }
    ensures data { request.now ≡ spelling (request_to true selected) → result ≡ Data }
{
    match parse(request) {
        Ok(frame) => order_in(&frame),
        Err(_) => Order::Other,
    }
}

/// Reads a frame as a request.
fn order_in(frame: &Frame<'_>) -> Order
    ensures select { (mask : MaskParts) → IsMask mask
        → seen frame.now ≡ selection_by (mask_wire mask) → result ≡ Select mask }
    ensures data { seen frame.now ≡ request_to true selected → result ≡ Data }
{
    match frame {
        Frame::Ack => Order::Other,
        Frame::Short { control, address } => {
            if *control == req_ud2(true) && *address == SELECTED {
                Order::Data
            } else {
                Order::Other
            }
        }
        Frame::Long {
            control,
            address,
            ci,
            body,
        } => {
            if *control == SND_UD && *address == SELECTED && *ci == SELECTION {
                selection_in(body)
            } else {
                Order::Other
            }
        }
    }
}

/// The selection with this body.
fn selection_in(body: &[u8]) -> Order
    ensures { (mask : MaskParts) → IsMask mask → body.now ≡ mask_wire mask → result ≡ Select mask }
{
    if body.len() != WIRE_LEN {
        return Order::Other;
    }
    let mut wire = [0; WIRE_LEN];
    wire.copy_from_slice(body);
    match Mask::from_wire(&wire) {
        Some(mask) => Order::Select(mask),
        None => Order::Other,
    }
}
