//! A stream is cut into frames.

ghost use Rattle.std.specs.Prelude.{◌≡◌};
ghost use Rattle.dc_linkframe.specs.Need.{need_of, up_to};

use crate::frame::{ACK, LONG, SHORT};
use crate::needs::Need;

/// What the frame at the front of these bytes needs, so that a stream is cut into frames.
pub fn need(bytes: &[u8]) -> Need
    ensures { result ≡ need_of bytes.now }
{
    match bytes {
        [] => Need::More(1),
        [ACK, ..] => Need::Whole(1),
        [SHORT, ..] => up_to(5, bytes),
        [LONG, len, again, start, ..] => {
            if len == again && *len >= 3 && *start == LONG {
                up_to(usize::from(*len) + 6, bytes)
            } else {
                Need::Bad
            }
        }
        [LONG, ..] => Need::More(4 - bytes.len()),
        _ => Need::Bad,
    }
}

fn up_to(whole: usize, bytes: &[u8]) -> Need
    ensures { result ≡ up_to whole bytes.now }
{
    if bytes.len() < whole {
        Need::More(whole - bytes.len())
    } else {
        Need::Whole(whole)
    }
}
