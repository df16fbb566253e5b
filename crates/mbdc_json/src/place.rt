//! The place of a fault, and what was expected there.

use dc_linkframe::FrameFault;
use dc_records::{BodyFault, Telegram};

// Number of bytes of a telegram's header, and the place of the security mode in it (EN 13757-3,
// long data header).
const HEADER: usize = 12;

const MODE: usize = 11;

// Number of bytes of a meter's number, two digits each; its manufacturer follows.
const NUMBER: usize = 4;

/// The place of a frame fault in a text, in bytes from its start, and what was expected there.
pub(crate) fn frame_place(text: &[u8], fault: FrameFault) -> (usize, &'static str) {
    let last = text.len().saturating_sub(1);
    match fault {
        FrameFault::Empty => (0, "a frame"),
        FrameFault::Start => (0, "E5, 10 or 68"),
        FrameFault::Truncated => (text.len(), "more bytes of the frame"),
        FrameFault::Lengths => (1, "two equal lengths of 3 or more, and 68 again"),
        FrameFault::Trailing => (last, "no byte after the frame"),
        FrameFault::Stop => (last, "16"),
        FrameFault::Checksum => (last.saturating_sub(1), "the sum of the bytes before it"),
    }
}

/// The place of a fault in a body, in bytes from its start, and what was expected there.
pub(crate) fn body_place(body: &[u8], fault: BodyFault) -> (usize, &'static str) {
    // the longest prefix that is a telegram: its header and whole items
    let item = (HEADER..body.len())
        .rev()
        .find(|end| Telegram::parse(&body[..*end]).is_ok())
        .unwrap_or(0);
    match fault {
        BodyFault::Short => (body.len(), "a header of 12 bytes"),
        BodyFault::BadIdentity => {
            let mut number = body.iter().take(NUMBER);
            match number.position(|byte| *byte / 16 > 9 || *byte % 16 > 9) {
                Some(place) => (place, "two digits of the meter's number"),
                None => (NUMBER, "three letters of the manufacturer"),
            }
        }
        BodyFault::Encrypted => (MODE, "security mode 0"),
        BodyFault::ReservedDif => (item, "a DIF that isn't reserved"),
        BodyFault::TooManyDife => (item, "a record of at most ten DIFEs"),
        BodyFault::TooManyVife => (item, "a record of at most ten VIFEs"),
        BodyFault::BadLength => (item, "a record with a length byte below F0"),
        BodyFault::PlainTextExtension => (item, "a record whose VIF isn't FC"),
        BodyFault::Cut => (item, "a whole record"),
    }
}
