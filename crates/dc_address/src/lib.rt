//! Meters by name: identities, selection masks and primary addresses (EN 13757-2, EN 13757-3).
//!
//! An identity is what a telegram's fixed data header carries: an identification number of eight
//! decimal digits, a manufacturer of three letters, a version and a device type. Its eight bytes and its
//! printed text, as `12345678.PAD.01.07`, each have one spelling: what is written reads back to the same
//! identity, what is read is written back to the same bytes, and nothing else is read. A text that is
//! none is refused by the first fault that stands.
//!
//! A mask is what a selection asks for: each digit, the manufacturer, the version and the type, or a
//! wildcard in its place. Which identities match is its definition.
//!
//! Nothing here takes memory.
#![tactic(auto)]

mod digits;
mod fault;
mod identity;
mod laws;
mod maker;
mod mask;
mod primary;
mod text;

pub use fault::IdentityFault;
pub use identity::Identity;
pub use laws::{
    mask_of_all_matches_all, mask_of_asks_for_one, masks_are_read_as_sent, order_of,
    with_digit_narrows,
};
pub use mask::Mask;
pub use primary::Primary;
