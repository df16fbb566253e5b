//! Looks at an image without opening it: its contents as text, its values, status and tables as text and as JSON.
//!
//! [`answer`] reads an image as [`Store::open`](mbdc_log::Store::open) does, and returns the whole text of what is
//! asked ([`Asked`]): its contents, one fact a line; what its meters stand at; when they were last heard, and how full
//! the image is (mbdc_json); a table (dc_upload; as JSON Lines `specs/Report.antt`). Nothing is written to the disk and
//! nothing is synced, not even the next root. Proved: the text states the state that the image reads as, by the
//! definitions that opening follows, or the image's one refusal; and a sector that is ahead of that state is named,
//! where [`scan`] found one ([`Outlook`]).
//!
//! [`register_of`] reads the register of an image in that way, for a command that only needs to know its meters.
#![tactic(auto)]

mod answering;
mod asking;
mod look;
mod register;
mod report;
mod summary;
mod text;

pub use answering::{Shown, answer, scan};
pub use asking::{Asked, Form, Report};
pub use look::Outlook;
pub use register::register_of;
