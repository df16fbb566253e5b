//! What the body of a long frame says (EN 13757-3), also where the register refuses it.
//!
//! [`content_of`] reads four structures: the variable data structure with a long header, with a short one and without a
//! header, and the fixed data structure. Their records are those of mbdc_reading, those before a fault too; of an
//! encrypted body there are none. [`Content::reason`] says why the register doesn't take it.
//!
//! Nothing here takes memory.

mod content;
mod counter;
mod fixed;
mod headline;
mod laws;
mod reason;
mod security;
mod units;

pub use content::{Content, Head, Structure, Variable, content_of};
pub use counter::Counter;
pub use fixed::FixedData;
pub use headline::{Key, MOST_TARIFFS, Main, key_of, next_in};
pub use laws::as_the_register_reads;
pub use reason::{REASON_ROOM, Reason};
pub use security::{Security, medium_of, security_name};
pub use units::{FIXED_UNITS, FixedUnit, fixed_unit};
