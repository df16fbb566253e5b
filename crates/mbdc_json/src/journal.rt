//! What the journal beside an image says of the meters: when each was last read, the telegrams that it sent then, and
//! how its later tries failed.
//!
//! [`read_journal`] takes the lines of a journal, each a JSON object (RFC 8259), and keeps of each meter one [`Noted`].
//! A line that is no such object, or that is of no meter, is passed over: a journal is a hint.

mod entry;
mod journal;
mod kept;
mod noted;

pub use entry::{Entry, Line, Said, read_line};
pub use journal::{Journal, read_journal};
pub use kept::Kept;
pub use noted::{Failing, Noted, Taken};
