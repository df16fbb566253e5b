//! When the meters of a house were last heard, and how full its image is: the text of `mbdc status`.
//!
//! [`put_status`] writes, at a clock that is handed in, a line for each registered meter by flat: the newest telegram
//! of it that the register holds, how long ago that was, whether it is silent, and what its status byte says; then how
//! full the image is, in how many days it is full at this pace, and how many more readings it has room for.
//! [`put_status_objects`] writes the same as JSON objects. [`any_silent`] says whether a meter is silent.
//!
//! What is shown of a meter is one row (`specs/Row.antt`), which each form writes.
//!
//! Proved: each text is exactly the one that `specs/` defines of the state and the clock. What its rows mean is a law:
//! [`rows_mean_what_they_say`].

mod full;
mod laws;
mod lines;
mod object;
mod row;
mod silence;

pub use laws::rows_mean_what_they_say;
pub(crate) use lines::failure_name;
pub use lines::put_status;
pub use object::put_status_objects;
pub(crate) use row::{Row, Told, is_later, row_at, taken_at};
pub(crate) use silence::moment_of;
pub use silence::{Clock, any_silent};
