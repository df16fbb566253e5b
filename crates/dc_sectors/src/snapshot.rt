//! What was read of a file that another program may write meanwhile, and whether the file still holds it.
//!
//! A [`Sample`] is a disk over a file which keeps what each sector gave that was read. [`Sample::stands`] reads these
//! sectors again, and compares. Of a file in which no sector returns to what it held before, what both
//! readings gave alike is what the file held at each instant between the two, so all that was read is of one moment:
//! the disk kept its model, with what the file held at that instant as its start
//! ([`what_was_read_twice_stood_between`]). An image of the store is such a file, since a root has a greater generation
//! than those before it, and a page or a commit sector a greater session or sequence.

mod laws;
mod sample;

pub use laws::what_was_read_twice_stood_between;
pub use sample::{Sample, SampleFault};
