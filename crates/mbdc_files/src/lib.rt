//! The files of images, as the commands open and make them, and what failed on the way.
//!
//! [`open_image`] opens an image for one program that changes it; its first read goes to the drive. [`open_disk`] makes
//! a disk of it, which fails once the file has lost its name. [`LookedAt`] is an image that is looked at, also while a
//! program changes it: what a look reads is of one instant ([`LookDisk`]); [`Shelf::copy`] copies all of it into memory.
//! [`hold`] gives each closed standard stream to `/dev/null`, so that no image gets its number.
//!
//! A [`Shelf`] has the files in which images are made. [`format_image`] makes an image in a file of its own
//! ([`HalfMade`]), which gets the name once it is whole; no file that holds anything but zeros is touched.
//! [`back_up`] copies an image to such a file.
//!
//! [`Journal`] appends lines to the file beside an image, whose failures change nothing of a command. [`journal_lines`]
//! reads them, and [`own_lines`] are those of this image. What is no journal is neither read nor written.
//!
//! A [`Host`] is the system as the commands see it, with the record of its failed calls ([`Why`]). An [`ImageFile`], a
//! [`Noted`] input and [`Output`] put their failed calls there. [`holder_of`] names the process that has a file locked.
//!
//! No contract states what a file or a cell holds and what a lock does; the tests use real files. Contracts state that
//! an [`ImageFile`] returns what std's file did, but for failures, what
//! [`format_image`] and [`back_up`] have made of a [`Shelf`] at status 0, how they end otherwise, the kind of this
//! crate's own refusals, and what a [`Noted`] wraps.
#![tactic(auto)]

mod copied;
mod format;
mod half_made;
mod holder;
mod host;
mod image;
mod image_file;
mod journal;
mod looking;
mod output;
mod shelf;
mod streams;
mod why;
mod zeros;

pub use copied::{Copied, back_up};
pub use format::format_image;
pub use half_made::HalfMade;
pub use holder::{holder_in, holder_of};
pub use host::Host;
pub use image::{file_limit, open_image, refused};
pub use image_file::{ImageFile, open_disk};
pub use journal::{Journal, journal_lines, own_lines};
pub use looking::{LookDisk, LookedAt, ROUNDS};
pub use output::{ERRORS, Output, is_full};
pub use shelf::Shelf;
pub use streams::{NOWHERE, hold};
pub use why::{DiskReason, Noted, Reason, Why, without_number};
