//! The standard streams. Descriptors 0, 1 and 2 are theirs, also where the caller closed them: a file that got one of
//! these numbers would be printed over.

use libc::net::{POLLNVAL, poll};
use libc::types::pollfd;
use std::fs::{File, OpenOptions};
use std::io;
use std::os::fd::{AsRawFd, IntoRawFd};
use std::rt::Files;

/// Stands for a closed stream: empty to read, and what is written to it is gone.
pub const NOWHERE: &str = "/dev/null";

// The descriptor of standard error, the greatest of the three.
const LAST: i32 = 2;

/// Opens `/dev/null` for each standard stream that is closed. It has to be called before anything else is opened.
///
/// # Errors
/// A stream is closed, and `/dev/null` can't be opened. Then the next file may get the number of a stream.
pub fn hold<R: Files<File = File>>(rt: &R) -> io::Result<()> {
    let input = pollfd {
        fd: 0,
        events: 0,
        revents: 0,
    };
    let mut streams = [
        input,
        pollfd { fd: 1, ..input },
        pollfd { fd: LAST, ..input },
    ];
    // Each is open, for reading or for writing.
    if poll(&mut streams, 0) >= 0 && streams.iter().all(|it| it.revents & POLLNVAL == 0) {
        return Ok(());
    }
    let mut options = OpenOptions::new();
    options.read(true).write(true);
    for _ in 0..=LAST + 1 {
        let file = options.open(rt, NOWHERE)?;
        if file.as_raw_fd() > LAST {
            return Ok(());
        }
        // It stays open until the program ends.
        let _ = file.into_raw_fd();
    }
    Ok(())
}
