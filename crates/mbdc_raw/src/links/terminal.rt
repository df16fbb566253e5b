//! Serial terminals, each of which one program uses at a time: a bus has one master.

use crate::GivenUp;
use crate::links::lock_file::{IN_USE, make};
use std::cell::Cell;
use std::fs::{File, OpenOptions, TryLockError};
use std::io;
use std::io::{ErrorKind, IsTerminal};
use std::os::fd::AsRawFd;
use std::rt::Files;

// The longest path of a terminal.
const LONGEST: usize = 128;

/// A terminal that is open, and locked against other programs: by `flock`, which ends with the
/// program however that ends, and by its lock file, which other programs honour.
#[derive(Drop)]
pub struct Held {
    /// The terminal.
    pub file: File,
    /// The name of the lock file, if one was made.
    pub lock_file: Option<String>,
    /// Why its line was given up, if it was.
    pub deserted: Cell<Option<GivenUp>>,
}

impl Held {
    /// Opens a terminal to read and write, and locks it.
    ///
    /// # Errors
    /// It can't be opened, it is no terminal, or another program uses it; or out of memory.
    pub fn open<R: Files<File = File> + AllocGlobal>(rt: &R, path: &str) -> io::Result<Self> {
        let mut options = OpenOptions::new();
        options.read(true).write(true);
        let file = options.open(rt, path)?;
        // A file that is no terminal has no meters: writing to it would lose the bytes or damage it.
        if !file.is_terminal() {
            return Err(io::Error::new(ErrorKind::InvalidInput, "it is no terminal"));
        }
        match file.try_lock() {
            Ok(()) => {}
            Err(TryLockError::WouldBlock) => {
                return Err(io::Error::new(ErrorKind::WouldBlock, IN_USE));
            }
            Err(TryLockError::Error(error)) => return Err(error),
        }
        // The lock file has the terminal's own name: the path may be a link.
        let mut room = [0; LONGEST];
        let is_named = libc::ttyname_r(file.as_raw_fd(), &mut room) == 0;
        let name = room.split(|byte| *byte == 0).next().unwrap_or_default();
        let lock_file = match str::from_utf8(name) {
            Ok(name) if is_named => make(rt, name)?,
            _ => None,
        };
        Ok(Held {
            file,
            lock_file,
            deserted: Cell::new(None),
        })
    }
}
