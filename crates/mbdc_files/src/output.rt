//! Standard output: what fails of it is noted.

use crate::host::Host;
use crate::image::file_limit;
use crate::why::Why;
use libc::net::{POLLOUT, poll};
use libc::types::pollfd;
use std::fs::File;
use std::io::{ErrorKind, Write};
use std::rt::Files;
use std::{fs, io};

// The descriptor of standard output.
const OUTPUT: i32 = 1;

/// The descriptor of standard error.
pub const ERRORS: i32 = 2;

const SEEK_CUR: i32 = 1;

// Number of bytes that a pipe with any room takes at once (PIPE_BUF of Linux).
const PIECE: usize = 4096;

// Milliseconds for which output that nobody takes is waited for.
const PATIENCE: i32 = 5000;

/// Standard output, whose failed calls are noted. A write to a file that is as long as the limit of files (`ulimit -f`)
/// would end the program by a signal: it fails instead.
#[derive(Drop)]
pub struct Output<'h, W: Write + Drop, R> {
    inner: W,
    rt: &'h R,
    why: &'h Why,
    goes_on: bool,
    has_given_up: bool,
}

impl<'h, W: Write + Drop, R: Files<File = File>> Output<'h, W, R> {
    /// Wraps standard output. A command that goes on without it gives it up once nobody takes it for five seconds: a
    /// write would stop the command.
    pub fn new(output: W, host: &Host<'h, R>, goes_on: bool) -> Self {
        Output {
            inner: output,
            rt: host.rt,
            why: host.why,
            goes_on,
            has_given_up: false,
        }
    }
}

impl<W: Write + Drop, R: Files<File = File>> Write for Output<'_, W, R> {
    fn write(&mut self, bytes: &[u8]) -> io::Result<usize> {
        let piece = if self.goes_on {
            bytes.get(..PIECE).unwrap_or(bytes)
        } else {
            bytes
        };
        let mut output = [pollfd {
            fd: OUTPUT,
            events: POLLOUT,
            revents: 0,
        }];
        // One that takes bytes takes a piece within the time.
        if self.goes_on && !self.has_given_up {
            self.has_given_up = poll(&mut output, PATIENCE) == 0;
        }
        let answer = if self.has_given_up {
            Err(io::Error::new(ErrorKind::TimedOut, "nothing takes it for five seconds"))
        } else if is_full(self.rt, OUTPUT) {
            let words = "it is as long as the limit of files (ulimit -f)";
            Err(io::Error::new(ErrorKind::FileTooLarge, words))
        } else {
            self.inner.write(piece)
        };
        if let Err(error) = answer {
            self.why.note(error);
        }
        answer
    }

    fn flush(&mut self) -> io::Result<()> {
        let answer = self.inner.flush();
        if let Err(error) = answer {
            self.why.note(error);
        }
        answer
    }
}

/// Whether standard output or standard error, of that descriptor, is a file that has the greatest length that this
/// process may write.
pub fn is_full<R: Files<File = File>>(rt: &R, stream: i32) -> bool {
    let limit = file_limit();
    if limit == u64::MAX {
        return false;
    }
    // As Linux shows its files to this process.
    let name = if stream == OUTPUT {
        "/proc/self/fd/1"
    } else {
        "/proc/self/fd/2"
    };
    match fs::metadata(rt, name) {
        Ok(about) if about.is_file() => {
            let place = u64::try_from(libc::lseek(stream, 0, SEEK_CUR)).unwrap_or(0);
            about.len().max(place) >= limit
        }
        _ => false,
    }
}
