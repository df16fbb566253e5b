//! A file of std with the history of its calls.

ghost use Rattle.std.specs.Prelude.{◌≡◌, [], IfOk, IfSome, IsErr, ◌≤ℤ◌, pos};
ghost use Rattle.dc_sectors.specs.Note.{calls_of};

use crate::call_log::{CallLog, GOT, MEASURED, PUT, SYNCED};
use crate::{FileCalls, ReadFault};
use std::fs::OpenFile;
use std::io;
use std::os::fd::AsRawFd;
use std::os::unix::fs::FileExt;

// The descriptor of standard error, the greatest of the three streams.
const LAST_STREAM: i32 = 2;

// The error number of Linux for bytes that the drive can't read.
const EIO: i32 = 5;

/// A file of std with the history of its calls.
///
/// Each method makes one call of std, adds it with its result to the history, and keeps the message of a read that
/// failed. It does nothing else. No contract of std relates a call to the file, so these four methods are to be read.
///
/// What the file held before the first call is a value in the log. Nothing is assumed of what its calls return.
#[derive(Drop)]
pub struct Logged<F: FileExt + OpenFile + Drop> {
    file: F,
    log: CallLog,
    is_lenient: bool,
    /// The system's message for the last read that failed.
    pub error: Option<io::Error>,
}

impl<F: FileExt + OpenFile + AsRawFd + Drop> Logged<F> {
    /// Begins the history of an open file. Where it is lenient, as for what only looks at it, a sector that the drive
    /// can't read (EIO of POSIX) is `Unreadable`. It is a failure otherwise.
    ///
    /// # Errors
    /// The file's descriptor is that of a standard stream (0, 1 or 2), whose text would be written over its sectors.
    pub fn new(file: F, is_lenient: bool) -> io::Result<Logged<F>>
        ensures opened { IfOk result (λ logged. ⟦<Logged<F> as FileCalls>⟧.history logged ≡ []) }
        ensures no_stream { IfSome (F.raw_fd file) (λ fd. fd ≤ℤ pos 2 → IsErr result) }
    {
        if file.as_raw_fd() <= LAST_STREAM {
            return Err(io::Error::new(
                io::ErrorKind::InvalidInput,
                "its descriptor is that of a standard stream",
            ));
        }
        Ok(Logged {
            file,
            log: CallLog::new(),
            is_lenient,
            error: None,
        })
    }
}

impl<F: FileExt + OpenFile + Drop> FileCalls for Logged<F> {
    ghost history = { λ f. calls_of f.log.notes };

    ghost start = { λ f. f.log.start };

    fn measure(&mut self) -> io::Result<u64> {
        match self.file.metadata() {
            Ok(facts) => {
                let length = facts.len();
                self.log.note(&[MEASURED, 0, length, 1], &[]);
                Ok(length)
            }
            Err(error) => {
                self.log.note(&[MEASURED, 0, 0, 0], &[]);
                Err(error)
            }
        }
    }

    fn read_some(&mut self, at: u64, bytes: &mut [u8]) -> Result<usize, ReadFault> {
        let asked = bytes.len() as u64;
        match self.file.read_at(bytes, at) {
            Ok(n) => {
                self.log.note(&[GOT, at, asked, 1], &bytes[..n]);
                Ok(n)
            }
            Err(error) if self.is_lenient && error.raw_os_error() == Some(EIO) => {
                self.log.note(&[GOT, at, asked, 2], &[]);
                self.error = Some(error);
                Err(ReadFault::Unreadable)
            }
            Err(error) => {
                self.log.note(&[GOT, at, asked, 0], &[]);
                self.error = Some(error);
                Err(ReadFault::Failed)
            }
        }
    }

    fn write_some(&mut self, at: u64, bytes: &[u8]) -> io::Result<usize> {
        let answer = self.file.write_at(bytes, at);
        match answer {
            Ok(n) => self.log.note(&[PUT, at, n as u64, 1], bytes),
            Err(_) => self.log.note(&[PUT, at, 0, 0], bytes),
        }
        answer
    }

    fn sync_once(&mut self) -> io::Result<()> {
        let answer = self.file.sync_data();
        match answer {
            Ok(()) => self.log.note(&[SYNCED, 0, 0, 1], &[]),
            Err(_) => self.log.note(&[SYNCED, 0, 0, 0], &[]),
        }
        answer
    }
}
