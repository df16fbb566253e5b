//! Opens the file of an image. One program at a time may change it; others may look at it meanwhile.

ghost use Rattle.std.specs.Prelude.{◌≡◌};
ghost use Rattle.std.specs.IoError.{error_kind};

use libc::net::poll;
use libc::types::rlimit;
use std::fs::{File, Metadata, OpenOptions, TryLockError};
use std::io::ErrorKind;
use std::os::fd::AsRawFd;
use std::os::unix::fs::MetadataExt;
use std::rt::Files;
use std::{fs, io};

// Number of times that a lock is tried before it is refused: two seconds, so that a short command stops nobody.
const TRIES: u32 = 100;

/// The milliseconds between two tries.
pub const PAUSE: i32 = 20;

/// Why a folder, a pipe or a device is refused.
pub const NO_FILE: &str = "it is no regular file";

/// Why a file of another length than the image's is refused.
pub const OTHER_LENGTH: &str = "it has another length";

/// Why a file beyond the limit of this process is refused.
pub const TOO_LONG: &str = "it is longer than the limit of files (ulimit -f)";

// The limit of a file's length, of Linux.
const RLIMIT_FSIZE: i32 = 1;

/// Opens the file to read and write, and locks it while it is open. Its first read goes to the
/// drive.
///
/// # Errors
/// It is no regular file, it can't be opened or synced, or another program holds a lock of it for
/// two seconds. Nothing was changed then.
pub fn open_image<R: Files<File = File>>(rt: &R, name: &str) -> io::Result<File> {
    let mut options = OpenOptions::new();
    options.read(true).write(true);
    let file = open_regular(rt, &options, name)?;
    if file_limit() < file.metadata()?.len() {
        return Err(refused(TOO_LONG));
    }
    lock(&file)?;
    file.sync_data()?;
    drop_cached(&file)?;
    Ok(file)
}

/// Drops the file's pages from the system's cache, once they are synced. If a sync of an earlier
/// program failed, the cache may hold data that the drive lacks, and no call reports it.
pub(crate) fn drop_cached(file: &File) -> io::Result<()> {
    match libc::posix_fadvise(file.as_raw_fd(), 0, 0, libc::POSIX_FADV_DONTNEED) {
        0 => Ok(()),
        error => Err(io::Error::from_raw_os_error(error)),
    }
}

/// Opens a regular file. It is asked for before, since opening a pipe may wait for its other end.
pub(crate) fn open_regular<R: Files<File = File>>(
    rt: &R,
    options: &OpenOptions,
    name: &str,
) -> io::Result<File> {
    if !fs::metadata(rt, name)?.is_file() {
        return Err(refused(NO_FILE));
    }
    let file = options.open(rt, name)?;
    if !file.metadata()?.is_file() {
        return Err(refused(NO_FILE));
    }
    Ok(file)
}

/// The greatest length of a file that this process may write (`ulimit -f`); `u64::MAX` where it can't be asked for. A
/// write beyond it would end the program by a signal.
pub fn file_limit() -> u64 {
    let mut limit = rlimit {
        rlim_cur: u64::MAX,
        rlim_max: u64::MAX,
    };
    if libc::getrlimit(RLIMIT_FSIZE, &mut limit) == 0 {
        limit.rlim_cur
    } else {
        u64::MAX
    }
}

/// The refusal of a file, in these words.
pub fn refused(words: &'static str) -> io::Error
    ensures { error_kind result ≡ ErrorKind.InvalidInput }
{
    io::Error::new(ErrorKind::InvalidInput, words)
}

/// Locks a file that is open: an exclusive advisory lock on the whole file (`flock` of Linux),
/// which ends with the program, however that ends.
///
/// # Errors
/// Another program holds a lock of it for two seconds.
pub fn lock(file: &File) -> io::Result<()> {
    for tried in 0..=TRIES {
        match file.try_lock() {
            Ok(()) => return Ok(()),
            Err(TryLockError::WouldBlock) if tried < TRIES => {
                poll(&mut [], PAUSE);
            }
            Err(TryLockError::WouldBlock) => {}
            Err(TryLockError::Error(error)) => return Err(error),
        }
    }
    Err(io::Error::new(ErrorKind::WouldBlock, "it is open in another mbdc"))
}

/// Whether both are found and are the same file, by device and inode number. The contracts of std state neither number,
/// so this function has no contract.
pub fn is_same_file(one: &io::Result<Metadata>, other: &io::Result<Metadata>) -> bool {
    match (one, other) {
        (Ok(one), Ok(other)) => one.dev() == other.dev() && one.ino() == other.ino(),
        _ => false,
    }
}
