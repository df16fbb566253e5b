//! The lock file of a terminal: the convention by which programs that use serial lines keep out of
//! each other's way (Filesystem Hierarchy Standard 3.0, section 5.9).
//!
//! `/run/lock/LCK..ttyUSB0` holds the number of the process that uses `/dev/ttyUSB0`: ten characters,
//! filled up with spaces, and a line feed.

use std::alloc::{AllocError, Global};
use std::fs::{File, OpenOptions};
use std::io::{ErrorKind, Read, Write};
use std::rt::Files;
use std::{fs, io};

/// Why a terminal isn't opened that another program uses.
pub const IN_USE: &str = "it is in use by another program";

// The folder, and what each name begins with.
const BEFORE: &str = "/run/lock/LCK..";

// The folder of terminals, which is no part of a lock file's name.
const DEVICES: &str = "/dev/";

// Number of times that a lock file is made: each time it was there, its process had ended.
const TRIES: u32 = 3;

/// Makes the lock file of a terminal, and returns its name; `None` where none can be made here: the
/// path isn't below `/dev`, or this user may not write the folder. The file of a process that has
/// ended is replaced.
///
/// # Errors
/// Another process has it, or it names none; or out of memory.
pub fn make<R: Files<File = File> + AllocGlobal>(
    rt: &R,
    terminal: &str,
) -> io::Result<Option<String>> {
    let Some(device) = terminal.strip_prefix(DEVICES) else {
        return Ok(None);
    };
    let name = name_of(rt.alloc(), device)?;
    let text = format!(in rt.alloc(); "{:>10}\n", libc::getpid())?;
    let mut options = OpenOptions::new();
    options.write(true).create_new(true);
    for _ in 0..TRIES {
        match options.open(rt, name.as_str()) {
            Ok(mut file) => {
                if file.write_all(text.as_bytes()).is_ok() {
                    return Ok(Some(name));
                }
                let _ = fs::remove_file(rt, name.as_str());
                return Ok(None);
            }
            Err(error) if error.kind() == ErrorKind::AlreadyExists => {}
            Err(_) => return Ok(None),
        }
        if is_held(rt, name.as_str()) {
            break;
        }
        if fs::remove_file(rt, name.as_str()).is_err() {
            return Ok(None);
        }
    }
    Err(io::Error::new(ErrorKind::WouldBlock, IN_USE))
}

// The slashes of a terminal such as `pts/3` become underscores.
fn name_of(alloc: Global, device: &str) -> Result<String, AllocError> {
    let mut name = format!(in alloc; "{BEFORE}")?;
    for letter in device.chars() {
        name.push(if letter == '/' { '_' } else { letter })?;
    }
    Ok(name)
}

// Whether a lock file is another running process's. One that can't be read, or names no process, is:
// its process may be about to write it.
fn is_held<R: Files<File = File>>(rt: &R, name: &str) -> bool {
    let mut room = [0; 16];
    let Ok(mut file) = fs::open(rt, name) else {
        return true;
    };
    let Ok(count) = file.read(&mut room) else {
        return true;
    };
    let Ok(text) = str::from_utf8(&room[..count.min(room.len())]) else {
        return true;
    };
    match text.trim().parse::<i32>() {
        Ok(process) if process > 0 => process != libc::getpid() && libc::getpgid(process) >= 0,
        _ => true,
    }
}
