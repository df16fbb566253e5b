//! Which files a trace may be written over: those that hold nothing, or an earlier trace.

use std::fs::File;
use std::io::ErrorKind;
use std::os::unix::fs::FileExt;
use std::{io, str};

// Number of bytes of a file that are looked at: a line of a trace has fewer before its bytes.
const LOOKED_AT: usize = 32;

// The greatest number of a bus line.
const GREATEST_LINE: u8 = 8;

/// Empties the open file of an earlier trace.
///
/// # Errors
/// It is no regular file, it holds anything else, or can't be looked at. It stays as it is then.
pub(crate) fn empty_earlier(file: &File) -> io::Result<()> {
    let about = file.metadata()?;
    if !about.is_file() {
        return Err(no_file());
    }
    if about.len() == 0 {
        return Ok(());
    }
    let mut bytes = [0; LOOKED_AT];
    let count = file.read_at(&mut bytes, 0)?.min(LOOKED_AT);
    if is_trace(&bytes[..count]) {
        return file.set_len(0);
    }
    Err(io::Error::new(
        ErrorKind::AlreadyExists,
        "it holds something else than a trace",
    ))
}

/// The refusal of a pipe, a device or a folder.
pub(crate) fn no_file() -> io::Error {
    io::Error::new(ErrorKind::InvalidInput, "it is no regular file")
}

// Whether these bytes begin as a trace does: milliseconds, a bus line, and a request or an answer.
fn is_trace(bytes: &[u8]) -> bool {
    let Ok(text) = str::from_utf8(bytes) else {
        return false;
    };
    let mut words = text.split(' ');
    let moment = words.next().and_then(|word| word.parse::<u64>().ok());
    let line = words.next().and_then(|word| word.parse::<u8>().ok());
    let is_line = matches!(line, Some(1..=GREATEST_LINE));
    moment.is_some() && is_line && matches!(words.next(), Some(">" | "<"))
}
