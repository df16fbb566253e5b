//! Which process holds the lock of a file.

use std::fs::File;
use std::io::Read;
use std::os::unix::fs::MetadataExt;
use std::rt::Files;
use std::{fs, str};

// The locks that Linux shows (proc(5)), a line each: `1: FLOCK  ADVISORY  WRITE 4711 fd:01:131 0 EOF`.
const LOCKS: &str = "/proc/locks";

// Number of bytes of it that are looked at.
const ROOM: usize = 16_384;

// Number of reads: the system gives a page or less at a time.
const READS: usize = 64;

/// The process that holds a lock of the file of that name (`flock` of Linux), where the system shows it. A file system
/// that shows its files under another device than its locks hides it, and so does another process namespace.
pub fn holder_of<R: Files<File = File>>(rt: &R, name: &str) -> Option<u32> {
    let about = fs::metadata(rt, name).ok()?;
    let mut file = fs::open(rt, LOCKS).ok()?;
    let mut room = [0; ROOM];
    let mut count: usize = 0;
    // As far as there is room.
    for _ in 0..READS {
        let at = count.min(ROOM);
        match file.read(&mut room[at..]) {
            Ok(0) | Err(_) => break,
            Ok(more) => count = count.saturating_add(more),
        }
    }
    let text = str::from_utf8(&room[..count.min(ROOM)]).ok()?;
    holder_in(text, about.dev(), about.ino())
}

/// The process that holds a lock of the file of this device and inode number, by the lines of `/proc/locks`. A last
/// line that was cut counts for nothing. What the system shows is in no contract.
pub fn holder_in(locks: &str, device: u64, inode: u64) -> Option<u32> {
    let (whole, _) = locks.rsplit_once('\n')?;
    whole.lines().find_map(|line| {
        let mut words = line.split_whitespace();
        // A line of one that waits has `->` before the kind.
        if words.nth(1) != Some("FLOCK") {
            return None;
        }
        let process = words.nth(2)?.parse::<u32>().ok()?;
        if process > 0 && is_place_of(words.next()?, device, inode) {
            Some(process)
        } else {
            None
        }
    })
}

// Whether these three numbers are the file's: the two of its device, as the C library splits them, and the inode's.
fn is_place_of(place: &str, device: u64, inode: u64) -> bool {
    let mut numbers = place.split(':');
    let (Some(major), Some(minor), Some(number)) = (numbers.next(), numbers.next(), numbers.next())
    else {
        return false;
    };
    let of_major = ((device >> 8) & 0xFFF) | ((device >> 32) & 0xFFFF_F000);
    let of_minor = (device & 0xFF) | ((device >> 12) & 0xFFFF_FF00);
    matches!(u64::from_str_radix(major, 16), Ok(read) if read == of_major)
        && matches!(u64::from_str_radix(minor, 16), Ok(read) if read == of_minor)
        && matches!(number.parse::<u64>(), Ok(read) if read == inode)
}
