//! The file of an image's journal. What fails here costs a view, and nothing else.

use crate::image::{NO_FILE, file_limit, is_same_file, refused};
use crate::why::without_number;
use mbdc_io::first_line;
use std::alloc::AllocError;
use std::fs::{File, OpenOptions};
use std::io::{ErrorKind, Read, Seek, SeekFrom, Write};
use std::os::unix::fs::OpenOptionsExt;
use std::rt::Files;
use std::{fs, io, str};

// What follows the image's name, and what follows that of the file that was full.
const JOURNAL: &str = ".journal";

const EARLIER: &str = ".journal.1";

const NO_JOURNAL: &str = "it is no journal";

const NO_PLACE: &str = "it is full, and what has its name with .1 is no journal";

// A file of that many bytes is full: a command that begins puts it aside. So both files have at most twice as many, and
// what one command writes.
const FULL: u64 = 8 * 1024 * 1024;

// Readable and writable only by its owner: readings are personal data.
const MODE: u32 = 0o600;

/// The journal of an image, to which lines are appended. The first failure is named on standard error, and nothing more
/// is written then.
#[derive(Drop)]
pub struct Journal<'h, R> {
    rt: &'h R,
    name: String,
    file: Option<File>,
    length: u64,
}

impl<'h, R: Files<File = File> + Eprint + AllocGlobal> Journal<'h, R> {
    /// Opens the journal of that image, or makes it. One that is full is put aside first.
    pub fn open(rt: &'h R, image: &str) -> Option<Self> {
        let name = format!(in rt.alloc(); "{image}{JOURNAL}").ok()?;
        let mut journal = Journal {
            rt,
            name,
            file: None,
            length: 0,
        };
        if let Err(error) = journal.begin(image) {
            name_failure(rt, journal.name.as_str(), &error);
            return None;
        }
        Some(journal)
    }

    fn begin(&mut self, image: &str) -> io::Result<()> {
        let name = self.name.as_str();
        if let Some(file) = open_journal(self.rt, image, name)?
            && file.metadata()?.len() >= FULL
        {
            let earlier = format!(in self.rt.alloc(); "{image}{EARLIER}")?;
            if open_journal(self.rt, image, earlier.as_str()).is_err() {
                return Err(refused(NO_PLACE));
            }
            fs::rename(self.rt, name, earlier.as_str())?;
        }
        let mut options = OpenOptions::new();
        options.read(true).append(true).create(true).mode(MODE);
        let mut file = options.open(self.rt, name)?;
        self.length = file.metadata()?.len();
        // The last line has no line feed after a power cut, or where the drive was full.
        let mut last = *b"\n";
        if self.length > 0 {
            file.seek(SeekFrom::Start(self.length - 1))?;
            let _ = file.read(&mut last)?;
        }
        self.file = Some(file);
        if last != *b"\n" {
            self.append(b"\n");
        }
        Ok(())
    }

    /// Appends a line, with its line feed, in one write.
    pub fn append(&mut self, line: &[u8]) {
        let Some(file) = &self.file else {
            return;
        };
        let length = self.length.saturating_add(line.len() as u64);
        let mut file = file;
        // A write beyond the limit would end the program by a signal.
        let written = if length > file_limit() {
            Err(io::Error::from(ErrorKind::FileTooLarge))
        } else {
            file.write(line)
        };
        let error = match written {
            Ok(taken) if taken >= line.len() => {
                self.length = length;
                return;
            }
            Ok(_) => io::Error::from(ErrorKind::StorageFull),
            Err(error) => error,
        };
        self.file = None;
        name_failure(self.rt, self.name.as_str(), &error);
    }

    /// Whether the journal of that image has a line that says the same, whenever that was written.
    ///
    /// # Errors
    /// Out of memory.
    pub fn has(&self, image: &str, line: &[u8]) -> Result<bool, AllocError> {
        let Some(lines) = journal_lines(self.rt, image)? else {
            return Ok(false);
        };
        let said = said_in(line.trim_ascii_end());
        Ok(
            lines
                .split(|byte| *byte == b'\n')
                .any(|line| said_in(line) == said),
        )
    }
}

// What a line says after its moment.
fn said_in(line: &[u8]) -> &[u8] {
    match line.iter().position(|byte| *byte == b',') {
        Some(at) => line.get(at..).unwrap_or(line),
        None => line,
    }
}

// Says why a journal isn't used, without the number that the system's message has.
fn name_failure<R: Eprint + AllocGlobal>(rt: &R, name: &str, error: &io::Error) {
    if let Ok(said) = format!(in rt.alloc(); "{error}") {
        let words = without_number(said.as_str());
        let _ = eprint!(rt; "mbdc: journal: {name}: {words}\n");
    }
}

// Opens what has that name, unless it is no journal of that image; none where there is nothing. A journal is a file of
// its own that is empty or begins with an object. Opening a device or a pipe may do something.
fn open_journal<R: Files<File = File>>(
    rt: &R,
    image: &str,
    name: &str,
) -> io::Result<Option<File>> {
    let about = match fs::symlink_metadata(rt, name) {
        Ok(about) => about,
        Err(error) if error.kind() == ErrorKind::NotFound => return Ok(None),
        Err(error) => return Err(error),
    };
    if !about.is_file() {
        return Err(refused(NO_FILE));
    }
    let file = fs::open(rt, name)?;
    let mut first = *b"{";
    let mut reader = &file;
    let _ = reader.read(&mut first)?;
    let about = file.metadata()?;
    if is_same_file(&fs::metadata(rt, image), &Ok(about)) || first != *b"{" {
        return Err(refused(NO_JOURNAL));
    }
    Ok(Some(file))
}

// The most bytes of a file that are read: the last ones.
const MOST: u64 = 2 * FULL;

/// The lines of an image's journal, first those of the file that was put aside; none where there is no such file. Of
/// each file the last 16 MiB are read. One that can't be read, or that is no journal, is named on standard error.
///
/// # Errors
/// Out of memory.
pub fn journal_lines<R: Files<File = File> + Eprint + AllocGlobal>(
    rt: &R,
    image: &str,
) -> Result<Option<Vec<u8>>, AllocError> {
    let mut lines = Vec::new(rt.alloc());
    let mut is_there = false;
    for end in [EARLIER, JOURNAL] {
        let name = format!(in rt.alloc(); "{image}{end}")?;
        let name = name.as_str();
        match open_journal(rt, image, name) {
            Ok(Some(file)) => {
                is_there = true;
                add_lines(&file, &mut lines)?;
                // A line that is torn ends here.
                lines.push(b'\n')?;
            }
            Ok(None) => {}
            Err(error) => name_failure(rt, name, &error),
        }
    }
    Ok(if is_there { Some(lines) } else { None })
}

// Adds the last bytes of a file, up to the first that can't be read.
fn add_lines(file: &File, lines: &mut Vec<u8>) -> Result<(), AllocError> {
    let Ok(about) = file.metadata() else {
        return Ok(());
    };
    let length = about.len().min(MOST);
    let mut file = file;
    if file.seek(SeekFrom::Start(about.len() - length)).is_err() {
        return Ok(());
    }
    let begun = lines.len();
    let whole = begun.saturating_add(length as usize);
    lines.resize(whole, 0)?;
    let mut at = begun;
    for _ in 0..length {
        let Some(room) = lines.as_mut_slice().get_mut(at..) else {
            break;
        };
        match file.read(room) {
            Ok(taken) if taken > 0 => at = at.saturating_add(taken).min(whole),
            _ => break,
        }
    }
    lines.truncate(at);
    Ok(())
}

/// The lines of a journal that are of an image whose next reading gets that serial: those from its first reading on
/// after the last one of another image, which has a serial that this image hasn't given.
pub fn own_lines(lines: &[u8], next_serial: u64) -> &[u8] {
    let mut own = lines;
    let mut is_own = true;
    let mut rest = lines;
    for _ in 0..lines.len() {
        if rest.is_empty() {
            break;
        }
        let (line, after) = first_line(rest);
        // That of a line of a reading.
        let serial = str::from_utf8(line).ok().and_then(|line| {
            let (_, after) = line.split_once("\"serial\":")?;
            let end = after.find(|it: char| !it.is_ascii_digit())?;
            after.get(..end)?.parse::<u64>().ok()
        });
        match serial {
            Some(serial) if serial >= next_serial => is_own = false,
            Some(_) if !is_own => {
                own = rest;
                is_own = true;
            }
            _ => {}
        }
        rest = after;
    }
    if is_own { own } else { rest }
}
