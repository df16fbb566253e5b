//! Where the lines of a trace are written: a file, or standard error.

ghost use Rattle.std.specs.Prelude.{◌≡◌, OnOk, OnErr, None};
ghost use Rattle.mbdc_io.specs.Failures.{HasRisen};

use crate::trace::earlier::{empty_earlier, no_file};
use crate::trace::tracer::TraceSink;
use mbdc_io::{FixedSink, IoFault, Sink, one_failure_more};
use std::cell::Cell;
use std::fs::{File, OpenOptions};
use std::io::{ErrorKind, Write};
use std::rt::{Clock, Files};
use std::time::Instant;
use std::{fs, io, str};

// The name that stands for standard error.
const DASH: &str = "-";

// The system's message for a full drive.
const FULL: &str = "No space left on device";

// Room for a line of the longest answer, 300 bytes as hex digits.
const ROOM: usize = 700;

/// The lines of a trace, of all bus lines. A write that fails is named once, and nothing more is written.
#[derive(Drop)]
pub struct TraceFile<'h, R> {
    rt: &'h R,
    // The file; `None` is standard error.
    file: Option<File>,
    name: &'h str,
    begun: Instant,
    has_failed: Cell<bool>,
}

impl<'h, R: Clock + Eprint> TraceFile<'h, R> {
    /// Makes the file of a trace, or empties that of an earlier one; `-` is standard error. A file that
    /// holds anything else stays as it is.
    ///
    /// # Errors
    /// It can't be made, it is no regular file, it holds something else than a trace, or the clock fails.
    pub fn open(rt: &'h R, name: &'h str) -> io::Result<Self>
    where
        R: Files<File = File>,
    {
        Ok(TraceFile {
            rt,
            file: file_of(rt, name)?,
            name,
            begun: Instant::now(rt)?,
            has_failed: Cell::new(false),
        })
    }

    /// Whether the lines go to standard error.
    pub fn is_standard_error(&self) -> bool {
        self.file.is_none()
    }

    // Writes a line. After a write that failed nothing more is written.
    fn write(&self, line: &[u8]) -> Result<(), IoFault> {
        if self.has_failed.get() {
            return Err(IoFault);
        }
        if let Err(error) = self.put(line) {
            self.has_failed.set(true);
            self.name_failure(error.kind());
            return Err(IoFault);
        }
        Ok(())
    }

    // Says why the trace ends, without the number that the system's message has.
    fn name_failure(&self, kind: ErrorKind) {
        let _ = match kind {
            ErrorKind::StorageFull => eprint!(self.rt; "mbdc: trace: {}: {FULL}\n", self.name),
            kind => eprint!(self.rt; "mbdc: trace: {}: {kind}\n", self.name),
        };
    }

    fn put(&self, line: &[u8]) -> io::Result<()> {
        if let Some(file) = &self.file {
            let mut file = file;
            return file.write_all(line);
        }
        match str::from_utf8(line) {
            Ok(line) => self.rt.eprint(line),
            Err(_) => Err(io::Error::from(ErrorKind::InvalidData)),
        }
    }

    // Milliseconds since the trace was begun; 0 if the clock fails.
    fn millis(&self) -> u64 {
        match self.begun.elapsed(self.rt) {
            Ok(elapsed) => u64::try_from(elapsed.as_millis()).unwrap_or(u64::MAX),
            Err(_) => 0,
        }
    }
}

// The file of a trace, made or emptied, unless its name stands for standard error.
fn file_of<R: Files<File = File>>(rt: &R, name: &str) -> io::Result<Option<File>> {
    if name == DASH {
        return Ok(None);
    }
    // Opening a device or a pipe may do something.
    if let Ok(about) = fs::metadata(rt, name)
        && !about.is_file()
    {
        return Err(no_file());
    }
    let mut options = OpenOptions::new();
    options.read(true).write(true).create(true);
    let file = options.open(rt, name)?;
    empty_earlier(&file)?;
    Ok(Some(file))
}

/// The lines of one bus line for that file, each of which is written once it is whole; without a file nothing is.
#[derive(Drop)]
pub struct TraceLines<'t, 'h, R> {
    file: Option<&'t TraceFile<'h, R>>,
    // The line that isn't whole yet.
    line: FixedSink<ROOM>,
    failures: u64,
}

impl<'t, 'h, R: Clock + Eprint> TraceLines<'t, 'h, R> {
    /// Begins with no line.
    pub fn new(file: Option<&'t TraceFile<'h, R>>) -> Self {
        TraceLines {
            file,
            line: FixedSink::new(),
            failures: 0,
        }
    }

    // Takes a piece of a line, the last of which ends in a line feed.
    fn take(&mut self, bytes: &[u8]) -> Result<(), IoFault>
        ensures { self.new.failures ≡ self.old.failures }
    {
        let Some(file) = self.file else {
            return Ok(());
        };
        self.line.put(bytes)?;
        if !bytes.ends_with(b"\n") {
            return Ok(());
        }
        let written = file.write(self.line.as_slice());
        self.line.clear();
        written
    }
}

impl<R: Clock + Eprint> Sink for TraceLines<'_, '_, R> {
    // What a file has is in no contract.
    ghost written = { λ _. None };

    ghost put_failures = { λ lines. lines.failures };

    #[tactic(auto, using(mbdc_io::proofs::Pieces::told))]
    fn put(&mut self, bytes: &[u8]) -> Result<(), IoFault> {
        let taken = self.take(bytes);
        if taken.is_err() {
            self.failures = one_failure_more(self.failures);
            self.line.clear();
        }
        taken
    }
}

impl<R: Clock + Eprint> TraceSink for TraceLines<'_, '_, R> {
    fn millis(&self) -> u64 {
        match self.file {
            Some(file) => file.millis(),
            None => 0,
        }
    }
}
