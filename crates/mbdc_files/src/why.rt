//! Why a run failed: the system's message for the failed call.

ghost use Rattle.std.specs.Prelude.{◌≡◌};
ghost use Rattle.mbdc_ending.specs.Outcome.{EndsAs, IsOfFile};

use crate::image::refused;
use mbdc_ending::{Ending, ProgramFault, ending_of};
use std::cell::Cell;
use std::io;
use std::io::{ErrorKind, Read};

// The text between the system's message and its error number.
const NUMBERED: &str = " (os error ";

/// The system's message without its error number.
pub fn without_number(said: &str) -> &str {
    match said.rsplit_once(NUMBERED) {
        Some((words, _)) => words,
        None => said,
    }
}

/// The system's message for a call that failed, and the bus line of its link.
#[derive(Clone, Copy)]
pub struct Reason {
    /// The bus line, if the call was of its link.
    pub line: Option<u8>,
    /// The system's message.
    pub error: io::Error,
}

/// The system's message for a call of an image's file that failed.
#[derive(Clone, Copy)]
pub struct DiskReason {
    /// The sector that was read or written; none for the others.
    pub sector: Option<u64>,
    /// The system's message.
    pub error: io::Error,
}

/// The last failed call that may end the run, and the last one of an image's file. They are in cells, and no contract
/// states what a cell holds: what is noted here is tested.
#[derive(Drop)]
pub struct Why {
    /// The last call that failed.
    pub last: Cell<Option<Reason>>,
    /// The last call of an image's file that failed. The commands go on after it, and refuse what they can't keep.
    pub disk: Cell<Option<DiskReason>>,
    /// Whether the drive couldn't read a sector of the image.
    pub has_unreadable: Cell<bool>,
    /// Whether a line on standard error has named the last failed call already.
    pub is_named: Cell<bool>,
}

impl Why {
    /// Begins with no failed call.
    pub fn new() -> Self {
        Why {
            last: Cell::new(None),
            disk: Cell::new(None),
            has_unreadable: Cell::new(false),
            is_named: Cell::new(false),
        }
    }

    /// Notes a failed call. A call that a signal interrupted is repeated, and not noted.
    pub fn note(&self, error: io::Error) {
        if error.kind() != ErrorKind::Interrupted {
            self.last.set(Some(Reason { line: None, error }));
        }
    }

    /// The ending of a run by a fault of a file.
    pub fn file<'a>(&self, name: &'a str, error: io::Error) -> Ending<'a>
        ensures { IsOfFile result name.now }
    {
        self.note(error);
        Ending::File(name)
    }

    /// The ending of a run over this input. An input that is too long is no fault of the system.
    pub fn ended<'a>(&self, outcome: Result<bool, ProgramFault>, input: &'a str) -> Ending<'a>
        ensures { EndsAs outcome input.now result }
    {
        if let Err(ProgramFault::TooLong) = outcome {
            self.note(refused("it has more than 1 MiB"));
        }
        ending_of(outcome, input)
    }

    /// The ending of a run by a fault of a link, of that bus line.
    pub fn link<'a>(&self, line: Option<u8>, error: io::Error) -> Ending<'a>
        ensures { result ≡ Ending.Gateway }
    {
        self.last.set(Some(Reason { line, error }));
        Ending::Gateway
    }
}

/// An input whose failed calls are noted.
#[derive(Drop)]
pub struct Noted<'w, T: Drop> {
    inner: T,
    why: &'w Why,
}

impl<'w, T: Drop> Noted<'w, T> {
    /// Wraps the input; its failed calls are noted in `why`.
    pub fn new(inner: T, why: &'w Why) -> Self
        ensures { result.inner ≡ inner }
    {
        Noted { inner, why }
    }
}

impl<T: Read + Drop> Read for Noted<'_, T> {
    fn read(&mut self, room: &mut [u8]) -> io::Result<usize> {
        let answer = self.inner.read(room);
        if let Err(error) = answer {
            self.why.note(error);
        }
        answer
    }
}
