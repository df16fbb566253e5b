//! The endings of a run.

ghost use Rattle.std.specs.Prelude.{◌≡◌};
ghost use Rattle.mbdc_io.specs.Written.{Wrote};
ghost use Rattle.mbdc_ending.specs.Ending.{damaged_at, fault_line, line_of, named_line, status_of};
ghost use Rattle.mbdc_ending.specs.Outcome.{EndsAs};

use crate::ProgramFault;
use crate::escape::put_escaped;
use dc_core::CommitFault;
use mbdc_decode::tokens::{Piece, put_pieces};
use mbdc_io::{IoFault, Sink};
use mbdc_log::{FormatFault, OpenFault};

/// The name of standard input or output in `mbdc: file: NAME`.
pub const STREAM: &str = "-";

/// How a run ended (this product).
#[derive(Clone, Copy)]
pub enum Ending<'a> {
    /// Everything was printed or done; help and the version included.
    Clean,
    /// A line of the input had a fault, which the output states.
    Faulty,
    /// The words aren't a command; the value is the mistake.
    Words(&'a str),
    /// The image wasn't formatted.
    Format(FormatFault),
    /// The image wasn't opened.
    Open(OpenFault),
    /// The image reads as a state, but that sector is ahead of it: a sector was lost that had been synced.
    Behind(u32),
    /// A commit failed, which ended a poll.
    Disk(CommitFault),
    /// The file of that name, or a stream, failed or was too long.
    File(&'a str),
    /// The gateway wasn't reached.
    Gateway,
    /// The clock has no time that a reading can be stamped with, 1970 to 9999.
    Clock,
    /// Out of memory.
    Memory,
}

impl Ending<'_> {
    /// The exit status: 0, 1 for a fault in an input line, 2 for the words, 3 for an image or its
    /// disk, 4 for a file, a socket, the clock or memory.
    pub fn status(&self) -> u8
        ensures { result ≡ status_of self.now }
    {
        match self {
            Ending::Clean => 0,
            Ending::Faulty => 1,
            Ending::Words(_) => 2,
            Ending::Format(_) | Ending::Open(_) | Ending::Behind(_) | Ending::Disk(_) => 3,
            Ending::File(_) | Ending::Gateway | Ending::Clock | Ending::Memory => 4,
        }
    }

    /// Writes the line, with its line feed: `mbdc: ` and what happened. For status 0 or 1 nothing
    /// is written. It uses no memory.
    ///
    /// # Errors
    /// A put failed; a prefix of the line is written then.
    pub fn put_line<W: Sink>(&self, out: &mut W) -> Result<(), IoFault>
        ensures { Wrote W.Sink result out.old out.new (line_of self.now) }
    {
        match *self {
            Ending::Clean | Ending::Faulty => Ok(()),
            Ending::Words(what) => put_named(out, b"mbdc: ", what),
            Ending::Format(fault) => {
                put_store(out, b"mbdc: format: ", fault.number(), fault.name(), None)
            }
            Ending::Open(fault) => put_store(
                out,
                b"mbdc: open: ",
                fault.number(),
                fault.name(),
                sector_of(fault),
            ),
            Ending::Behind(sector) => put_pieces(
                out,
                &[
                    Piece::Text(b"mbdc: behind: sector"),
                    Piece::Word(u64::from(sector)),
                    Piece::Text(b" is ahead of what the image reads as; see mbdc rescue --help\n"),
                ],
            ),
            Ending::Disk(fault) => {
                put_store(out, b"mbdc: disk: ", fault.number(), fault.name(), None)
            }
            Ending::File(name) => put_named(out, b"mbdc: file: ", name),
            Ending::Gateway => out.put(b"mbdc: gateway\n"),
            Ending::Clock => out.put(b"mbdc: clock: outside 1970 to 9999\n"),
            Ending::Memory => out.put(b"mbdc: memory\n"),
        }
    }
}

#[tactic(auto, using(mbdc_io::proofs::Pieces::written), unfolding(crate::specs::Ending::named_line))]
fn put_named<W: Sink>(out: &mut W, what: &[u8], name: &str) -> Result<(), IoFault>
    ensures { Wrote W.Sink result out.old out.new (named_line what.now name.now) }
{
    out.put(what)?;
    put_escaped(out, name)?;
    out.put(b"\n")
}

// Writes a fault's number and name, and the damaged sector.
#[tactic(auto, unfolding(crate::specs::Ending::fault_line))]
fn put_store<'t, W: Sink>(
    out: &mut W,
    what: &'t [u8],
    number: u8,
    name: &'t str,
    sector: Option<u32>,
) -> Result<(), IoFault>
    ensures { Wrote W.Sink result out.old out.new
        (fault_line what.now number name.now sector) }
{
    let number = Piece::Number(u64::from(number));
    let name = Piece::Text(name.as_bytes());
    match sector {
        Some(sector) => put_pieces(
            out,
            &[
                Piece::Text(what),
                number,
                Piece::Text(b" "),
                name,
                Piece::Word(u64::from(sector)),
                Piece::Text(b"\n"),
            ],
        ),
        None => put_pieces(
            out,
            &[
                Piece::Text(what),
                number,
                Piece::Text(b" "),
                name,
                Piece::Text(b"\n"),
            ],
        ),
    }
}

// The sector of a damaged image.
fn sector_of(fault: OpenFault) -> Option<u32>
    ensures { result ≡ damaged_at fault }
{
    match fault {
        OpenFault::Damaged(sector) => Some(sector),
        _ => None,
    }
}

/// The ending of a run over this input, by its engine's result.
pub fn ending_of<'a>(outcome: Result<bool, ProgramFault>, input: &'a str) -> Ending<'a>
    ensures { EndsAs outcome input.now result }
{
    match outcome {
        Ok(false) => Ending::Clean,
        Ok(true) => Ending::Faulty,
        Err(ProgramFault::Read | ProgramFault::TooLong) => Ending::File(input),
        Err(ProgramFault::Write) => Ending::File(STREAM),
        Err(ProgramFault::NoMemory | ProgramFault::Open(OpenFault::NoMemory)) => Ending::Memory,
        Err(ProgramFault::Open(fault)) => Ending::Open(fault),
    }
}
