//! How a poll and a script end.

ghost use Rattle.std.specs.Prelude.{◌≡◌};
ghost use Rattle.mbdc_commands.specs.Ending.{PollEnds, look_ended, run_result};

use mbdc_ending::{Ending, ProgramFault, STREAM, ending_of};
use mbdc_log::OpenFault;
use mbdc_poll::Outcome;

/// The ending of a poll over that image, by its outcome and by whether all was printed: status 3 where a commit
/// failed, else 4 where not all was printed, else 1 where a meter wasn't read.
pub fn poll_ending<'a>(
    outcome: Result<Outcome, ProgramFault>,
    is_printed: bool,
    image: &'a str,
) -> Ending<'a>
    ensures { PollEnds outcome is_printed image.now result }
{
    match outcome {
        Ok(outcome) => match outcome.fault {
            Some(fault) => Ending::Disk(fault),
            None if !is_printed => Ending::File(STREAM),
            None if outcome.failed == 0 => Ending::Clean,
            None => Ending::Faulty,
        },
        Err(fault) => ending_of(Err(fault), image),
    }
}

/// The ending of a look at an image: the first sector that is ahead of what it reads as comes first, then why it
/// wouldn't be opened, and then a meter that is silent. An image with a sector that the drive can't read isn't opened.
pub fn look_ending<'a>(
    refusal: Option<OpenFault>,
    ahead: Option<u32>,
    is_whole: bool,
    is_silent: bool,
) -> Ending<'a>
    ensures { result ≡ look_ended refusal ahead is_whole is_silent }
{
    match (ahead, refusal) {
        (Some(sector), _) => Ending::Behind(sector),
        (None, Some(fault)) => Ending::Open(fault),
        (None, None) if !is_whole => Ending::Open(OpenFault::Device),
        (None, None) if is_silent => Ending::Faulty,
        (None, None) => Ending::Clean,
    }
}

/// The result of a script, by that of its engine and by whether its whole text was written out.
pub fn run_result(
    outcome: Result<bool, ProgramFault>,
    is_written: bool,
) -> Result<bool, ProgramFault>
    ensures { result ≡ run_result outcome is_written }
{
    if is_written {
        outcome
    } else {
        Err(ProgramFault::Write)
    }
}
