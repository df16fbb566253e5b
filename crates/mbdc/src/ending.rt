//! Reports how a run ended: the line on standard error and the exit status, which `mbdc_ending`
//! decides.

ghost use Rattle.std.specs.Prelude.{◌≡◌, ◌≢◌, ◌⊎◌};
ghost use Rattle.std.specs.Process.{exit_status};
ghost use Rattle.clap.specs.Values.{kind_of};
ghost use Rattle.clap.specs.declared.error.kind.ErrorKind.TheVariants.{DisplayHelp, DisplayVersion};
ghost use Rattle.clap.specs.declared.error.kind.ErrorKind.TheVariants.{OutOfMemory};
ghost use Rattle.mbdc_ending.specs.Ending.{status_of};
ghost use Rattle.mbdc_commands.specs.Words.{IfMistake};

use clap::Error;
use clap::error::ErrorKind;
use dc_core::CommitFault;
use mbdc_commands::words::{WordsFault, nearest};
use mbdc_ending::{Ending, STREAM};
use mbdc_files::{ERRORS, Reason, Why, holder_of, is_full, without_number};
use mbdc_io::{Buffered, IoFault, Sink, WriteSink, put_number};
use mbdc_log::{FormatFault, OpenFault};
use std::alloc::{AllocError, Global};
use std::io;
use std::io::Write;
use std::process::ExitCode;

// A word that has to name a meter doesn't.
const NO_METER: &str =
    "a meter is its identity, as 12345678.PAD.01.07, or its number, as 12345678; for read also its primary address, \
    0 to 250";

// A word that has to say how a meter is reached doesn't.
const NO_OLD: &str =
    "OLD is the meter's identity, as 12345678.PAD.01.07, or the primary address that it has, 0 to 250";

// A word that has to be a time of silence isn't.
const NO_SILENCE: &str =
    "--silent takes days, as 2 or 2d, from 1 to 366, or hours, as 12h; try mbdc status --help";

// A word that has to be a flat isn't.
const NO_FLAT: &str = "a flat is 1 to 12 of A-Z a-z 0-9 . - / _";

// A word that has to be an address of the register isn't.
const NO_ADDRESS: &str =
    "--address takes a primary address, 1 to 250, or S for secondary addressing";

// `-` for a file that isn't a stream.
const NO_DASH: &str =
    "- is standard input for decode, fold and audit, and standard error for --trace; a file of that name is ./-";

// No bus is connected.
const NO_LINK: &str = "no bus line has a link; try mbdc poll --help";

// What a person does next where another process is named that has the file.
const ENDS: &str = "Wait until it ends";

// What becomes of an image that doesn't open.
const RESCUE: &str = "mbdc rescue IMAGE NEW writes what is left of it to a new image";

const RENEW: &str = "its counters are spent: mbdc rescue IMAGE NEW writes its state to a new image";

// What stands before an option that `clap` takes for the one that was meant.
const SIMILAR: &str = "a similar argument exists: '";

// A line of up to this many bytes goes out as one write.
const LINE: usize = 8_192;

/// Prints the line of the ending, and returns its exit status.
pub fn told(rt: &HostRuntime, ending: &Ending) -> ExitCode
    ensures { exit_status result ≡ status_of ending.now }
{
    // The status is returned even if the line can't be written: no other channel is left. A write to a file that has
    // reached the limit of files would end the program by a signal.
    if is_full(rt, ERRORS) {
        return ExitCode::from(ending.status());
    }
    match Buffered::new(rt.alloc(), LINE, WriteSink::new(rt.stderr())) {
        Ok(mut out) => {
            if ending.put_line(&mut out).is_ok() {
                let _ = out.flush();
            }
        }
        Err(_) => {
            let _ = ending.put_line(&mut WriteSink::new(rt.stderr()));
        }
    }
    ExitCode::from(ending.status())
}

/// Prints on a second line why the run failed, if the system gave a reason, and for a person the next step.
pub fn told_why(rt: &HostRuntime, ending: &Ending, why: &Why, is_watched: bool) {
    let reason = match ending {
        Ending::File(_) | Ending::Gateway | Ending::Format(_) | Ending::Open(_) | Ending::Disk(_) =>
            why.last.get(),
        _ => None,
    };
    let step = if is_watched {
        step_of(ending, &reason)
    } else {
        ""
    };
    let reason = if why.is_named.get() { None } else { reason };
    let Some(reason) = reason else {
        if !step.is_empty() {
            let _ = eprint!(rt; "mbdc: next: {step}\n");
        }
        return;
    };
    if let Ok(mut out) = Buffered::new(rt.alloc(), LINE, WriteSink::new(rt.stderr()))
        && put_reason(rt, ending, &reason, step, &mut out).is_ok()
    {
        let _ = out.flush();
    }
}

/// Prints why the disk failed, where the run went on without it: what it couldn't keep it refused,
/// as `ERR STORE`, and its status is that of the answers. A sector that the drive can't read is
/// named also where the image doesn't open.
pub fn told_disk(rt: &HostRuntime, ending: &Ending, why: &Why) {
    let is_told = match ending {
        Ending::Clean | Ending::Faulty => true,
        Ending::Open(_) | Ending::Behind(_) => why.has_unreadable.get(),
        _ => false,
    };
    if is_told
        && let Some(reason) = why.disk.get()
        && let Ok(said) = format!(in rt.alloc(); "{}", reason.error)
    {
        let said = without_number(said.as_str());
        let _ = match reason.sector {
            Some(sector) => eprint!(rt; "mbdc: disk: sector {sector}: {said}\n"),
            None => eprint!(rt; "mbdc: disk: {said}\n"),
        };
    }
}

// Writes the line of the reason: the system's message without its error number, and the next step. Of a file that
// another process has locked it names that process, where the system shows it.
fn put_reason<W: Sink>(
    rt: &HostRuntime,
    ending: &Ending,
    reason: &Reason,
    step: &str,
    out: &mut W,
) -> Result<(), IoFault> {
    out.put(b"mbdc: reason: ")?;
    if let Some(line) = reason.line {
        out.put(b"line ")?;
        put_number(out, u64::from(line))?;
        out.put(b": ")?;
    }
    let Ok(said) = format!(in rt.alloc(); "{}", reason.error) else {
        return Err(IoFault);
    };
    out.put(without_number(said.as_str()).as_bytes())?;
    let mut step = step;
    if let Ending::File(name) = ending
        && reason.error.kind() == io::ErrorKind::WouldBlock
        && let Some(process) = holder_of(rt, name)
    {
        out.put(b" (pid ")?;
        put_number(out, u64::from(process))?;
        out.put(b")")?;
        step = if step.is_empty() { "" } else { ENDS };
    }
    if !step.is_empty() {
        out.put(b". ")?;
        out.put(step.as_bytes())?;
    }
    out.put(b"\n")
}

// What a person does next, also after this kind of message of the system.
fn step_of(ending: &Ending, reason: &Option<Reason>) -> &'static str {
    match ending {
        Ending::Open(OpenFault::NotImage) =>
            return "is it this file? mbdc inspect shows what it holds, mbdc format makes an image",
        Ending::Open(OpenFault::Damaged(_)) => return RESCUE,
        Ending::Open(OpenFault::Version) => return "a later mbdc wrote it: install that one",
        Ending::Open(OpenFault::Worn) | Ending::Disk(CommitFault::Worn) => return RENEW,
        Ending::Open(OpenFault::Device) | Ending::Disk(_) => return "look at the drive: dmesg",
        Ending::Format(FormatFault::AlreadyFormatted) =>
            return "it holds an image already: mbdc inspect shows it",
        _ => {}
    }
    let Some(reason) = reason else {
        return "";
    };
    match (ending, reason.error.kind()) {
        (Ending::Gateway, io::ErrorKind::ConnectionRefused) => {
            "Is the converter in TCP server mode, at this port?"
        }
        (Ending::Gateway, io::ErrorKind::TimedOut | io::ErrorKind::HostUnreachable) => {
            "Is the converter on, and at this address?"
        }
        (Ending::Gateway, io::ErrorKind::NotFound) => "Is the adapter plugged in? Try ls /dev/tty*",
        (_, io::ErrorKind::PermissionDenied) => "Who may open it: ls -l; who you are: id",
        (Ending::File(_), io::ErrorKind::WouldBlock) =>
            "Wait until it ends, or see who has it: fuser -v",
        (Ending::File(_), io::ErrorKind::NotFound) =>
            "Is the name right? mbdc format makes an image",
        (Ending::File(_), io::ErrorKind::StorageFull) => "Make room: df -h",
        _ => "",
    }
}

/// Prints the mistake in the words, and returns the exit status.
pub fn told_words(rt: &HostRuntime, fault: &WordsFault, words: &[String]) -> ExitCode
    ensures memory { fault.now ≡ WordsFault.NoMemory → exit_status result ≡ 4 }
    ensures mistake { IfMistake fault.now (exit_status result ≡ 2) }
{
    match fault {
        WordsFault::Clap(error) => told_by_clap(rt, error, words),
        WordsFault::NoMemory => told(rt, &Ending::Memory),
        WordsFault::Link(fault) => told(rt, &Ending::Words(fault.text())),
        WordsFault::Meter => told(rt, &Ending::Words(NO_METER)),
        WordsFault::Reached => told(rt, &Ending::Words(NO_OLD)),
        WordsFault::NoLink => told(rt, &Ending::Words(NO_LINK)),
        WordsFault::Silence => told(rt, &Ending::Words(NO_SILENCE)),
        WordsFault::Dash => told(rt, &Ending::Words(NO_DASH)),
        WordsFault::Flat => told(rt, &Ending::Words(NO_FLAT)),
        WordsFault::Address => told(rt, &Ending::Words(NO_ADDRESS)),
    }
}

/// Prints `clap`'s message, and returns the exit status. Help and the version go to standard
/// output, which may fail as any output may.
fn told_by_clap(rt: &HostRuntime, error: &Error, words: &[String]) -> ExitCode
    ensures memory { kind_of error.now ≡ OutOfMemory → exit_status result ≡ 4 }
    ensures shown { (kind_of error.now ≡ DisplayHelp) ⊎ (kind_of error.now ≡ DisplayVersion)
        → (exit_status result ≡ 0) ⊎ (exit_status result ≡ 4) }
    ensures mistake { kind_of error.now ≢ DisplayHelp → kind_of error.now ≢ DisplayVersion
        → (exit_status result ≡ 2) ⊎ (exit_status result ≡ 4) }
{
    if error.kind() == ErrorKind::OutOfMemory {
        return told(rt, &Ending::Memory);
    }
    if !error.use_stderr() {
        let printed = match rt.print(error) {
            Ok(()) => io::writer(rt).flush(),
            Err(fault) => Err(fault),
        };
        return match printed {
            Ok(()) => told(rt, &Ending::Clean),
            // A reader that has seen enough, as head, is no mistake to tell a person of.
            Err(fault) if fault.kind() == io::ErrorKind::BrokenPipe => {
                ExitCode::from(Ending::File(STREAM).status())
            }
            Err(_) => told(rt, &Ending::File(STREAM)),
        };
    }
    match mistake(rt.alloc(), error, words) {
        Ok(what) => told(rt, &Ending::Words(what.as_str())),
        Err(_) => told(rt, &Ending::Memory),
    }
}

// The mistake in the words, on one line: `clap` prints a paragraph, and its usage after it.
fn mistake(alloc: Global, error: &Error, words: &[String]) -> Result<String, AllocError> {
    let text = format!(in alloc; "{error}")?;
    let mut what = String::new(alloc);
    for line in text.lines() {
        if line.is_empty() {
            break;
        }
        if !what.is_empty() {
            what.push_str(" ")?;
        }
        what.push_str(line.trim().trim_start_matches("error: "))?;
    }
    // Words that begin with - are options.
    let command = words.iter().skip(1).find(|word| !word.starts_with('-'));
    if error.kind() == ErrorKind::InvalidSubcommand {
        return match command.and_then(|word| nearest(word)) {
            Some(meant) => format!(in alloc; "{what}; did you mean {meant}?; try mbdc --help"),
            None => format!(in alloc; "{what}; try mbdc --help"),
        };
    }
    let help = match command {
        Some(word) => format!(in alloc; "try mbdc {word} --help")?,
        None => format!(in alloc; "try mbdc --help")?,
    };
    if let Some((_, tip)) = text.as_str().split_once(SIMILAR)
        && let Some((option, _)) = tip.split_once('\'')
    {
        return format!(in alloc; "{what}; did you mean {option}?; {help}");
    }
    format!(in alloc; "{what}; {help}")
}
