//! `mbdc`, the data concentrator of an apartment house's wired M-Bus submeters: files, links, exit
//! statuses and the one line on standard error. The commands' work is done by libraries.
#![tactic(auto)]

mod bench;
mod clock;
mod connecting;
mod demo;
mod ending;
mod exchanged;
mod fit;
mod inspect;
mod journal;
mod names;
mod order;
mod pointed;
mod poll;
mod rescue;
mod script;
mod sheet;
mod system;
mod table;
mod tasks;
mod tracing;

use ending::{told, told_disk, told_why, told_words};
use inspect::Screen;
use mbdc_commands::words::{Call, call_of};
use mbdc_ending::{Ending, STREAM};
use mbdc_files::{ERRORS, Host, NOWHERE, Why, hold, is_full};
use std::alloc::AllocError;
use std::env;
use std::env::FillError;
use std::io::{ErrorKind, IsTerminal, Write};
use std::process::ExitCode;
use std::rt::Env;

// What a person sees who calls the program without words: it waits for lines to decode.
const AT_TERMINAL: &[u8] =
    b"mbdc: decoding the lines that you type, up to Ctrl-D; mbdc --help names the commands\n";

fn main(rt: HostRuntime) -> ExitCode {
    if hold(&rt).is_err() {
        return told(&rt, &Ending::File(NOWHERE));
    }
    let words: Result<Vec<String>, AllocError> = match env::args(&rt) {
        Ok(words) => words.collect(rt.alloc()),
        Err(error) if error.kind() == ErrorKind::OutOfMemory => Err(AllocError),
        Err(_) => return told(
            &rt,
            &Ending::Words("the words aren't UTF-8 text; try mbdc --help"),
        ),
    };
    let Ok(words) = words else {
        return told(&rt, &Ending::Memory);
    };
    if words.len() <= 1 && rt.stdin().is_terminal() {
        let _ = rt.stderr().write_all(AT_TERMINAL);
    }
    match call_of(rt.alloc(), words.as_slice()) {
        Ok(call) => answer(&rt, &call),
        Err(fault) => told_words(&rt, &fault, words.as_slice()),
    }
}

// Runs the task that the words name, and reports how it ended.
fn answer(rt: &HostRuntime, call: &Call<'_>) -> ExitCode {
    let why = Why::new();
    let host = Host {
        rt,
        why: &why,
        is_watched: rt.stderr().is_terminal(),
    };
    let is_terminal = rt.stdout().is_terminal();
    // The variable NO_COLOR says that a terminal takes none.
    let mut room = [0; 1];
    let takes_all = matches!(
        rt.var("NO_COLOR", &mut room),
        Ok(0) | Err(FillError::NotPresent)
    );
    let screen = Screen {
        is_terminal,
        is_coloured: is_terminal && takes_all,
    };
    let ending = tasks::run(&host, &host, &call.task, screen);
    // A reader that has seen enough, as head, is no mistake to tell a person of.
    if host.is_watched
        && matches!(ending, Ending::File(STREAM))
        && matches!(why.last.get(), Some(reason) if reason.error.kind() == ErrorKind::BrokenPipe)
    {
        return ExitCode::from(ending.status());
    }
    let status = told(rt, &ending);
    if is_full(rt, ERRORS) {
        return status;
    }
    if call.is_verbose || host.is_watched {
        told_why(rt, &ending, &why, host.is_watched);
    }
    if call.is_verbose || host.is_watched || why.has_unreadable.get() {
        told_disk(rt, &ending, &why);
    }
    status
}
