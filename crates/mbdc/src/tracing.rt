//! The trace of what goes over the bus lines, where one is asked for.

ghost use Rattle.std.specs.Prelude.{IfErr};
ghost use Rattle.mbdc.specs.Commands.{Refuses};

use mbdc_bus::trace::{Observer, TraceFile, TraceLines, Tracer};
use mbdc_ending::Ending;
use mbdc_files::{Host, file_limit};
use std::cell::Cell;
use std::fs::File;
use std::rt::{Clock, Files};
use std::{fs, io};

// The longest line of a trace in bytes.
const LINE: u64 = 700;

// Standard error, as Linux shows it to this process.
const ERRORS: &str = "/proc/self/fd/2";

/// The trace of all bus lines. It ends where the limit of files (`ulimit -f`) leaves no room for a line: a write beyond
/// the limit would end the program by a signal.
#[derive(Drop)]
pub struct Trace<'h, R> {
    rt: &'h R,
    file: TraceFile<'h, R>,
    name: &'h str,
    limit: u64,
    is_full: Cell<bool>,
}

impl<R: Files<File = File> + Clock + Eprint> Trace<'_, R> {
    // Whether a line has room. That the trace ends is said once.
    fn has_room(&self) -> bool {
        if self.limit == u64::MAX || self.is_full.get() {
            return !self.is_full.get();
        }
        let is_file = !self.file.is_standard_error();
        let name = if is_file { self.name } else { ERRORS };
        match fs::metadata(self.rt, name) {
            Ok(about) if about.is_file() && about.len().saturating_add(LINE) > self.limit => {
                self.is_full.set(true);
                if is_file {
                    let _ = eprint!(self.rt; "mbdc: trace: {}: File too large\n", self.name);
                }
                false
            }
            _ => true,
        }
    }
}

/// What writes the trace of a bus line: a type of its own, since the checker meets its step limit over the parts.
#[derive(Drop)]
pub struct LineTracer<'t, 'h, R: Clock + Eprint> {
    tracer: Tracer<TraceLines<'t, 'h, R>>,
    trace: Option<&'t Trace<'h, R>>,
}

impl<R: Files<File = File> + Clock + Eprint> Observer for LineTracer<'_, '_, R> {
    ghost use Rattle.std.specs.Prelude.{⊤};

    // What a file has is in no contract.
    ghost sees_request = { λ _ _ _. ⊤ };

    ghost sees_answer = { λ _ _ _. ⊤ };

    fn see_request(&mut self, request: &[u8])
        ensures { ⊤ }
    {
        if let Some(trace) = self.trace
            && trace.has_room()
        {
            self.tracer.see_request(request);
        }
    }

    fn see_answer(&mut self, answer: &[u8])
        ensures { ⊤ }
    {
        if let Some(trace) = self.trace
            && trace.has_room()
        {
            self.tracer.see_answer(answer);
        }
    }
}

/// Opens the trace, if one is asked for.
///
/// # Errors
/// Its file can't be made.
pub fn trace_of<'h, R>(
    host: &Host<'h, R>,
    name: Option<&'h str>,
) -> io::Result<Option<Trace<'h, R>>>
where
    R: Files<File = File> + Clock + Eprint,
{
    let Some(name) = name else {
        return Ok(None);
    };
    Ok(Some(Trace {
        rt: host.rt,
        file: TraceFile::open(host.rt, name)?,
        name,
        limit: file_limit(),
        is_full: Cell::new(false),
    }))
}

/// What writes the traces of this many bus lines, from 1 on; without a trace it writes nothing.
///
/// # Errors
/// The ending of the command: memory ran out.
pub fn tracers_of<'t, 'h, 'e, R: Clock + Eprint + AllocGlobal>(
    host: &Host<'_, R>,
    trace: Option<&'t Trace<'h, R>>,
    lines: usize,
) -> Result<Vec<LineTracer<'t, 'h, R>>, Ending<'e>>
    ensures { IfErr result (λ ending. Refuses ending) }
{
    let file = match trace {
        Some(trace) => Some(&trace.file),
        None => None,
    };
    let mut tracers = Vec::new(host.rt.alloc());
    for before in 0..lines {
        let line = u8::try_from(before).unwrap_or(u8::MAX).saturating_add(1);
        let tracer = Tracer {
            out: TraceLines::new(file),
            line,
        };
        if tracers.push(LineTracer { tracer, trace }).is_err() {
            return Err(Ending::Memory);
        }
    }
    Ok(tracers)
}

/// Whether standard error shows a progress: it is a terminal, and no trace goes there.
pub fn shows_progress<R: Clock + Eprint>(host: &Host<'_, R>, trace: Option<&Trace<'_, R>>) -> bool {
    match trace {
        Some(trace) => host.is_watched && !trace.file.is_standard_error(),
        None => host.is_watched,
    }
}
