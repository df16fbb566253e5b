//! The commands: an engine of a library between the files and links that the words name.

ghost use Rattle.std.specs.Prelude.{IfOk, Some, [], ◌∷◌};
ghost use Rattle.mbdc.specs.Tasks.{Answers, Runs, Works};

use crate::bench::{TaskBus, on_bus};
use crate::connecting::Linking;
use crate::demo;
use crate::fit::fit_on_image;
use crate::inspect::{Screen, look_into, report_on, tell};
use crate::order::order_on_image;
use crate::poll::poll_on_image;
use crate::rescue::rescue_image;
use crate::script::run_on_image;
use crate::sheet::audit_sheet;
use crate::system::System;
use dc_poller::fold_lines;
use mbdc_audit::{audit, fill};
use mbdc_bus::Bus;
use mbdc_commands::words::{Engine, Form, Layout, Task};
use mbdc_decode::decode_lines;
use mbdc_decode::objects::json_lines;
use mbdc_ending::{Ending, ProgramFault, STREAM};
use mbdc_files::{ERRORS, Host, Output, back_up, format_image, is_full};
use mbdc_io::{Buffered, Bytes, Sink, Source, WriteSink};
use mbdc_json::explain_lines;
use mbdc_looks::Asked;
use std::fs::File;
use std::io::Write;
use std::net::{Net, TcpListener, TcpStream};
use std::rt::{Clock, Files};
use std::{io, str};

// Number of bytes that go to standard output at once.
const ROOM: usize = 65_536;

/// Runs the task that the words name. The files that are read and made, and a link with its bus, are of the system; no
/// clause says what the demo does, nor a look at an image.
pub fn run<'a, R, S>(host: &Host<'a, R>, system: &S, task: &Task<'a>, screen: Screen) -> Ending<'a>
where
    R: Files<File = File>
        + Net<Stream = TcpStream, Listener = TcpListener>
        + Clock
        + Copy
        + Input
        + Print
        + Eprint
        + AllocGlobal,
    S: System<'a> + Linking<R>,
    ensures { Runs (record {
      old = S.Old.Disk;
      new = S.New.Disk;
      copied = S.copied system.now;
      image = S.Image.Disk;
      named = S.named system.now;
      held = S.held system.now;
      opened = S.opened system.now;
      left = S.Lines.left;
      bus = ⟦<TaskBus<'static, R> as Bus>⟧;
      linked = λ name. S.linked system.now (Some name ∷ []);
      joined = λ peers patience line. S.joined system.now peers patience line.bus.bus;
    }) task.now result }
{
    match task {
        Task::Lines {
            engine,
            file: Some(name),
        } => work_on(host, system, *engine, name),
        Task::Lines { engine, file: None } => work_on(host, system, *engine, STREAM),
        Task::Sheet { page, file } => audit_sheet(host, system, page, file),
        Task::Format { image, sectors } => format_image(system, image, *sectors),
        Task::Run(task) => run_on_image(host, system, task),
        Task::Report {
            image,
            table,
            is_json,
        } => report_on(host, image, table, *is_json),
        Task::Inspect { image } => look_into(host, Asked::Contents, image, false),
        Task::Values { image, layout } => tell(host, image, None, *layout, screen),
        Task::Status {
            image,
            silent,
            layout,
        } => tell(host, image, Some(*silent), *layout, screen),
        Task::Fit { image, list } => fit_on_image(host, system, image, list),
        Task::Order(task) => order_on_image(host, system, task),
        Task::Copy { image, file } => back_up(system, image, file),
        Task::Rescue { image, file } => rescue_image(host, system, image, file),
        Task::Bus(task) => on_bus(host, system, task),
        Task::Poll(task) => {
            let ending = poll_on_image(host, system, task);
            let is_polled = matches!(ending, Ending::Clean | Ending::Faulty);
            if screen.is_terminal && is_polled && !task.is_json {
                let _ = tell(host, task.image, None, Layout::Table, screen);
            }
            ending
        }
        Task::Demo => demo::play(host),
    }
}

// Runs the engine over the input of that name, and ends by its answer.
fn work_on<'a, R: Files<File = File> + Print + Eprint + AllocGlobal, S: System<'a>>(
    host: &Host<'_, R>,
    system: &S,
    engine: Engine,
    name: &'a str,
) -> Ending<'a>
    ensures { Works (S.opened system.now) S.Lines.left engine name.now result }
{
    let is_pointed = host.is_watched && matches!(engine, Engine::Decode(_));
    match system.lines(name, is_pointed) {
        Ok(mut lines) => host.why.ended(work(host, engine, &mut lines), name),
        Err(ending) => ending,
    }
}

// Runs the engine from what the source has left to standard output. It writes in large pieces.
fn work<R: Files<File = File> + Print + Eprint + AllocGlobal, S: Source>(
    host: &Host<'_, R>,
    engine: Engine,
    reader: &mut S,
) -> Result<bool, ProgramFault>
    ensures { IfOk result (λ faulty. Answers engine (S.left reader.old) faulty) }
{
    let alloc = host.rt.alloc();
    let printer = Output::new(io::writer(host.rt), host, false);
    let mut writer = Buffered::new(alloc, ROOM, WriteSink::new(printer))?;
    let faulty = match engine {
        Engine::Decode(Form::Text) => decode_lines(alloc, reader, &mut writer)?,
        Engine::Decode(Form::Json) => json_lines(alloc, reader, &mut writer)?,
        Engine::Decode(Form::Table) => explain_lines(alloc, reader, &mut writer)?,
        Engine::Fold => fold_lines(alloc, reader, &mut writer)?,
        Engine::Audit => !audit(alloc, reader, &mut writer)?,
        Engine::Fill => filled(host, reader, &mut writer)?,
    };
    let (mut output, put) = writer.finish();
    if put.is_err() || output.flush().is_err() {
        return Err(ProgramFault::Write);
    }
    Ok(faulty)
}

// Fills a file of published numbers in, and says on standard error what differs.
fn filled<R: Files<File = File> + Eprint + AllocGlobal, S: Source, W: Sink>(
    host: &Host<'_, R>,
    reader: &mut S,
    writer: &mut W,
) -> Result<bool, ProgramFault>
    ensures { IfOk result (λ faulty. Answers Engine.Fill (S.left reader.old) faulty) }
{
    let alloc = host.rt.alloc();
    let mut says = Bytes::new(alloc);
    let is_right = fill(alloc, reader, writer, &mut says)?;
    let Ok(mut text) = Vec::from_slice(alloc, says.as_slice()) else {
        return Err(ProgramFault::NoMemory);
    };
    if str::from_utf8(text.as_slice()).is_err() {
        for byte in &mut text {
            *byte = if byte.is_ascii() { *byte } else { b'?' };
        }
    }
    if !is_full(host.rt, ERRORS)
        && let Ok(text) = str::from_utf8(text.as_slice())
    {
        let _ = host.rt.eprint(text);
    }
    Ok(!is_right)
}
