//! The commands `scan`, `read` and `address`: one bus, without an image.

ghost use Rattle.std.specs.Prelude.{◌⊎◌, Some, [], ◌∷◌};
ghost use Rattle.mbdc.specs.Commands.{Refuses};
ghost use Rattle.mbdc.specs.Linked.{OnBus, WorksOn};

use crate::connecting::{Linking, released};
use crate::tracing::{LineTracer, shows_progress, trace_of, tracers_of};
use mbdc_bus::trace::{Observed, Observer, Pair};
use mbdc_bus::{Both, Bus};
use mbdc_commands::words::BusTask;
use mbdc_ending::Ending;
use mbdc_files::{Host, Output, refused};
use mbdc_installer::bench::{Progress, Show, Work, run_over};
use mbdc_raw::links::{Peer, SystemBus, Waiter};
use std::fs::File;
use std::io;
use std::net::{Net, TcpStream};
use std::rt::{Clock, Files};

/// The bus of a link, with an observer.
pub type Seen<'b, R, O> = Both<Observed<SystemBus<'b, R>, O>, Waiter>;

/// The bus of a task: the trace and the progress see each request and answer.
pub type TaskBus<'b, R> = Seen<'b, R, Pair<LineTracer<'b, 'b, R>, Show<'b, 'b, R>>>;

/// Connects a link, does the work on its bus, and gives the link back. The trace sees each request and answer, and so
/// does the progress: a terminal is shown how far a search is.
pub fn on_bus<'a, R, S>(host: &Host<'a, R>, system: &S, task: &BusTask<'a>) -> Ending<'a>
where
    R: Files<File = File> + Net<Stream = TcpStream> + Clock + Copy + Print + Eprint + AllocGlobal,
    S: Linking<R>,
    ensures { Refuses result ⊎ OnBus ⟦<TaskBus<'static, R> as Bus>⟧ (λ name. S.linked system.now (Some name ∷ []))
        (λ peers patience line. S.joined system.now peers patience line.bus.bus) task.now result }
{
    let trace = match trace_of(host, task.trace) {
        Ok(trace) => trace,
        Err(error) => return host.why.file(task.trace.unwrap_or_default(), error),
    };
    let peers = match system.connected(&[Some(task.link)]) {
        Ok(peers) => peers,
        Err(ending) => return ending,
    };
    let is_shown = matches!(task.work, Work::Search(_)) && shows_progress(host, trace.as_ref());
    let progress = Progress::new(host.rt, host.rt.alloc(), is_shown, task.work, task.patience);
    let second = Show {
        progress: &progress,
    };
    let ending = match (peers.as_slice(), tracers_of(host, trace.as_ref(), 1)) {
        (links, Ok(mut tracers)) => match tracers.pop() {
            Some(first) => over_bus(host, system, links, task, Pair { first, second }, &progress),
            None => Ending::Memory,
        },
        (_, Err(ending)) => ending,
    };
    progress.clear();
    released(host, peers.as_slice());
    ending
}

// Makes the bus of a link, and does the work on it. The observer is any, for the checker meets its step limit over the
// parts of this one.
fn over_bus<'a, R, S, O>(
    host: &Host<'_, R>,
    system: &S,
    peers: &[Option<Peer<R>>],
    task: &BusTask<'_>,
    observer: O,
    progress: &Progress<'_, R>,
) -> Ending<'a>
where
    R: Files<File = File> + Net<Stream = TcpStream> + Clock + Copy + Print + Eprint + AllocGlobal,
    S: Linking<R>,
    O: Observer + Drop,
    ensures { Refuses result ⊎ WorksOn ⟦<Seen<'static, R, O> as Bus>⟧
        (λ peers patience line. S.joined system.now peers patience line.bus.bus) peers.now task.now result }
{
    let bus = match system.bus(peers, task.patience) {
        Ok(bus) => bus,
        Err(error) => return host.why.link(None, error),
    };
    let bus = Both {
        bus: Observed { bus, observer },
        pause: Waiter,
    };
    let out = Output::new(io::writer(host.rt), host, false);
    let ending = run_over(host.rt.alloc(), task.work, task.listing, bus, out, progress);
    if matches!(ending, Ending::Gateway) {
        host.why.note(refused("the connection ended or failed"));
    }
    ending
}
