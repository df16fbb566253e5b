//! The command `poll`: the registered meters of an image are read over the bus lines.

ghost use Rattle.std.specs.Prelude.{◌⊎◌};
ghost use Rattle.mbdc.specs.Commands.{IsPolled, Polled, Refuses};

use crate::clock::moment;
use crate::connecting::{buses_of, reached, released};
use crate::exchanged::{Attending, Missing, NOTHING_FOUND, look_for_missing};
use crate::journal::{Before, Noting};
use crate::names::meters_of;
use crate::system::System;
use crate::tracing::{Trace, shows_progress, trace_of, tracers_of};
use dc_address::Identity;
use dc_meters::House;
use dc_sectors::Disk;
use mbdc_bus::HalfBus;
use mbdc_bus::trace::Observer;
use mbdc_change::Moment;
use mbdc_commands::words::PollTask;
use mbdc_commands::{FilteredWatch, Printing, poll_over};
use mbdc_ending::Ending;
use mbdc_files::{Host, Output};
use mbdc_io::NoMemory;
use mbdc_poll::events::{Form, Notes};
use mbdc_poll::{Plan, PollBus, with_filters};
use mbdc_raw::links::{Peer, Watched};
use std::alloc::Global;
use std::cell::Cell;
use std::fs::File;
use std::io;
use std::net::{Net, TcpStream};
use std::rt::{Clock, Files};

/// Reads the registered meters of the image in that file over the links of their lines, or only
/// those that are named.
pub fn poll_on_image<'a, R, S>(host: &Host<'a, R>, system: &S, task: &PollTask<'a>) -> Ending<'a>
where
    R: Files<File = File> + Net<Stream = TcpStream> + Clock + Copy + Print + Eprint + AllocGlobal,
    S: System<'a>,
    ensures { Refuses result ⊎ Polled S.Image.Disk (S.held system.now task.now.image.now) task.now.only.items
        task.now.image.now result }
{
    // No reading gets a stamp that is no time.
    let Some(begun) = moment(host.rt) else {
        return Ending::Clock;
    };
    let mut disk = match system.image(task.image) {
        Ok(disk) => disk,
        Err(ending) => return ending,
    };
    match meters_of(host, &mut disk, task.only.as_slice(), task.image) {
        Ok((only, house)) => poll_known(host, disk, only.as_slice(), house, begun, task),
        Err(ending) => ending,
    }
}

// Reads the meters of this register, or only those that are named, over the links of their lines.
fn poll_known<'a, D, R>(
    host: &Host<'a, R>,
    disk: D,
    only: &[Identity],
    house: Option<House<Global>>,
    begun: Moment,
    task: &PollTask<'a>,
) -> Ending<'a>
where
    D: Disk + Drop,
    R: Files<File = File> + Net<Stream = TcpStream> + Clock + Copy + Print + Eprint + AllocGlobal,
    ensures { Refuses result ⊎ IsPolled D.Disk only.now task.now.image.now disk result }
{
    let trace = match trace_of(host, task.trace) {
        Ok(trace) => trace,
        Err(error) => return host.why.file(task.trace.unwrap_or_default(), error),
    };
    let peers = match reached(host, &task.links, task.tries > 1) {
        Ok(peers) => peers,
        Err(ending) => return ending,
    };
    let mut notes = Noting::new(host, task.image, house);
    let ending = poll_reached(
        host,
        disk,
        peers.as_slice(),
        trace.as_ref(),
        only,
        begun,
        &mut notes,
        task,
    );
    released(host, peers.as_slice());
    ending
}

// Reads the meters of the notes' register, or only those that are named, over connected links.
fn poll_reached<'a, D, R>(
    host: &Host<'_, R>,
    disk: D,
    peers: &[Option<Peer<R>>],
    trace: Option<&Trace<'_, R>>,
    only: &[Identity],
    begun: Moment,
    notes: &mut Noting<'_, '_, R>,
    task: &PollTask<'a>,
) -> Ending<'a>
where
    D: Disk + Drop,
    R: Files<File = File> + Net<Stream = TcpStream> + Clock + Copy + Print + Eprint + AllocGlobal,
    ensures { Refuses result ⊎ IsPolled D.Disk only.now task.now.image.now disk result }
{
    // A meter that is named gets all its tries. A readout may begin anew where there is a second try.
    let lines = u8::try_from(peers.len()).unwrap_or_default();
    let mut before = match notes.before(lines, only.is_empty(), task.tries > 1) {
        Ok(before) => before,
        Err(NoMemory) => return Ending::Memory,
    };
    let printing = Printing {
        begun,
        form: if task.is_json { Form::Json } else { Form::Text },
        is_shown: shows_progress(host, trace),
    };
    let missing = Missing {
        lines: Cell::new(NOTHING_FOUND),
    };
    let ending = match tracers_of(host, trace, peers.len()) {
        Ok(observers) => poll_peers(
            host,
            disk,
            peers,
            observers,
            before.as_mut_slice(),
            only,
            printing,
            notes,
            &missing,
            task,
        ),
        Err(ending) => ending,
    };
    let odd = look_for_missing(
        host,
        peers,
        trace,
        &missing,
        before.as_slice(),
        task.patience,
    );
    notes.note_addresses(before.as_slice(), &odd);
    ending
}

// Reads the meters over the buses of the connected links, and keeps who is missing. The observers are any, for the
// checker meets its step limit over the parts of a trace, and the notes, for their lifetimes.
fn poll_peers<'a, D, O, J, R>(
    host: &Host<'_, R>,
    disk: D,
    peers: &[Option<Peer<R>>],
    observers: Vec<O>,
    before: &mut [Before],
    only: &[Identity],
    printing: Printing,
    notes: &mut J,
    missing: &Missing,
    task: &PollTask<'a>,
) -> Ending<'a>
where
    D: Disk + Drop,
    O: Observer + Drop,
    J: Notes,
    R: Files<File = File> + Net<Stream = TcpStream> + Clock + Copy + Print + Eprint + AllocGlobal,
    ensures { Refuses result ⊎ IsPolled D.Disk only.now task.now.image.now disk result }
{
    let notes = Attending { notes, missing };
    match buses_of(host, peers, observers, task.patience) {
        Ok(buses) => poll_filtered(host, disk, buses, before, only, printing, notes, task),
        Err(ending) => ending,
    }
}

// Reads the meters over these buses with the filters of a poll. They are any, as the observers are.
fn poll_filtered<'a, D, B, J, R>(
    host: &Host<'_, R>,
    disk: D,
    buses: Vec<B>,
    before: &mut [Before],
    only: &[Identity],
    printing: Printing,
    notes: J,
    task: &PollTask<'a>,
) -> Ending<'a>
where
    D: Disk + Drop,
    B: HalfBus + Watched + Drop,
    J: Notes + Drop,
    R: Files<File = File> + Clock + Print + Eprint + AllocGlobal,
    ensures { Refuses result ⊎ IsPolled D.Disk only.now task.now.image.now disk result }
{
    let mut all = Vec::new(host.rt.alloc());
    for (bus, before) in buses.into_iter().zip(before.iter_mut()) {
        if all.push(filtered(bus, before)).is_err() {
            return Ending::Memory;
        }
    }
    let plan = Plan {
        buses: all,
        only,
        tries: task.tries.max(1),
    };
    // The readings go on where nobody takes what is printed.
    let out = Output::new(io::writer(host.rt), host, true);
    let (_, ending) = poll_over(
        host.rt.alloc(),
        host.rt,
        disk,
        plan,
        FilteredWatch::new(),
        out,
        printing,
        notes,
        task.image,
    );
    ending
}

// This bus with the filters of a poll, a call that the borrow checker doesn't cover within the loop.
fn filtered<'b, B: HalfBus + Drop>(bus: B, before: &'b mut Before) -> PollBus<'b, 'b, 'b, B> {
    with_filters(
        bus,
        before.silent.as_mut_slice(),
        before.sent.as_mut_slice(),
        before.selected.as_mut_slice(),
    )
}
