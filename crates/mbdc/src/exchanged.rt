//! Bus lines that a poll leaves with missing meters: whose cables may be exchanged, and where a meter answers for
//! others.

use crate::connecting::buses_of;
use crate::journal::Before;
use crate::tracing::{Trace, tracers_of};
use dc_address::{Identity, Mask};
use dc_linkframe::control::{SELECTED, write_request, write_reset, write_selection};
use dc_linkframe::{Frame, FrameBuf, parse};
use dc_readout::Why;
use dc_search::meter_of;
use mbdc_bus::trace::Observer;
use mbdc_bus::{Both, Bus, HalfBus, Pause};
use mbdc_files::Host;
use mbdc_poll::Event;
use mbdc_poll::events::Notes;
use mbdc_raw::links::{Peer, Waiter};
use std::cell::Cell;
use std::fs::File;
use std::net::{Net, TcpStream};
use std::rt::{Clock, Files};
use std::str;

// Number of bus lines.
const LINES: usize = 8;

// From how many meters of a line on that were answered for by something unreadable, or by another meter, it is asked
// who answers there for others.
const DISTURBED: u64 = 2;

// The patience in milliseconds where none is given, that of a search: nothing is stored.
const PATIENCE: u16 = 2_000;

/// What a poll has found of a line.
#[derive(Clone, Copy)]
pub struct Found {
    // Number of its registered meters, and of those that are missing.
    meters: u64,
    missing: u64,
    // The first of the missing ones.
    first: Option<Identity>,
    // Number of those for whom something unreadable, or another meter, answered.
    disturbed: u64,
}

/// Before a poll nothing is found of each line.
pub const NOTHING_FOUND: [Found; LINES] = [Found {
    meters: 0,
    missing: 0,
    first: None,
    disturbed: 0,
}; LINES];

/// The meters that are missing in a poll: silent, or another one answers at their address.
#[derive(Drop)]
pub struct Missing {
    /// What was found of each line.
    pub lines: Cell<[Found; LINES]>,
}

/// Hands the events of a poll on to its notes, and keeps who is missing.
#[derive(Drop)]
pub struct Attending<'m, J> {
    /// The notes.
    pub notes: &'m mut J,
    /// Who is missing.
    pub missing: &'m Missing,
}

impl<J: Notes> Notes for Attending<'_, J> {
    fn note(&mut self, event: &Event<'_>) {
        if let Event::Failed {
            line,
            meter,
            why,
            brought,
        } = event
            && matches!(why, Why::NoAnswer | Why::Stranger)
        {
            let mut lines = self.missing.lines.get();
            if let Some(found) = lines.get_mut(usize::from(*line).wrapping_sub(1)) {
                found.missing = found.missing.saturating_add(1);
                found.first = Some(found.first.unwrap_or(*meter));
                if brought.misses.noise > 0 || matches!(why, Why::Stranger) {
                    found.disturbed = found.disturbed.saturating_add(1);
                }
            }
            self.missing.lines.set(lines);
        }
        self.notes.note(event);
    }
}

/// Where all meters of a line were missing in the poll, and some of another one, the first of them is selected on each
/// other line with missing meters, one after the other, and standard error says where it answers with its telegram: the
/// lines are exchanged there. Where something unreadable or another meter answered for meters of a line, or a meter was
/// named there before, a number that nobody has is selected there, and standard error says which meter answers it: that
/// one answers for others, and is returned. Each selection is taken back. Without memory nothing is asked.
pub fn look_for_missing<R>(
    host: &Host<'_, R>,
    peers: &[Option<Peer<R>>],
    trace: Option<&Trace<'_, R>>,
    missing: &Missing,
    before: &[Before],
    patience: Option<u16>,
) -> [Option<Identity>; LINES]
where
    R: Files<File = File> + Net<Stream = TcpStream> + Clock + Copy + Eprint + AllocGlobal,
{
    let mut lines = missing.lines.get();
    for (found, before) in lines.iter_mut().zip(before) {
        found.meters = before.meters;
        if before.is_odd {
            found.disturbed = found.disturbed.max(DISTURBED);
        }
    }
    let short = lines.iter().filter(|found| found.missing > 0).count();
    let is_deserted = lines
        .iter()
        .any(|found| found.missing > 0 && found.missing == found.meters);
    let is_disturbed = lines.iter().any(|found| found.disturbed >= DISTURBED);
    if (is_disturbed || short > 1 && is_deserted)
        && let Ok(observers) = tracers_of(host, trace, peers.len())
    {
        return look_over(host, peers, observers, &lines, patience);
    }
    [None; LINES]
}

// Makes the buses of connected links, the first of which is that of line 1, and looks on each. The observers are any,
// for the checker meets its step limit over the parts of a trace.
fn look_over<O, R>(
    host: &Host<'_, R>,
    peers: &[Option<Peer<R>>],
    observers: Vec<O>,
    lines: &[Found; LINES],
    patience: Option<u16>,
) -> [Option<Identity>; LINES]
where
    O: Observer + Drop,
    R: Net<Stream = TcpStream> + Clock + Copy + Eprint + AllocGlobal,
{
    match buses_of(host, peers, observers, Some(patience.unwrap_or(PATIENCE))) {
        Ok(buses) => look_on_buses(host, buses, Waiter, lines),
        Err(_) => [None; LINES],
    }
}

// Looks on each of these buses, which are any, as the observers are.
fn look_on_buses<B, P, R>(
    host: &Host<'_, R>,
    buses: Vec<B>,
    pause: P,
    lines: &[Found; LINES],
) -> [Option<Identity>; LINES]
where
    B: HalfBus + Drop,
    P: Pause<B> + Copy + Drop,
    R: Eprint,
{
    let mut odd = [None; LINES];
    let mut line = 0u8;
    for (bus, (found, odd)) in buses.into_iter().zip(lines.iter().zip(odd.iter_mut())) {
        line = line.saturating_add(1);
        if found.missing > 0 || found.disturbed > 0 {
            *odd = look_on_line(host, &mut Both { bus, pause }, line, lines);
        }
    }
    odd
}

// Looks on the bus of this line for a meter of each other one on which all are missing, and, where it was disturbed,
// for one that answers to a number that nobody has, which it returns.
fn look_on_line<B: Bus, R: Eprint>(
    host: &Host<'_, R>,
    bus: &mut B,
    line: u8,
    lines: &[Found; LINES],
) -> Option<Identity> {
    let (mut own, mut odd) = (0u8, None);
    for found in lines {
        own = own.saturating_add(1);
        let is_own = own == line;
        let asked = match found.first {
            _ if is_own && found.disturbed >= DISTURBED => Identity::greatest(),
            Some(first) if !is_own && found.missing == found.meters => first,
            _ => continue,
        };
        if let Some(sender) = sender_of(bus, &asked, is_own)
            && is_own == (sender != asked)
        {
            let text = sender.text();
            let name = str::from_utf8(&text).unwrap_or_default();
            let _ = if is_own {
                odd = Some(sender);
                eprint!(host.rt; "mbdc: line {line}: {name} answers for other meters\n")
            } else {
                eprint!(host.rt; "mbdc: line {own}: {name} answers on line {line}\n")
            };
        }
    }
    odd
}

// The sender of the telegram that comes where this meter is selected. Without an acknowledgement it is asked for only
// where `is_pressed` says so. The selection is taken back.
fn sender_of<B: Bus>(bus: &mut B, meter: &Identity, is_pressed: bool) -> Option<Identity> {
    let mut request = FrameBuf::new();
    write_selection(&Mask::of(meter).wire(), &mut request);
    let answer = bus.ask(&request);
    if !is_pressed && !matches!(parse(answer.as_slice()), Ok(Frame::Ack)) {
        return None;
    }
    write_request(true, SELECTED, &mut request);
    let telegram = bus.ask(&request);
    write_reset(SELECTED, &mut request);
    bus.ask(&request);
    meter_of(telegram.as_slice())
}
