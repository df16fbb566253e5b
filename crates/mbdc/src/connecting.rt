//! The links of the bus lines on this system.

ghost use Rattle.std.specs.Prelude.{⊤, IfOk, IfErr};
ghost use Rattle.mbdc.specs.Commands.{Refuses};

use libc::net::poll;
use mbdc_bus::trace::{Observed, Observer};
use mbdc_commands::links_of;
use mbdc_commands::words::{LinkName, Links};
use mbdc_ending::Ending;
use mbdc_files::{Host, without_number};
use mbdc_raw::GivenUp;
use mbdc_raw::links::reach::{Connector, Unconnected, reach_all, release_all};
use mbdc_raw::links::{Connection, Held, LinkBus, Peer, Socket, SystemBus};
use std::fs::File;
use std::net::{Net, TcpStream};
use std::rt::{Clock, Files};
use std::time::{Duration, Instant};
use std::{fs, io};

// For how many seconds a link by TCP is tried again: a converter may start together with this box, and take longer.
const AGAIN: u64 = 60;

// The pause between two tries of a link, in milliseconds.
const PAUSE: i32 = 5_000;

// The most tries within that time.
const MOST_TRIES: usize = 12;

// The links of a command, or the ending of the command without them.
type Connected<'a, R> = Result<Vec<Option<Peer<R>>>, Ending<'a>>;

/// The one link of a command, and its bus.
pub trait Linking<R: Net<Stream = TcpStream> + Clock + Copy> {
    ghost use Rattle.std.specs.Prelude.{ℕ, List, Option};
    ghost use Rattle.mbdc_commands.specs.declared.words.link.LinkName.{LinkName as Name};
    ghost use Rattle.mbdc_raw.specs.declared.links.peer.Peer.{Peer as Link};

    // Of these names these links were connected, each at its place.
    ghost linked: { Self → List (Option Name) → List (Option (Link R)) → Type 0 };

    // This is the bus of such a link, newly made, with a time-out of this many milliseconds. Its type is any, for no
    // member can name that of a link's bus.
    ghost joined: { Self → List (Option (Link R)) → ℕ → {B : Type 0} → B → Type 0 };

    /// Connects the one link of a command, which has no numbers of lines, if it has one.
    ///
    /// # Errors
    /// The ending of the command: the link can't be connected, or memory ran out.
    fn connected<'e>(&self, names: &[Option<LinkName<'_>>; 1]) -> Connected<'e, R>
        ensures linked { IfOk result (λ peers. linked self.now names.now peers.items) }
        ensures refused { IfErr result (λ ending. Refuses ending) };

    /// Makes the bus of the one link, with a time-out of this many milliseconds. Where there is no link, it is absent.
    ///
    /// # Errors
    /// The clock fails.
    fn bus<'p>(&self, peers: &'p [Option<Peer<R>>], patience: u16) -> io::Result<SystemBus<'p, R>>
        ensures { IfOk result (λ bus. joined self.now peers.now patience bus) };
}

impl<R> Linking<R> for Host<'_, R>
where
    R: Files<File = File> + Net<Stream = TcpStream> + Clock + Copy + Eprint + AllocGlobal,
{
    ghost use Rattle.std.specs.Prelude.{⊤};

    // What the system does is in no contract.
    ghost linked = { λ _ _ _. ⊤ };

    ghost joined = { λ _ _ _ _. ⊤ };

    fn connected<'e>(&self, names: &[Option<LinkName<'_>>; 1]) -> Connected<'e, R> {
        let mut linker = Linker {
            rt: self.rt,
            has_lines: false,
            begun: None,
        };
        match reach_all(self.rt.alloc(), names, &mut linker) {
            Err(Unconnected::Link(missed)) => Err(self.why.link(None, missed.why)),
            peers => links_of(self.why, peers),
        }
    }

    fn bus<'p>(&self, peers: &'p [Option<Peer<R>>], patience: u16) -> io::Result<SystemBus<'p, R>> {
        match peers {
            [Some(peer)] => peer.bus(*self.rt, patience),
            _ => Ok(LinkBus::Absent),
        }
    }
}

/// Connects the links that can be; the first is that of line 1. One by TCP that can't be at first is tried again for a
/// minute, if that is asked for. For each that can't be connected a line is printed on standard error, and its line is
/// as one without a link.
///
/// # Errors
/// The ending of the command: no link can be connected, or memory ran out.
pub fn reached<'a, R>(host: &Host<'_, R>, links: &Links<'_>, again: bool) -> Connected<'a, R>
where
    R: Files<File = File> + Net<Stream = TcpStream> + Clock + Copy + Eprint + AllocGlobal,
    ensures { IfErr result (λ ending. Refuses ending) }
{
    let mut linker = Linker {
        rt: host.rt,
        has_lines: true,
        begun: if again {
            Instant::now(host.rt).ok()
        } else {
            None
        },
    };
    let peers = reach_all(host.rt.alloc(), &links.links, &mut linker);
    host.why.is_named.set(peers.is_err());
    links_of(host.why, peers)
}

/// Makes the bus of each connected link, with its observer; a line without a link has an absent one. Where no patience
/// in milliseconds is given, each link has its own.
///
/// # Errors
/// The ending of the command: the clock failed, or memory ran out.
pub fn buses_of<'p, 'e, O, R>(
    host: &Host<'_, R>,
    peers: &'p [Option<Peer<R>>],
    observers: Vec<O>,
    patience: Option<u16>,
) -> Result<Vec<Observed<SystemBus<'p, R>, O>>, Ending<'e>>
where
    O: Observer + Drop,
    R: Net<Stream = TcpStream> + Clock + Copy + AllocGlobal,
    ensures { IfErr result (λ ending. Refuses ending) }
{
    let mut buses = Vec::new(host.rt.alloc());
    for (peer, observer) in peers.iter().zip(observers) {
        let bus = match peer {
            Some(peer) => peer.bus(*host.rt, patience.unwrap_or(peer.patience())),
            None => Ok(LinkBus::Absent),
        };
        let bus = match bus {
            Ok(bus) => Observed { bus, observer },
            Err(error) => return Err(host.why.link(None, error)),
        };
        if buses.push(bus).is_err() {
            return Err(Ending::Memory);
        }
    }
    Ok(buses)
}

/// Says on standard error which lines were given up and why, and gives the terminals of links back to other programs,
/// at the end of the command.
pub fn released<R>(host: &Host<'_, R>, peers: &[Option<Peer<R>>])
where
    R: Files<File = File> + Net<Stream = TcpStream> + Clock + Copy + Eprint + AllocGlobal,
{
    let mut line: u8 = 0;
    for peer in peers {
        line = line.saturating_add(1);
        let Some(peer) = peer else {
            continue;
        };
        let why = match peer {
            Peer::Tcp(socket) => socket.deserted.get(),
            Peer::Serial(held) => held.deserted.get(),
            Peer::Blocks(_) => None,
        };
        // What is wrong on a bus where only such bytes come.
        let words = match why {
            None => continue,
            Some(GivenUp::Silent) => "nobody answers",
            Some(GivenUp::Noisy(0xFF)) =>
                "nobody answers, and FF comes: a break, or an overload of the bus",
            Some(GivenUp::Noisy(0x00)) =>
                "nobody answers, and 00 comes: a short circuit of the bus",
            Some(GivenUp::Noisy(_)) => "nobody answers, and bytes come: another speed, or noise",
            Some(GivenUp::Loud) => "bytes keep coming: another master, or noise",
        };
        let _ = eprint!(host.rt; "mbdc: gateway: line {line}: {words}\n");
    }
    let mut linker = Linker {
        rt: host.rt,
        has_lines: true,
        begun: None,
    };
    release_all::<LinkName<'_>, Peer<R>, io::Error, Linker<'_, R>>(peers, &mut linker);
}

// Connects links by TCP and over terminals, and says on standard error which lines' links can't be connected.
#[derive(Clone, Copy, Drop)]
struct Linker<'r, R> {
    // The system.
    rt: &'r R,
    has_lines: bool,
    // Since when a link by TCP that can't be connected is tried again; none where it isn't.
    begun: Option<Instant>,
}

impl<'n, R> Connector<LinkName<'n>, Peer<R>, io::Error> for Linker<'_, R>
where
    R: Files<File = File> + Net<Stream = TcpStream> + Clock + Copy + Eprint + AllocGlobal,
{
    ghost use Rattle.std.specs.Prelude.{⊤};

    // What the system does is in no contract.
    ghost tries = { λ _ _ _ _. ⊤ };

    ghost says = { λ _ _ _. ⊤ };

    ghost releases = { λ _ _ _. ⊤ };

    // The host isn't found or doesn't accept the connection within 10 s; the terminal can't be opened, or another
    // program uses it; or out of memory.
    fn connect(&mut self, name: &LinkName<'n>) -> io::Result<Peer<R>> {
        let (rt, begun) = (self.rt, self.begun);
        match *name {
            LinkName::Tcp(place) => {
                Ok(Peer::Tcp(patiently(rt, place, begun, || Socket::new(rt, place))?))
            }
            LinkName::Serial(path) => Ok(Peer::Serial(Held::open(rt, path)?)),
            LinkName::Blocks(place) => {
                Ok(Peer::Blocks(patiently(rt, place, begun, || Connection::new(rt, place))?))
            }
        }
    }

    fn say(&mut self, line: u8, error: &io::Error)
        ensures { ⊤ }
    {
        if self.has_lines
            && let Ok(said) = format!(in self.rt.alloc(); "{error}")
        {
            let words = without_number(said.as_str());
            let _ = eprint!(self.rt; "mbdc: gateway: line {line}: {words}\n");
        }
    }

    fn release(&mut self, peer: &Peer<R>)
        ensures { ⊤ }
    {
        // A lock file that is left behind, by a kill, names a process that has ended.
        if let Peer::Serial(held) = peer
            && let Some(name) = &held.lock_file
        {
            let _ = fs::remove_file(self.rt, name.as_str());
        }
    }
}

// Connects what has that name, and tries again while a minute since it began isn't over, which standard error says.
// What is connected is any, for the borrow checker doesn't cover links.
fn patiently<T, R, F>(rt: &R, place: &str, begun: Option<Instant>, connect: F) -> io::Result<T>
where
    T: Drop,
    R: Clock + Eprint + AllocGlobal,
    F: Fn() -> io::Result<T>,
    requires { F.IsAlwaysCallable connect }
{
    let mut error = match connect() {
        Ok(link) => return Ok(link),
        Err(error) => error,
    };
    let Some(begun) = begun else {
        return Err(error);
    };
    if let Ok(said) = format!(in rt.alloc(); "{error}") {
        let words = without_number(said.as_str());
        let _ = eprint!(rt; "mbdc: gateway: {place}: {words}; it is tried again for a minute\n");
    }
    for _ in 0..MOST_TRIES {
        match begun.elapsed(rt) {
            Ok(spent) if spent < Duration::from_secs(AGAIN) => {}
            _ => return Err(error),
        }
        poll(&mut [], PAUSE);
        match connect() {
            Ok(link) => return Ok(link),
            Err(again) => error = again,
        }
    }
    Err(error)
}
