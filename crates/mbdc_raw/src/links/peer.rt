//! A connected link.

ghost use Rattle.std.specs.Prelude.{◌≤◌};

use crate::links::bus::LinkBus;
use crate::links::connection::Connection;
use crate::links::socket::{Socket, Tcp, Terminal};
use crate::links::terminal::Held;
use crate::{Line, PollWire};
use mbdc_bus::blocks::{BlockLink, Gateway};
use mbdc_io::{ReadSource, WriteSink};
use std::io;
use std::net::{Net, TcpStream};
use std::rt::Clock;

// The patience of a TCP stream in milliseconds, whose converter may hold an answer back, and that of a terminal, whose
// driver doesn't.
const PATIENCE_TCP: u16 = 6_000;

const PATIENCE: u16 = 2_000;

/// The other end of a link.
#[derive(Drop)]
pub enum Peer<C: Clock + Copy> {
    /// A TCP stream that passes the bytes of the bus on.
    Tcp(Socket<C>),
    /// A terminal that passes the bytes of the bus on, set up by `stty`, which this program alone uses.
    Serial(Held),
    /// A gateway that speaks the block protocol.
    Blocks(Connection<C>),
}

/// The bus of a transparent link.
pub type RawBus<S, C> = Line<PollWire<S, S, C>>;

/// The bus of a TCP stream or of a terminal.
pub type ByteBus<'a, C> = LinkBus<RawBus<Tcp<'a, C>, C>, RawBus<Terminal<'a>, C>>;

/// The bus of a gateway of the block protocol.
pub type BlockBus<'a, C> = BlockLink<ReadSource<&'a Connection<C>>, WriteSink<&'a Connection<C>>>;

/// The bus of a line of the system.
pub type SystemBus<'a, C> = LinkBus<ByteBus<'a, C>, BlockBus<'a, C>>;

impl<C: Clock + Copy> Peer<C> {
    /// Returns the link's bus, with a time-out of this many milliseconds.
    ///
    /// # Errors
    /// The clock fails.
    pub fn bus(&self, clock: C, patience: u16) -> io::Result<SystemBus<'_, C>>
    where
        C: Net<Stream = TcpStream>,
    {
        match self {
            Peer::Tcp(socket) => {
                let wire = PollWire::new(Tcp { socket }, Tcp { socket }, clock, patience)?;
                Ok(LinkBus::First(LinkBus::First(Line::new(wire))))
            }
            Peer::Serial(held) => {
                let terminal = Terminal { held };
                let wire = PollWire::new(terminal, terminal, clock, patience)?;
                Ok(LinkBus::First(LinkBus::Second(Line::new(wire))))
            }
            Peer::Blocks(connection) => {
                let gateway = Gateway::new(ReadSource::new(connection), WriteSink::new(connection));
                Ok(LinkBus::Second(BlockLink::new(gateway)))
            }
        }
    }

    /// The patience of the link in milliseconds, where readings are stored and none is given.
    pub fn patience(&self) -> u16
        ensures least { 2000 ≤ result }
        ensures most { result ≤ 6000 }
    {
        match self {
            Peer::Tcp(_) => PATIENCE_TCP,
            Peer::Serial(_) | Peer::Blocks(_) => PATIENCE,
        }
    }
}
