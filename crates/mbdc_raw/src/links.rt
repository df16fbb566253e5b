//! The links of the bus lines on this system: transparent gateways over TCP, serial level
//! converters, and gateways of the block protocol.
//!
//! [`reach`] has the order in which links are connected, and [`Peer::bus`] returns a link's bus ([`LinkBus`]). A
//! [`Watch`] waits until one of several buses may have received something.

mod bus;
mod connection;
mod lock_file;
mod peer;
pub mod reach;
mod socket;
mod terminal;
mod waiting;

pub use bus::LinkBus;
pub use connection::Connection;
pub use peer::{BlockBus, ByteBus, Peer, RawBus, SystemBus};
pub use socket::{Socket, Tcp, Terminal};
pub use terminal::Held;
pub use waiting::{Waiter, Watch, Watched};
