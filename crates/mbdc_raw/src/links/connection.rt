//! A connection to a gateway of the block protocol: a TCP stream of blocks.

use std::cell::Cell;
use std::io;
use std::io::{ErrorKind, Read, Write};
use std::net::{Net, TcpStream, ToSocketAddrs};
use std::rt::Clock;
use std::time::{Duration, Instant};

// Time limit for connecting to each address of the gateway, in seconds.
const CONNECTING: u64 = 10;

// Time limit of an exchange in seconds, from its request to the end of its answer. The longest
// frame takes 10 s at 300 baud, and a meter takes up to a second before it answers.
const EXCHANGE: u64 = 15;

/// A connection to a gateway on which an exchange has a time limit: reading the answer fails 15 s after the last write.
#[derive(Drop)]
pub struct Connection<C: Clock + Copy> {
    stream: TcpStream,
    clock: C,
    asked: Cell<Instant>,
}

impl<C: Clock + Copy> Connection<C> {
    /// Connects to a gateway, by its host and port.
    ///
    /// # Errors
    /// The host isn't found, or none of its addresses takes the connection within 10 s.
    pub fn new(rt: &C, address: &str) -> io::Result<Self>
    where
        C: Net<Stream = TcpStream>,
    {
        let stream = connect(rt, address)?;
        stream.set_write_timeout(Some(Duration::from_secs(EXCHANGE)))?;
        let asked = Cell::new(Instant::now(rt)?);
        Ok(Connection {
            stream,
            clock: *rt,
            asked,
        })
    }
}

// Tries each address of the host in turn.
pub(crate) fn connect<R: Net<Stream = TcpStream>>(rt: &R, address: &str) -> io::Result<TcpStream> {
    let mut last = io::Error::from(ErrorKind::NotFound);
    for place in address.to_socket_addrs(rt)? {
        match TcpStream::connect_timeout(rt, &place, Duration::from_secs(CONNECTING)) {
            Ok(stream) => return Ok(stream),
            Err(error) => last = error,
        }
    }
    Err(last)
}

impl<C: Clock + Copy> Write for &Connection<C> {
    fn write(&mut self, bytes: &[u8]) -> io::Result<usize> {
        self.asked.set(Instant::now(&self.clock)?);
        let mut stream = &self.stream;
        stream.write(bytes)
    }

    fn flush(&mut self) -> io::Result<()> {
        Ok(())
    }
}

impl<C: Clock + Copy> Read for &Connection<C> {
    fn read(&mut self, room: &mut [u8]) -> io::Result<usize> {
        let spent = self.asked.get().elapsed(&self.clock)?;
        // A time limit of zero is an error of `set_read_timeout`.
        let left = Duration::from_secs(EXCHANGE).saturating_sub(spent);
        self.stream.set_read_timeout(Some(left))?;
        let mut stream = &self.stream;
        stream.read(room)
    }
}
