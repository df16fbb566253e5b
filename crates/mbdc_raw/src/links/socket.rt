//! Connections that pass the bytes of a bus on.

use crate::links::connection::connect;
use crate::links::terminal::Held;
use crate::{GivenUp, Link};
use libc::net::{POLLERR, POLLHUP, POLLOUT, POLLRDHUP, poll};
use libc::types::pollfd;
use std::cell::Cell;
use std::io;
use std::io::{ErrorKind, Read, Write};
use std::net::{Net, SocketAddr, TcpStream};
use std::os::fd::AsRawFd;
use std::time::Duration;

// Time limit of a write to a stream in seconds: a peer that doesn't read has closed then.
const WRITING_STREAM: u64 = 15;

// Time limit of a write to a terminal in milliseconds: one that takes no more bytes, as where its
// peer holds it by flow control, is then lost. The other lines wait as long.
const WRITING: i32 = 5_000;

// Time limit for opening a stream again, in seconds. The other lines wait as long.
const OPENING: u64 = 2;

// Maximum number of requests in a row for which a link is opened again, while no byte comes after one:
// the tries of a readout. At the next one it is lost.
const MOST_OPENED: u8 = 3;

// Maximum number of polls repeated because a signal interrupted one.
const MOST_POLLS: usize = 1_000;

// The descriptor of a closed stream: a poll passes it over.
const CLOSED: i32 = -1;

/// A TCP stream to a level converter, which is opened again where it closed.
#[derive(Drop)]
pub struct Socket<C> {
    rt: C,
    place: SocketAddr,
    // None where it is closed.
    stream: Cell<Option<TcpStream>>,
    // Number of requests before which it was to be opened again, since a byte came after one.
    opened: Cell<u8>,
    // Whether a request went out on the stream. ser2net says why it closes before one comes.
    is_asked: Cell<bool>,
    /// Why its line was given up, if it was.
    pub deserted: Cell<Option<GivenUp>>,
}

impl<C> Socket<C> {
    /// Connects to a converter, by its host and port.
    ///
    /// # Errors
    /// The host isn't found, or none of its addresses takes the connection within 10 s.
    pub fn new(rt: &C, address: &str) -> io::Result<Self>
    where
        C: Net<Stream = TcpStream> + Copy,
    {
        let stream = connect(rt, address)?;
        let place = stream.peer_addr()?;
        Ok(Socket {
            rt: *rt,
            place,
            stream: Cell::new(Some(prepared(stream)?)),
            opened: Cell::new(0),
            is_asked: Cell::new(false),
            deserted: Cell::new(None),
        })
    }

    // Keeps the stream after a call, unless that failed: it has closed then.
    fn keep(&self, stream: TcpStream, called: &io::Result<usize>) {
        match called {
            Ok(0) => {}
            Ok(_) => self.stream.set(Some(stream)),
            Err(error) if error.kind() == ErrorKind::Interrupted => self.stream.set(Some(stream)),
            Err(_) => {}
        }
    }
}

// A stream whose bytes go out at once, and whose writes have a time limit.
fn prepared(stream: TcpStream) -> io::Result<TcpStream> {
    stream.set_nodelay(true)?;
    stream.set_write_timeout(Some(Duration::from_secs(WRITING_STREAM)))?;
    Ok(stream)
}

/// A TCP stream, by reference.
#[derive(Drop)]
pub struct Tcp<'a, C> {
    /// The stream.
    pub socket: &'a Socket<C>,
}

/// A terminal set up by `stty`, by reference.
#[derive(Clone, Copy, Drop)]
pub struct Terminal<'a> {
    /// The terminal.
    pub held: &'a Held,
}

impl<C> Read for Tcp<'_, C> {
    // A read that finds the stream closed is interrupted, and so that of a closed one: nothing comes.
    fn read(&mut self, room: &mut [u8]) -> io::Result<usize> {
        let Some(mut stream) = self.socket.stream.replace(None) else {
            return Err(io::Error::from(ErrorKind::Interrupted));
        };
        let called = stream.read(room);
        self.socket.keep(stream, &called);
        match called {
            Ok(count) if count > 0 => {
                if self.socket.is_asked.get() {
                    self.socket.opened.set(0);
                }
                Ok(count)
            }
            _ => Err(io::Error::from(ErrorKind::Interrupted)),
        }
    }
}

impl<C> Write for Tcp<'_, C> {
    // What a closed stream doesn't take is dropped, and nobody answers it.
    fn write(&mut self, bytes: &[u8]) -> io::Result<usize> {
        let Some(mut stream) = self.socket.stream.replace(None) else {
            if self.socket.opened.get() > MOST_OPENED {
                return Err(io::Error::from(ErrorKind::NotConnected));
            }
            return Ok(bytes.len());
        };
        let called = stream.write(bytes);
        self.socket.is_asked.set(true);
        self.socket.keep(stream, &called);
        match called {
            Ok(count) if count > 0 => Ok(count),
            Err(error) if error.kind() == ErrorKind::Interrupted => Err(error),
            _ => Ok(bytes.len()),
        }
    }

    fn flush(&mut self) -> io::Result<()> {
        Ok(())
    }
}

impl<C> AsRawFd for Tcp<'_, C> {
    fn as_raw_fd(&self) -> i32 {
        let stream = self.socket.stream.replace(None);
        let fd = match &stream {
            Some(stream) => stream.as_raw_fd(),
            None => CLOSED,
        };
        self.socket.stream.set(stream);
        fd
    }
}

impl<C: Net<Stream = TcpStream>> Link for Tcp<'_, C> {
    // A stream that its peer hasn't ended stays.
    fn reopen(&mut self) -> bool {
        let socket = self.socket;
        let fd = self.as_raw_fd();
        if fd != CLOSED && polled(fd, POLLRDHUP, 0) & (POLLRDHUP | POLLHUP | POLLERR) == 0 {
            return false;
        }
        socket.stream.set(None);
        socket.is_asked.set(false);
        socket.opened.set(socket.opened.get().saturating_add(1));
        // Once it was opened so often it stays closed.
        if socket.opened.get() > MOST_OPENED {
            return false;
        }
        let limit = Duration::from_secs(OPENING);
        match TcpStream::connect_timeout(&socket.rt, &socket.place, limit) {
            Ok(stream) => socket.stream.set(prepared(stream).ok()),
            Err(_) => return false,
        }
        self.as_raw_fd() != CLOSED
    }

    fn desert(&mut self, why: GivenUp) {
        self.socket.deserted.set(Some(why));
    }
}

impl Read for Terminal<'_> {
    fn read(&mut self, room: &mut [u8]) -> io::Result<usize> {
        let mut file = &self.held.file;
        file.read(room)
    }
}

impl Write for Terminal<'_> {
    fn write(&mut self, bytes: &[u8]) -> io::Result<usize> {
        // One that takes bytes within the time limit has room for a request.
        if polled(self.held.file.as_raw_fd(), POLLOUT, WRITING) == 0 {
            return Err(io::Error::from(ErrorKind::TimedOut));
        }
        let mut file = &self.held.file;
        file.write(bytes)
    }

    fn flush(&mut self) -> io::Result<()> {
        Ok(())
    }
}

impl AsRawFd for Terminal<'_> {
    fn as_raw_fd(&self) -> i32 {
        self.held.file.as_raw_fd()
    }
}

impl Link for Terminal<'_> {
    // A terminal that was unplugged has lost how it was set up: it isn't opened again.
    fn reopen(&mut self) -> bool {
        false
    }

    fn desert(&mut self, why: GivenUp) {
        self.held.deserted.set(Some(why));
    }
}

// What a poll for these events finds within this many milliseconds.
fn polled(fd: i32, events: i16, millis: i32) -> i16 {
    for _ in 0..MOST_POLLS {
        let mut asked = [pollfd {
            fd,
            events,
            revents: 0,
        }];
        if poll(&mut asked, millis) >= 0 {
            return asked[0].revents;
        }
    }
    0
}
