//! Waiting for several buses at once.

use crate::links::bus::LinkBus;
use crate::links::peer::SystemBus;
use libc::net::{POLLIN, poll};
use libc::types::pollfd;
use mbdc_bus::trace::{Observed, Observer};
use mbdc_bus::{HalfBus, Pause};
use std::net::{Net, TcpStream};
use std::os::fd::AsRawFd;
use std::rt::Clock;
use std::time::Duration;

// Maximum wait in milliseconds, so that the progress shown is fresh.
const LONGEST: u128 = 1_000;

/// The buses to wait for: at most eight.
#[derive(Drop)]
pub struct Watch {
    asked: [pollfd; 8],
    count: usize,
    left: Duration,
    // Whether one of the buses needs no wait.
    is_ready: bool,
}

impl Watch {
    /// Returns an empty set.
    pub fn new() -> Self {
        let none = pollfd {
            fd: -1,
            events: POLLIN,
            revents: 0,
        };
        Watch {
            asked: [none; 8],
            count: 0,
            left: Duration::from_secs(1),
            is_ready: false,
        }
    }

    /// Waits until a byte may have come on one of the buses, or the time-out of one is over, to the
    /// next millisecond, and at most a second. Without a bus it doesn't wait.
    pub fn wait(mut self) {
        if self.is_ready || self.count == 0 {
            return;
        }
        let millis = self.left.as_millis().saturating_add(1).min(LONGEST);
        poll(&mut self.asked, i32::try_from(millis).unwrap_or_default());
    }
}

/// A bus that can be waited for.
pub trait Watched {
    /// Adds it to the buses that are waited for.
    fn add_to(&self, watch: &mut Watch);
}

// A lost bus, or one of the block protocol, needs no wait.
impl<C: Net<Stream = TcpStream> + Clock + Copy> Watched for SystemBus<'_, C> {
    fn add_to(&self, watch: &mut Watch) {
        let (fd, left) = match self {
            LinkBus::First(LinkBus::First(tcp)) if !tcp.lost => {
                (tcp.wire.reader.as_raw_fd(), tcp.wire.left())
            }
            LinkBus::First(LinkBus::Second(serial)) if !serial.lost => {
                (serial.wire.reader.as_raw_fd(), serial.wire.left())
            }
            _ => {
                watch.is_ready = true;
                return;
            }
        };
        if let Some(place) = watch.asked.get_mut(watch.count) {
            place.fd = fd;
            watch.count += 1;
            watch.left = watch.left.min(left);
        }
    }
}

impl<B: HalfBus + Watched + Drop, O: Observer + Drop> Watched for Observed<B, O> {
    fn add_to(&self, watch: &mut Watch) {
        self.bus.add_to(watch);
    }
}

/// Waits for a single bus.
#[derive(Clone, Copy, Drop)]
pub struct Waiter;

// One Pause for all buses that can be watched would stop the checker at its limit of steps in the program.
impl<C: Net<Stream = TcpStream> + Clock + Copy> Pause<SystemBus<'_, C>> for Waiter {
    fn pause(&mut self, bus: &SystemBus<'_, C>) {
        let mut watch = Watch::new();
        bus.add_to(&mut watch);
        watch.wait();
    }
}

impl<C: Net<Stream = TcpStream> + Clock + Copy, O: Observer + Drop> Pause<
    Observed<SystemBus<'_, C>, O>,
> for Waiter {
    fn pause(&mut self, bus: &Observed<SystemBus<'_, C>, O>) {
        let mut watch = Watch::new();
        bus.bus.add_to(&mut watch);
        watch.wait();
    }
}
