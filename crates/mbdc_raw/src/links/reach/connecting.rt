//! Why links aren't connected, and giving them back.

ghost use Rattle.mbdc_raw.specs.Reach.{Releases};

use crate::links::reach::connector::Connector;

/// A link that can't be connected.
#[derive(Drop)]
pub struct Missed<E> {
    /// The line, from 1.
    pub line: u8,
    /// Why.
    pub why: E,
}

/// Why the links aren't connected.
#[derive(Drop)]
pub enum Unconnected<E> {
    /// A link can't be connected.
    Link(Missed<E>),
    /// Out of memory; no link was tried.
    NoMemory,
}

/// Gives the links back, the first one first.
pub fn release_all<N, P, E, C: Connector<N, P, E>>(peers: &[Option<P>], connector: &mut C)
    ensures { Releases C.releases peers.now connector.old connector.new }
{
    let Some((peer, rest)) = peers.split_first() else {
        return;
    };
    if let Some(peer) = peer {
        connector.release(peer);
    }
    release_all(rest, connector);
}
