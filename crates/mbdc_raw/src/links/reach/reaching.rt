//! Connecting the links that can be.

ghost use Rattle.std.specs.Prelude.{◌≡◌, ◌≤◌, ◌+◌, ◌++◌, ◌∷◌, [], List, Option, None, Err, IfOk};
ghost use Rattle.std.specs.Prelude.{length, vec_len, vec_capacity};
ghost use Rattle.std.specs.List.{All};
ghost use Rattle.mbdc_raw.specs.Reach.{Reaches};

use crate::links::reach::connecting::{Missed, Unconnected};
use crate::links::reach::connector::Connector;
use std::alloc::Allocator;

/// Connects the links, the first of which is that of line 1. Of each that can't be connected the connector says
/// why, and its line is as one without a link. A line's peer is at its place.
///
/// # Errors
/// [`Unconnected`]: none can be connected, and this is the last of them. Or memory ran out, before any was tried.
pub fn reach_all<N, P: Drop, E: Drop, C: Connector<N, P, E>, A: Allocator + Drop>(
    alloc: A,
    links: &[Option<N>],
    connector: &mut C,
) -> Result<Vec<Option<P>, A>, Unconnected<E>>
    requires { length links.now ≤ 8 }
    ensures reached { IfOk result (λ peers.
        Reaches C.tries C.says 1 links.now peers.items connector.old connector.new) }
    ensures none { (missed : Missed E) → result ≡ Err (Unconnected.Link missed)
        → (peers : List (Option P)) × All (λ peer. peer ≡ None) peers
        × Reaches C.tries C.says 1 links.now peers connector.old connector.new }
    ensures no_memory { result ≡ Err Unconnected.NoMemory → connector.new ≡ connector.old }
{
    let Ok(mut peers) = Vec::with_capacity(alloc, links.len()) else {
        return Err(Unconnected::NoMemory);
    };
    let missed = reach_from(1, links, &mut peers, None, connector);
    let has_none = peers.as_slice().iter().all(|peer| peer.is_none());
    match missed {
        Some(missed) if has_none => Err(Unconnected::Link(missed)),
        _ => Ok(peers),
    }
}

// The links from this line on; `last` is the last before them that can't be connected. Their peers follow those that
// are there.
#[tactic(auto, using(crate::proofs::Joining::all_reached))]
fn reach_from<N, P: Drop, E: Drop, C: Connector<N, P, E>, A: Allocator>(
    line: u8,
    links: &[Option<N>],
    peers: &mut Vec<Option<P>, A>,
    last: Option<Missed<E>>,
    connector: &mut C,
) -> Option<Missed<E>>
    requires lines { line + length links.now ≤ 255 }
    requires room { vec_len peers.old + length links.now ≤ vec_capacity peers.old }
    ensures { (added : List (Option P)) × (peers.new.items ≡ peers.old.items ++ added)
        × Reaches C.tries C.says line links.now added connector.old connector.new }
{
    let Some((link, rest)) = links.split_first() else {
        return last;
    };
    let mut last = last;
    let peer = reach_one(line, link, &mut last, connector);
    peers.push(peer).unwrap();
    reach_from(line + 1, rest, peers, last, connector)
}

// The link of one line, if it has one; where it can't be connected, it is the last of those.
fn reach_one<N, P: Drop, E: Drop, C: Connector<N, P, E>>(
    line: u8,
    link: &Option<N>,
    last: &mut Option<Missed<E>>,
    connector: &mut C,
) -> Option<P>
    ensures { Reaches C.tries C.says line (link.now ∷ []) (result ∷ []) connector.old connector.new }
{
    let name = link.as_ref()?;
    match connector.connect(name) {
        Ok(peer) => Some(peer),
        Err(why) => {
            connector.say(line, &why);
            *last = Some(Missed { line, why });
            None
        }
    }
}
