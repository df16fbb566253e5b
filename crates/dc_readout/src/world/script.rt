//! The meters on a line, and whether they are regular.

ghost use Rattle.std.specs.Prelude.{◌≡◌, ◌↔◌, ◌<◌, IsTrue, length};
ghost use Rattle.dc_readout.specs.World.{AreRegular};
ghost use Rattle.dc_readout.specs.Regular.{Fits, IsFitting, IsOwnOnly, StandsApart, clashes, shares};

use crate::world::body::Bodies;
use dc_address::{Identity, Mask, Primary};
use dc_linkframe::control::SELECTED;
use std::alloc::Allocator;
use std::marker::Model;

/// Maximum number of bytes of a body that fits one frame.
pub(crate) const MAX_BODY: usize = 252;

/// A simulated meter: its identity, address and the bodies of one readout.
#[derive(Drop)]
pub struct MeterScript<A: Allocator> {
    /// The meter's identity.
    pub identity: Identity,
    /// The meter's primary address; without one it is read by secondary addressing.
    pub address: Option<Primary>,
    /// The bodies of its telegrams, in order.
    pub bodies: Bodies<A>,
}

impl<A: Allocator> Model for MeterScript<A> {
    ghost use Rattle.dc_readout.specs.Meter.{Meter};

    ghost Value = { Meter };

    ghost view = { λ m. record { identity = m.identity; address = m.address; bodies = m.bodies } };
}

impl<A: Allocator> MeterScript<A> {
    // Whether each body fits one frame, and its address isn't that of the selected meters.
    fn is_fitting(&self) -> bool
        ensures { IsTrue result ↔ IsFitting self.now }
    {
        is_own_only(self.address) && are_short(&self.bodies)
    }

    // Whether one request may reach both.
    fn clashes(&self, other: &MeterScript<A>) -> bool
        ensures { result ≡ clashes self.now other.now }
    {
        shares(self.address, other.address) || Mask::of(&self.identity).matches(&other.identity)
    }
}

fn shares(one: Option<Primary>, other: Option<Primary>) -> bool
    ensures { result ≡ shares one other }
{
    match (one, other) {
        (Some(one), Some(other)) => one.get() == other.get(),
        _ => false,
    }
}

// Whether an address isn't that of the selected meters (253), which no primary address is.
fn is_own_only(address: Option<Primary>) -> bool
    ensures { IsTrue result ↔ IsOwnOnly address }
{
    match address {
        Some(address) => address.get() != SELECTED,
        None => true,
    }
}

// Whether each body fits one frame.
fn are_short<A: Allocator>(bodies: &Bodies<A>) -> bool
    ensures { IsTrue result ↔ Fits bodies.now }
{
    for place in 0..bodies.len() {
        if bodies.at(place).len() > MAX_BODY {
            return false;
        }
    }
    true
}

// Whether no request to this meter reaches another.
fn stands_apart<A: Allocator>(scripts: &[MeterScript<A>], meter: usize) -> bool
    requires { meter < length scripts.now }
    ensures { IsTrue result ↔ StandsApart scripts.now meter }
{
    for other in 0..scripts.len() {
        if other != meter && scripts[meter].clashes(&scripts[other]) {
            return false;
        }
    }
    true
}

/// Whether the meters are regular: each body fits one frame, primary addresses differ, and no meter's selection
/// matches another.
pub fn are_regular<A: Allocator>(scripts: &[MeterScript<A>]) -> bool
    ensures { IsTrue result ↔ AreRegular scripts.now }
{
    for meter in 0..scripts.len() {
        if !scripts[meter].is_fitting() {
            return false;
        }
        if !stands_apart(scripts, meter) {
            return false;
        }
    }
    true
}
