//! Finished readouts.

use crate::world::body::Bodies;
use std::alloc::Allocator;
use std::marker::Model;

/// A finished readout: the meter's place, and its bodies in order.
#[derive(Drop)]
pub struct Held<A: Allocator> {
    /// The place of the meter, from 0.
    pub meter: usize,
    /// The committed bodies.
    pub parts: Bodies<A>,
}

impl<A: Allocator> Model for Held<A> {
    ghost use Rattle.dc_readout.specs.World.{Finished};

    ghost Value = { Finished };

    ghost view = { λ h. record { meter = h.meter; parts = h.parts } };
}
