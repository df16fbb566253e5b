//! The register as what a store keeps, whatever its memory.

use crate::House;
use mbdc_io::kept::{KeptIn, Subject};
use std::alloc::{Allocator, Global};

/// The register, as a store keeps it.
#[derive(Clone, Copy)]
pub struct Register;

impl Subject for Register {
    type Any = House<Global>;
}

impl<A: Allocator + Copy> KeptIn<A> for Register {
    type Value = House<A>;
}
