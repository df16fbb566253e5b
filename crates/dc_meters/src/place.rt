//! A meter's places in the indexes.

use dc_address::Identity;
use mbdc_change::Flat;

/// A meter's place by flat: ordered by the flat's bytes, and by identity within a flat.
#[derive(Clone, Copy, PartialEq, Eq, PartialOrd, Ord)]
pub struct Place {
    /// The flat.
    pub flat: Flat,
    /// The meter.
    pub meter: Identity,
}

/// A meter's place on the bus: ordered by bus line, then by primary address, and then by identity.
#[derive(Clone, Copy, PartialEq, Eq, PartialOrd, Ord)]
pub(crate) struct BusPlace {
    pub(crate) line: u8,
    pub(crate) address: u8,
    pub(crate) meter: Identity,
}
