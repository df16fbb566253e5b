//! A row of the due-date table.

use dc_address::Identity;
use dc_units::Point;
use mbdc_change::Flat;

/// A row: a point of a reading's due-date value.
#[derive(Clone, Copy)]
pub struct Row {
    /// The meter's flat when the readout ended.
    pub flat: Flat,
    /// The meter.
    pub meter: Identity,
    /// The reading's serial.
    pub serial: u64,
    /// The point.
    pub point: Point,
}
