//! The summary of a state.

ghost use Rattle.std.specs.Prelude.{◌≡◌, ◌-◌, length, option_copied, option_map, slice_get};
ghost use Rattle.mbdc_looks.specs.Text.{summary_of};

use dc_meters::{House, Reading};
use dc_report::register_rows;
use std::alloc::Allocator;
use std::collections::VecDeque;

/// The numbers that sum up a state.
#[derive(Clone, Copy)]
pub(crate) struct Summary {
    /// Its size in bytes.
    pub size: u32,
    /// Maximum size in bytes.
    pub budget: u32,
    /// Number of registered meters.
    pub meters: usize,
    /// Number of readings that the office hasn't confirmed.
    pub readings: usize,
    /// The first serial of these readings.
    pub first: Option<u64>,
    /// The last serial of these readings.
    pub last: Option<u64>,
    /// The last serial that the office has confirmed.
    pub confirmed: u64,
    /// The number of the last command.
    pub command: u64,
}

// The serial of a reading, if there is one.
fn serial_of<A: Allocator>(reading: Option<&Reading<A>>) -> Option<u64>
    ensures { result ≡ option_map (λ r. r.serial) (option_copied reading.entry) }
{
    match reading {
        Some(reading) => Some(reading.serial()),
        None => None,
    }
}

// The first reading.
fn first_of<A: Allocator>(readings: &VecDeque<Reading<A>, A>) -> Option<&Reading<A>>
    ensures { option_copied result ≡ slice_get readings.now.items 0 }
{
    readings.front()
}

// The last reading.
fn last_of<A: Allocator>(readings: &VecDeque<Reading<A>, A>) -> Option<&Reading<A>>
    ensures { option_copied result ≡ slice_get readings.now.items (length readings.now.items - 1) }
{
    readings.back()
}

/// Sums up a house.
pub(crate) fn summary_of<A: Allocator + Copy>(house: &House<A>) -> Summary
    ensures { result ≡ summary_of house.now.budget house.now.state }
{
    let readings = house.readings();
    Summary {
        size: house.size(),
        budget: house.budget(),
        meters: register_rows(house),
        readings: readings.len(),
        first: serial_of(first_of(readings)),
        last: serial_of(last_of(readings)),
        confirmed: house.confirmed(),
        command: house.last_number(),
    }
}
