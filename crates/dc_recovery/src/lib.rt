//! The store of a house: the log whose states are registers.
#![tactic(auto)]

use dc_meters::Register;
use mbdc_log::Log;

/// An open image of a house.
pub type Store<D> = Log<D, Register>;

pub use mbdc_log::{FormatFault, OpenFault, StoreFault};
