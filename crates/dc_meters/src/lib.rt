//! The register of a house's meters and their readings, in memory (this product).
//!
//! Proved: a [`House`] is the state of the definitions (mbdc_change) and changes as they state
//! ([`House::apply`]); a change is refused with the first fault that applies, and only then
//! ([`House::check`]); if memory runs out, nothing has changed; the size is that of the state and
//! stays within the budget.
//!
//! A state has one encoding, which is what [`House::encode`] writes and all that [`House::decode`]
//! accepts; [`House::replay`] applies the changes that bytes spell, each accepted in turn. Bytes
//! are rejected exactly when they spell no state or change.
//!
//! A telegram costs one look-up and one copy of its body, whatever the number of readings held. A
//! confirmation costs what it drops. Queries of meters and readings cost what they return, by
//! indexes that the house keeps beside the state: of the readings by serial, by meter
//! ([`House::serials_of`]) and by due date ([`House::due`]); of the meters by flat
//! ([`House::meters_by_flat`]), and by bus line and primary address, so that the test for a taken
//! address is one look-up. Bytes are decoded in one pass, and a body is copied once.
#![tactic(auto)]

mod due;
mod filed;
mod house;
mod meter;
mod meter_map;
mod meter_orders;
pub mod named;
mod orders;
mod part;
mod parts;
mod place;
mod points;
mod reading;
mod reading_list;
mod serials;
mod subject;

pub use due::{DueDays, DuePoints, StorageDates};
pub use filed::Filed;
pub use house::House;
pub use mbdc_change::{
    Change, ChangeFault, Command, DecodeFault, Numbered, decode_changes, encode_change,
};
pub use meter::Meter;
use meter_map::MeterMap;
pub use part::Part;
pub use place::Place;
pub use points::Points;
pub use reading::Reading;
use reading_list::ReadingList;
pub use serials::Serials;
pub use subject::Register;
