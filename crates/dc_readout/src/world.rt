//! One line, its meters, and a concentrator that may stop at any moment.

mod body;
mod event;
mod held;
mod laws;
mod lives;
mod meter;
mod position;
mod reply;
mod request;
mod running;
mod script;
mod world;

pub use body::{Bodies, Body};
pub use event::{Outcome, WorldEvent};
pub use held::Held;
pub use laws::{a_meter_goes_on_from_what_is_committed, what_is_held_is_whole};
pub use lives::play;
pub use meter::SimulatedMeter;
pub use reply::Reply;
pub use script::{MeterScript, are_regular};
