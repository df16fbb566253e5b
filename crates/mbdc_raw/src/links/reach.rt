//! The links of the bus lines, connected in the order of the lines.
//!
//! The caller connects a single link ([`Connector`]), so nothing here needs a network. Where one can't be connected
//! [`reach_all`] goes on without it.

mod connecting;
mod connector;
mod reaching;

pub use connecting::{Missed, Unconnected, release_all};
pub use connector::Connector;
pub use reaching::reach_all;
