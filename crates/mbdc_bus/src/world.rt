//! The lives of a concentrator on a lossy line: it may crash at any moment, and reads meters that
//! follow the standard over a line that loses requests and replies (EN 13757-2, frame count bit at
//! both stations; EN 13757-3 in its editions of 2004 and 2013, since 2018 EN 13757-7, selection).
//!
//! [`play`] runs the real session of dc_readout against such meters, event by event. Proved: it
//! then holds what the world's definition holds, and each held readout is the bodies of one meter
//! from the first to the first after which no more follow, in order, each once. A meter advances
//! past a body only if the bodies up to it are committed: a theorem about the world alone.
//!
//! The premises are one definition, which [`are_regular`] tests: each body fits one frame, primary
//! addresses differ, no meter's selection matches another; and no answer arrives late. The meter's
//! definition includes that a reset or a selection starts its readout anew.
//!
//! A [`SimulatedMeter`] is such a meter, which takes the bytes of a line. A [`SimulatedBus`] has
//! several of them, whose answers collide, for `demo` and for tests; [`serve`] is the gateway's
//! side of one exchange with it, and [`Looped`] a stream that serves its own gateway on each read.
//! A [`ListedBus`] is a bus of meters with one telegram each, for searches.

mod line;
mod listed;
mod looped;
mod order;
mod serving;

pub use line::SimulatedBus;
pub use listed::ListedBus;
pub use looped::Looped;
pub use serving::serve;
