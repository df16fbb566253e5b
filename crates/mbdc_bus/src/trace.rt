//! What goes over a bus, seen by somebody else: a trace in a file, the progress of a search.
//!
//! An [`Observed`] bus is a bus with an [`Observer`], which sees each request and each answer. Its contracts state
//! that the bus does exactly what it would do without one. A [`Tracer`] is an observer that writes the line of each
//! ([`put_line`]); the lines of all bus lines go into one [`TraceFile`], a file or standard error.

mod earlier;
mod line;
mod observed;
mod observer;
mod trace_file;
mod tracer;

pub use line::{Direction, put_line};
pub use observed::Observed;
pub use observer::{Observer, Pair};
pub use trace_file::{TraceFile, TraceLines};
pub use tracer::{TraceSink, Tracer};
