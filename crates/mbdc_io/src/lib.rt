//! Sources and sinks of bytes, their spelling as text, and the lines of an input.
//!
//! [`Source`] and [`Sink`] are the readers and writers of this product. Contracts see their bytes
//! where they are known, and a count of their failures, so that a function that reports a fault is
//! bound to a failure that happened. [`Bytes`] is both over memory, [`FixedSink`] a sink of fixed
//! capacity that uses no memory, [`SliceSink`] one over a slice of the caller's, [`Buffered`] a sink
//! that writes to its writer in large pieces.
//! [`ReadSource`] and [`WriteSink`] wrap those of std: their bytes aren't known, but their
//! contracts name the calls of std's reader and writer.
//!
//! Text: numbers in decimal ([`put_number`]), bytes in capital hex digits ([`put_byte`],
//! [`put_hex`]), a fault as its number and name ([`put_fault`]), each into any [`Sink`] and without
//! memory. One word of the contract states that the bytes were written, so that a chain of puts
//! proves by itself. [`decode_hex`] reads hex digits of either case, [`decode_hex_line`] a line of them with spaces.
//!
//! Input: [`read_input`] reads a whole input of at most 1 MiB, and [`first_line`] takes its lines one by one.
//!
//! Theorems: [`lines_end_at_feeds`], [`hex_is_read_back`].
#![tactic(auto)]

mod buffered;
mod bytes;
mod failures;
mod fault;
mod fixed_sink;
mod hex;
mod input;
pub mod kept;
mod laws;
mod lines;
mod memory;
mod number;
mod read_source;
mod slice_sink;
mod spaces;
mod stream;
mod text_fault;
mod write_sink;

pub use buffered::Buffered;
pub use bytes::Bytes;
pub use failures::one_failure_more;
pub use fault::{put_fault, put_fault_line};
pub use fixed_sink::FixedSink;
pub use hex::{decode_hex, pair_of, put_byte, put_byte_word, put_hex, put_hex_word};
pub use input::{CHUNK, MOST, read_input};
pub use laws::{hex_is_read_back, lines_end_at_feeds};
pub use lines::{LONGEST, first_line};
pub use memory::{NoMemory, room};
pub use number::{put_number, put_number_word};
pub use read_source::ReadSource;
pub use slice_sink::SliceSink;
pub use spaces::decode_hex_line;
pub use stream::{IoFault, Sink, Source};
pub use text_fault::TextFault;
pub use write_sink::WriteSink;
