//! The protocol of a gateway to a wired M-Bus line (this product): a stream of blocks, each a
//! length byte and that many bytes.
//!
//! [`exchange`] sends a request as one block and takes the answer, which is blocks up to one of
//! length 0. It reads no byte after that one, and returns for every reader and writer. [`Gateway`]
//! is a reader and a writer: once an exchange fails it is silent, and touches neither of them. It
//! is a [`Bus`](crate::Bus) whose meters no clause names. A [`BlockLink`] is a
//! [`HalfBus`](crate::HalfBus) over it.
//!
//! Nothing here waits except in the reader and the writer, and an exchange uses no memory.

mod answer;
mod block;
mod block_link;
mod buses;
mod gateway;
mod talk;

pub use block::{MOST_BLOCK, MOST_BLOCKS, put_block, take_content, take_length};
pub use block_link::BlockLink;
pub use gateway::Gateway;
pub use talk::{Talk, exchange};
