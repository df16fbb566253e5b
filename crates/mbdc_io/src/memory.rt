//! The out-of-memory fault, and rooms for bytes that are read or held back.

ghost use Rattle.std.specs.Prelude.{◌≡◌, vec_len, IfOk};

use std::alloc::{AllocError, AllocFailed, Allocator};
use thiserror::Error;

/// Out of memory.
#[derive(Clone, Copy, Debug, Error)]
#[error("memory was refused")]
pub struct NoMemory;

impl From<AllocError> for NoMemory {
    fn from(_refused: AllocError) -> NoMemory {
        NoMemory
    }
}

impl<T: Drop> From<AllocFailed<T>> for NoMemory {
    fn from(_refused: AllocFailed<T>) -> NoMemory {
        NoMemory
    }
}

/// Allocates a room of this many bytes. No contract states their values, since proofs would write
/// them out.
pub fn room<A: Allocator>(alloc: A, len: usize) -> Result<Vec<u8, A>, NoMemory>
    ensures { IfOk result (λ bytes. vec_len bytes ≡ len) }
{
    let bytes = vec![in alloc; 0u8; len]?;
    Ok(bytes)
}
