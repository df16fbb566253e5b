//! Why a telegram is not taken, with the numbers and names of the faults.

use thiserror::Error;

/// Why a telegram wasn't taken: the first fault that applies.
#[derive(Clone, Copy, Debug, Error)]
#[error("the telegram wasn't taken")]
pub enum TakeFault {
    /// The maximum number of changes is pending.
    PendingFull,
    /// The register refuses the telegram.
    Full,
    /// Out of memory; nothing has changed.
    NoMemory,
}
