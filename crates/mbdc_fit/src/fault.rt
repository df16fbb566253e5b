//! Why `fit` stopped.

ghost use Rattle.std.specs.Prelude.{◌≡◌};
ghost use Rattle.mbdc_fit.specs.declared.fault.FitFault.TheVariants.{NoMemory};

use mbdc_io::NoMemory;
use mbdc_log::{OpenFault, StoreFault};
use thiserror::Error;

/// Why a list wasn't fitted (this product).
#[derive(Clone, Copy, Debug, Error)]
pub enum FitFault {
    /// The image wasn't opened.
    #[error("the image isn't opened: {0}")]
    Open(OpenFault),
    /// Out of memory.
    #[error("memory was refused")]
    NoMemory,
    /// The image wasn't written.
    #[error("the list can't be written to the image: {0}")]
    Disk(StoreFault),
}

impl From<NoMemory> for FitFault {
    ghost from_gives = { λ _ fault. fault ≡ NoMemory };

    fn from(_refused: NoMemory) -> FitFault {
        FitFault::NoMemory
    }
}
