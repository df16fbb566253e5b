//! Output that a poll goes on without.

ghost use Rattle.std.specs.Prelude.{◌≡◌, false};

use crate::{Event, Teller};
use mbdc_io::IoFault;

/// Hands events on to a teller up to its first failure, and drops what follows: a full disk of a
/// log stops no poll.
#[derive(Drop)]
pub struct Unfailing<N: Teller + Drop> {
    /// The teller.
    pub teller: N,
    /// Whether it has failed.
    pub has_failed: bool,
}

impl<N: Teller + Drop> Unfailing<N> {
    /// Wraps a teller that hasn't failed yet.
    pub fn new(teller: N) -> Self
        ensures { result ≡ record { teller = teller; has_failed = false } }
    {
        Unfailing {
            teller,
            has_failed: false,
        }
    }
}

impl<N: Teller + Drop> Teller for Unfailing<N> {
    ghost use Rattle.mbdc_poll.specs.Unfailing.{GoesOn};

    ghost takes = { λ old event new. GoesOn N.Teller old event new };

    ghost failures = { λ _. 0 };

    fn tell(&mut self, event: &Event<'_>) -> Result<(), IoFault> {
        if !self.has_failed && self.teller.tell(event).is_err() {
            self.has_failed = true;
        }
        Ok(())
    }
}
