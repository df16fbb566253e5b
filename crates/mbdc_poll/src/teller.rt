//! Where the events of a poll go.

ghost use Rattle.std.specs.Prelude.{◌≡◌, OnOk, OnErr};
ghost use Rattle.mbdc_io.specs.Failures.{HasRisen};

use crate::event::Event;
use mbdc_io::IoFault;

/// Takes the events of a poll, one after the other, and prints, sends or counts them.
pub trait Teller {
    ghost use Rattle.std.specs.Prelude.{ℕ};
    ghost use Rattle.mbdc_poll.specs.declared.event.Event.{Event as Told};

    // What taking an event does to it, and what failing to take one does, where that is known.
    ghost takes: { Self → Told → Self → Type 0 };

    ghost breaks: { Self → Told → Self → Type 0 } = { λ _ _ _. Unit {0} };

    // Number of events that it couldn't take.
    ghost failures: { Self → ℕ };

    /// Takes the next event.
    ///
    /// # Errors
    /// It couldn't take it: a write failed. The failure is counted.
    fn tell(&mut self, event: &Event<'_>) -> Result<(), IoFault>
        ensures taken { OnOk result (takes self.old event.now self.new) }
        ensures well { OnOk result (failures self.new ≡ failures self.old) }
        ensures failed { OnErr result (HasRisen (failures self.old) (failures self.new)) }
        ensures broken { OnErr result (breaks self.old event.now self.new) };
}
