//! The clock of a poll.

use crate::station::Station;
use mbdc_bus::HalfBus;
use mbdc_change::Moment;

/// What tells the time of a poll, and lets time pass between two rounds.
pub trait Timer<B: HalfBus + Drop> {
    // That it returned this moment, that time passed, where it may have slept or not, and that it was warned.
    ghost use Rattle.std.specs.Prelude.{ℕ, Bool};

    ghost tells: { Self → ℕ → Self → Type 0 };

    ghost passes: { Self → Bool → Self → Type 0 };

    ghost warns: { Self → Self → Type 0 };

    /// The moment of the answers that are heard now.
    fn now(&mut self) -> Moment
        ensures { tells self.old result.seconds self.new };

    /// The requests of a round are out. Where it may sleep, it waits until one of the buses that are
    /// [awaited](crate::is_awaited) may have more; where it may not, a line goes on without that.
    fn pause(&mut self, stations: &[Station<'_, B>], may_sleep: bool)
        ensures { passes self.old may_sleep self.new };

    /// Its moment lies before the newest time stamp of the register: later telegrams will have a wrong one.
    fn warn(&mut self)
        ensures { warns self.old self.new };
}
