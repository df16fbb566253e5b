//! The entries of a place.

ghost use Rattle.std.specs.Prelude.{◌≡◌, ◌<◌, ◌≤◌};

/// An entry: the value of a meter at a moment.
#[derive(Clone, Copy)]
pub struct Entry {
    /// The moment, in seconds.
    pub moment: u64,
    /// The meter, by any number that tells it from the place's other meters.
    pub meter: u64,
    /// The value, in the place's smallest unit.
    pub value: u64,
    /// What the meter can count in an hour; 0 where it isn't declared.
    pub most: u64,
    /// The value from which the meter goes on at 0; 0 where it has no turn (rollover).
    pub size: u64,
}

const SECONDS_OF_HOUR: u64 = 3_600;

// Hours added to the whole ones between two entries: for the part of one that is left, and for
// clocks that differ.
const SPARE_HOURS: u64 = 2;

impl Entry {
    ghost use Rattle.mbdc_audit.specs.Consumption.Step.{is_doubtful, is_turn, room, step};
    ghost use Rattle.mbdc_audit.specs.Consumption.Curve.{share};
    ghost use Rattle.mbdc_audit.specs.Consumption.Mark.{touches};

    /// Most that the meter can have counted from this entry to the next: `most` an hour, for the
    /// whole hours between them and two more.
    pub fn room_to(&self, next: &Entry) -> u128
        ensures { result ≡ room self.now next.now }
    {
        let hours = next.moment.saturating_sub(self.moment) / SECONDS_OF_HOUR + SPARE_HOURS;
        u128::from(self.most) * u128::from(hours)
    }

    /// Whether the meter turned over from this entry to the next (rollover): it shows less, by less
    /// than its size, and can have counted up to its size and on to the value.
    pub fn turns_over_to(&self, next: &Entry) -> bool
        ensures { result ≡ is_turn self.now next.now }
    {
        if self.meter != next.meter || next.value >= self.value || self.value >= self.size {
            return false;
        }
        u128::from(self.size - self.value + next.value) <= self.room_to(next)
    }

    /// What was consumed from this entry to the next: 0 at an exchange, and where the meter ran
    /// backwards.
    pub fn step_to(&self, next: &Entry) -> u64
        ensures { result ≡ step self.now next.now }
    {
        if self.turns_over_to(next) {
            self.size - self.value + next.value
        } else if self.meter == next.meter {
            next.value.saturating_sub(self.value)
        } else {
            0
        }
    }

    /// Whether the step to the next entry is doubtful: the meter ran backwards, so that it shows less and didn't turn
    /// over; or it rose by more than it can have counted, where that is declared.
    pub fn is_doubtful_to(&self, next: &Entry) -> bool
        ensures { result ≡ is_doubtful self.now next.now }
    {
        if self.meter != next.meter {
            return false;
        }
        if next.value < self.value {
            return !self.turns_over_to(next);
        }
        self.most != 0 && self.room_to(next) < u128::from(next.value - self.value)
    }

    /// Whether the step to the next entry touches a period: it ends after the period begins, and
    /// begins before the period ends. One that takes no time touches the period that its moment
    /// ends.
    pub fn touches(&self, next: &Entry, from: u64, to: u64) -> bool
        ensures { result ≡ touches from to self.now next.now }
    {
        from < next.moment && (self.moment < to || next.moment <= to)
    }

    /// The part of the step to the next entry that falls before a moment between them, rounded
    /// down.
    pub fn share_to(&self, next: &Entry, moment: u64) -> u64
        requires from { self.now.moment ≤ moment }
        requires before { moment < next.now.moment }
        ensures { result ≡ share self.now next.now moment }
    {
        let step = u128::from(self.step_to(next));
        let part = u128::from(moment - self.moment);
        let whole = u128::from(next.moment - self.moment);
        (step * part / whole) as u64
    }
}
