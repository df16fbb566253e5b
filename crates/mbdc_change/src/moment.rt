//! The time stamps of telegrams.

ghost use Rattle.std.specs.Prelude.{◌≤◌};
ghost use Rattle.mbdc_change.specs.Fields.{last_moment};

use crate::LAST_MOMENT;

/// A time stamp: a second since 1970, up to the end of the year 9999 (this product).
#[derive(Clone, Copy)]
pub struct Moment {
    /// The seconds since 1970.
    pub seconds: u64,
    ghost fits: { seconds ≤ last_moment },
}

impl Moment {
    ghost use Rattle.std.specs.Prelude.{◌≡◌, ◌<◌, ◌≤◌, MatchOption};
    ghost use Rattle.mbdc_change.specs.Fields.{last_moment};

    /// Returns the time stamp of this many seconds since 1970, if it is in range.
    pub fn from_seconds(seconds: u64) -> Option<Moment>
        ensures { MatchOption result (last_moment < seconds)
            (λ moment. (seconds ≤ last_moment) × (moment.seconds ≡ seconds)) }
    {
        if seconds > LAST_MOMENT {
            return None;
        }
        Some(Moment { seconds })
    }
}
