//! The system's clock.

use mbdc_change::Moment;
use std::rt::Clock;
use std::time::{SystemTime, UNIX_EPOCH};

/// The time stamp of this moment; none where the clock fails or is outside 1970 to 9999.
pub fn moment<C: Clock>(clock: &C) -> Option<Moment> {
    let now = SystemTime::now(clock).ok()?;
    let since = now.duration_since(UNIX_EPOCH).ok()?;
    Moment::from_seconds(since.as_secs())
}
