//! When a poll may sleep.

ghost use Rattle.std.specs.Prelude.{◌≡◌};
ghost use Rattle.mbdc_poll.specs.Waiting.{is_awaited, is_done, may_sleep};

use crate::phase::{Phase, Request};
use crate::station::Station;
use mbdc_bus::HalfBus;

/// Whether a line waits for its bus: a request is out. A line that has nothing left waits for
/// nothing.
pub fn is_awaited<B: HalfBus + Drop>(station: &Station<'_, B>) -> bool
    ensures { result ≡ is_awaited station.now }
{
    matches!(station.request, Request::Sent)
}

/// Whether a line has nothing left: each of its meters is done with, and that is written.
pub(crate) fn is_done<B: HalfBus + Drop>(station: &Station<'_, B>) -> bool
    ensures { result ≡ is_done station.now }
{
    matches!(station.phase, Phase::Free) && station.left.is_empty()
}

/// Whether a poll may sleep until a bus has more: no line goes on without that.
pub(crate) fn may_sleep<B: HalfBus + Drop>(stations: &[Station<'_, B>]) -> bool
    ensures { result ≡ may_sleep stations.now }
{
    stations
        .iter()
        .all(|station| is_awaited(station) || is_done(station))
}
