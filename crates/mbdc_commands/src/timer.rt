//! The clock of a poll, and its waits.

ghost use Rattle.std.specs.Prelude.{◌≡◌};

use crate::waiting::{Waits, add_awaited};
use mbdc_bus::HalfBus;
use mbdc_change::Moment;
use mbdc_poll::events::Progress;
use mbdc_poll::{Station, Timer};
use std::rt::Clock;
use std::time::{SystemTime, UNIX_EPOCH};

/// The clock of a poll, its wait for all lines at once, and the progress that it shows meanwhile.
#[derive(Drop)]
pub struct HostTimer<'p, 'h, R, W: Drop> {
    rt: &'h R,
    // The last time that the clock returned; it stays if the clock fails or leaves 1970 to 9999.
    last: Moment,
    progress: &'p Progress<'h, R>,
    /// The wait for the buses.
    pub waits: W,
}

impl<'p, 'h, R: Clock + Eprint, W: Drop> HostTimer<'p, 'h, R, W> {
    /// Begins with that time of the clock.
    pub fn new(rt: &'h R, begun: Moment, progress: &'p Progress<'h, R>, waits: W) -> Self
        ensures waits { result.waits ≡ waits }
        ensures begins { result.last ≡ begun }
    {
        HostTimer {
            rt,
            last: begun,
            progress,
            waits,
        }
    }
}

impl<B, R, W> Timer<B> for HostTimer<'_, '_, R, W>
where
    B: HalfBus + Drop,
    R: Clock + Eprint,
    W: Waits<B> + Drop,
{
    ghost use Rattle.std.specs.Prelude.{◌≡◌, true};
    ghost use Rattle.mbdc_commands.specs.HostClock.{IsWarned, LetsPass, TellsTime};
    ghost use Rattle.mbdc_commands.specs.Waiting.{AreWaitedFor};

    ghost tells = { TellsTime };

    ghost passes = { LetsPass };

    ghost warns = { IsWarned };

    fn now(&mut self) -> Moment {
        if let Ok(now) = SystemTime::now(self.rt)
            && let Ok(since) = now.duration_since(UNIX_EPOCH)
            && let Some(moment) = Moment::from_seconds(since.as_secs())
        {
            if moment.seconds < self.last.seconds {
                let _ = self.rt.eprint("mbdc: clock: went back during the poll\n");
            }
            self.last = moment;
        }
        self.last
    }

    fn pause(&mut self, stations: &[Station<'_, B>], may_sleep: bool)
        ensures passes { LetsPass self.old may_sleep self.new }
        ensures waits { may_sleep ≡ true → AreWaitedFor W.adds W.waited stations.now
            self.old.waits self.new.waits }
    {
        self.progress.show(stations);
        if may_sleep {
            add_awaited(stations, &mut self.waits);
            self.waits.wait_for_all();
        }
    }

    fn warn(&mut self) {
        let _ = self.rt.eprint("mbdc: clock: behind the newest reading\n");
    }
}
