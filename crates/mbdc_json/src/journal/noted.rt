//! What is noted of a meter.

ghost use Rattle.std.specs.Prelude.{◌≡◌};
ghost use Rattle.mbdc_json.specs.Noted.{noted_after};

use crate::journal::entry::Said;

/// A reading, by its last telegram.
#[derive(Clone, Copy)]
pub struct Taken {
    /// Its serial.
    pub serial: u64,
    /// Its time stamp, in seconds since 1970.
    pub moment: u64,
    /// Its status byte.
    pub status: u8,
}

/// Readouts that failed since then.
#[derive(Clone, Copy)]
pub struct Failing {
    /// When the first one was noted, in seconds since 1970.
    pub since: u64,
    /// When the last one was.
    pub at: u64,
    /// The number of its fault.
    pub number: u8,
}

/// What a journal says of a meter: its last reading, and how the readouts after it failed.
#[derive(Clone, Copy)]
pub struct Noted {
    /// Its last reading, if one is noted.
    pub read: Option<Taken>,
    /// Its failed readouts since, if one is noted.
    pub failing: Option<Failing>,
}

impl Noted {
    // The same after a line.
    pub(crate) fn after(self, said: Said) -> Noted
        ensures { result ≡ noted_after said self }
    {
        match said {
            Said::Read {
                serial,
                moment,
                status,
            } => Noted {
                read: Some(Taken {
                    serial,
                    moment,
                    status,
                }),
                failing: None,
            },
            Said::Failed { at, number } => Noted {
                read: self.read,
                failing: Some(Failing {
                    since: match self.failing {
                        Some(failing) => failing.since,
                        None => at,
                    },
                    at,
                    number,
                }),
            },
        }
    }
}
