//! The end of a meter's readout.

ghost use Rattle.std.specs.Prelude.{◌≡◌};
ghost use Rattle.mbdc_poll.specs.Refusal.{refusal_number, refusal_name};

use dc_address::Identity;
use dc_core::{CommitFault, HearFault, StartFault};
use dc_readout::Why;

/// The call that refused.
#[derive(Clone, Copy)]
pub enum Refusal {
    /// The start of the readout.
    Start(StartFault),
    /// An answer of the meter.
    Hear(HearFault),
    /// The commit of its telegram.
    Commit(CommitFault),
}

impl Refusal {
    /// The number and the name of the fault.
    pub(crate) fn code(&self) -> (u8, &'static str)
        ensures number { result.0 ≡ refusal_number self.now }
        ensures name { result.1.now ≡ refusal_name self.now }
    {
        match self {
            Refusal::Start(fault) => (fault.number(), fault.name()),
            Refusal::Hear(fault) => (fault.number(), fault.name()),
            Refusal::Commit(fault) => (fault.number(), fault.name()),
        }
    }
}

/// The end of a meter's readout.
#[derive(Clone, Copy)]
pub enum End {
    /// The readout is whole.
    Read(Identity),
    /// The last try failed. A readout that reaches the maximum number of requests fails with no
    /// answer.
    Failed(Identity, Why),
    /// The readout was refused.
    Refused(Identity, Refusal),
}
