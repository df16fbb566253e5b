//! A session with one meter, and the body that it received.

ghost use Rattle.std.specs.Prelude.{◌≡◌, IfOk, IsSome, None};
ghost use Rattle.dc_readout.specs.Summary.{asked_by, begun, verdict_by};
ghost use Rattle.dc_readout.specs.World.{running_after};

use crate::world::body::Body;
use crate::world::script::MeterScript;
use crate::{Heard, Session};
use mbdc_io::NoMemory;
use std::alloc::Allocator;
use std::marker::Model;

/// A session with the meter at this place, and the body that was received and isn't committed.
#[derive(Drop)]
pub(crate) struct Running<A: Allocator> {
    pub(crate) meter: usize,
    pub(crate) session: Session,
    pub(crate) waiting: Option<Body<A>>,
}

impl<A: Allocator> Model for Running<A> {
    ghost use Rattle.dc_readout.specs.World.{Running};

    ghost Value = { Running };

    ghost view = { λ r. record { meter = r.meter; session = r.session; waiting = r.waiting } };
}

impl<A: Allocator> Running<A> {
    pub(crate) fn start(meter: usize, script: &MeterScript<A>) -> Running<A>
        ensures { result ≡ record {
          meter = meter;
          session = begun script.now.identity script.now.address;
          waiting = None;
        } }
    {
        Running {
            meter,
            session: Session::start(script.identity, script.address),
            waiting: None,
        }
    }

    /// Takes an answer; a failure ends the session.
    pub(crate) fn hear(self, alloc: A, heard: &[u8]) -> Result<Option<Running<A>>, NoMemory>
        requires { IsSome (asked_by self.session) }
        ensures { IfOk result (λ next.
            next ≡ running_after (verdict_by self.session heard.now) self) }
    {
        let Running {
            meter,
            mut session,
            waiting,
        } = self;
        let waiting = match session.hear(heard) {
            Heard::Again | Heard::Ready => waiting,
            Heard::New { telegram, .. } => Some(Body::copied(alloc, telegram.body())?),
            Heard::Failed(_) => return Ok(None),
        };
        Ok(Some(Running {
            meter,
            session,
            waiting,
        }))
    }
}
