//! One line, its meters, and a concentrator that may crash at any moment.

ghost use Rattle.std.specs.Prelude.{◌≡◌, ◌<◌, ◌++◌, ◌∷◌, [], IfOk, OnOk, if◌then◌else◌, length};
ghost use Rattle.std.specs.Prelude.{slice_get};
ghost use Rattle.dc_readout.specs.InStep.{IsRegularWorld};
ghost use Rattle.dc_readout.specs.Reply.{bytes_heard};
ghost use Rattle.dc_readout.specs.Request.{Asks, frame_asked};
ghost use Rattle.dc_readout.specs.World.{AreRegular, committed, exchanged, heard_in, new_world};
ghost use Rattle.dc_readout.specs.World.{positions_after, started_by, world_step};

use crate::world::body::{Bodies, Body};
use crate::world::event::{Outcome, WorldEvent};
use crate::world::held::Held;
use crate::world::position::{Position, see_all};
use crate::world::reply::{Reply, reply_to};
use crate::world::request::{Request, request_of};
use crate::world::running::Running;
use crate::world::script::MeterScript;
use mbdc_io::NoMemory;
use std::alloc::Allocator;
use std::marker::Model;
use std::mem::replace;

/// The meters' positions, the running session, the committed parts of each meter's readout, and the
/// finished readouts.
#[derive(Drop)]
pub(crate) struct World<A: Allocator> {
    positions: Vec<Position, A>,
    running: Option<Running<A>>,
    open_parts: Vec<Bodies<A>, A>,
    held: Vec<Held<A>, A>,
}

impl<A: Allocator> Model for World<A> {
    ghost use Rattle.dc_readout.specs.World.{World};

    ghost Value = { World };

    ghost view = { λ w. record {
      positions = w.positions.items;
      running = w.running;
      parts_open = w.open_parts.items;
      held = w.held.items;
    } };
}

impl<A: Allocator + Copy> World<A> {
    pub(crate) fn new(alloc: A, scripts: &[MeterScript<A>]) -> Result<World<A>, NoMemory>
        ensures { IfOk result (λ w. w ≡ new_world scripts.now) }
    {
        let mut positions = Vec::new(alloc);
        let mut open_parts = Vec::new(alloc);
        for i in 0..scripts.len() {
            positions.push(Position::first())?;
            open_parts.push(Bodies::new(alloc))?;
        }
        Ok(World {
            positions,
            running: None,
            open_parts,
            held: Vec::new(alloc),
        })
    }

    pub(crate) fn into_held(self) -> Vec<Held<A>, A>
        ensures { result.items ≡ self.held }
    {
        self.held
    }

    /// Applies an event; one that doesn't apply is skipped.
    pub(crate) fn step(
        &mut self,
        alloc: A,
        scripts: &[MeterScript<A>],
        event: WorldEvent,
    ) -> Result<(), NoMemory>
        requires regular { AreRegular scripts.now }
        requires in_step { IsRegularWorld scripts.now self.old }
        ensures { OnOk result (self.new ≡ world_step scripts.now self.old event) }
    {
        match event {
            WorldEvent::Start(meter) => {
                self.start(scripts, meter);
                Ok(())
            }
            WorldEvent::Exchange(outcome) => self.exchange(alloc, scripts, outcome),
            WorldEvent::Commit => self.commit(alloc, scripts),
            WorldEvent::Stop => {
                self.running = None;
                Ok(())
            }
        }
    }

    fn start(&mut self, scripts: &[MeterScript<A>], meter: usize)
        ensures { self.new ≡ started_by meter
            (slice_get scripts.now meter) self.old.running self.old }
    {
        if self.running.is_none() && meter < scripts.len() {
            self.running = Some(Running::start(meter, &scripts[meter]));
        }
    }

    fn exchange(
        &mut self,
        alloc: A,
        scripts: &[MeterScript<A>],
        outcome: Outcome,
    ) -> Result<(), NoMemory>
        requires regular { AreRegular scripts.now }
        requires in_step { IsRegularWorld scripts.now self.old }
        ensures { OnOk result (self.new ≡ exchanged scripts.now outcome self.old.running self.old) }
    {
        let Some(running) = self.running.take() else {
            return Ok(());
        };
        let Some(request) = request_of(&running.session) else {
            self.running = Some(running);
            return Ok(());
        };
        let reply = carry(
            scripts,
            &mut self.positions,
            running.meter,
            request,
            outcome,
        );
        self.running = running.hear(alloc, reply.as_slice())?;
        Ok(())
    }

    // The received part joins the meter's open parts, as in the register; the last part makes them
    // a finished readout.
    fn commit(&mut self, alloc: A, scripts: &[MeterScript<A>]) -> Result<(), NoMemory>
        requires { IsRegularWorld scripts.now self.old }
        ensures { OnOk result (self.new ≡ committed self.old.running self.old) }
    {
        let Some(running) = self.running.take() else {
            return Ok(());
        };
        let Running {
            meter,
            mut session,
            waiting,
        } = running;
        let Some(body) = waiting else {
            self.running = Some(Running {
                meter,
                session,
                waiting: None,
            });
            return Ok(());
        };
        let before = replace(&mut self.open_parts[meter], Bodies::new(alloc));
        let parts = joined(alloc, session.has_settled(), before, body)?;
        session.settle();
        if session.is_over() {
            self.held.push(Held { meter, parts })?;
        } else {
            self.open_parts[meter] = parts;
            self.running = Some(Running {
                meter,
                session,
                waiting: None,
            });
        }
        Ok(())
    }
}

// Part 1 begins the readout anew.
fn joined<A: Allocator + Copy>(
    alloc: A,
    goes_on: bool,
    before: Bodies<A>,
    body: Body<A>,
) -> Result<Bodies<A>, NoMemory>
    ensures { IfOk result (λ parts. parts ≡ (if goes_on then before ++ body ∷ [] else body ∷ [])) }
{
    let mut parts = if goes_on { before } else { Bodies::new(alloc) };
    parts.push(body)?;
    Ok(parts)
}

// Applies a request and its reply to the line. Only the meter that is asked answers.
fn carry<A: Allocator>(
    scripts: &[MeterScript<A>],
    positions: &mut [Position],
    meter: usize,
    request: Request,
    outcome: Outcome,
) -> Reply
    requires one_each { length positions.old ≡ length scripts.now }
    requires within { meter < length scripts.now }
    requires asks { Asks scripts.now positions.old meter (frame_asked request) }
    ensures moved { positions.new ≡ positions_after outcome
        (frame_asked request) scripts.now positions.old }
    ensures heard { bytes_heard result
        ≡ heard_in outcome (frame_asked request) scripts.now positions.old }
{
    match outcome {
        Outcome::RequestLost => Reply::Silence,
        Outcome::ReplyLost => {
            see_all(request, scripts, positions);
            Reply::Silence
        }
        Outcome::ReplyUnreadable => {
            see_all(request, scripts, positions);
            Reply::Noise
        }
        Outcome::AsSent => {
            see_all(request, scripts, positions);
            reply_to(request, &scripts[meter], &positions[meter])
        }
    }
}
