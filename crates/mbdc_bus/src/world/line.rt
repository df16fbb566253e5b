//! Several meters on one line.

ghost use Rattle.std.specs.Prelude.{◌≡◌, ◌++◌, ◌∷◌, [], OnOk, OnErr, None, Some, bytes_eq, map};
ghost use Rattle.dc_linkframe.specs.Frame.{FrameSeen, ack, spelling};
ghost use Rattle.dc_linkframe.specs.Reading.{frame_of};
ghost use Rattle.dc_readout.specs.Reply.{bytes_heard};
ghost use Rattle.dc_readout.specs.Standing.{SelectsByMask};
ghost use Rattle.mbdc_bus.specs.WorldLine.{AreAble, Hears, heard_both, heard_of, seen_by};

use crate::{AnswerBuf, Bus};
use dc_linkframe::{ACK, FrameBuf};
use dc_readout::{Reply, SimulatedMeter};
use mbdc_io::NoMemory;
use std::alloc::Allocator;
use std::marker::Model;

/// The simulated meters on one line.
#[derive(Drop)]
pub struct SimulatedBus<A: Allocator> {
    meters: Vec<SimulatedMeter<A>, A>,
}

impl<A: Allocator> Model for SimulatedBus<A> {
    ghost use Rattle.std.specs.Prelude.{List};
    ghost use Rattle.dc_readout.specs.Standing.{Standing};

    ghost Value = { List Standing };

    ghost view = { λ bus. bus.meters.items };
}

impl<A: Allocator> SimulatedBus<A> {
    /// Returns a line without meters.
    pub fn new(alloc: A) -> Self
        ensures { result ≡ [] }
    {
        SimulatedBus {
            meters: Vec::new(alloc),
        }
    }

    /// Adds a meter.
    ///
    /// # Errors
    /// Out of memory.
    pub fn add(&mut self, meter: SimulatedMeter<A>) -> Result<(), NoMemory>
        ensures ok { OnOk result (self.new ≡ self.old ++ meter ∷ []) }
        ensures err { OnErr result (self.new ≡ self.old) }
    {
        self.meters.push(meter)?;
        Ok(())
    }

    /// Sends a request to all meters, and returns what is received: silence, one meter's answer,
    /// one acknowledgement for several, or noise where telegrams collide.
    pub fn hear(&mut self, request: &[u8]) -> AnswerBuf
        ensures { Hears request.now self.old self.new result }
    {
        let heard = hear_all(&mut self.meters, request);
        answer_of(&heard)
    }
}

// What is received of these meters, each of which takes the request.
fn hear_all<A: Allocator>(meters: &mut [SimulatedMeter<A>], request: &[u8]) -> Reply
    ensures sees { (frame : FrameSeen) → frame_of request.now ≡ Some frame → SelectsByMask frame
        → AreAble meters.old → meters.new ≡ map (seen_by frame) meters.old }
    ensures heard { (frame : FrameSeen) → frame_of request.now ≡ Some frame → SelectsByMask frame
        → AreAble meters.old → bytes_heard result ≡ heard_of frame meters.new }
    ensures unseen { frame_of request.now ≡ None → meters.new ≡ meters.old }
    ensures silent { frame_of request.now ≡ None → bytes_heard result ≡ [] }
{
    match meters.split_first_mut() {
        None => Reply::Silence,
        Some((meter, others)) => {
            let reply = meter.hear(request);
            both(reply, hear_all(others, request))
        }
    }
}

fn answer_of(heard: &Reply) -> AnswerBuf
    ensures { result ≡ bytes_heard heard.now }
{
    let mut answer = AnswerBuf::new();
    answer.append(heard.as_slice());
    answer
}

fn is_ack(reply: &Reply) -> bool
    ensures { result ≡ bytes_eq (bytes_heard reply.now) (spelling ack) }
{
    reply.as_slice() == [ACK].as_slice()
}

// What is received of two answers at once.
fn both(one: Reply, other: Reply) -> Reply
    ensures { bytes_heard result ≡ heard_both (bytes_heard one) (bytes_heard other) }
{
    if one.as_slice().is_empty() {
        return other;
    }
    if other.as_slice().is_empty() || (is_ack(&one) && is_ack(&other)) {
        return one;
    }
    Reply::Noise
}

impl<A: Allocator> Bus for SimulatedBus<A> {
    ghost use Rattle.std.specs.Prelude.{None, [], false};
    ghost use Rattle.mbdc_bus.specs.NeverLost.{never_lost};

    // Its meters aren't known to contracts: they may have several telegrams, and bodies that are no
    // telegram.
    ghost meters = { λ _. None };

    ghost selected = { λ _. [] };

    // It is never lost.
    ghost lost = { λ _. false };

    ghost asks = { λ old request answer new. Hears request old new answer };

    ghost asks_all = { λ old request answer new. Hears request old new answer };

    ghost late = { λ _. 0 };

    ghost silent = { λ old new request answer asked is_lost. never_lost answer is_lost };

    fn is_lost(&self) -> bool {
        false
    }

    fn ask(&mut self, request: &FrameBuf) -> AnswerBuf {
        self.hear(request.as_slice())
    }

    fn ask_all(&mut self, request: &FrameBuf) -> AnswerBuf {
        self.hear(request.as_slice())
    }

    fn late(&self) -> u64 {
        0
    }
}
