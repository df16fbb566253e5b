//! One simulated meter.

ghost use Rattle.std.specs.Prelude.{◌≡◌, ◌<◌, ◌&&◌, ℕ, [], Some, None, if◌then◌else◌};
ghost use Rattle.dc_address.specs.Mask.{mask_at, matches};
ghost use Rattle.dc_linkframe.specs.Frame.{FrameSeen, ack, seen, short};
ghost use Rattle.dc_linkframe.specs.Reading.{frame_of};
ghost use Rattle.dc_readout.specs.Meter.{at_request, at_reset, at_selection, body_at, first_position};
ghost use Rattle.dc_readout.specs.Meter.{frame_count_bit, hears_at, is_own, is_request, is_selection};
ghost use Rattle.dc_readout.specs.Meter.{response};
ghost use Rattle.dc_readout.specs.Regular.{Fits};
ghost use Rattle.dc_readout.specs.Reply.{bytes_heard, bytes_of};
ghost use Rattle.dc_readout.specs.Standing.{SelectsByMask, Sees, SendsMask, last_place};

use crate::world::position::Position;
use crate::world::reply::{Reply, acknowledged_if, is_own, respond};
use crate::world::script::MeterScript;
use dc_address::{Identity, Mask};
use dc_linkframe::control::{SELECTED, SELECTION, SND_NKE, SND_UD, req_ud2};
use dc_linkframe::{Frame, parse};
use std::alloc::Allocator;
use std::marker::Model;

// SND_UD with the other frame count bit, which a selection may have too.
const SND_UD_AGAIN: u8 = 0x73;

// Number of bytes of a secondary address.
const WIRE_LEN: usize = 8;

/// A meter that follows the standard, and its position in its readout.
#[derive(Drop)]
pub struct SimulatedMeter<A: Allocator> {
    script: MeterScript<A>,
    position: Position,
}

impl<A: Allocator> Model for SimulatedMeter<A> {
    ghost use Rattle.dc_readout.specs.Standing.{Standing};

    ghost Value = { Standing };

    ghost view = { λ m. record { meter = m.script; position = m.position } };
}

impl<A: Allocator> SimulatedMeter<A> {
    /// A meter that has received no request yet.
    pub fn new(script: MeterScript<A>) -> Self
        ensures { result ≡ record { meter = script; position = first_position } }
    {
        SimulatedMeter {
            script,
            position: Position::first(),
        }
    }

    /// Takes the bytes of a request, and returns what the meter sends.
    pub fn hear(&mut self, request: &[u8]) -> Reply
        ensures meter { self.new.meter ≡ self.old.meter }
        // It sees a frame as defined, while its place can still be counted.
        ensures sees { (frame : FrameSeen) → frame_of request.now ≡ Some frame → SelectsByMask frame
            → self.old.position.place < last_place
            → Sees frame self.old self.new (bytes_heard result) }
        // It doesn't see bytes that are no frame.
        ensures unseen { frame_of request.now ≡ None → self.new ≡ self.old }
        ensures silent { frame_of request.now ≡ None → bytes_heard result ≡ [] }
    {
        match parse(request) {
            Ok(frame) => self.see(&frame),
            Err(_) => Reply::Silence,
        }
    }

    #[tactic(auto, unfolding(crate::specs::Meter::moved_by, crate::specs::Meter::answer_to))]
    fn see(&mut self, frame: &Frame<'_>) -> Reply
        ensures meter { self.new.meter ≡ self.old.meter }
        ensures sees { SelectsByMask (seen frame.now) → self.old.position.place < last_place
            → Sees (seen frame.now) self.old self.new (bytes_heard result) }
    {
        match frame {
            Frame::Ack => Reply::Silence,
            Frame::Short { control, address } => self.see_short(*control, *address),
            Frame::Long {
                control,
                address,
                ci,
                body,
            } => {
                if is_selection(*control, *address, *ci) {
                    self.see_selection(body)
                } else {
                    Reply::Silence
                }
            }
        }
    }

    #[tactic(auto, unfolding(crate::specs::Meter::moved_by, crate::specs::Meter::answer_to))]
    fn see_short(&mut self, control: u8, address: u8) -> Reply
        ensures meter { self.new.meter ≡ self.old.meter }
        ensures sees { self.old.position.place < last_place
            → Sees (short control address) self.old self.new (bytes_heard result) }
    {
        if control == SND_NKE {
            self.see_reset(address)
        } else {
            self.see_request(control, address)
        }
    }

    fn see_reset(&mut self, address: u8) -> Reply
        ensures meter { self.new.meter ≡ self.old.meter }
        ensures moves { self.new.position
            ≡ at_reset self.old.meter.address address self.old.position }
        ensures sends { bytes_heard result
            ≡ bytes_of (if is_own self.old.meter.address address then Some ack else None) }
    {
        self.position.reset(self.script.address, address);
        acknowledged_if(is_own(self.script.address, address))
    }

    fn see_request(&mut self, control: u8, address: u8) -> Reply
        ensures meter { self.new.meter ≡ self.old.meter }
        ensures moves { self.old.position.place < last_place
            → self.new.position ≡ at_request self.old.meter.address control address
            self.old.position }
        ensures sends { self.old.position.place < last_place → Fits self.old.meter.bodies
            → bytes_heard result ≡ bytes_of
            (if is_request control && hears_at self.old.meter.address address self.new.position
            then response self.old.meter (body_at self.new.position.place self.old.meter.bodies) else None) }
    {
        if !self.position.hears(self.script.address, address) {
            return Reply::Silence;
        }
        let Some(bit) = frame_count_bit(control) else {
            return Reply::Silence;
        };
        if self.position.place() < usize::MAX {
            self.position.go_on(bit);
        }
        respond(&self.script, self.position.place())
    }

    fn see_selection(&mut self, body: &[u8]) -> Reply
        ensures meter { self.new.meter ≡ self.old.meter }
        ensures moves { SendsMask body.now
            → self.new.position ≡ at_selection
            (matches (mask_at body.now) self.old.meter.identity) self.old.position }
        ensures sends { SendsMask body.now
            → bytes_heard result ≡ bytes_of
            (if matches (mask_at body.now) self.old.meter.identity then Some ack else None) }
    {
        let is_meant = is_meant(body, &self.script.identity);
        self.position.select(is_meant);
        acknowledged_if(is_meant)
    }
}

// Whether a selection with this body matches the meter.
fn is_meant(body: &[u8], meter: &Identity) -> bool
    ensures { SendsMask body.now → result ≡ matches (mask_at body.now) meter.now }
{
    if body.len() != WIRE_LEN {
        return false;
    }
    let mut wire = [0; WIRE_LEN];
    wire.copy_from_slice(body);
    match Mask::from_wire(&wire) {
        Some(mask) => mask.matches(meter),
        None => false,
    }
}

fn is_selection(control: u8, address: u8, ci: u8) -> bool
    ensures { result ≡ is_selection control address ci }
{
    address == SELECTED && ci == SELECTION && (control == SND_UD || control == SND_UD_AGAIN)
}

// The frame count bit of REQ_UD2.
fn frame_count_bit(control: u8) -> Option<bool>
    ensures { result ≡ frame_count_bit control }
{
    if control == req_ud2(true) {
        Some(true)
    } else if control == req_ud2(false) {
        Some(false)
    } else {
        None
    }
}
