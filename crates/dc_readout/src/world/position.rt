//! A meter's position in its readout: the frame count bit at the secondary station (EN 13757-2),
//! and selection.

ghost use Rattle.std.specs.Prelude.{◌≡◌, ◌<◌, Some, ℕ, length, slice_get};
ghost use Rattle.dc_address.specs.Mask.{mask_of, matches};
ghost use Rattle.dc_readout.specs.Meter.{Meter, first_position, begun_anew, gone_on, hears_at};
ghost use Rattle.dc_readout.specs.Meter.{at_reset, at_selection, moved_by};
ghost use Rattle.dc_readout.specs.Meter.{Position as Stand};
ghost use Rattle.dc_readout.specs.Request.{frame_asked, MayGoOn};
ghost use Rattle.dc_readout.specs.Standing.{last_place};
ghost use Rattle.dc_readout.specs.World.{all_moved};

use crate::world::request::Request;
use crate::world::script::MeterScript;
use dc_address::{Mask, Primary};
use dc_linkframe::control::SELECTED;
use std::alloc::Allocator;
use std::marker::Model;

/// The number of bodies a meter has advanced by, the last frame count bit, and whether it is
/// selected.
#[derive(Clone, Copy)]
pub(crate) struct Position {
    place: usize,
    bit: Option<bool>,
    selected: bool,
}

impl Model for Position {
    ghost use Rattle.dc_readout.specs.Meter.{Position};

    ghost Value = { Position };

    ghost view = { λ p. record { place = p.place; bit = p.bit; selected = p.selected } };

    ghost inverse = { λ p. record { place = p.place; bit = p.bit; selected = p.selected } };
}

impl Position {
    pub(crate) fn first() -> Position
        ensures { result ≡ first_position }
    {
        Position {
            place: 0,
            bit: None,
            selected: false,
        }
    }

    pub(crate) fn place(&self) -> usize
        ensures { result ≡ self.now.place }
    {
        self.place
    }

    /// Whether a request to this address is the meter's own.
    pub(crate) fn hears(&self, own: Option<Primary>, address: u8) -> bool
        ensures { result ≡ hears_at own address self.now }
    {
        match own {
            Some(primary) if primary.get() == address => true,
            _ => address == SELECTED && self.selected,
        }
    }

    fn begin_anew(&mut self)
        ensures { self.new ≡ begun_anew self.old }
    {
        self.place = 0;
        self.bit = None;
    }

    /// The same bit again repeats the telegram, the other advances by one body.
    pub(crate) fn go_on(&mut self, bit: bool)
        requires { self.old.place < last_place }
        ensures { self.new ≡ gone_on (Some bit) self.old }
    {
        match self.bit {
            Some(last) if last == bit => {}
            _ => {
                self.place += 1;
                self.bit = Some(bit);
            }
        }
    }

    /// A reset at its own address starts its readout anew; a reset of the selected meters deselects
    /// it.
    pub(crate) fn reset(&mut self, own: Option<Primary>, address: u8)
        ensures { self.new ≡ at_reset own address self.old }
    {
        match own {
            Some(primary) if primary.get() == address => self.begin_anew(),
            _ => {
                if address == SELECTED {
                    self.selected = false;
                }
            }
        }
    }

    /// A matching selection starts its readout anew.
    pub(crate) fn select(&mut self, matches: bool)
        ensures { self.new ≡ at_selection matches self.old }
    {
        if matches {
            self.begin_anew();
        }
        self.selected = matches;
    }

    /// Applies a request to the meter.
    fn see<A: Allocator>(&mut self, request: Request, script: &MeterScript<A>)
        requires { MayGoOn request script.now.address self.old }
        ensures { self.new ≡ moved_by (frame_asked request) script.now self.old }
    {
        match request {
            Request::Reset(address) => self.reset(script.address, address),
            Request::Select(meter) => self.select(Mask::of(&meter).matches(&script.identity)),
            Request::Data { bit, address } => {
                if self.hears(script.address, address) {
                    self.go_on(bit);
                }
            }
        }
    }
}

/// Applies the request to each meter.
pub(crate) fn see_all<A: Allocator>(
    request: Request,
    scripts: &[MeterScript<A>],
    positions: &mut [Position],
)
    requires one_each { length positions.old ≡ length scripts.now }
    requires near { (i : ℕ) (m : Meter) (p : Stand) → slice_get scripts.now i ≡ Some m
        → slice_get positions.old i ≡ Some p
        → MayGoOn request m.address p }
    ensures { positions.new ≡ all_moved (frame_asked request) scripts.now positions.old }
{
    for i in 0..scripts.len() {
        positions[i].see(request, &scripts[i]);
    }
}
