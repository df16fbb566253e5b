//! Who answers a wildcard, where several meters may answer in step.
//!
//! Meters of one type that were fitted together answer a wildcard at the same moment, bit by bit. The line then shows
//! the AND of what they send, since the current of a space wins (EN 13757-2), and that may be a whole frame: of a
//! number that nobody has, or of one of the meters, which hides the others. So a meter that answered a wildcard is
//! selected by its whole identity. Of each digit that the wildcard leaves open, those digits are selected that have its
//! bits, and more: it can hide only meters with such a digit.

ghost use Rattle.std.specs.Prelude.{◌≡◌, ◌≤◌, ◌<◌, length, true};
ghost use Rattle.mbdc_installer.specs.Confirming.{AsksDigits, AsksHidden, AsksPlaces, Confirms};
ghost use Rattle.mbdc_installer.specs.Confirming.{can_hide, could_be_in_step, differing, is_open};

use crate::number::digit_of;
use crate::primary::is_ack;
use dc_address::{Identity, Mask};
use dc_linkframe::FrameBuf;
use dc_linkframe::control::write_selection;
use mbdc_bus::{AnswerBuf, Bus, TRIES, insist};

// Number of digits of an identification number.
const DIGITS: usize = 8;

// Number of bytes in which two telegrams of one type differ whose meters aren't in step: more than the number, the
// answer's number, the checksum and a clock have.
const MANY: usize = 16;

/// A telegram that was confirmed, and its meter.
#[derive(Drop)]
pub(crate) struct Confirmed {
    /// The meter.
    pub meter: Identity,
    /// The bytes of its telegram.
    pub telegram: AnswerBuf,
}

/// Whether a meter answers its whole identity, and nobody answers whom it could hide.
pub(crate) fn is_confirmed<B: Bus>(
    bus: &mut B,
    wire: &[u8; 8],
    meter: &Identity,
    is_due: bool,
) -> bool
    ensures { Confirms B.asks_all wire.now meter.now is_due bus.old result bus.new }
{
    if !is_nobody_hidden(bus, wire, meter, is_due) {
        return false;
    }
    let mut request = FrameBuf::new();
    write_selection(&Mask::of(meter).wire(), &mut request);
    is_ack(&insist(bus, &request, TRIES))
}

// Whether nobody answers whom a meter could hide, if that is due.
fn is_nobody_hidden<B: Bus>(bus: &mut B, wire: &[u8; 8], meter: &Identity, is_due: bool) -> bool
    ensures { AsksHidden B.asks_all wire.now meter.now is_due bus.old result bus.new }
{
    if !is_due {
        return true;
    }
    match Mask::from_wire(wire) {
        Some(mask) => is_nobody_from(bus, wire, &mask, &meter.text(), 0),
        None => true,
    }
}

// The same of the places from this one on.
fn is_nobody_from<B: Bus>(
    bus: &mut B,
    wire: &[u8; 8],
    mask: &Mask,
    text: &[u8; 18],
    place: usize,
) -> bool
    requires { place ≤ 8 }
    ensures { AsksPlaces B.asks_all wire.now mask.now text.now place bus.old result bus.new }
{
    if place == DIGITS {
        return true;
    }
    if !is_open(wire, place) {
        return is_nobody_from(bus, wire, mask, text, place + 1);
    }
    has_no_digit_from(bus, mask, place, digit_of(text[place]), 0)
        && is_nobody_from(bus, wire, mask, text, place + 1)
}

// The same of the digits of a place from this one on.
fn has_no_digit_from<B: Bus>(bus: &mut B, mask: &Mask, place: usize, own: u8, digit: u8) -> bool
    requires place { place < 8 }
    requires digit { digit ≤ 10 }
    ensures { AsksDigits B.asks_all mask.now place own digit bus.old result bus.new }
{
    if digit == 10 {
        return true;
    }
    if !can_hide(own, digit) {
        return has_no_digit_from(bus, mask, place, own, digit + 1);
    }
    let mut request = FrameBuf::new();
    write_selection(&mask.with_digit(place, digit).wire(), &mut request);
    bus.ask_all(&request).as_slice().is_empty()
        && has_no_digit_from(bus, mask, place, own, digit + 1)
}

// Whether a meter with its own digit can hide one with this digit, which has all its bits, and more.
fn can_hide(own: u8, digit: u8) -> bool
    ensures { result ≡ can_hide own digit }
{
    digit != own && digit & own == own
}

/// Whether a digit of a selection is open.
pub(crate) fn is_open(wire: &[u8; 8], place: usize) -> bool
    requires { place < 8 }
    ensures { result ≡ is_open wire.now place }
{
    let byte = wire[3 - place / 2];
    if place % 2 == 0 {
        byte / 16 == 15
    } else {
        byte % 16 == 15
    }
}

/// Whether a meter could be in step with others of its type. The telegram before shows that it can't where its meter is
/// of that type and has data of its own.
pub(crate) fn could_be_in_step(
    last: &Option<Confirmed>,
    meter: &Identity,
    telegram: &AnswerBuf,
) -> bool
    ensures { result ≡ could_be_in_step last.now meter.now telegram.now }
{
    let Some(last) = last else {
        return true;
    };
    last.meter.maker != meter.maker
        || last.meter.version != meter.version
        || last.meter.kind != meter.kind
        || differing(telegram.as_slice(), last.telegram.as_slice()) < MANY
}

// In how many bytes the first has a bit that the other one lacks.
fn differing(bytes: &[u8], other: &[u8]) -> usize
    ensures { result ≡ differing bytes.now other.now }
{
    bytes
        .iter()
        .zip(other)
        .filter(|(own, its)| **own & **its != **own)
        .count()
}
