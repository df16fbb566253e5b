//! Setting a primary address.

ghost use Rattle.std.specs.Prelude.{◌≡◌, ◌≤◌, ◌++◌, length};
ghost use Rattle.mbdc_bus.specs.Limits.{most_request};
ghost use Rattle.dc_linkframe.specs.Frame.{spelling};
ghost use Rattle.mbdc_io.specs.Written.{Wrote};
ghost use Rattle.mbdc_installer.specs.Address.{IsAddressed, IsChanged, IsFree, addressing_text, call_to, one_at};
ghost use Rattle.mbdc_installer.specs.Address.{place_of, target_word};

use crate::primary::{Asked, ask_address, ask_data, call, is_ack, put_address, sender_at};
use dc_address::{Identity, Mask};
use dc_linkframe::control::{SELECTED, SND_UD, write_reset, write_selection};
use dc_linkframe::{FrameBuf, write_long};
use dc_search::meter_of;
use mbdc_bus::{Bus, TRIES, insist};
use mbdc_decode::tokens::{Piece, put_pieces};
use mbdc_io::{IoFault, Sink};

// CI of data that a meter is to take, in records.
const DATA: u8 = 0x51;

// DIF of an integer of eight bits, and VIF of the bus address.
const EIGHT_BITS: u8 = 0x01;

const BUS_ADDRESS: u8 = 0x7A;

/// How the meter that gets an address is reached.
#[derive(Clone, Copy)]
pub enum Target {
    /// At the primary address that it has; 0 where it got none.
    Address(u8),
    /// By secondary addressing: it is selected.
    Meter(Identity),
}

/// What came of setting a primary address.
#[derive(Clone, Copy)]
pub enum Addressing {
    /// The meter answers at the new address.
    Set(Identity),
    /// Somebody answers at the new address. Nothing else was sent.
    Taken,
    /// No meter acknowledges. No address was changed.
    Nobody,
    /// No telegram of that one meter can be read: several answer, or one that can't be named. No address was changed.
    Unclear,
    /// The meter was sent its new address, and doesn't answer there.
    Unconfirmed(Identity),
}

/// Sets the primary address of a meter to `to`, by SND_UD with the record `01 7A to` (EN 13757-3, bus address), and
/// reads it there.
///
/// Nothing goes to the meter unless `to` is silent: a reset and a request are met by silence three times each. The
/// change goes out only where one meter acknowledges, and its telegram comes twice; at a primary address the telegram
/// names that address, and a meter that was selected is that very one. Whether the change is acknowledged doesn't
/// count; the telegram at `to` decides, which names that address and the meter.
pub fn set_address<B: Bus>(bus: &mut B, target: &Target, to: u8) -> Addressing
    ensures { IsAddressed B.asks B.asks_all target.now to bus.old result bus.new }
{
    if !is_free(bus, to) {
        return Addressing::Taken;
    }
    let (request, place) = call_to(target);
    let asked = call(bus, &request, place);
    if asked.answer.as_slice().is_empty() {
        return Addressing::Nobody;
    }
    match one_at(target, &asked) {
        Some(meter) => change(bus, &meter, place, to),
        None => Addressing::Unclear,
    }
}

// The frame after which the meter answers, a reset of its address or its selection, and the address at which it answers
// then.
fn call_to(target: &Target) -> (FrameBuf, u8)
    ensures frame { result.0 ≡ spelling (call_to target.now) }
    ensures short { length result.0 ≤ most_request }
    ensures place { result.1 ≡ place_of target.now }
{
    let mut request = FrameBuf::new();
    match *target {
        Target::Address(address) => {
            write_reset(address, &mut request);
            (request, address)
        }
        Target::Meter(meter) => {
            write_selection(&Mask::of(&meter).wire(), &mut request);
            (request, SELECTED)
        }
    }
}

// Whether nobody answers at an address.
fn is_free<B: Bus>(bus: &mut B, address: u8) -> bool
    ensures { IsFree B.asks_all address bus.old result bus.new }
{
    let mut request = FrameBuf::new();
    write_reset(address, &mut request);
    let answer = insist(bus, &request, TRIES);
    if !answer.as_slice().is_empty() {
        return false;
    }
    let telegram = ask_data(bus, address);
    telegram.as_slice().is_empty()
}

// The one meter that acknowledges: at an address its telegram comes from there, and a selected one is that meter.
fn one_at(target: &Target, asked: &Asked) -> Option<Identity>
    ensures { result ≡ one_at target.now asked.now.answer asked.now.telegram }
{
    if !is_ack(&asked.answer) {
        return None;
    }
    match *target {
        Target::Address(address) => sender_at(address, &asked.telegram),
        Target::Meter(meter) => {
            let sender = meter_of(asked.telegram.as_slice())?;
            if sender == meter { Some(meter) } else { None }
        }
    }
}

// Sends a meter its new address, and reads it there. The frame count bit is 0: that of the request before it was 1.
fn change<B: Bus>(bus: &mut B, meter: &Identity, from: u8, to: u8) -> Addressing
    ensures { IsChanged B.asks B.asks_all from to meter.now bus.old result bus.new }
{
    let mut request = FrameBuf::new();
    write_long(
        SND_UD,
        from,
        DATA,
        &[EIGHT_BITS, BUS_ADDRESS, to],
        &mut request,
    );
    let _ = bus.ask(&request);
    let asked = ask_address(bus, to);
    let Some(sender) = sender_at(to, &asked.telegram) else {
        return Addressing::Unconfirmed(*meter);
    };
    if sender == *meter {
        Addressing::Set(*meter)
    } else {
        Addressing::Unconfirmed(*meter)
    }
}

/// Prints what came of setting a primary address: `ADDRESS to ident`, or a sentence.
pub fn put_addressing<W: Sink>(
    target: &Target,
    to: u8,
    outcome: &Addressing,
    out: &mut W,
) -> Result<(), IoFault>
    ensures { Wrote W.Sink result out.old out.new (addressing_text target.now to outcome.now) }
{
    match outcome {
        Addressing::Set(meter) => put_address(to, Some(*meter), out),
        Addressing::Taken => {
            put_sentence(
                &Target::Address(to),
                b" is taken: somebody answers there\n",
                out,
            )
        }
        Addressing::Nobody => put_sentence(target, b": no meter acknowledges there\n", out),
        Addressing::Unclear => {
            put_sentence(
                target,
                b": several meters answer, or one that can't be read\n",
                out,
            )
        }
        Addressing::Unconfirmed(meter) => put_pieces(
            out,
            &[
                Piece::Text(b"address"),
                Piece::Word(u64::from(to)),
                Piece::Text(b": "),
                Piece::Text(&meter.text()),
                Piece::Text(b" doesn't answer there\n"),
            ],
        ),
    }
}

// Writes how a meter is reached, and a text.
fn put_sentence<W: Sink>(target: &Target, text: &[u8], out: &mut W) -> Result<(), IoFault>
    ensures { Wrote W.Sink result out.old out.new (target_word target.now ++ text.now) }
{
    match *target {
        Target::Address(address) => put_pieces(
            out,
            &[
                Piece::Text(b"address"),
                Piece::Word(u64::from(address)),
                Piece::Text(text),
            ],
        ),
        Target::Meter(meter) => put_pieces(out, &[Piece::Text(&meter.text()), Piece::Text(text)]),
    }
}
