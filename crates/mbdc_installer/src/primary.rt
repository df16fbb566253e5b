//! The search at primary addresses.

ghost use Rattle.std.specs.Prelude.{◌≡◌, ◌≤◌, ◌+◌, true, List, ℕ, IfOk, OnOk, OnErr, length};
ghost use Rattle.std.specs.List.{range_with_len};
ghost use Rattle.mbdc_bus.specs.Limits.{most_request};
ghost use Rattle.mbdc_bus.specs.Windows.{Insists, most_tries};
ghost use Rattle.dc_linkframe.specs.Control.{request_to};
ghost use Rattle.dc_linkframe.specs.Frame.{spelling};
ghost use Rattle.dc_linkframe.specs.Reading.{frame_of};
ghost use Rattle.mbdc_io.specs.Failures.{HasRisen};
ghost use Rattle.mbdc_io.specs.Written.{PutsInto, Wrote};
ghost use Rattle.mbdc_installer.specs.Addresses.{AsksEach, is_late, is_there};
ghost use Rattle.mbdc_installer.specs.Scan.{Identifies, IsAsked, IsCalled, address_line, is_ack, sender_at};

use crate::course::one_if;
use dc_address::Identity;
use dc_linkframe::control::{write_request, write_reset};
use dc_linkframe::{Frame, FrameBuf, parse};
use dc_readout::misses::Misses;
use dc_search::meter_of;
use mbdc_bus::{AnswerBuf, Bus, TRIES, insist, read_twice};
use mbdc_decode::tokens::{Piece, put_pieces};
use mbdc_io::{IoFault, Sink};

// The byte of an acknowledgement.
const ACKNOWLEDGED: u8 = 0xE5;

/// The greatest primary address (EN 13757-2).
pub const GREATEST: u8 = 250;

/// What came to the reset of an address, and to the request for its telegram.
#[derive(Drop)]
pub struct Asked {
    /// The bytes that came to the reset.
    pub answer: AnswerBuf,
    /// The bytes that came to the request; none where it wasn't sent.
    pub telegram: AnswerBuf,
}

/// Identifies the meter at a primary address, or at 0, which a meter has that got none. The meter repeats its telegram
/// to the next readout.
///
/// # Errors
/// No telegram of one meter came from that address. The try that failed is counted by what it brought.
pub fn identify<B: Bus>(bus: &mut B, address: u8) -> Result<Identity, Misses>
    ensures { Identifies B.asks_all address bus.old result bus.new }
{
    let asked = ask_address(bus, address);
    let Some(meter) = sender_at(address, &asked.telegram) else {
        let mut misses = Misses::none();
        misses.count(asked.telegram.as_slice());
        return Err(misses);
    };
    Ok(meter)
}

/// Asks `count` primary addresses from the first one on (EN 13757-2), and prints each at which somebody answers, with the
/// meter where one answers alone and its telegram comes from that address. Returns at how many of them late bytes came.
///
/// # Errors
/// A write failed.
pub fn scan_primary<B: Bus, W: Sink>(
    first: u8,
    count: u8,
    bus: &mut B,
    out: &mut W,
) -> Result<u64, IoFault>
    requires { first + count ≤ 251 }
    ensures asked { IfOk result (λ late. (text : List ℕ)
        × AsksEach B.asks_all (range_with_len first count) bus.old text late bus.new
        × PutsInto W.Sink out.old out.new text) }
    ensures failed { OnErr result (HasRisen (W.put_failures out.old) (W.put_failures out.new)) }
    ensures well { OnOk result (W.put_failures out.new ≡ W.put_failures out.old) }
{
    if count == 0 {
        return Ok(0);
    }
    let asked = ask_address(bus, first);
    let (is_there, is_late) = judge(&asked);
    if !is_there {
        let rest = scan_primary(first + 1, count - 1, bus, out)?;
        return Ok(one_if(is_late, rest));
    }
    put_address(first, sender_at(first, &asked.telegram), out)?;
    let rest = scan_primary(first + 1, count - 1, bus, out)?;
    Ok(one_if(is_late, rest))
}

/// Whether somebody answers, and whether late bytes came, which nobody at the address sends to this reset or request:
/// some came to the reset, and nothing to three requests; an acknowledgement came before other bytes; or one meter's
/// telegram, and not one acknowledgement to the reset.
pub fn judge(asked: &Asked) -> (bool, bool)
    ensures there { result.0 ≡ is_there asked.now.answer asked.now.telegram }
    ensures late { result.1 ≡ is_late asked.now.answer asked.now.telegram }
{
    let telegram = asked.telegram.as_slice();
    let is_ack = is_ack(&asked.answer);
    match telegram.split_first() {
        None => (is_ack, !asked.answer.as_slice().is_empty()),
        Some((first, more)) => {
            let is_mixed = *first == ACKNOWLEDGED && !more.is_empty();
            (true, is_mixed || meter_of(telegram).is_some() && !is_ack)
        }
    }
}

/// Resets an address, and requests its telegram where bytes come to that.
pub fn ask_address<B: Bus>(bus: &mut B, address: u8) -> Asked
    ensures { IsAsked B.asks_all address bus.old result.answer result.telegram bus.new }
{
    let mut request = FrameBuf::new();
    write_reset(address, &mut request);
    call(bus, &request, address)
}

/// Sends a frame, and requests a telegram at an address where bytes come to that. The telegram has to come twice from
/// one meter.
pub(crate) fn call<B: Bus>(bus: &mut B, request: &FrameBuf, address: u8) -> Asked
    requires { length request.now ≤ most_request }
    ensures { IsCalled B.asks_all request.now address bus.old result.answer result.telegram bus.new }
{
    let answer = insist(bus, request, TRIES);
    if answer.as_slice().is_empty() {
        return Asked {
            answer,
            telegram: AnswerBuf::new(),
        };
    }
    let mut data = FrameBuf::new();
    write_request(true, address, &mut data);
    let telegram = read_twice(bus, &data);
    Asked { answer, telegram }
}

/// Requests a telegram, and returns what comes to that.
pub(crate) fn ask_data<B: Bus>(bus: &mut B, address: u8) -> AnswerBuf
    ensures { Insists B.asks_all (spelling (request_to true address)) most_tries bus.old result
        bus.new }
{
    let mut request = FrameBuf::new();
    write_request(true, address, &mut request);
    insist(bus, &request, TRIES)
}

// Whether an answer is an acknowledgement.
pub(crate) fn is_ack(answer: &AnswerBuf) -> bool
    ensures { result ≡ is_ack (frame_of answer.now) }
{
    matches!(parse(answer.as_slice()), Ok(Frame::Ack))
}

/// The meter of a telegram that comes from this address.
pub fn sender_at(address: u8, telegram: &AnswerBuf) -> Option<Identity>
    ensures { result ≡ sender_at address telegram.now }
{
    match parse(telegram.as_slice()) {
        Ok(
            Frame::Long {
                address: sender,
                ..
            },
        ) if sender == address => meter_of(telegram.as_slice()),
        _ => None,
    }
}

/// Writes an address, and the meter that answers there, if one alone does.
pub(crate) fn put_address<W: Sink>(
    address: u8,
    meter: Option<Identity>,
    out: &mut W,
) -> Result<(), IoFault>
    ensures { Wrote W.Sink result out.old out.new (address_line address meter) }
{
    let number = u64::from(address);
    match meter {
        Some(meter) => put_pieces(
            out,
            &[
                Piece::Text(b"ADDRESS"),
                Piece::Word(number),
                Piece::Text(b" "),
                Piece::Text(&meter.text()),
                Piece::Text(b"\n"),
            ],
        ),
        None => put_pieces(
            out,
            &[
                Piece::Text(b"ADDRESS"),
                Piece::Word(number),
                Piece::Text(b"\n"),
            ],
        ),
    }
}
