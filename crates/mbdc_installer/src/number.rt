//! Finds the one meter with an identification number.

ghost use Rattle.std.specs.Prelude.{◌≡◌, ◌≤◌, ◌+◌, ◌++◌, length, map};
ghost use Rattle.mbdc_installer.specs.Number.{IsFound, digit_of, unfound_text, with_number};
ghost use Rattle.mbdc_io.specs.Written.{Wrote};

use dc_address::Identity;
use dc_linkframe::FrameBuf;
use dc_linkframe::control::{SELECTED, write_request, write_selection};
use dc_readout::misses::{Misses, is_noise};
use dc_search::{Branch, meter_of};
use mbdc_bus::{AnswerBuf, Bus, read_twice};
use mbdc_decode::tokens::{Piece, put_pieces};
use mbdc_io::{IoFault, Sink};

// Number of tries.
const TRIES: u8 = 3;

/// What came of asking for the meter of a number.
#[derive(Clone, Copy)]
pub enum Numbered {
    /// One meter answered, and has the number.
    One(Identity),
    /// Bytes came to each selection, and bytes that are no frame to each request: several meters have the number, or
    /// the answers of one are damaged. This is what the tries brought.
    Shared(Misses),
    /// No meter with the number was heard. This is what the tries brought.
    Nobody(Misses),
}

/// Finds the one meter with a number, of eight digits in ASCII: selects it, with wildcards for manufacturer,
/// version and type (EN 13757-3), and requests its telegram, which has to come twice from one meter, alone. The meter
/// repeats it to the next readout. It tries three times.
pub fn find_number<B: Bus>(bus: &mut B, digits: &[u8; 8]) -> Numbered
    ensures { IsFound B.asks_all digits.now bus.old result bus.new }
{
    let mut selection = FrameBuf::new();
    write_selection(&fix(Branch::root(), digits).mask().wire(), &mut selection);
    let mut request = FrameBuf::new();
    write_request(true, SELECTED, &mut request);
    let mut collided = true;
    let mut misses = Misses::none();
    'tries: for _ in 0..TRIES {
        let answer = bus.ask_all(&selection);
        if answer.as_slice().is_empty() {
            collided = false;
            misses.count(answer.as_slice());
            continue;
        }
        let telegram = read_twice(bus, &request);
        if let Some(meter) = with_number(&telegram, digits) {
            return Numbered::One(meter);
        }
        let is_unread = is_noise(telegram.as_slice());
        collided = collided && is_unread;
        misses.count(telegram.as_slice());
    }
    if collided {
        Numbered::Shared(misses)
    } else {
        Numbered::Nobody(misses)
    }
}

// The mask with these digits fixed next.
#[tactic(auto, using(crate::proofs::Numbers::fixed_first))]
fn fix(branch: Branch, codes: &[u8]) -> Branch
    requires { length branch + length codes.now ≤ 8 }
    ensures { result ≡ branch ++ map digit_of codes.now }
{
    match codes.split_first() {
        Some((code, more)) => fix(branch.child(digit_of(*code)), more),
        None => branch,
    }
}

/// The digit of its code.
pub(crate) fn digit_of(code: u8) -> u8
    ensures exact { result ≡ digit_of code }
    ensures digit { result ≤ 9 }
{
    code.saturating_sub(b'0') % 10
}

// The meter of a telegram, if it has the number.
fn with_number(telegram: &AnswerBuf, digits: &[u8; 8]) -> Option<Identity>
    ensures { result ≡ with_number digits.now telegram.now }
{
    let meter = meter_of(telegram.as_slice())?;
    if meter.text().starts_with(digits) {
        Some(meter)
    } else {
        None
    }
}

/// Prints that a number names no one meter: `SHARED 12345678`, or `FAILED 1 NoAnswer`.
#[tactic(auto, unfolding(crate::specs::Number::between))]
pub fn put_unfound<W: Sink>(digits: &[u8; 8], is_shared: bool, out: &mut W) -> Result<(), IoFault>
    ensures { Wrote W.Sink result out.old out.new (unfound_text digits.now is_shared) }
{
    if is_shared {
        put_pieces(
            out,
            &[
                Piece::Text(b"SHARED "),
                Piece::Text(digits),
                Piece::Text(b"\n"),
            ],
        )
    } else {
        out.put(b"FAILED 1 NoAnswer\n")
    }
}
