//! On a line with wrong bits a telegram has to come twice: when two agree.

ghost use Rattle.std.specs.Prelude.{◌≡◌, None, [], option_map};
ghost use Rattle.dc_linkframe.specs.Fault.{fault_of};
ghost use Rattle.dc_linkframe.specs.Reading.{frame_of};
ghost use Rattle.dc_records.specs.Record.{view};
ghost use Rattle.dc_records.specs.Telegram.{parsed};
ghost use Rattle.mbdc_poll.specs.Confirming.{agree, all_agree, clear_by, is_unconfirmed, records_agree};
ghost use Rattle.mbdc_poll.specs.Confirming.{sum_of, telegram_in};

use dc_linkframe::control::{VARIABLE_DATA, is_rsp_ud};
use dc_linkframe::{Frame, FrameFault, parse};
use dc_records::{End, Record, Records, Telegram};
use mbdc_bus::AnswerBuf;

// Number of answers in a row without a wrong checksum after which a telegram is taken at once.
pub(crate) const MOST_CLEAR: u8 = 200;

// Whether an answer is a telegram with which none of these agrees.
pub(crate) fn is_unconfirmed(telegrams: &[AnswerBuf], answer: &[u8]) -> bool
    ensures { result ≡ is_unconfirmed telegrams.now answer.now }
{
    match telegram_in(answer) {
        None => false,
        Some(_) => !telegrams
            .iter()
            .any(|earlier| agree(earlier.as_slice(), answer)),
    }
}

// Number of answers since one with a wrong checksum, after this one. Silence isn't one.
#[tactic(auto, using(crate::proofs::Confirmed::faultless))]
pub(crate) fn clear_after(clear: u8, answer: &[u8]) -> u8
    ensures { result ≡ clear_by clear (fault_of answer.now) }
{
    match parse(answer) {
        Err(FrameFault::Empty) => clear,
        Err(FrameFault::Checksum) => 0,
        _ => clear.saturating_add(1).min(MOST_CLEAR),
    }
}

// Whether both answers are telegrams that agree but for their access numbers, and for values that changed.
#[tactic(auto, unfolding(crate::specs::Confirming::agree))]
fn agree(first: &[u8], other: &[u8]) -> bool
    ensures { result ≡ agree first.now other.now }
{
    let (Some(one), Some(two)) = (telegram_in(first), telegram_in(other)) else {
        return false;
    };
    let has_changed = sum_of(first, one.header().access) != sum_of(other, two.header().access);
    let ends_agree = match (one.end(), two.end()) {
        (End::Plain, End::Plain) => true,
        (End::Last(data), End::Last(others)) | (End::More(data), End::More(others)) => {
            has_changed || data == others
        }
        _ => false,
    };
    one.header().identity.wire() == two.header().identity.wire()
        && one.header().status == two.header().status
        && one.header().config == two.header().config
        && ends_agree
        && all_agree(has_changed, one.records(), two.records())
}

// The sum of a telegram's bytes without its access number. Wrong bits that don't show leave it as it is.
fn sum_of(answer: &[u8], access: u8) -> u8
    ensures { result ≡ sum_of answer.now access }
{
    match answer.get(answer.len().saturating_sub(2)) {
        Some(sum) => sum.wrapping_sub(access),
        None => 0,
    }
}

// Whether records have the same heads and values, but for values with storage number 0 that changed.
fn all_agree(has_changed: bool, mut first: Records<'_>, mut other: Records<'_>) -> bool
    ensures { result ≡ all_agree has_changed first.entry other.entry }
{
    match (first.next(), other.next()) {
        (None, None) => true,
        (Some(one), Some(two)) => {
            records_agree(has_changed, &one, &two) && all_agree(has_changed, first, other)
        }
        _ => false,
    }
}

fn records_agree(has_changed: bool, one: &Record<'_>, two: &Record<'_>) -> bool
    ensures { result ≡ records_agree has_changed (view one.now) (view two.now) }
{
    one.storage == two.storage
        && one.tariff == two.tariff
        && one.subunit == two.subunit
        && one.function == two.function
        && one.field == two.field
        && one.vib == two.vib
        && (has_changed && one.storage == 0 || one.content == two.content)
}

// The telegram that an answer is.
#[tactic(auto, using(dc_readout::proofs::Moves::no_frame_of_nothing))]
pub(crate) fn telegram_in(answer: &[u8]) -> Option<Telegram<'_>>
    ensures sent { option_map parsed result ≡ telegram_in (frame_of answer.now) }
    ensures silence { answer.now ≡ [] → result ≡ None }
{
    match parse(answer) {
        Ok(
            Frame::Long {
                control,
                ci,
                body,
                ..
            },
        ) if is_rsp_ud(control) && ci == VARIABLE_DATA => Telegram::parse(body).ok(),
        _ => None,
    }
}
