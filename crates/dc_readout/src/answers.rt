//! What an answer is to the request that waits for it.

ghost use Rattle.std.specs.Prelude.{◌≡◌, ◌≤◌, length};
ghost use Rattle.dc_linkframe.specs.Frame.{longest_body};
ghost use Rattle.dc_linkframe.specs.Reading.{frame_of};
ghost use Rattle.dc_records.specs.Telegram.{Parsed, telegram_at};
ghost use Rattle.dc_readout.specs.Answer.{answered, to_command, to_request, by_body, is_understood};
ghost use Rattle.dc_readout.specs.Answer.{is_from};
ghost use Rattle.dc_readout.specs.Seen.{meaning};

use crate::why::Why;
use dc_address::{Identity, Primary};
use dc_linkframe::control::{APPLICATION_ERROR, VARIABLE_DATA, is_rsp_ud};
use dc_linkframe::{Frame, parse};
use dc_records::Telegram;

// The parts that a readout has at most.
const MAX_PARTS: u8 = 32;

// What an answer means to the request: it is what was asked for, a failed try, or the end of the readout.
#[derive(Clone, Copy)]
pub(crate) enum Meaning<'a> {
    Acknowledged,
    Answered(Telegram<'a>),
    Missed(Why),
    Broken(Why),
}

// An answer where the acknowledgement is expected.
pub(crate) fn to_command(answer: &[u8]) -> Meaning<'_>
    ensures { meaning result ≡ to_command (frame_of answer.now) }
{
    match parse(answer) {
        Err(_) => Meaning::Missed(Why::NoAnswer),
        Ok(Frame::Ack) => Meaning::Acknowledged,
        Ok(_) => Meaning::Missed(Why::WrongFrame),
    }
}

fn is_understood(ci: u8) -> bool
    ensures { result ≡ is_understood ci }
{
    ci == VARIABLE_DATA || ci == APPLICATION_ERROR
}

fn is_from(address: Option<Primary>, sender: u8) -> bool
    ensures { result ≡ is_from address sender }
{
    address.is_none_or(|address| address.get() == sender)
}

// An answer where the telegram of a part is expected.
pub(crate) fn to_request<'a>(
    meter: &Identity,
    address: Option<Primary>,
    part: u8,
    answer: &'a [u8],
) -> Meaning<'a>
    ensures exact { meaning result ≡ to_request meter.now address part (frame_of answer.now) }
    ensures fits { (t : Parsed) → meaning result ≡ answered t → length t.body ≤ longest_body }
{
    let Ok(frame) = parse(answer) else {
        return Meaning::Missed(Why::NoAnswer);
    };
    let Frame::Long {
        control,
        address: sender,
        ci,
        body,
    } = frame
    else {
        return Meaning::Missed(Why::WrongFrame);
    };
    if !is_rsp_ud(control) || !is_understood(ci) {
        return Meaning::Missed(Why::WrongFrame);
    }
    if !is_from(address, sender) {
        return Meaning::Missed(Why::WrongAddress);
    }
    if ci == APPLICATION_ERROR {
        return Meaning::Broken(Why::ApplicationError);
    }
    by_body(meter, part, body)
}

// The body of a part.
fn by_body<'a>(meter: &Identity, part: u8, body: &'a [u8]) -> Meaning<'a>
    requires { length body.now ≤ longest_body }
    ensures exact { meaning result ≡ by_body meter.now part (telegram_at body.now) }
    ensures fits { (t : Parsed) → meaning result ≡ answered t → length t.body ≤ longest_body }
{
    match Telegram::parse(body) {
        Err(fault) => Meaning::Broken(Why::Content(fault)),
        Ok(telegram) => {
            if telegram.header().identity != *meter {
                Meaning::Broken(Why::Stranger)
            } else if part == MAX_PARTS && telegram.more_follows() {
                Meaning::Broken(Why::TooManyParts)
            } else {
                Meaning::Answered(telegram)
            }
        }
    }
}
