//! A filter by which a readout begins anew that has another number of telegrams than its meter's last reading.

ghost use Rattle.std.specs.Prelude.{◌≡◌, map};
ghost use Rattle.std.specs.List.{list_any};
ghost use Rattle.dc_linkframe.specs.Reading.{frame_of};
ghost use Rattle.mbdc_poll.specs.Recounting.{begins_readout, differs, doubted_by};

use crate::confirming::telegram_in;
use crate::filtered::Filter;
use dc_linkframe::control::{SELECTION, SND_NKE};
use dc_linkframe::{Frame, FrameBuf, parse};
use mbdc_bus::AnswerBuf;

/// What is known of a meter's last reading.
#[derive(Clone, Copy)]
pub struct Known {
    /// The meter's identity, as its telegrams have it.
    pub meter: [u8; 8],
    /// Number of telegrams of that reading.
    pub telegrams: u8,
    /// Whether a readout with another number of telegrams was begun anew.
    pub is_doubted: bool,
}

/// The telegrams of the readout of a line, as far as it is.
#[derive(Clone, Copy)]
pub struct Count {
    /// The last request.
    pub request: FrameBuf,
    /// Whether it brought a telegram.
    pub is_answered: bool,
    /// Number of telegrams; it stays at 255.
    pub telegrams: u8,
    /// Whether the readout was given up.
    pub is_given_up: bool,
}

/// The filter that gives a readout up whose number of telegrams is another one than that of the meter's last reading: a
/// meter sends as many each time. Of its last telegram silence is heard, and its requests are withheld until a readout
/// begins, so this one fails, and a later pass begins it anew. What comes then is believed.
#[derive(Drop)]
pub struct Recounting<'a> {
    /// What is known of the meters of the line.
    pub known: &'a mut [Known],
    /// The telegrams of the readout.
    pub count: Count,
}

impl Filter for Recounting<'_> {
    ghost use Rattle.mbdc_poll.specs.Recounting.{Asks, Hears};

    ghost asks = { Asks };

    ghost hears = { Hears };

    fn ask(&mut self, request: &FrameBuf) -> Option<FrameBuf> {
        if begins_readout(request.as_slice()) {
            self.count = Count {
                request: *request,
                is_answered: false,
                telegrams: 0,
                is_given_up: false,
            };
            return Some(*request);
        }
        if self.count.request.as_slice() != request.as_slice() {
            self.count.request = *request;
            self.count.is_answered = false;
        }
        if self.count.is_given_up {
            None
        } else {
            Some(*request)
        }
    }

    fn hear(&mut self, answer: AnswerBuf) -> AnswerBuf {
        let Some(telegram) = telegram_in(answer.as_slice()) else {
            return answer;
        };
        let (meter, more_follows) = (telegram.header().identity.wire(), telegram.more_follows());
        if !self.count.is_answered {
            self.count.is_answered = true;
            self.count.telegrams = self.count.telegrams.saturating_add(1);
        }
        if more_follows || !doubt(self.known, &meter, self.count.telegrams) {
            return answer;
        }
        self.count.is_given_up = true;
        AnswerBuf::new()
    }
}

// Whether a request begins a readout: a reset, or a selection.
pub(crate) fn begins_readout(request: &[u8]) -> bool
    ensures { result ≡ begins_readout (frame_of request.now) }
{
    match parse(request) {
        Ok(Frame::Short { control, .. }) => control == SND_NKE,
        Ok(Frame::Long { ci, .. }) => ci == SELECTION,
        _ => false,
    }
}

// Whether a readout with this number of telegrams is begun anew. It is once for each meter.
fn doubt(known: &mut [Known], meter: &[u8], telegrams: u8) -> bool
    ensures differs { result ≡ list_any (differs meter.now telegrams) known.old }
    ensures doubted { known.new ≡ map (doubted_by meter.now telegrams) known.old }
{
    let Some((first, others)) = known.split_first_mut() else {
        return false;
    };
    let is_doubted = doubt(others, meter, telegrams);
    if first.meter.as_slice() == meter && first.telegrams != telegrams && !first.is_doubted {
        first.is_doubted = true;
        return true;
    }
    is_doubted
}
