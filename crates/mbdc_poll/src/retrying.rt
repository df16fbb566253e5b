//! A filter by which a busy meter is asked again.

use crate::filtered::Filter;
use dc_linkframe::control::{APPLICATION_ERROR, is_rsp_ud};
use dc_linkframe::{Frame, FrameBuf, parse};
use mbdc_bus::AnswerBuf;

// Application too busy for handling readout request (EN 13757-3).
const TOO_BUSY: u8 = 8;

// Maximum number of such answers in a row that are dropped.
const MOST_DROPPED: u8 = 2;

/// The filter by which a meter is asked again that answers with the application error 8: it is too busy (EN 13757-3).
/// Of the first two such answers in a row silence is heard, so the readout makes its request again, and the meter sends
/// the same telegram. All else passes.
#[derive(Drop)]
pub struct Retrying {
    /// Number of such answers that were dropped in a row.
    pub dropped: u8,
}

impl Filter for Retrying {
    ghost use Rattle.mbdc_poll.specs.Retrying.{Asks, Hears};

    ghost asks = { Asks };

    ghost hears = { Hears };

    fn ask(&mut self, request: &FrameBuf) -> Option<FrameBuf> {
        Some(*request)
    }

    #[tactic(auto, using(dc_readout::proofs::Moves::no_frame_of_nothing))]
    fn hear(&mut self, answer: AnswerBuf) -> AnswerBuf {
        let is_busy = match parse(answer.as_slice()) {
            Ok(
                Frame::Long {
                    control,
                    ci,
                    body,
                    ..
                },
            ) => is_rsp_ud(control) && ci == APPLICATION_ERROR && body.first() == Some(&TOO_BUSY),
            _ => false,
        };
        if self.dropped < MOST_DROPPED && is_busy {
            self.dropped += 1;
            return AnswerBuf::new();
        }
        if !answer.as_slice().is_empty() {
            self.dropped = 0;
        }
        answer
    }
}
