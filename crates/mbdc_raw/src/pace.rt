//! How long a bus line takes to answer, as its own answers have shown.

ghost use Rattle.std.specs.Prelude.{◌≡◌, ◌+◌, ◌*◌, ◌^◌, ◌<◌, ℕ, None, false};
ghost use Rattle.mbdc_raw.specs.Pace.{Fits, acknowledging, answering, awaits_ack};
ghost use Rattle.mbdc_raw.specs.Pace.{pace_begun, pace_with, pause_of, window_of};
ghost use Rattle.mbdc_raw.specs.PollWire.{limit_by, soon_by};
ghost use Rattle.mbdc_raw.specs.Turn.{is_reset, wants_ack};
ghost use Rattle.dc_linkframe.specs.Reading.{frame_of};

use crate::state::{is_reset, wants_ack};
use crate::wire::Asking;

// A meter answers within 330 bits and 50 ms (EN 13757-2); a byte has 11 bits. In microseconds.
const ANSWERING_BYTES: u64 = 30;

const ANSWERING_REST: u64 = 50_000;

// Number of bytes of the shortest answer that shows how long a byte takes.
const SHOWING: u64 = 16;

// Number of bytes of a short frame, and the byte that begins one.
const SHORT_FRAME: usize = 5;

const SHORT_START: u8 = 0x10;

// The byte of an acknowledgement.
const ACKNOWLEDGED: u8 = 0xE5;

// Number of bytes that a selection has more than a short frame.
const LONGER: u64 = 12;

// Number of bytes of a selection, and those that the time from it to its acknowledgement has at least: its own, one
// that a meter waits for, and the acknowledgement.
const SELECTION: usize = 17;

const ACKNOWLEDGING: u64 = 19;

// The number of early repeats of a request after which it waits for the patience.
const MOST_REPEATS: u8 = 2;

// How long the repeat of a request waits at least, in microseconds.
const LEAST_WAIT: u64 = 1_000_000;

// The shortest pause after which nothing more comes of several answers, in microseconds and in bytes.
const PAUSE: u64 = 120_000;

const PAUSE_BYTES: u64 = 4;

/// How long a line's acknowledgements and its bytes take, in microseconds.
///
/// Answers to short frames are measured. A byte of the request or of the answer takes at most the
/// time since the request divided by the number of both, also where a converter passes several
/// bytes on at once. A line that echoes isn't measured.
#[derive(Drop)]
pub struct Pace {
    /// The longest time from a request to its acknowledgement; `None` before the first.
    pub delay: Option<u64>,
    /// The shortest time from a selection to its acknowledgement; `None` before the first.
    pub soonest: Option<u64>,
    /// The time to the last acknowledgement.
    pub last: u64,
    /// How long a byte takes at most; `None` before the first telegram.
    pub byte: Option<u64>,
    /// How long a byte takes at least, where a telegram begins no later than the slowest
    /// acknowledgement; `None` before the first telegram after one.
    pub least_byte: Option<u64>,
    /// The longest pause within a telegram; `None` before the first.
    pub longest_pause: Option<u64>,
    /// Whether an acknowledgement is due: it is awaited, and its delay is taken.
    pub acks: bool,
    // Whether bytes came late on the line, and whether the request under way is a selection.
    late: bool,
    selects: bool,
    // Of the answer under way: whether it is measured, the number of its bytes, the time to the last
    // of them, the longest pause between them, and how long a byte takes at most by its pieces so far.
    measured: bool,
    came: u64,
    spent: u64,
    paused: u64,
    least: u64,
}

impl Pace {
    /// Returns the pace of a line of which nothing is known.
    pub fn new() -> Self
        ensures delay { result.delay ≡ None }
        ensures byte { result.byte ≡ None }
        ensures least_byte { result.least_byte ≡ None }
        ensures fits { (byte delay : ℕ) → delay + byte * acknowledging < 2 ^ 64 → Fits byte delay result }
    {
        Pace {
            delay: None,
            soonest: None,
            last: 0,
            byte: None,
            least_byte: None,
            longest_pause: None,
            acks: false,
            late: false,
            selects: false,
            measured: false,
            came: 0,
            spent: 0,
            paused: 0,
            least: u64::MAX,
        }
    }

    /// Begins with this request, on a line on which bytes came late so often. The answer to the one before it is over:
    /// that one shows a byte's time, and the pauses within a telegram.
    pub fn begin(&mut self, request: &[u8], late: u64)
        ensures begun { self.new ≡ pace_begun request.now late self.old }
        ensures acks { self.new.acks ≡ awaits_ack (frame_of request.now) }
    {
        if self.came >= SHOWING {
            let byte = self.byte.unwrap_or(u64::MAX).min(self.least);
            self.byte = Some(byte);
            self.longest_pause = Some(self.longest_pause.unwrap_or(0).max(self.paused));
            if let Some(delay) = self.delay {
                let each = self.spent.saturating_sub(delay) / (self.came - LONGER);
                let most = self.least_byte.unwrap_or(u64::MAX);
                self.least_byte = Some(most.min(each).min(byte));
            }
        }
        self.acks = wants_ack(request) && !is_reset(request);
        self.late = late > 0;
        self.selects = request.len() >= SELECTION;
        self.measured = request.len() == SHORT_FRAME;
        self.came = 0;
        self.spent = 0;
        self.paused = 0;
        self.least = u64::MAX;
    }

    /// Takes that these bytes came, this long after the request: it learns the delay of an
    /// acknowledgement, and the time of a byte from an answer that is measured.
    pub fn take(&mut self, spent: u64, bytes: &[u8])
        ensures with { self.new ≡ pace_with spent bytes.now self.old }
        ensures acks { self.new.acks ≡ false }
    {
        if self.acks && bytes.first() == Some(&ACKNOWLEDGED) {
            self.delay = Some(self.delay.unwrap_or(0).max(spent));
            if self.selects {
                self.soonest = Some(self.soonest.unwrap_or(u64::MAX).min(spent));
            }
            self.last = spent;
        }
        self.acks = false;
        if self.came == 0 {
            self.measured = self.measured && bytes.first() != Some(&SHORT_START);
        } else {
            self.paused = self.paused.max(spent.saturating_sub(self.spent));
        }
        if self.measured {
            self.came = self.came.saturating_add(bytes.len() as u64);
            self.spent = spent;
            let on_the_wire = self.came.saturating_add(SHORT_FRAME as u64);
            self.least = self.least.min(spent / on_the_wire);
        }
    }

    /// The time-out after a request. That of the reset of all selected meters is as long as the slowest
    /// acknowledgement, and no longer than one may take after the last; before the first, it is the patience. Both are
    /// measured from the end of the request: the reset is shorter than the selection that was acknowledged.
    pub fn limit_by(&self, request: &[u8], many: bool, patience: u64) -> u64
        ensures { result ≡ limit_by (is_reset (frame_of request.now)) many
            (wants_ack (frame_of request.now)) self.now patience }
    {
        if !is_reset(request) {
            return if many && wants_ack(request) {
                self.window(patience)
            } else {
                patience
            };
        }
        let Some(delay) = self.delay else {
            return patience;
        };
        let byte = self.least_byte.unwrap_or(0);
        let longer = byte.saturating_mul(LONGER);
        let wait = patience.min(delay.saturating_sub(longer).saturating_add(ANSWERING_REST));
        match self.byte {
            Some(byte) => {
                let last = self.last.saturating_sub(longer);
                wait.min(answering(byte).saturating_add(last))
            }
            None => wait,
        }
    }

    /// How long a request waits until its repeat: where one meter may acknowledge it, nothing was late, and it was
    /// repeated less than twice, 1 s, or 50 ms longer than the slowest acknowledgement took; `None` before the first,
    /// and where that isn't less than the patience.
    pub fn soon_by(&self, asking: Asking, patience: u64) -> Option<u64>
        ensures { result ≡ soon_by asking self.now patience }
    {
        let repeats = asking.repeats < MOST_REPEATS;
        if !asking.many && asking.late == 0 && repeats && self.acks {
            let wait = LEAST_WAIT.max(self.delay?.saturating_add(ANSWERING_REST));
            if wait < patience { Some(wait) } else { None }
        } else {
            None
        }
    }

    /// How long one of several meters may take to begin its answer; at most the patience, and so long before the first
    /// acknowledgement. It is as long as a meter waits, and the slowest acknowledgement took. Where nothing was late a
    /// selection that was acknowledged shows how long a byte takes, and once a telegram came, the soonest
    /// acknowledgement and the longest pause within a telegram count in place of the slowest; but where that was slower
    /// than they and a meter's wait explain, so much longer than the slowest.
    pub fn window(&self, patience: u64) -> u64
        ensures { result ≡ window_of self.now patience }
    {
        let Some(slowest) = self.delay else {
            return patience;
        };
        let shown = if self.late { None } else { self.soonest };
        let most = shown.unwrap_or(u64::MAX) / ACKNOWLEDGING;
        let byte = self.byte.unwrap_or(u64::MAX).min(most);
        let soonest = self.soonest.unwrap_or(0);
        let known = soonest.saturating_add(self.longest_pause.unwrap_or(0));
        let reach = if shown.is_none() || self.longest_pause.is_none() {
            known.max(slowest)
        } else if slowest <= known.saturating_add(answering(byte)) {
            known
        } else {
            slowest.saturating_add(slowest.saturating_sub(soonest))
        };
        let window = answering(byte).saturating_add(reach);
        patience.min(window.max(slowest.saturating_add(ANSWERING_REST)))
    }

    /// How long nothing comes after the last of several answers.
    pub fn pause(&self) -> u64
        ensures { result ≡ pause_of self.now.byte }
    {
        match self.byte {
            Some(byte) => PAUSE.max(byte.saturating_mul(PAUSE_BYTES)),
            None => PAUSE,
        }
    }
}

// How long a meter may take to begin its answer where a byte takes this long.
fn answering(byte: u64) -> u64
    ensures { result ≡ answering byte }
{
    byte.saturating_mul(ANSWERING_BYTES)
        .saturating_add(ANSWERING_REST)
}
