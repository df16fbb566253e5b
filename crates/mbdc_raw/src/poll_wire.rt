//! A wire over a descriptor that can be polled: a TCP stream or a terminal.

ghost use Rattle.std.specs.Prelude.{◌≡◌, ◌⊎◌, ◌+◌, ◌*◌, ◌^◌, ◌≤◌, ◌<◌, ℕ, [], length, true, false, IfOk, OnOk, OnErr, Ok};
ghost use Rattle.mbdc_io.specs.Failures.{HasRisen};
ghost use Rattle.mbdc_raw.specs.Looks.{waits_of};
ghost use Rattle.mbdc_raw.specs.Pace.{Fits, acknowledging};
ghost use Rattle.mbdc_raw.specs.PollWire.{Ends, Holds, IsDeserted, IsHeard, IsLoud, IsStill, IsTold};
ghost use Rattle.mbdc_raw.specs.PollWire.{HasPassed, IsUnanswered, WireHears, WireSends, gap_micros};
ghost use Rattle.mbdc_raw.specs.PollWire.{noise_then, takes_all, tells, waited_then};
ghost use Rattle.mbdc_raw.specs.declared.wire.Came.TheVariants.{Gap};
ghost use Rattle.mbdc_raw.specs.declared.poll_wire.Until.TheVariants.{Still};
ghost use Rattle.mbdc_raw.specs.Wire.{FitsRoom, Wanes, sound_of};

use crate::logged_clock::{ClockLog, LoggedClock};
use crate::pace::Pace;
use crate::polling::{between, read_past_noise, read_within};
use crate::state::is_reset;
use crate::wire::{Asking, Came, Wire};
use mbdc_bus::AnswerBuf;
use mbdc_io::{IoFault, one_failure_more};
use std::io;
use std::io::{Read, Write};
use std::os::fd::AsRawFd;
use std::rt::Clock;
use std::time::{Duration, Instant};

/// The gap that ends an answer which has begun, in milliseconds.
pub const GAP: u64 = 500;

// The same in microseconds.
const GAP_MICROS: u64 = 500_000;

// How long bytes may keep coming: this many patiences, or this many microseconds where that is longer.
// The longest answer takes 10 s at 300 baud.
const MOST_PATIENCES: u64 = 10;

const LONGEST_ANSWER: u64 = 15_000_000;

// The longest patience to which late bytes lead, in microseconds, and the number of times that they
// double it.
const LONGEST_PATIENCE: u64 = 16_000_000;

const MOST_DOUBLINGS: u64 = 14;

// Maximum number of times that nothing may come after a request, before the wire itself waits for
// the rest of its time-out.
const MOST_WAITS: u16 = 32_767;

// How long requests go out in a row on a line on which no byte has come, until it is given up, in
// microseconds.
const MOST_WAITED: u64 = 120_000_000;

// How long a line that is given up is listened to for noise, in microseconds.
const LISTENING: u64 = 100_000;

/// A link that may close.
pub trait Link {
    /// Opens the link again, once, where it has closed. Returns whether it did.
    fn reopen(&mut self) -> bool;

    /// Takes that the line is given up, and why.
    fn desert(&mut self, why: GivenUp);
}

/// Why a line is given up.
#[derive(Clone, Copy)]
pub enum GivenUp {
    /// Nobody answers.
    Silent,
    /// Nobody answers, and this byte comes.
    Noisy(u8),
    /// Bytes keep coming.
    Loud,
}

/// When silence comes after a request.
#[derive(Clone, Copy)]
pub enum Until {
    /// Nothing came for the time-out, since the request or the last byte.
    Still,
    /// The time-out is over since the request, whatever comes.
    Over,
    /// The time-out is over since the request, and nothing came for a pause.
    Paused,
}

/// A TCP stream or a terminal as a wire, by polls that don't wait: its reader and its writer. A read
/// that returns no byte when the descriptor is readable means the end of the stream.
///
/// After a request the time-out is the patience. After the reset of all selected meters it is as long as an
/// acknowledgement takes, by the [`Pace`] of the line, once there was one; after a request that several meters may
/// answer, as long as one of them may take to begin. Where one meter may acknowledge a request, the answer is overdue
/// sooner than that, so that it is repeated, up to twice. Bytes that begin no frame are dropped where no answer has
/// begun and only one meter may answer, and time goes on as if they hadn't come. A frame begins with 68 L L 68 and a
/// fifth byte, as a whole short frame, or with an acknowledgement that is awaited: first bytes are held back for a gap,
/// to see whether that follows. A line on which bytes keep coming for ten patiences, or 15 s where that is longer,
/// without a request or silence between them, fails. So does one on which requests met silence for 120 s, and no byte
/// came since it was connected.
#[derive(Drop)]
pub struct PollWire<R: Read + AsRawFd + Drop, W: Write + Link + Drop, C: Clock + Drop> {
    // Its descriptor is for a caller that waits for the bytes of several wires at once.
    pub(crate) reader: R,
    writer: W,
    clock: LoggedClock<C>,
    // The time-out that was stated, that of the line and that of the request, in microseconds.
    stated: u64,
    patience: u64,
    limit: u64,
    until: Until,
    // The time at which the request was sent.
    asked: Instant,
    // The time at which the request was sent, the last byte came, or the last silence was returned.
    since: Instant,
    // The time of the last look at the wire.
    at: Instant,
    // Whether a byte came since, and no gap after it was returned.
    begun: bool,
    // How long after the request its answer is overdue, until a byte came.
    soon: Option<u64>,
    // Bytes that were read, and the time at which the first of them was, where they may begin a frame.
    ahead: AnswerBuf,
    held: Instant,
    pace: Pace,
    // For how long bytes have kept coming since the last request or silence, in microseconds.
    noise: u64,
    // Whether a byte came since the link was connected.
    came: bool,
    // Whether a request is out that hasn't met silence.
    asks: bool,
    // How long requests have waited that met silence, in microseconds.
    waited: u64,
    // Whether the line was given up, since nobody answers.
    deserted: bool,
    waits: u16,
    failures: u64,
}

impl<R: Read + AsRawFd + Drop, W: Write + Link + Drop, C: Clock + Drop> PollWire<R, W, C> {
    /// Returns the reader and the writer of a stream as a wire with a patience of this many
    /// milliseconds.
    ///
    /// # Errors
    /// The clock fails.
    pub fn new(reader: R, writer: W, clock: C, patience: u16) -> io::Result<Self>
        ensures failures { IfOk result (λ wire. wire.failures ≡ 0) }
        ensures stated { IfOk result (λ wire. wire.stated ≡ patience * 1_000) }
        ensures limit { IfOk result (λ wire. wire.limit ≡ patience * 1_000) }
        ensures until { IfOk result (λ wire. wire.until ≡ Still) }
        ensures came { IfOk result (λ wire. wire.came ≡ false) }
        ensures waited { IfOk result (λ wire. wire.waited ≡ 0) }
        ensures deserted { IfOk result (λ wire. wire.deserted ≡ false) }
        ensures begun { IfOk result (λ wire. wire.begun ≡ false) }
        ensures asks { IfOk result (λ wire. wire.asks ≡ false) }
        ensures told { IfOk result (λ wire. IsTold wire) }
        ensures fits { IfOk result (λ wire. (byte delay : ℕ) → delay + byte * acknowledging < 2 ^ 64
            → Fits byte delay wire.pace) }
    {
        let mut clock = LoggedClock {
            clock,
            log: ClockLog::new(),
        };
        let since = clock.now()?;
        let micros = u64::from(patience) * 1_000;
        Ok(PollWire {
            reader,
            writer,
            clock,
            stated: micros,
            patience: micros,
            limit: micros,
            until: Until::Still,
            asked: since,
            since,
            at: since,
            begun: false,
            soon: None,
            ahead: AnswerBuf::new(),
            held: since,
            pace: Pace::new(),
            noise: 0,
            came: false,
            asks: false,
            waited: 0,
            deserted: false,
            waits: MOST_WAITS,
            failures: 0,
        })
    }

    /// The time until the next gap or silence, if no byte comes; zero if the clock fails.
    pub fn left(&self) -> Duration {
        // The moment isn't added to the history: no step depends on it.
        let Ok(at) = Instant::now(&self.clock.clock) else {
            return Duration::ZERO;
        };
        let rest = self.rest(at);
        if !self.ahead.as_slice().is_empty() {
            return Duration::from_micros(rest.max(GAP_MICROS));
        }
        if self.begun && self.until == Until::Still {
            let gap = GAP_MICROS.saturating_sub(between(self.since, at));
            return Duration::from_micros(rest.min(gap));
        }
        match self.soon {
            Some(wait) => {
                let left = wait.saturating_sub(between(self.since, at));
                Duration::from_micros(rest.min(left))
            }
            None => Duration::from_micros(rest),
        }
    }

    // The time from this moment to silence, if no byte comes.
    fn rest(&self, at: Instant) -> u64
        ensures over { result ≡ 0 → Ends self.now at }
        ensures due { Ends self.now at → result ≡ 0 }
    {
        let spent = between(self.since, at);
        let left = self.limit.saturating_sub(between(self.asked, at));
        match self.until {
            Until::Still => self.limit.saturating_sub(spent),
            Until::Over => left,
            Until::Paused => {
                if self.begun {
                    left.max(self.pace.pause().saturating_sub(spent))
                } else {
                    left
                }
            }
        }
    }

    // Whether bytes that begin no frame are taken, too: an answer has begun, or several meters may answer.
    fn takes_all(&self) -> bool
        ensures { result ≡ takes_all self.now }
    {
        match self.until {
            Until::Paused => true,
            Until::Still | Until::Over => self.begun,
        }
    }

    // Takes what has arrived. After `MOST_WAITS` calls without a byte it waits for the rest of the
    // time-out.
    fn look(&mut self, room: &mut [u8]) -> Result<Came, IoFault>
        requires { 0 < length room.old }
        ensures fits { IfOk result (λ came. FitsRoom came (length room.old)) }
        ensures fewer { IfOk result (λ came. Wanes came
            (waits_of self.old.waits) (waits_of self.new.waits)) }
        ensures well { self.new.failures ≡ self.old.failures }
        ensures step { IfOk result (λ came.
            WireHears R.remaining self.old (sound_of came room.new) self.new) }
        ensures read { OnOk result (self.new.clock ≡ tells self.new.at self.old.clock) }
        ensures deserted { self.old.deserted ≡ false → self.new.deserted ≡ true
            → IsDeserted self.old self.new }
    {
        let wait = if self.waits == 0 {
            self.rest(self.at)
        } else {
            0
        };
        let is_new = self.ahead.as_slice().is_empty();
        let takes_all = self.takes_all();
        let awaits_ack = self.pace.acks;
        let count = read_past_noise(
            &mut self.reader,
            &mut self.ahead,
            wait,
            awaits_ack,
            takes_all,
            room,
        )?;
        let Ok(at) = self.clock.now() else {
            return Err(IoFault);
        };
        self.at = at;
        if count > 0 {
            let (given, _) = room.split_at(count);
            self.heard(given)?;
            return Ok(Came::Bytes(count));
        }
        self.hold(is_new);
        self.nothing()
    }

    // Some bytes came. A longer time than the patience since the last ones counts as one: the line
    // wasn't looked at.
    fn heard(&mut self, bytes: &[u8]) -> Result<(), IoFault>
        ensures well { self.new.failures ≡ self.old.failures }
        ensures waits { self.new.waits ≡ self.old.waits }
        ensures kept { OnOk result (IsHeard self.old bytes.now self.new) }
        ensures noise { OnOk result (self.new.noise ≡ noise_then self.old) }
        ensures loud { OnErr result (IsLoud self.old) }
        ensures deserted { self.new.deserted ≡ self.old.deserted }
    {
        let spent = between(self.since, self.at);
        self.noise = self.noise.saturating_add(spent.min(self.patience));
        if self.noise
            > self
                .patience
                .saturating_mul(MOST_PATIENCES)
                .max(LONGEST_ANSWER)
        {
            self.writer.desert(GivenUp::Loud);
            return Err(IoFault);
        }
        self.pace.take(between(self.asked, self.at), bytes);
        self.since = self.at;
        self.begun = true;
        self.soon = None;
        self.came = true;
        match self.until {
            Until::Still => self.limit = self.patience,
            Until::Over => {}
            Until::Paused => self.limit = self.pace.window(self.patience),
        }
        Ok(())
    }

    // No answer begins yet. Bytes that may begin one are held back from now on; those that were before are dropped once
    // it didn't for a gap.
    fn hold(&mut self, is_new: bool)
        ensures step { Holds is_new self.old self.new }
        ensures kept { self.new ≡ record self.old { ahead = self.new.ahead; held = self.new.held } }
        ensures well { self.new.failures ≡ self.old.failures }
        ensures waits { self.new.waits ≡ self.old.waits }
        ensures deserted { self.new.deserted ≡ self.old.deserted }
        ensures at { self.new.at ≡ self.old.at }
    {
        if is_new {
            self.held = self.at;
            return;
        }
        if between(self.held, self.at) >= GAP_MICROS {
            self.ahead = AnswerBuf::new();
        }
    }

    // The result where nothing has come.
    fn nothing(&mut self) -> Result<Came, IoFault>
        ensures fits { IfOk result (λ came. FitsRoom came 0) }
        ensures fewer { IfOk result (λ came. Wanes came
            (waits_of self.old.waits) (waits_of self.new.waits)) }
        ensures well { self.new.failures ≡ self.old.failures }
        ensures step { IfOk result (λ came. IsStill self.old (sound_of came []) self.new) }
        // It fails where nobody answers, or where it was looked at too often.
        ensures failed { OnErr result ((self.new.deserted ≡ true) ⊎ (self.old.waits ≡ 0)) }
        ensures gap { result ≡ Ok Gap → HasPassed gap_micros self.old.since self.old.at }
        ensures deserted { self.old.deserted ≡ false → self.new.deserted ≡ true
            → IsUnanswered self.old self.old.at }
        ensures at { self.new.at ≡ self.old.at }
        ensures clock { self.new.clock ≡ self.old.clock }
    {
        let rest = self.rest(self.at);
        let spent = between(self.since, self.at);
        let is_free = self.ahead.as_slice().is_empty();
        if rest == 0 && (is_free || self.waits == 0) {
            self.waited = self.waited_then();
            self.asks = false;
            if !self.came && self.waited >= MOST_WAITED {
                self.deserted = true;
                let why = what_comes(&mut self.reader);
                self.writer.desert(why);
                return Err(IoFault);
            }
            self.since = self.at;
            self.begun = false;
            self.soon = None;
            self.noise = 0;
            self.until = Until::Still;
            self.limit = self.patience;
            return Ok(Came::Silence);
        }
        if self.waits == 0 {
            return Err(IoFault);
        }
        self.waits = self.waits.min(MOST_WAITS) - 1;
        if self.begun && self.until == Until::Still && spent >= GAP_MICROS {
            self.begun = false;
            return Ok(Came::Gap);
        }
        let Some(wait) = self.soon else {
            return Ok(Came::Nothing);
        };
        if is_free && spent >= wait {
            self.soon = None;
            self.pace.acks = false;
            return Ok(Came::Overdue);
        }
        Ok(Came::Nothing)
    }

    // How long requests have waited that met silence, where the last one does now.
    fn waited_then(&self) -> u64
        ensures { result ≡ waited_then self.now }
    {
        if self.asks {
            self.waited.saturating_add(self.limit)
        } else {
            self.waited
        }
    }

    fn put(&mut self, bytes: &[u8], asking: Asking) -> Result<(), IoFault>
        ensures well { self.new.failures ≡ self.old.failures }
        ensures step { OnOk result (WireSends W.contents self.old bytes.now asking self.new) }
        ensures deserted { self.new.deserted ≡ self.old.deserted }
    {
        let Ok(since) = self.clock.write_then_now(&mut self.writer, bytes) else {
            return Err(IoFault);
        };
        self.since = since;
        if asking.repeats == 0 {
            self.asked = self.since;
        }
        self.begun = false;
        self.asks = true;
        self.noise = 0;
        self.waits = MOST_WAITS;
        self.pace.begin(bytes, asking.late);
        let doubled = self
            .stated
            .saturating_mul(1 << asking.late.min(MOST_DOUBLINGS));
        self.patience = self.stated.max(doubled.min(LONGEST_PATIENCE));
        self.limit = self.pace.limit_by(bytes, asking.many, self.patience);
        self.soon = self.pace.soon_by(asking, self.patience);
        // The reset of all selected meters has a fixed time once an acknowledgement has shown how long one takes.
        self.until = if is_reset(bytes) && self.pace.delay.is_some() {
            Until::Over
        } else if asking.many {
            Until::Paused
        } else {
            Until::Still
        };
        Ok(())
    }
}

// What a line is on which nobody answers: it is silent, or bytes come that begin no frame.
fn what_comes<R: Read + AsRawFd>(reader: &mut R) -> GivenUp {
    let mut room = [0; 1];
    match read_within(reader, LISTENING, &mut room) {
        Ok(count) if count > 0 => GivenUp::Noisy(room[0]),
        _ => GivenUp::Silent,
    }
}

impl<R: Read + AsRawFd + Drop, W: Write + Link + Drop, C: Clock + Drop> Wire for PollWire<R, W, C> {
    ghost use Rattle.std.proofs.Math.Nat.{min-le_right};
    ghost use Rattle.mbdc_raw.specs.Looks.{most_looks, waits_of};
    ghost use Rattle.mbdc_raw.specs.PollWire.{WireHears, WireReopens, WireSends};

    ghost failures = { λ wire. wire.failures };

    ghost waits_left = { λ wire. waits_of wire.waits };

    ghost few = { λ wire. min-le_right wire.waits most_looks };

    ghost sends = { WireSends W.contents };

    ghost hears = { WireHears R.remaining };

    ghost reopens = { WireReopens };

    fn reopen(&mut self) -> bool {
        if !self.writer.reopen() {
            return false;
        }
        // Nothing came on the link yet.
        self.begun = false;
        self.soon = None;
        self.ahead = AnswerBuf::new();
        self.asks = false;
        self.noise = 0;
        self.until = Until::Still;
        self.limit = self.patience;
        if let Ok(at) = self.clock.now() {
            self.since = at;
        }
        true
    }

    fn send(&mut self, bytes: &[u8], asking: Asking) -> Result<(), IoFault> {
        let sent = self.put(bytes, asking);
        if sent.is_err() {
            self.failures = one_failure_more(self.failures);
        }
        sent
    }

    fn hear(&mut self, room: &mut [u8]) -> Result<Came, IoFault>
        requires { 0 < length room.old }
        ensures fits { IfOk result (λ came. FitsRoom came (length room.old)) }
        ensures step { IfOk result (λ came.
            WireHears R.remaining self.old (sound_of came room.new) self.new) }
        ensures read { OnOk result (self.new.clock ≡ tells self.new.at self.old.clock) }
        ensures fewer { IfOk result (λ came. Wanes came
            (waits_of self.old.waits) (waits_of self.new.waits)) }
        ensures well { OnOk result (self.new.failures ≡ self.old.failures) }
        ensures failed { OnErr result (HasRisen self.old.failures self.new.failures) }
        // Nobody answers on a line that is given up.
        ensures deserted { self.old.deserted ≡ false → self.new.deserted ≡ true
            → IsDeserted self.old self.new }
    {
        let came = self.look(room);
        if came.is_err() {
            self.failures = one_failure_more(self.failures);
        }
        came
    }
}
