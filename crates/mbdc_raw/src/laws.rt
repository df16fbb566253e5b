//! Theorems about the definitions of a line.

ghost use Rattle.std.specs.Prelude.{◌≡◌, ◌+◌, ◌^◌, ◌≤◌, ◌<◌, min, ℕ, List, [], ◌∷◌, ◌++◌, None, false};
ghost use Rattle.std.specs.List.{All};
ghost use Rattle.std.specs.declared.time.Instant.{Instant as Moment};
ghost use Rattle.mbdc_raw.specs.Heard.{ComesFrom, Heard, IsByte, IsFrame, heard_of, past_echo};
ghost use Rattle.mbdc_raw.specs.Line.{GivesOver};
ghost use Rattle.mbdc_raw.specs.Life.{IsPaced, Lives, MeetsSilence, wait_of};
ghost use Rattle.mbdc_raw.specs.Pace.{Fits, answered_after, answering, or_none};
ghost use Rattle.mbdc_raw.specs.PollWire.{HasPassed, IsDeserted, IsTold, WireHears, most_waited, tells_after, told};
ghost use Rattle.mbdc_raw.specs.Wire.{AreHeard, Sound, bytes_in, silence};
ghost use Rattle.mbdc_raw.specs.declared.poll_wire.PollWire.{PollWire as PolledWire};
ghost use Rattle.mbdc_raw.specs.declared.poll_wire.Until.TheVariants.{Paused, Still};
ghost use Rattle.mbdc_raw.specs.declared.wire.Asking.{Asking as Asks};
ghost use Rattle.mbdc_raw.specs.declared.line.Line.{Line};
ghost use Rattle.mbdc_raw.specs.declared.state.Kind.TheVariants.{One};

use crate::poll_wire::Link;
use crate::wire::Wire;
use std::io::{Read, Write};
use std::os::fd::AsRawFd;
use std::rt::Clock;

/// The answer depends only on the bytes before the silence, not on the pieces in which they arrive.
pub fn what_is_heard_depends_on_the_bytes_alone()
    ensures { (request bytes answer : List ℕ) (sounds : List Sound) → IsFrame request
        → All IsByte bytes → Heard request sounds answer → ComesFrom bytes sounds answer
        → answer ≡ heard_of (past_echo request bytes) }
{}

/// The answer of one meter, in any number of steps, is the one that the bytes of the wire since the
/// request spell, where no copy of an answer before it may be under way.
pub fn what_a_line_gives_is_heard<W: Wire + Drop>()
    ensures { (old new : Line W) (answer : List ℕ) → old.held ≡ None → old.kind ≡ One
        → old.last ≡ None → old.hearing.bytes ≡ [] → GivesOver W.Wire old answer new
        → new.lost ≡ false
        → (sounds : List Sound) × AreHeard W.hears old.wire sounds new.wire
        × Heard old.hearing.request sounds answer }
{}

/// A wire waits by its clock. It measures from moments that the clock told. Between a request and the silence that
/// it meets, the clock told two moments that lie the time-out apart, the first one right after the request was
/// written; the early repeat of a request has a time-out of its own. Where several meters may answer, silence comes
/// no sooner than an answer may begin, or after the patience: on a line on which a byte and the converter take as
/// long as what came shows, and only selections are acknowledged. On a line that is given up since nobody answers,
/// no byte came since it was connected, and requests had waited for 120 s.
pub fn a_wire_waits_by_its_clock<R, W, C>()
where
    R: Read + AsRawFd + Drop,
    W: Write + Link + Drop,
    C: Clock + Drop,
    ensures told { (old new : PolledWire R W C) (sounds : List Sound) (waited : ℕ) → IsTold old
        → Lives W.contents R.remaining old sounds waited new → IsTold new }
    ensures apart { (old : PolledWire R W C) (bytes : List ℕ) (asking : Asks) (sent new : PolledWire R W C)
        → (0 < asking.repeats → sent.until ≡ Still)
        → MeetsSilence W.contents R.remaining old bytes asking sent new
        → (between : List Moment) × (told new ≡ new.at ∷ (between ++ (sent.since ∷ told old)))
        × (sent.clock ≡ tells_after bytes sent.since old.clock) × HasPassed sent.limit sent.since new.at }
    ensures window { (old wire new : PolledWire R W C) (sounds : List Sound) (waited byte delay more wait : ℕ)
        → (life : Lives W.contents R.remaining old sounds waited wire) → IsPaced byte delay life
        → Fits byte delay old.pace → old.until ≡ Still → wire.until ≡ Paused
        → WireHears R.remaining wire silence new → more ≤ or_none wire.pace.longest_pause
        → wait ≤ answering byte → wire.patience < 2 ^ 64
        → HasPassed (min wire.patience (answered_after byte (delay + more) wait)) wire.asked new.at }
    ensures deserted { (old new gone : PolledWire R W C) (sounds : List Sound) (waited : ℕ)
        → old.came ≡ false → old.waited ≡ 0 → Lives W.contents R.remaining old sounds waited new
        → IsDeserted new gone
        → (bytes_in sounds ≡ []) × (most_waited ≤ waited + wait_of new silence) }
{}
