//! Reads that wait at most so long.

ghost use Rattle.std.specs.Prelude.{◌≡◌, ◌+◌, ◌-◌, ◌*◌, ◌/◌, ◌^◌, ◌≤◌, ◌<◌, min, ℕ, List, ◌++◌, [], true};
ghost use Rattle.std.specs.Prelude.{length, take, drop, false, IfOk, OnOk};
ghost use Rattle.std.specs.Io.KnownBytes.{Consumes};
ghost use Rattle.std.specs.Time.{instant_nanos};
ghost use Rattle.mbdc_bus.specs.Limits.{most_answer};
ghost use Rattle.mbdc_raw.specs.Noise.{IsCut, IsNoise, IsPast, begins_frame};
ghost use Rattle.mbdc_raw.specs.declared.polling.Begun.TheVariants.{Frame, Noise};

use crate::state::copy_of;
use dc_linkframe::{Need, need, parse};
use libc::net::{POLLIN, poll};
use libc::types::pollfd;
use mbdc_bus::{AnswerBuf, MOST_ANSWER};
use mbdc_io::IoFault;
use std::io::{ErrorKind, Read};
use std::os::fd::AsRawFd;
use std::time::Instant;

// The first byte of a short frame, and an acknowledgement.
const SHORT_START: u8 = 0x10;

const ACKNOWLEDGED: u8 = 0xE5;

// Number of bytes that decide whether a frame begins: a short one has no more.
const BEGINNING: usize = 5;

// Maximum number of polls repeated because a signal interrupted a poll or a read.
const MOST_POLLS: usize = 1_000;

// The time between two moments, in microseconds.
pub(crate) fn between(since: Instant, at: Instant) -> u64
    ensures { result ≡ min ((instant_nanos at - instant_nanos since) / 1_000) (2 ^ 64 - 1) }
{
    let spent = at.duration_since(since).as_micros();
    u64::try_from(spent).unwrap_or(u64::MAX)
}

// Reads what comes within this many microseconds, rounded up; no byte if nothing comes.
pub(crate) fn read_within<R: Read + AsRawFd>(
    reader: &mut R,
    micros: u64,
    room: &mut [u8],
) -> Result<usize, IoFault>
    ensures count { IfOk result (λ n. n ≤ length room.old) }
    ensures bytes { IfOk result (λ n. Consumes (R.remaining reader.old)
        (R.remaining reader.new) (take n room.new)) }
{
    let millis = i32::try_from(micros.saturating_add(999) / 1_000).unwrap_or(i32::MAX);
    for _ in 0..MOST_POLLS {
        let mut asked = [pollfd {
            fd: reader.as_raw_fd(),
            events: POLLIN,
            revents: 0,
        }];
        let ready = poll(&mut asked, millis);
        if ready == 0 {
            return Ok(0);
        }
        // A signal interrupted the poll: a read might wait.
        if ready < 0 {
            continue;
        }
        match reader.read(room) {
            Ok(0) => return Err(IoFault),
            Ok(count) => return Ok(count),
            Err(error) => {
                if error.kind() != ErrorKind::Interrupted {
                    break;
                }
            }
        }
    }
    Err(IoFault)
}

// What begins with some bytes.
#[derive(Clone, Copy)]
enum Begun {
    // A frame, or what is taken in any case.
    Frame,
    // No frame, whatever follows.
    Noise,
    // It depends on what follows.
    Unknown,
}

fn begins(text: &[u8], awaits_ack: bool, takes_all: bool) -> Begun
    ensures frame { result ≡ Frame → takes_all ≡ false → begins_frame awaits_ack text.now ≡ true }
    ensures noise { result ≡ Noise → IsNoise awaits_ack text.now }
    ensures all { takes_all ≡ true → result ≡ Frame }
{
    if takes_all {
        return Begun::Frame;
    }
    match text {
        [ACKNOWLEDGED, ..] => {
            if awaits_ack {
                Begun::Frame
            } else {
                Begun::Noise
            }
        }
        [SHORT_START, _, _, _, _, ..] => {
            let (front, _) = text.split_at(BEGINNING);
            match parse(front) {
                Ok(_) => Begun::Frame,
                Err(_) => Begun::Noise,
            }
        }
        _ => match need(text) {
            Need::Bad => Begun::Noise,
            _ if text.len() < BEGINNING => Begun::Unknown,
            _ => Begun::Frame,
        },
    }
}

// Number of bytes at the front that begin no frame.
fn noise_len(text: &[u8], awaits_ack: bool, takes_all: bool) -> usize
    ensures fits { result ≤ length text.now }
    ensures none { (count : ℕ) → count < result → IsNoise awaits_ack (drop count text.now) }
    ensures first { takes_all ≡ true → result ≡ 0 }
{
    let mut count = 0;
    'noise: while count < text.len() {
        let (_, rest) = text.split_at(count);
        match begins(rest, awaits_ack, takes_all) {
            Begun::Noise => count += 1,
            Begun::Frame | Begun::Unknown => return count,
        }
    }
    count
}

// Gives those of the bytes ahead that begin an answer, or all, and drops the noise before them. The rest is held back.
fn give(ahead: &mut AnswerBuf, awaits_ack: bool, takes_all: bool, room: &mut [u8]) -> usize
    ensures count { result ≤ length room.old }
    ensures cut { IsCut awaits_ack takes_all ahead.old (take result room.new) ahead.new }
{
    let text = ahead.as_slice();
    let noise = noise_len(text, awaits_ack, takes_all);
    let (_, rest) = text.split_at(noise);
    match begins(rest, awaits_ack, takes_all) {
        Begun::Frame => {}
        Begun::Noise | Begun::Unknown => {
            let held = copy_of(rest);
            *ahead = held;
            return 0;
        }
    }
    let count = rest.len().min(room.len());
    let (given, left) = rest.split_at(count);
    room[..count].copy_from_slice(given);
    let held = copy_of(left);
    *ahead = held;
    count
}

// Reads at most `most` bytes, within `micros` microseconds, after those that are ahead.
fn read_ahead<R: Read + AsRawFd>(
    reader: &mut R,
    ahead: &mut AnswerBuf,
    micros: u64,
    most: usize,
) -> Result<(), IoFault>
    requires { length ahead.old + most ≤ most_answer }
    ensures { OnOk result ((more : List ℕ) × Consumes (R.remaining reader.old) (R.remaining reader.new) more
        × (ahead.new ≡ ahead.old ++ more)) }
{
    if most == 0 {
        return Ok(());
    }
    let mut own = [0; MOST_ANSWER];
    let (part, _) = own.split_at_mut(most);
    let count = read_within(reader, micros, part)?;
    let (given, _) = own.split_at(count);
    ahead.append(given);
    Ok(())
}

// Reads what comes within this many microseconds, and gives the bytes of an answer. Unless all bytes are taken, those
// that begin no frame are dropped before it, and those that may begin one are held back.
pub(crate) fn read_past_noise<R: Read + AsRawFd>(
    reader: &mut R,
    ahead: &mut AnswerBuf,
    micros: u64,
    awaits_ack: bool,
    takes_all: bool,
    room: &mut [u8],
) -> Result<usize, IoFault>
    ensures count { IfOk result (λ n. n ≤ length room.old) }
    ensures bytes { IfOk result (λ n. IsPast awaits_ack takes_all ahead.old ahead.new
        (R.remaining reader.old) (R.remaining reader.new) (take n room.new)) }
{
    let held = ahead.as_slice().len();
    let wanted = if !takes_all {
        BEGINNING.saturating_sub(held)
    } else if held == 0 {
        room.len()
    } else {
        0
    };
    read_ahead(reader, ahead, micros, wanted.min(MOST_ANSWER - held))?;
    Ok(give(ahead, awaits_ack, takes_all, room))
}
