//! The progress of a search, on a terminal.

use crate::bench::command::{ALL, Done, Scan, Work};
use crate::bench::remark::put_remark;
use crate::{Course, GREATEST};
use dc_address::Identity;
use dc_linkframe::{Frame, parse};
use dc_records::Telegram;
use dc_records::names::medium_name;
use dc_units::{Point, Seen, point_of};
use mbdc_bus::TRIES;
use mbdc_bus::trace::Observer;
use mbdc_decode::put_point;
use mbdc_decode::tokens::{Piece, put_pieces};
use mbdc_io::{FixedSink, IoFault, Sink};
use std::alloc::Global;
use std::cell::{Cell, RefCell};
use std::io::Write;
use std::rt::Clock;
use std::time::Instant;
use std::{io, str};

// The longest text at once: the line of answers that can't be read, and a hint.
const ROOM: usize = 400;

// Back to the first column, and nothing after it.
const CLEAR: &str = "\r\u{1b}[K";

type Text = FixedSink<ROOM>;

/// The line on standard error that shows how far a search is. A line of its own shows each meter as it answers. It is
/// shown only on a terminal.
#[derive(Drop)]
pub struct Progress<'h, R> {
    rt: &'h R,
    is_terminal: bool,
    // How many milliseconds a silent address takes, of a search at primary addresses.
    each: Option<u32>,
    begun: Option<Instant>,
    course: Cell<Course>,
    // Number of meters that were shown.
    meters: Cell<u64>,
    // The meters that answered, each with its first current value.
    values: RefCell<Vec<(Identity, Point)>>,
    is_shown: Cell<bool>,
    /// Whether nothing more is printed on standard output.
    pub(crate) is_hushed: Cell<bool>,
}

impl<'h, R: Clock + Eprint> Progress<'h, R> {
    /// Begins a work on a bus with a time-out of this many milliseconds, with no progress shown. Of a search at primary
    /// addresses it says how long that takes.
    pub fn new(rt: &'h R, alloc: Global, is_terminal: bool, work: Work, patience: u16) -> Self {
        // Each address is asked as often as a window may be silent.
        let each = match work {
            Work::Search(Scan::Primary) => Some(u32::from(patience) * u32::from(TRIES)),
            _ => None,
        };
        let progress = Progress {
            rt,
            is_terminal,
            each,
            begun: Instant::now(rt).ok(),
            course: Cell::new(Course::new()),
            meters: Cell::new(0),
            values: RefCell::new(Vec::new(alloc)),
            is_shown: Cell::new(false),
            is_hushed: Cell::new(false),
        };
        if is_terminal && let Some(each) = each {
            let (time, unit) = time_of(GREATEST, each);
            let estimate = [
                Piece::Number(u64::from(GREATEST)),
                Piece::Text(b" addresses, "),
                Piece::Number(u64::from(each)),
                Piece::Text(b" ms each that is silent: up to "),
                Piece::Number(time),
                Piece::Text(unit),
                Piece::Text(b"\n"),
            ];
            let mut text = Text::new();
            if put_pieces(&mut text, &estimate).is_ok() {
                progress.say(text.as_slice());
            }
        }
        progress
    }

    /// Clears the line, before another one is written to the terminal.
    pub fn clear(&self) {
        if self.is_shown.get() {
            self.is_shown.set(false);
            let _ = self.rt.eprint(CLEAR);
        }
    }

    /// Prints what is to be known of a command besides its text.
    pub(crate) fn remark(&self, work: &Work, done: &Done) {
        let mut text = Text::new();
        if put_remark(work, done, &self.course.get(), self.is_terminal, &mut text).is_ok() {
            self.say(text.as_slice());
        }
    }

    /// Prints a text on lines of its own, whether standard error is a terminal or not.
    pub(crate) fn say(&self, text: &[u8]) {
        self.clear();
        if let Ok(text) = str::from_utf8(text)
            && !text.is_empty()
        {
            let _ = self.rt.eprint(text);
        }
    }

    /// The first current value that a meter answered.
    pub(crate) fn value_of(&self, meter: &Identity) -> Option<Point> {
        let values = self.values.try_borrow().ok()?;
        let mut values = values.as_slice().iter();
        let (_, value) = values.find(|(known, _)| known == meter)?;
        Some(*value)
    }
}

/// What shows the requests and answers of a search as its progress.
#[derive(Drop)]
pub struct Show<'p, 'h, R> {
    /// The progress.
    pub progress: &'p Progress<'h, R>,
}

impl<R: Clock + Eprint> Observer for Show<'_, '_, R> {
    ghost use Rattle.std.specs.Prelude.{⊤};

    // What a terminal shows is in no contract.
    ghost sees_request = { λ _ _ _. ⊤ };

    ghost sees_answer = { λ _ _ _. ⊤ };

    // Shows the line after a request.
    fn see_request(&mut self, request: &[u8]) {
        let progress = self.progress;
        let course = progress.course.get().after_request(request);
        progress.course.set(course);
        if !progress.is_terminal {
            return;
        }
        let seconds = match progress.begun {
            Some(begun) => match begun.elapsed(progress.rt) {
                Ok(elapsed) => elapsed.as_secs(),
                Err(_) => 0,
            },
            None => 0,
        };
        let (each, meters) = (progress.each, progress.meters.get());
        let mut text = Text::new();
        if put_course(&mut text, &course, each, meters, seconds).is_ok()
            && let Ok(text) = str::from_utf8(text.as_slice())
        {
            let _ = progress.rt.eprint(text);
            progress.is_shown.set(true);
        }
    }

    // A meter is shown once, though it is asked twice.
    fn see_answer(&mut self, answer: &[u8]) {
        let progress = self.progress;
        let before = progress.course.get();
        let mut course = before.after_answer(answer);
        if before.address == ALL {
            // Meters that answer at once say nothing of the bus.
            course.unreadable = before.unreadable;
        }
        progress.course.set(course);
        if course.meter == before.meter {
            return;
        }
        let Ok(Frame::Long { body, .. }) = parse(answer) else {
            return;
        };
        let Ok(telegram) = Telegram::parse(body) else {
            return;
        };
        if let Some(value) = first_current(&telegram)
            && let Ok(mut values) = progress.values.try_borrow_mut()
        {
            // A meter that memory has no room for has no value in a list.
            let _ = values.push((telegram.header().identity, value));
        }
        if progress.is_terminal {
            progress.meters.set(progress.meters.get().saturating_add(1));
            let mut text = Text::new();
            if put_found(&mut text, &telegram).is_ok() {
                progress.say(text.as_slice());
            }
        }
    }
}

/// A writer before whose writes the line of the progress is cleared. After a search is given up it writes nothing.
#[derive(Drop)]
pub(crate) struct Cleared<'p, 'h, R, W: Write + Drop> {
    /// The writer.
    pub writer: W,
    /// The progress.
    pub progress: &'p Progress<'h, R>,
}

impl<R: Clock + Eprint, W: Write + Drop> Write for Cleared<'_, '_, R, W> {
    fn write(&mut self, bytes: &[u8]) -> io::Result<usize> {
        if self.progress.is_hushed.get() {
            return Ok(bytes.len());
        }
        self.progress.clear();
        self.writer.write(bytes)
    }

    fn flush(&mut self) -> io::Result<()> {
        self.writer.flush()
    }
}

// ---- texts

// Writes how far a search is, over what the line had: `37 selections, 2 found, 41 s`, or with primary addresses
// `address 37 of 250, 2 found, 8 min left`.
fn put_course<W: Sink>(
    out: &mut W,
    course: &Course,
    each: Option<u32>,
    meters: u64,
    seconds: u64,
) -> Result<(), IoFault> {
    let Some(each) = each else {
        return put_pieces(
            out,
            &[
                Piece::Text(CLEAR.as_bytes()),
                Piece::Number(course.selections),
                Piece::Text(b" selections, "),
                Piece::Number(meters),
                Piece::Text(b" found, "),
                Piece::Number(seconds),
                Piece::Text(b" s"),
            ],
        );
    };
    let (time, unit) = time_of(GREATEST.saturating_sub(course.address), each);
    put_pieces(
        out,
        &[
            Piece::Text(CLEAR.as_bytes()),
            Piece::Text(b"address "),
            Piece::Number(u64::from(course.address)),
            Piece::Text(b" of "),
            Piece::Number(u64::from(GREATEST)),
            Piece::Text(b", "),
            Piece::Number(meters),
            Piece::Text(b" found, "),
            Piece::Number(time),
            Piece::Text(unit),
            Piece::Text(b" left"),
        ],
    )
}

// The time that this many silent addresses take: whole minutes, or seconds below one.
fn time_of(count: u8, each: u32) -> (u64, &'static [u8]) {
    let millis = u64::from(count).saturating_mul(u64::from(each));
    let seconds = millis.div_ceil(1_000);
    if seconds < 60 {
        (seconds, b" s".as_slice())
    } else {
        (seconds.div_ceil(60), b" min".as_slice())
    }
}

// Writes the meter of a telegram, its medium, and its first current value where it sends one:
// `found 12345678.PAD.01.07 water 12.345 m3`.
fn put_found<W: Sink>(out: &mut W, telegram: &Telegram<'_>) -> Result<(), IoFault> {
    let meter = telegram.header().identity;
    out.put(b"found ")?;
    out.put(&meter.text())?;
    out.put(b" ")?;
    out.put(medium_name(meter.kind).as_bytes())?;
    if let Some(point) = first_current(telegram) {
        out.put(b" ")?;
        put_point(&point, out)?;
    }
    out.put(b"\n")
}

// The first current value with a unit.
fn first_current(telegram: &Telegram<'_>) -> Option<Point> {
    for record in telegram.records() {
        if let Seen::Point(point) = point_of(&record)
            && point.storage == 0
            && point.function == 0
            && !point.quantity.is_time_point()
        {
            return Some(point);
        }
    }
    None
}
