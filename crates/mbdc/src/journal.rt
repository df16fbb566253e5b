//! What the commands put into the journal of their image: the events of a poll, and the commands that were done. A poll
//! first reads there who was silent in the last one, how many telegrams each meter sent, and from which addresses.

use crate::clock::moment;
use dc_address::{Identity, Primary};
use dc_meters::House;
use dc_poller::CommandNotes;
use dc_readout::Why;
use mbdc_change::{Flat, Numbered};
use mbdc_decode::tokens::{Piece, put_pieces};
use mbdc_files::{Host, Journal, journal_lines, own_lines};
use mbdc_io::{Bytes, IoFault, NoMemory, Sink};
use mbdc_json::journal;
use mbdc_poll::events::{Notes, put_command_note, put_note, put_object};
use mbdc_poll::{Addressed, Doubt, Event, Known};
use std::alloc::Global;
use std::fs::File;
use std::rt::{Clock, Files};
use std::str;

// What the lines of a poll's end and of a lost bus line have.
const END: &str = "\"event\":\"end\"";

const LOST: &str = "\"event\":\"lost\",\"line\":";

// What the line of the primary addresses on a bus line has before the number of that, and after it.
const ADDRESSES: &str = "\"event\":\"addresses\",\"line\":";

const ODD: &str = ",\"answers_for_others\":";

const NAMED: char = '"';

const METERS: &str = ",\"meters\":{";

const LAST: &str = "}}";

// No meter answers for others, and no address is known.
const NOTHING: &str = "null,\"meters\":{}}";

/// What the journal says of a bus line and its meters before a poll.
#[derive(Drop)]
pub struct Before {
    /// Number of its registered meters.
    pub meters: u64,
    /// The meters that nobody answered for in the last poll.
    pub silent: Vec<Doubt>,
    /// How many telegrams those sent that were read.
    pub sent: Vec<Known>,
    /// The meters that are registered without a primary address, and from which address their telegrams come.
    pub selected: Vec<Addressed>,
    /// Whether a meter was named there that answers for others.
    pub is_odd: bool,
    // Who that is, and the addresses, as the last line has them.
    said: String,
}

/// Puts what happened into the journal of an image. It is opened for its first line: a file that is no image gets none.
#[derive(Drop)]
pub struct Noting<'h, 'i, R> {
    rt: &'h R,
    image: &'i str,
    journal: Option<Journal<'h, R>>,
    is_open: bool,
    /// The register, for the flats of readings. Commands need none of it.
    pub house: Option<House<Global>>,
    // What the journal says of the last poll.
    last: journal::Journal<Global>,
}

impl<'h, 'i, R: Files<File = File> + Clock + Eprint + AllocGlobal> Noting<'h, 'i, R> {
    /// The journal of the image with this register. Where it lacks the last command, since a run was ended between the
    /// commit and the line, it gets that first.
    pub fn new(host: &Host<'h, R>, image: &'i str, house: Option<House<Global>>) -> Self {
        let mut noting = Noting {
            rt: host.rt,
            image,
            journal: None,
            is_open: false,
            house,
            last: journal::Journal::none(host.rt.alloc()),
        };
        let now = noting.now();
        let mut line = Bytes::new(host.rt.alloc());
        let is_due = match &noting.house {
            Some(house) if house.last_number() > 0 => {
                put_command_note(&mut line, now, house.last_number(), house.last_line()).is_ok()
            }
            _ => false,
        };
        if is_due {
            noting.append(line.as_slice(), true);
        }
        noting
    }

    /// What the journal says of each of this many lines. Of the last poll: the meters that nobody answered for, none of
    /// a line that was lost then, or where meters aren't spared; and how many telegrams those sent that were read, of
    /// none where readouts don't begin anew. Where a meter was named that answers for others, the others are read by the
    /// addresses that are known. Of an image without a journal it says nothing.
    ///
    /// # Errors
    /// Out of memory.
    pub fn before(
        &mut self,
        lines: u8,
        spares: bool,
        recounts: bool,
    ) -> Result<Vec<Before>, NoMemory> {
        let (alloc, now) = (self.rt.alloc(), self.now());
        // It is open for the last command: an image without one has no meters.
        let journal = match &self.journal {
            Some(_) => journal_lines(self.rt, self.image)?,
            None => None,
        };
        let own = match (&journal, &self.house) {
            (Some(lines), Some(house)) => own_lines(lines.as_slice(), house.next_serial()),
            _ => b"".as_slice(),
        };
        // The lines of the last poll that came to its end.
        let own = str::from_utf8(own).unwrap_or_default();
        let begun = own.rsplit_once(END).map_or("", |(begun, _)| begun);
        let poll = begun.rsplit_once(END).map_or(begun, |(_, poll)| poll);
        self.last = journal::read_journal(alloc, poll.as_bytes(), now)?;
        let mut before = Vec::new(alloc);
        for line in 1..=lines {
            let was_lost = poll.contains(format!(in alloc; "{LOST}{line}")?.as_str());
            let said = said_of(alloc, own, line)?;
            before.push(self.before_on(line, spares && !was_lost, recounts, said)?)?;
        }
        Ok(before)
    }

    // What it says of the meters of a line.
    fn before_on(
        &self,
        line: u8,
        spares: bool,
        recounts: bool,
        said: &str,
    ) -> Result<Before, NoMemory> {
        let alloc = self.rt.alloc();
        let mut before = Before {
            meters: 0,
            silent: Vec::new(alloc),
            sent: Vec::new(alloc),
            selected: self.selected_on(line, said)?,
            is_odd: said.starts_with(NAMED),
            said: String::from_str(alloc, said)?,
        };
        let Some(house) = &self.house else {
            return Ok(before);
        };
        for (meter, row) in house.meters() {
            if row.line() != line {
                continue;
            }
            before.meters = before.meters.saturating_add(1);
            let count = self.last.bodies_of(meter).len();
            if recounts && count != 0 {
                before.sent.push(Known {
                    meter: meter.wire(),
                    telegrams: u8::try_from(count).unwrap_or(u8::MAX),
                    is_doubted: false,
                })?;
            }
            if spares
                && let Some(failing) = self.last.of(meter).failing
                && failing.number == Why::NoAnswer.number()
            {
                before.silent.push(Doubt::of(meter, row.address()))?;
            }
        }
        Ok(before)
    }

    // The meters that are registered without a primary address, with what its last line says of them.
    fn selected_on(&self, line: u8, said: &str) -> Result<Vec<Addressed>, NoMemory> {
        let alloc = self.rt.alloc();
        let mut selected = Vec::new(alloc);
        let Some(house) = &self.house else {
            return Ok(selected);
        };
        for (meter, row) in house.meters() {
            if row.line() != line || row.address().is_some() {
                continue;
            }
            let text = meter.text();
            let name = str::from_utf8(&text).unwrap_or_default();
            let name = format!(in alloc; "\"{name}\":")?;
            let after = said
                .split_once(name.as_str())
                .map_or("", |(_, after)| after);
            let end = after.find(|it: char| !it.is_ascii_digit());
            let number = after.get(..end.unwrap_or_default()).unwrap_or_default();
            let known = Primary::new(number.parse::<u8>().unwrap_or_default());
            selected.push(Addressed {
                meter: *meter,
                known,
                asked: if said.starts_with(NAMED) { known } else { None },
            })?;
        }
        Ok(selected)
    }

    /// Puts a line for each bus line into the journal: the meter that answers there for others, and the primary addresses
    /// of the telegrams of those that are registered without one, where these are known to belong to one meter. What the
    /// journal says already isn't put there again. Without memory less is put.
    pub fn note_addresses(&mut self, before: &[Before], odd: &[Option<Identity>]) {
        let (alloc, now) = (self.rt.alloc(), self.now());
        let mut line = 0u8;
        for (before, odd) in before.iter().zip(odd) {
            line = line.saturating_add(1);
            let (mut said, mut text) = (Bytes::new(alloc), Bytes::new(alloc));
            if self.put_addresses(&mut said, line, before, odd).is_ok()
                && said.as_slice() != before.said.as_bytes()
                && put_pieces(&mut text, &addresses_line(now, line, said.as_slice())).is_ok()
            {
                self.append(text.as_slice(), false);
            }
        }
    }

    // Writes what the journal's line has after the number of a bus line.
    fn put_addresses(
        &self,
        out: &mut Bytes<Global>,
        line: u8,
        before: &Before,
        odd: &Option<Identity>,
    ) -> Result<(), IoFault> {
        if let Some(meter) = odd {
            // Beside such a meter a telegram may be that of two.
            let addresses = before.said.as_str().split_once(METERS);
            let addresses = addresses.map_or(LAST, |(_, addresses)| addresses);
            out.put(b"\"")?;
            out.put(&meter.text())?;
            out.put(b"\"")?;
            out.put(METERS.as_bytes())?;
            return out.put(addresses.as_bytes());
        }
        out.put(b"null")?;
        out.put(METERS.as_bytes())?;
        for it in &before.selected {
            if let Some(address) = it.known
                && self.is_of_one(line, before, address)
            {
                put_address(out, &it.meter, address)?;
            }
        }
        out.put(LAST.as_bytes())
    }

    // Whether this address on a bus line is known to belong to one meter.
    fn is_of_one(&self, line: u8, before: &Before, address: Primary) -> bool {
        let selected = before.selected.iter();
        let known = selected.filter(|it| it.known == Some(address)).count();
        let mut rows = self.house.iter().flat_map(|house| house.meters());
        known == 1 && !rows.any(|(_, row)| row.line() == line && row.address() == Some(address))
    }

    // Says on standard error where a meter, which sends a fixed number of telegrams, sent another one than in the last
    // poll.
    fn tell_telegrams(&self, event: &Event<'_>) {
        let Event::Read { meter, bodies, .. } = event else {
            return;
        };
        let (count, before) = (bodies.len(), self.last.bodies_of(meter).len());
        if before != 0 && before != count {
            let text = meter.text();
            let name = str::from_utf8(&text).unwrap_or_default();
            let _ = eprint!(self.rt;
                "mbdc: parts: {name}: telegrams {count}, in the last poll {before}\n"
            );
        }
    }

    // The flat of the meter of an event, where it is registered.
    fn flat_of(&self, event: &Event<'_>) -> Option<Flat> {
        let (Event::Read { meter, .. }
        | Event::Failed { meter, .. }
        | Event::Refused { meter, .. }) = event
        else {
            return None;
        };
        let house = self.house.as_ref()?;
        Some(house.meter(meter)?.flat())
    }

    // Appends a line, or only one that isn't there.
    fn append(&mut self, line: &[u8], is_new: bool) {
        if !self.is_open {
            self.journal = Journal::open(self.rt, self.image);
            self.is_open = true;
        }
        if let Some(journal) = &mut self.journal
            && (!is_new || matches!(journal.has(self.image, line), Ok(false)))
        {
            journal.append(line);
        }
    }

    // The second since 1970, and 0 where the clock has none: the line tells more than its moment.
    fn now(&self) -> u64 {
        match moment(self.rt) {
            Some(now) => now.seconds,
            None => 0,
        }
    }
}

// What the last line of the addresses on a bus line has after the number of that. One that is torn says nothing.
fn said_of<'s>(alloc: Global, own: &'s str, line: u8) -> Result<&'s str, NoMemory> {
    let head = format!(in alloc; "{ADDRESSES}{line}{ODD}")?;
    let said = own
        .rsplit_once(head.as_str())
        .map_or("", |(_, after)| after);
    let said = said.split_once('\n').map_or(said, |(said, _)| said);
    Ok(if said.ends_with(LAST) { said } else { NOTHING })
}

// The journal's line of the addresses on a bus line.
fn addresses_line(now: u64, line: u8, said: &[u8]) -> [Piece<'_>; 8] {
    [
        Piece::Text(b"{\"at\":"),
        Piece::Number(now),
        Piece::Text(b","),
        Piece::Text(ADDRESSES.as_bytes()),
        Piece::Number(u64::from(line)),
        Piece::Text(ODD.as_bytes()),
        Piece::Text(said),
        Piece::Text(b"\n"),
    ]
}

// Writes a meter and its address into an object, after a comma where it isn't the first.
fn put_address(out: &mut Bytes<Global>, meter: &Identity, address: Primary) -> Result<(), IoFault> {
    let before: &[u8] = if out.as_slice().ends_with(b"{") {
        b"\""
    } else {
        b",\""
    };
    put_pieces(
        out,
        &[
            Piece::Text(before),
            Piece::Text(&meter.text()),
            Piece::Text(b"\":"),
            Piece::Number(u64::from(address.get())),
        ],
    )
}

impl<R: Files<File = File> + Clock + Eprint + AllocGlobal> Notes for Noting<'_, '_, R> {
    fn note(&mut self, event: &Event<'_>) {
        let alloc = self.rt.alloc();
        self.tell_telegrams(event);
        let flat = self.flat_of(event);
        let flat = match &flat {
            Some(flat) => flat.as_slice(),
            None => b"".as_slice(),
        };
        let mut object = Bytes::new(alloc);
        let mut line = Bytes::new(alloc);
        if put_object(&mut object, event).is_ok()
            && put_note(&mut line, self.now(), flat, object.as_slice()).is_ok()
        {
            self.append(line.as_slice(), false);
        }
    }
}

impl<R: Files<File = File> + Clock + Eprint + AllocGlobal> CommandNotes for Noting<'_, '_, R> {
    fn note(&mut self, done: &Numbered) {
        let command = done.command.line(done.number);
        let mut line = Bytes::new(self.rt.alloc());
        if put_command_note(&mut line, self.now(), done.number, command.as_slice()).is_ok() {
            self.append(line.as_slice(), false);
        }
    }
}
