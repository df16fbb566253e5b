//! What a search finds as a list for `fit`, and as JSON Lines. Its text is in no contract.

ghost use Rattle.std.specs.Prelude.{◌≤◌, ◌+◌, List as Listed, ℕ, IfOk};
ghost use Rattle.std.specs.List.{range_with_len};
ghost use Rattle.mbdc_installer.specs.Command.{DoesUnseen};
ghost use Rattle.mbdc_installer.specs.Addresses.{AsksEach};
ghost use Rattle.mbdc_installer.specs.Scan.{Counts};
ghost use Rattle.mbdc_installer.specs.declared.bench.command.Work.{Work};

use crate::bench::command::{Done, Listing, Scan};
use crate::bench::ending::late_in;
use crate::bench::printer::Printer;
use crate::bench::progress::Progress;
use crate::course::one_if;
use crate::other::{Noting, Other, digits_of, put_other};
use crate::{Count, GREATEST, ScanFault, ask_address, judge, sender_at};
use dc_address::Identity;
use dc_records::names::medium_name;
use dc_search::{Search, Step};
use dc_units::{Point, TEXT_ROOM};
use mbdc_bus::{Bus, search_windows};
use mbdc_decode::put_point;
use mbdc_decode::tokens::{Piece, put_pieces};
use mbdc_ending::Ending;
use mbdc_io::{FixedSink, IoFault, Sink, put_byte, put_number};
use std::alloc::Global;
use std::rt::Clock;

const HEADER: &[u8] = b"meter,line,address,flat,medium,value\n";

// The longest line on standard error.
const ROOM: usize = 100;

// A list that is written.
#[derive(Drop)]
struct List<'l, 'h, W, R> {
    out: &'l mut W,
    listing: Listing,
    progress: &'l Progress<'h, R>,
}

/// Searches for meters, and lists them.
///
/// # Errors
/// A write failed, or out of memory.
pub(crate) fn list_over<R, B, W>(
    alloc: Global,
    scan: Scan,
    listing: Listing,
    bus: &mut B,
    out: &mut W,
    progress: &Progress<'_, R>,
) -> Result<Done, ScanFault>
where
    R: Clock + Eprint,
    B: Noting,
    W: Printer,
    ensures { DoesUnseen B.Bus (Work.Search scan) bus.old bus.new result }
{
    let mut list = List {
        out,
        listing,
        progress,
    };
    if let Listing::Csv(_) = list.listing {
        list.out.put(HEADER)?;
    }
    let done = match scan {
        Scan::Wildcards(budget) => {
            let Ok(search) = search_windows(alloc, budget, bus) else {
                return Err(ScanFault::NoMemory);
            };
            Done::Searched(list.put_search(&search)?)
        }
        Scan::Primary => Done::Asked(list.ask_each(1, GREATEST, bus)?),
    };
    for other in bus.others() {
        list.put_closed(other)?;
    }
    let late = late_in(bus, &done);
    if late != 0 {
        let late = Piece::Number(late);
        list.put_event(b"LATE ", b"late\",\"answers\":", late, b"}\n")?;
    }
    list.out.flush()?;
    Ok(done)
}

impl<W: Printer, R: Clock + Eprint> List<'_, '_, W, R> {
    // Writes what a search by wildcards found.
    fn put_search(&mut self, search: &Search<Global>) -> Result<Count, IoFault>
        ensures { IfOk result (λ count. Counts count search.now) }
    {
        for meter in search.found() {
            self.put_meter(meter, None)?;
        }
        for number in search.shared() {
            let number = eight_digits(*number);
            self.put_event(
                b"SHARED ",
                b"shared\",\"number\":\"",
                Piece::Text(&number),
                b"\"}\n",
            )?;
        }
        if let Step::Budget = search.next() {
            self.put_event(b"BUDGET", b"budget", Piece::Text(b""), b"\"}\n")?;
        }
        // A list has no line of its end.
        let selections = Piece::Number(u64::from(search.selections()));
        self.put_event(b"", b"end\",\"selections\":", selections, b"}\n")?;
        Ok(Count {
            meters: search.found().len(),
            shared: search.shared().len(),
        })
    }

    // Asks `count` primary addresses from the first one on. Returns at how many of them late bytes came.
    fn ask_each<B: Bus>(&mut self, first: u8, count: u8, bus: &mut B) -> Result<u64, IoFault>
        requires { first + count ≤ 251 }
        ensures { IfOk result (λ late. (text : Listed ℕ)
            × AsksEach B.asks_all (range_with_len first count) bus.old text late bus.new) }
    {
        if count == 0 {
            return Ok(0);
        }
        let asked = ask_address(bus, first);
        let (is_there, is_late) = judge(&asked);
        if is_there {
            match sender_at(first, &asked.telegram) {
                Some(meter) => self.put_meter(&meter, Some(first))?,
                // Somebody answers, but no meter alone.
                None => {
                    let address = Piece::Number(u64::from(first));
                    self.put_event(b"ADDRESS ", b"unread\",\"address\":", address, b"}\n")?;
                }
            }
        }
        let rest = self.ask_each(first + 1, count - 1, bus)?;
        Ok(one_if(is_late, rest))
    }

    // Writes a wildcard that was closed: an object; beside a list a line on standard error.
    fn put_closed(&mut self, other: &Other) -> Result<(), IoFault> {
        if let Listing::Csv(_) = self.listing {
            let mut text: FixedSink<ROOM> = FixedSink::new();
            text.put(b"mbdc: ")?;
            put_other(other, &mut text)?;
            self.progress.say(text.as_slice());
            return Ok(());
        }
        self.out.put(b"{\"event\":\"other\",\"mask\":\"")?;
        self.out.put(&digits_of(&other.wire))?;
        self.out.put(b"\",\"ci\":\"")?;
        put_byte(self.out, other.format.ci)?;
        let Some(number) = &other.format.number else {
            return self.out.put(b"\",\"number\":null}\n");
        };
        self.out.put(b"\",\"number\":\"")?;
        self.out.put(&digits_of(number))?;
        self.out.put(b"\"}\n")
    }

    // Writes a meter, found at its primary address or by wildcards, as a row or an object.
    fn put_meter(&mut self, meter: &Identity, address: Option<u8>) -> Result<(), IoFault> {
        let value = self.progress.value_of(meter);
        let Listing::Csv(line) = self.listing else {
            return put_found(self.out, meter, address, value);
        };
        self.out.put(&meter.text())?;
        self.out.put(b",")?;
        put_number(self.out, u64::from(line))?;
        self.out.put(b",")?;
        match address {
            Some(address) => put_number(self.out, u64::from(address))?,
            None => self.out.put(b"S")?,
        }
        self.out.put(b",,")?;
        self.out.put(medium_name(meter.kind).as_bytes())?;
        self.out.put(b",")?;
        if let Some(point) = value {
            put_point(&point, self.out)?;
        }
        self.out.put(b"\n")
    }

    // Writes what else was found: an object; beside a list a line of words on standard error.
    fn put_event<'p>(
        &mut self,
        words: &'p [u8],
        event: &'p [u8],
        number: Piece<'p>,
        end: &'p [u8],
    ) -> Result<(), IoFault> {
        let Listing::Csv(_) = self.listing else {
            let before = Piece::Text(b"{\"event\":\"");
            let row = [before, Piece::Text(event), number, Piece::Text(end)];
            return put_pieces(self.out, &row);
        };
        if words.is_empty() || self.progress.is_hushed.get() {
            return Ok(());
        }
        let mut text: FixedSink<ROOM> = FixedSink::new();
        let before = Piece::Text(b"mbdc: ");
        let row = [before, Piece::Text(words), number, Piece::Text(b"\n")];
        put_pieces(&mut text, &row)?;
        self.progress.say(text.as_slice());
        Ok(())
    }
}

// The eight digits of a number.
fn eight_digits(number: u32) -> [u8; 8] {
    let mut left = number;
    let mut digits = [b'0'; 8];
    for digit in digits.iter_mut().rev() {
        *digit = b'0' + (left % 10) as u8;
        left /= 10;
    }
    digits
}

// Writes the object of a meter.
fn put_found<W: Sink>(
    out: &mut W,
    meter: &Identity,
    address: Option<u8>,
    value: Option<Point>,
) -> Result<(), IoFault> {
    out.put(b"{\"event\":\"found\",\"meter\":\"")?;
    out.put(&meter.text())?;
    out.put(b"\",\"address\":")?;
    match address {
        Some(address) => put_number(out, u64::from(address))?,
        None => out.put(b"null")?,
    }
    out.put(b",\"medium\":\"")?;
    out.put(medium_name(meter.kind).as_bytes())?;
    let Some(point) = value else {
        return out.put(b"\",\"value\":null,\"unit\":null}\n");
    };
    let mut room = [0u8; TEXT_ROOM];
    out.put(b"\",\"value\":\"")?;
    out.put(point.value.write_into(&mut room))?;
    out.put(b"\",\"unit\":\"")?;
    out.put(point.quantity.unit().as_bytes())?;
    out.put(b"\"}\n")
}
