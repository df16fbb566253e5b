//! The lines of a journal.

ghost use Rattle.std.specs.Prelude.{◌≡◌, ◌<◌, ℕ, List, None, Some, IfOk, IfSome, MatchOption, option_map};
ghost use Rattle.std.specs.Fmt.{decimal};
ghost use Rattle.dc_address.specs.Text.{text_of};
ghost use Rattle.dc_address.specs.declared.identity.Identity.{Identity as Meter};
ghost use Rattle.mbdc_change.specs.Fields.{IsOfBytes, end_of_numbers};
ghost use Rattle.mbdc_json.specs.Entry.{HasFailure, HasNumber, HasReading, IsEntry, IsFailedIn, IsLine};
ghost use Rattle.mbdc_json.specs.Entry.{IsReadIn, IsSaid, NamesMeter, text_in};
ghost use Rattle.mbdc_json.specs.Journal.{IsKept, entry_in};
ghost use Rattle.json.specs.Json.{document};
ghost use Rattle.mbdc_json.specs.declared.journal.entry.Entry.{Entry as Noted};
ghost use Rattle.mbdc_json.specs.declared.journal.entry.Said.{Said as Event};
ghost use Rattle.json.specs.Value.{value_view};

use crate::journal::kept::Kept;
use dc_address::Identity;
use json::{Error, Scratch, Value};
use mbdc_change::parse_number;
use mbdc_io::NoMemory;
use std::alloc::Allocator;

/// What a line says of a meter.
#[derive(Clone, Copy)]
pub enum Said {
    /// It was read.
    Read {
        /// The serial of its reading.
        serial: u64,
        /// The time stamp of its last telegram, in seconds since 1970.
        moment: u64,
        /// The status byte of that telegram.
        status: u8,
    },
    /// Its readout failed.
    Failed {
        /// When the line was written, in seconds since 1970.
        at: u64,
        /// The number of the fault.
        number: u8,
    },
}

/// A line of a meter.
#[derive(Clone, Copy)]
pub struct Entry {
    /// The meter.
    pub meter: Identity,
    /// What is said of it.
    pub said: Said,
}

/// A line of a meter, and what is kept of it.
#[derive(Drop)]
pub struct Line<A: Allocator> {
    /// What it says.
    pub entry: Entry,
    /// The bodies of the reading, if it is of one.
    pub bodies: Option<Kept<A>>,
}

/// Reads a line, given without its line feed: the entry that it is, if it is one, and what is kept of it.
pub fn read_line<A: Allocator + Copy>(
    alloc: A,
    line: &[u8],
    scratch: &mut Scratch<A>,
) -> Result<Option<Line<A>>, NoMemory>
    ensures line { IfOk result (λ found. IsLine line.now (entry_in found)) }
    ensures kept { IfOk result (IsKept (document line.now)) }
{
    match Value::from_slice(alloc, line, scratch) {
        Ok(json) => line_of(alloc, &json),
        Err(Error::OutOfMemory) => Err(NoMemory),
        Err(_) => Ok(None),
    }
}

// A line that is this object.
fn line_of<A: Allocator + Copy>(alloc: A, json: &Value<'_, A>) -> Result<Option<Line<A>>, NoMemory>
    ensures found { IfOk result (λ found. IfSome found (λ l.
        IsEntry (value_view json.now) l.entry)) }
    ensures only { IfOk result (λ found. (entry : Noted) → IsEntry (value_view json.now) entry
        → entry_in found ≡ Some entry) }
    ensures kept { IfOk result (IsKept (Some (value_view json.now))) }
{
    let Some(entry) = entry_of(json) else {
        return Ok(None);
    };
    let bodies = match entry.said {
        Said::Read { .. } => Some(Kept::of(alloc, json)?),
        Said::Failed { .. } => None,
    };
    Ok(Some(Line { entry, bodies }))
}

// The entry that an object is.
fn entry_of<A: Allocator>(json: &Value<'_, A>) -> Option<Entry>
    ensures found { IfSome result (λ entry. IsEntry (value_view json.now) entry) }
    ensures only { (entry : Noted) → IsEntry (value_view json.now) entry → result ≡ Some entry }
{
    let meter = Identity::parse_text(text_in(json, "meter")?.as_bytes()).ok()?;
    let said = said_in(json)?;
    Some(Entry { meter, said })
}

// What is said of the meter.
fn said_in<A: Allocator>(json: &Value<'_, A>) -> Option<Said>
    ensures found { IfSome result (λ said. IsSaid (value_view json.now) said) }
    ensures only { (said : Event) → IsSaid (value_view json.now) said → result ≡ Some said }
{
    match text_in(json, "event")? {
        "read" => read_in(json),
        "failed" => failed_in(json),
        _ => None,
    }
}

// A reading, by the members other than its event.
fn read_in<A: Allocator>(json: &Value<'_, A>) -> Option<Said>
    ensures found { IfSome result (λ said. IsReadIn (value_view json.now) said) }
    ensures only { (serial moment status : ℕ) → HasReading (value_view json.now) serial moment status
        → result ≡ Some (Said.Read serial moment status) }
{
    let serial = number_in(json, "serial")?;
    let moment = number_in(json, "moment")?;
    let status = byte_in(json.get("status")?, "code")?;
    Some(Said::Read {
        serial,
        moment,
        status,
    })
}

// A failed readout, by the members other than its event.
fn failed_in<A: Allocator>(json: &Value<'_, A>) -> Option<Said>
    ensures found { IfSome result (λ said. IsFailedIn (value_view json.now) said) }
    ensures only { (at number : ℕ) → HasFailure (value_view json.now) at number
        → result ≡ Some (Said.Failed at number) }
{
    let at = number_in(json, "at")?;
    let number = byte_in(json, "number")?;
    Some(Said::Failed { at, number })
}

// The text of a member.
fn text_in<'v, A: Allocator>(json: &Value<'v, A>, name: &str) -> Option<&'v str>
    ensures { option_map (λ text. text.now) result ≡ text_in name.now (value_view json.now) }
{
    json.get(name)?.as_str()
}

// The number of a member.
fn number_in<A: Allocator>(json: &Value<'_, A>, name: &str) -> Option<u64>
    ensures found { IfSome result (λ n.
        (n < end_of_numbers) × HasNumber name.now (value_view json.now) n) }
    ensures only { (n : ℕ) → n < end_of_numbers → HasNumber name.now (value_view json.now) n
        → result ≡ Some n }
{
    parse_number(json.get(name)?.as_number()?.as_bytes())
}

// The number of a member, below 256.
fn byte_in<A: Allocator>(json: &Value<'_, A>, name: &str) -> Option<u8>
    ensures found { IfSome result (λ n. HasNumber name.now (value_view json.now) n) }
    ensures only { (n : ℕ) → n < 256 → HasNumber name.now (value_view json.now) n
        → result ≡ Some n }
{
    match number_in(json, name)? {
        number @ 0..=255 => Some(number as u8),
        _ => None,
    }
}
