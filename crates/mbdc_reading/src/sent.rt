//! The records of a body with the length bytes of their data.

ghost use Rattle.std.specs.Prelude.{◌≡◌, [], drop, Err, MatchResult};
ghost use Rattle.dc_records.specs.Reading.{Gives};
ghost use Rattle.dc_records.specs.Record.{view};
ghost use Rattle.dc_records.specs.Seen.{ending, front};
ghost use Rattle.mbdc_reading.specs.Sent.{SentBy, end_at, length_byte, read_at, sent_at};

use crate::front::wide_front;
use crate::names::byte_at;
use dc_records::{BodyFault, End, Front, Record};
use std::marker::Model;

// How many bytes a header has (EN 13757-3, long data header).
const HEADER_LEN: usize = 12;

/// A record, and the length byte of data field D (0 for other fields).
#[derive(Clone, Copy)]
pub struct Sent<'a> {
    pub record: Record<'a>,
    pub len: u8,
}

// The length byte of a record at the front of bytes, before this rest.
fn length_byte(bytes: &[u8], record: &Record<'_>, rest: &[u8]) -> u8
    ensures { result ≡ length_byte bytes.now (view «record».now) rest.now }
{
    if record.field != 0xD {
        return 0;
    }
    let place = bytes
        .len()
        .saturating_sub(rest.len())
        .saturating_sub(record.content.len())
        .saturating_sub(1);
    byte_at(bytes, place)
}

// What stands at the front, with what it says of all that is sent.
fn sent_front(bytes: &[u8]) -> Result<Front<'_>, BodyFault>
    ensures { MatchResult result (λ f. SentBy bytes.now (front f))
        (λ f. read_at bytes.now ≡ ([], Err f)) }
{
    wide_front(bytes)
}

/// How the records of bytes after a header end, or their first fault.
pub fn end_of(bytes: &[u8]) -> Result<End<'_>, BodyFault>
    ensures { Gives ending result (end_at bytes.now) }
{
    let mut left = bytes;
    'fronts: loop {
        match sent_front(left)? {
            Front::End(end) => return Ok(end),
            Front::Filler(rest) | Front::Record(_, rest) => left = rest,
        }
    }
}

/// The records of bytes after a header up to their end or first fault, in the order in which they were sent, those
/// whose VIF is FC too. Contracts see the list of the records that are still to come.
#[derive(Drop)]
pub struct SentRecords<'a> {
    left: &'a [u8],
}

impl<'a> Model for SentRecords<'a> {
    ghost use Rattle.std.specs.Prelude.{List};
    ghost use Rattle.mbdc_reading.specs.Sent.{Sent, sent_at};

    ghost Value = { List Sent };

    ghost view = { λ r. sent_at r.left.now };
}

impl<'a> SentRecords<'a> {
    /// The records of these bytes.
    pub fn new(left: &'a [u8]) -> Self
        ensures { result ≡ sent_at left.now }
    {
        SentRecords { left }
    }

    /// The records of a telegram's body.
    #[tactic(auto, using(std::proofs::lemmas::List::drop_min))]
    pub fn of_body(body: &'a [u8]) -> Self
        ensures { result ≡ sent_at (drop 12 body.now) }
    {
        let (_, left) = body.split_at(HEADER_LEN.min(body.len()));
        SentRecords::new(left)
    }
}

impl<'a> Iterator for SentRecords<'a> {
    ghost use Rattle.std.specs.Iterator.{YieldsFirstBy, item_count};
    ghost use Rattle.mbdc_reading.specs.Sent.{sent_view};

    type Item = Sent<'a>;

    ghost next_gives = { YieldsFirstBy sent_view (λ r. r) };

    ghost remaining = { item_count (λ r. r) };

    fn next(&mut self) -> Option<Sent<'a>> {
        'fronts: loop {
            match sent_front(self.left) {
                Ok(Front::Filler(rest)) => self.left = rest,
                Ok(Front::Record(record, rest)) => {
                    let len = length_byte(self.left, &record, rest);
                    self.left = rest;
                    return Some(Sent { record, len });
                }
                Ok(Front::End(_)) | Err(_) => return None,
            }
        }
    }
}
