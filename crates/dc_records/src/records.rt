//! The records of a body, and its end.

ghost use Rattle.std.specs.Prelude.{◌≡◌, ◌≤◌, length, IsOk};
ghost use Rattle.dc_records.specs.Body.{content_at, end_in, records_in};
ghost use Rattle.dc_records.specs.Seen.{ending};
ghost use Rattle.dc_records.specs.Reading.{Gives};

use crate::end::End;
use crate::fault::BodyFault;
use crate::front::{Front, front_of};
use crate::record::Record;
use std::marker::Model;

/// The end of what follows a header, where that is items and an end.
pub fn end_of(bytes: &[u8]) -> Result<End<'_>, BodyFault>
    ensures { Gives ending result (end_in (content_at bytes.now)) }
{
    let mut left = bytes;
    'fronts: loop {
        match front_of(left)? {
            Front::End(end) => return Ok(end),
            Front::Filler(rest) | Front::Record(_, rest) => left = rest,
        }
    }
}

/// The records of a body, in the order in which they were sent; fillers are left out. Contracts see the list of the
/// records that are still to come.
#[derive(Drop)]
pub struct Records<'a> {
    left: &'a [u8],
}

impl<'a> Model for Records<'a> {
    ghost use Rattle.std.specs.Prelude.{List, IsOk};
    ghost use Rattle.dc_records.specs.Record.{Entry};
    ghost use Rattle.dc_records.specs.Body.{content_at, records_in};

    ghost Value = { List Entry };

    ghost view = { λ r. records_in (content_at r.left.now) };

    ghost invariant = { λ r. IsOk (content_at r.left.now) };
}

impl<'a> Records<'a> {
    #[tactic(auto, using(crate::proofs::Spellings::Turns::fewer_records))]
    pub(crate) fn new(left: &'a [u8]) -> Self
        requires { IsOk (content_at left.now) }
        ensures list { result ≡ records_in (content_at left.now) }
        ensures few { length result ≤ length left.now }
    {
        Records { left }
    }
}

impl<'a> Iterator for Records<'a> {
    ghost use Rattle.std.specs.Iterator.{YieldsFirstBy, item_count};
    ghost use Rattle.dc_records.specs.Record.{view};

    type Item = Record<'a>;

    ghost next_gives = { YieldsFirstBy view (λ r. r) };

    ghost remaining = { item_count (λ r. r) };

    #[inline(always)]
    fn next(&mut self) -> Option<Record<'a>> {
        'fronts: loop {
            match front_of(self.left) {
                Ok(Front::Filler(rest)) => self.left = rest,
                Ok(Front::Record(found, rest)) => {
                    self.left = rest;
                    return Some(found);
                }
                Ok(Front::End(_)) | Err(_) => return None,
            }
        }
    }
}
