//! A part of a readout.

ghost use Rattle.std.specs.Prelude.{◌≡◌, ◌*◌, ◌≤◌, length, IfOk};
ghost use Rattle.dc_records.specs.Telegram.{parsed, telegram_at};
ghost use Rattle.mbdc_change.specs.State.{PartRow};
ghost use Rattle.mbdc_change.specs.Size.{part_size, parts_size};
ghost use Rattle.mbdc_change.specs.Valid.{IsPart};
ghost use Rattle.mbdc_change.specs.Fields.{most_parts};

use dc_records::Telegram;
use mbdc_io::NoMemory;
use std::alloc::Allocator;
use std::marker::Model;

/// A part of a readout: one telegram's body, and its time stamp.
#[derive(Drop)]
pub struct Part<A: Allocator> {
    moment: u64,
    body: Vec<u8, A>,
}

impl<A: Allocator> Model for Part<A> {
    ghost use Rattle.mbdc_change.specs.State.{PartRow};
    ghost use Rattle.mbdc_change.specs.Valid.{IsPart};

    ghost Value = { PartRow };

    ghost view = { λ p. record { moment = p.moment; body = p.body.items } };

    ghost invariant = { λ p. IsPart (record { moment = p.moment; body = p.body.items }) };
}

impl<A: Allocator> Part<A> {
    pub(crate) fn new(alloc: A, moment: u64, body: &[u8]) -> Result<Part<A>, NoMemory>
        requires { IsPart (record { moment = moment; body = body.now }) }
        ensures { IfOk result (λ part. part ≡ record { moment = moment; body = body.now }) }
    {
        Ok(Part {
            moment,
            body: Vec::from_slice(alloc, body)?,
        })
    }

    /// The time stamp of the telegram, in seconds since 1970.
    pub fn moment(&self) -> u64
        ensures moment { result ≡ self.now.moment }
        ensures is_part { IsPart self.now }
    {
        self.moment
    }

    /// The body's bytes.
    pub fn body(&self) -> &[u8]
        ensures body { result.now ≡ self.now.body }
        ensures is_part { IsPart self.now }
    {
        &self.body
    }

    /// The telegram that the body spells.
    pub fn telegram(&self) -> Telegram<'_>
        ensures { telegram_at self.now.body ≡ Ok (parsed result) }
    {
        match Telegram::parse(&self.body) {
            Ok(telegram) => telegram,
            Err(_) => unreachable!(),
        }
    }

    pub(crate) fn size(&self) -> u32
        ensures size { result ≡ part_size self.now }
        ensures bound { result ≤ 261 }
    {
        9 + self.body.len() as u32
    }
}

/// The size of these parts.
pub(crate) fn parts_size<A: Allocator>(parts: &[Part<A>]) -> u32
    requires { length parts.now ≤ most_parts }
    ensures size { result ≡ parts_size parts.now }
    ensures bound { result ≤ 261 * length parts.now }
{
    let mut size = 0;
    for part in parts {
        size += part.size();
    }
    size
}
