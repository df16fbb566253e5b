//! The last part of a reading.

ghost use Rattle.std.specs.Prelude.{◌≡◌, Ok};
ghost use Rattle.dc_records.specs.Telegram.{parsed, telegram_at};
ghost use Rattle.mbdc_change.specs.Valid.{IsPart};

use dc_meters::Part;
use dc_records::Telegram;
use std::alloc::Allocator;
use std::marker::Model;

/// The last part of a reading: the body of its last telegram and the time stamp, as the register
/// holds them.
#[derive(Drop)]
pub struct LastPart<'a> {
    moment: u64,
    body: &'a [u8],
}

impl<'a> Model for LastPart<'a> {
    ghost use Rattle.mbdc_change.specs.State.{PartRow};
    ghost use Rattle.mbdc_change.specs.Valid.{IsPart};

    ghost Value = { PartRow };

    ghost view = { λ p. record { moment = p.moment; body = p.body.now } };

    ghost invariant = { λ p. IsPart (record { moment = p.moment; body = p.body.now }) };
}

impl<'a> LastPart<'a> {
    /// This part of a reading.
    pub fn of<A: Allocator>(part: &'a Part<A>) -> LastPart<'a>
        ensures { result ≡ part.now }
    {
        LastPart {
            moment: part.moment(),
            body: part.body(),
        }
    }

    /// The time stamp of the telegram, in seconds since 1970.
    pub fn moment(&self) -> u64
        ensures moment { result ≡ self.now.moment }
        ensures is_part { IsPart self.now }
    {
        self.moment
    }

    /// The telegram that the body spells.
    pub fn telegram(&self) -> Telegram<'a>
        ensures { telegram_at self.now.body ≡ Ok (parsed result) }
    {
        match Telegram::parse(self.body) {
            Ok(telegram) => telegram,
            Err(_) => unreachable!(),
        }
    }
}
