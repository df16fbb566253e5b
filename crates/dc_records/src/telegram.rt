//! A telegram's body.

ghost use Rattle.std.specs.Prelude.{◌≡◌, ℕ, ◌≤◌, Ok, length, drop};
ghost use Rattle.dc_records.specs.Header.{BeginsWithHeader, security_mode};
ghost use Rattle.dc_records.specs.Body.{content_at, end_in};
ghost use Rattle.dc_records.specs.Seen.{ending};

use crate::end::End;
use crate::fault::BodyFault;
use crate::header::{HEADER_LEN, Header};
use crate::records::{Records, end_of};

/// A telegram's body that was read: the variable data structure that follows CI 72 (EN 13757-3). It borrows the
/// bytes, and a copy shows the same telegram.
#[derive(Clone, Copy)]
pub struct Telegram<'a> {
    body: &'a [u8],
    header: Header,
    end: End<'a>,
    ghost headed: { BeginsWithHeader body.now header },
    ghost unencrypted: { security_mode header ≡ 0 },
    ghost whole: { end_in (content_at (drop 12 body.now)) ≡ Ok (ending «end») },
}

impl<'a> Telegram<'a> {
    ghost use Rattle.std.specs.Prelude.{◌<◌, ◌^◌, IfOk, IfErr, IsOkAnd, Ok, Err};
    ghost use Rattle.dc_records.specs.Reading.{Gives};
    ghost use Rattle.dc_records.specs.Header.{header_at};
    ghost use Rattle.dc_records.specs.Body.{continues};
    ghost use Rattle.dc_records.specs.Telegram.{Parsed, parsed, IsTelegram, HasFault, telegram_at};
    ghost use Rattle.dc_records.specs.declared.fault.BodyFault.{BodyFault};

    /// Reads a body to its end.
    pub fn parse(body: &'a [u8]) -> Result<Telegram<'a>, BodyFault>
        // What is read is a telegram, and each telegram is read.
        ensures found { IfOk result (λ t. IsTelegram body.now (parsed t)) }
        ensures only { (t : Parsed) → IsTelegram body.now t → IsOkAnd result (λ x. parsed x ≡ t) }

        // The fault is the one that the body has, and one that it has is answered.
        ensures refused { IfErr result (HasFault body.now) }
        ensures fault { (f : BodyFault) → HasFault body.now f → result ≡ Err f }

        ensures exact { Gives parsed result (telegram_at body.now) }
    {
        Telegram::parse_exact(body)
    }

    // The same by the reading function alone, from which `parse` draws its clauses.
    #[tactic(auto, unfolding(crate::specs::Telegram::telegram_at, crate::specs::Telegram::parsed))]
    fn parse_exact(body: &'a [u8]) -> Result<Telegram<'a>, BodyFault>
        ensures { Gives parsed result (telegram_at body.now) }
    {
        let header = Header::read(body)?;
        if header.security_mode() != 0 {
            return Err(BodyFault::Encrypted);
        }
        let (_, content) = body.split_at(HEADER_LEN);
        let end = end_of(content)?;
        Ok(Telegram { body, header, end })
    }

    /// The body, as it was passed to [`Telegram::parse`].
    #[tactic(auto, unfolding(crate::specs::Telegram::parsed), using(crate::proofs::Spellings::Telegrams::parsed_again))]
    pub fn body(&self) -> &'a [u8]
        ensures value { result.now ≡ (parsed self.now).body }
        // So whoever is handed a telegram knows that it is one.
        ensures telegram { telegram_at (parsed self.now).body ≡ Ok (parsed self.now) }
    {
        self.body
    }

    /// The header, as [`Header::read`] reads it.
    #[tactic(auto, unfolding(crate::specs::Telegram::parsed))]
    pub fn header(&self) -> Header
        ensures value { result ≡ (parsed self.now).header }
        ensures agrees { header_at (parsed self.now).body ≡ Ok result }
    {
        self.header
    }

    /// The records, in the order in which they were sent.
    #[tactic(auto, unfolding(crate::specs::Telegram::parsed))]
    pub fn records(&self) -> Records<'a>
        ensures list { result ≡ (parsed self.now).records }
        // So that a count of them fits.
        ensures few { length (parsed self.now).records < 2 ^ 63 }
    {
        let (_, content) = self.body.split_at(HEADER_LEN);
        Records::new(content)
    }

    /// How the body ends.
    #[tactic(auto, unfolding(crate::specs::Telegram::parsed))]
    pub fn end(&self) -> End<'a>
        ensures { ending result ≡ (parsed self.now).ending }
    {
        self.end
    }

    /// Whether the body says that more records follow in the next telegram.
    #[tactic(auto, unfolding(crate::specs::Telegram::parsed))]
    pub fn more_follows(&self) -> bool
        ensures { result ≡ continues (parsed self.now).ending }
    {
        matches!(self.end, End::More(_))
    }
}
