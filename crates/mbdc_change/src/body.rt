//! A telegram's body, as the register takes it.

ghost use Rattle.std.specs.Prelude.{◌≡◌, ◌≤◌, length, Some, IfSome, SomeIff};
ghost use Rattle.dc_records.specs.Telegram.{parsed};
ghost use Rattle.mbdc_change.specs.Body.{BodyRow, IsBody, body_of, longest_body};

use crate::LONGEST_BODY;
use dc_address::Identity;
use dc_records::Telegram;
use std::marker::Model;

/// A telegram's body of at most [`LONGEST_BODY`] bytes.
#[derive(Drop)]
pub struct Body<'a> {
    bytes: &'a [u8],
    meter: Identity,
    more: bool,
}

impl<'a> Model for Body<'a> {
    ghost use Rattle.mbdc_change.specs.Body.{BodyRow, IsBody};

    ghost Value = { BodyRow };

    ghost view = { λ b. record { bytes = b.bytes.now; meter = b.meter; more = b.more } };

    ghost invariant = { λ b. IsBody (record { bytes = b.bytes.now; meter = b.meter; more = b.more }) };
}

impl<'a> Body<'a> {
    /// The body of a parsed telegram; `None` if it has more than [`LONGEST_BODY`] bytes.
    pub fn of(telegram: &Telegram<'a>) -> Option<Body<'a>>
        ensures { SomeIff result (length (parsed telegram.now).body ≤ longest_body)
            (body_of (parsed telegram.now)) }
    {
        let bytes = telegram.body();
        if bytes.len() > LONGEST_BODY {
            return None;
        }
        Some(Body {
            bytes,
            meter: telegram.header().identity,
            more: telegram.more_follows(),
        })
    }

    /// Parses a body; `None` if the bytes are no telegram, or more than [`LONGEST_BODY`].
    pub fn parse(bytes: &'a [u8]) -> Option<Body<'a>>
        ensures found { IfSome result (λ body. (body.bytes ≡ bytes.now) × IsBody body) }
        ensures only { (body : BodyRow) → IsBody body → body.bytes ≡ bytes.now
            → result ≡ Some body }
    {
        let telegram = Telegram::parse(bytes).ok()?;
        Body::of(&telegram)
    }

    /// The bytes, as sent.
    pub fn as_slice(&self) -> &'a [u8]
        ensures bytes { result.now ≡ self.now.bytes }
        ensures is_body { IsBody self.now }
    {
        self.bytes
    }

    /// The meter that sent it: the identity in its header.
    pub fn meter(&self) -> Identity
        ensures { result ≡ self.now.meter }
    {
        self.meter
    }

    /// Whether more telegrams of the readout follow.
    pub fn more_follows(&self) -> bool
        ensures { result ≡ self.now.more }
    {
        self.more
    }
}
