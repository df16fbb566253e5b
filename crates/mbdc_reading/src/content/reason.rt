//! Why the register doesn't take what a body says.

ghost use Rattle.std.specs.Prelude.{◌≡◌, ◌+◌, ◌≤◌, ◌++◌, codes, drop, length};
ghost use Rattle.mbdc_reading.specs.Content.{content_view, fault_of, variable_view};
ghost use Rattle.mbdc_reading.specs.Reason.{encrypted_text, head_mode, mode_text, reason_of, reason_text};
ghost use Rattle.mbdc_reading.specs.Reason.{variable_reason};

use crate::content::content::{Content, Head, Structure, Variable};
use crate::content::security::{Security, security_name};
use dc_records::BodyFault;
use dc_units::{put_digits, put_piece};

/// The text of a reason has this many bytes at most.
pub const REASON_ROOM: usize = 128;

/// Why the register doesn't take what a body says.
#[derive(Clone, Copy)]
pub enum Reason {
    /// It is encrypted, in this security mode.
    Encrypted(u8),
    /// Fixed data.
    Fixed,
    /// Without a header.
    NoHeader,
    /// With a short header.
    ShortHeader,
    /// A telegram but for a unit in plain text with VIFEs.
    PlainText,
}

// The security mode of a header.
fn mode_of(head: Option<Head>) -> u8
    ensures { result ≡ head_mode head }
{
    match head {
        Some(head) => Security::of(head.config).mode,
        None => 0,
    }
}

// Why the register doesn't take variable data with this fault.
fn variable_reason(variable: &Variable<'_>, fault: Option<BodyFault>) -> Option<Reason>
    ensures { result ≡ variable_reason (variable_view variable.now) fault }
{
    if let Some(BodyFault::Encrypted) = fault {
        return Some(Reason::Encrypted(mode_of(variable.head)));
    }
    match variable.structure {
        Structure::NoHeader => Some(Reason::NoHeader),
        Structure::ShortHeader => Some(Reason::ShortHeader),
        Structure::LongHeader => match fault {
            None => Some(Reason::PlainText),
            Some(_) => None,
        },
    }
}

impl Content<'_> {
    /// The first fault.
    pub fn fault(&self) -> Option<BodyFault>
        ensures { result ≡ fault_of (content_view self.now) }
    {
        match self {
            Content::Variable(variable) => variable.end().err(),
            Content::Fixed(None) => Some(BodyFault::Short),
            Content::Fixed(Some(data)) => {
                if data.has_number() {
                    None
                } else {
                    Some(BodyFault::BadIdentity)
                }
            }
        }
    }

    /// Why the register doesn't take it, where that isn't its fault alone.
    pub fn reason(&self) -> Option<Reason>
        ensures { result ≡ reason_of (content_view self.now) }
    {
        match self {
            Content::Variable(variable) => variable_reason(variable, self.fault()),
            Content::Fixed(_) => Some(Reason::Fixed),
        }
    }
}

// Writes the number of a security mode just before `end`, and says where it begins.
#[tactic(auto, unfolding(crate::specs::Reason::mode_text))]
fn put_mode(mode: u8, room: &mut [u8], end: usize) -> usize
    requires { (2 ≤ end) × (end ≤ length room.old) }
    ensures start { (result ≤ end) × (end ≤ result + 2) }
    ensures written { drop result room.new ≡ mode_text mode ++ drop end room.old }
{
    if mode < 10 {
        put_digits(10, 1, u64::from(mode), room, end);
        return end - 1;
    }
    put_digits(10, 2, u64::from(mode), room, end);
    end - 2
}

// Writes the text for an encrypted body just before `end`, and says where it begins.
fn put_encrypted(mode: u8, room: &mut [u8], end: usize) -> usize
    requires { (100 ≤ end) × (end ≤ length room.old) }
    ensures start { result ≤ end }
    ensures written { drop result room.new ≡ encrypted_text mode ++ drop end room.old }
{
    let start = put_piece(b"): only mode 0 is read", room, end);
    let start = put_piece(security_name(mode).as_bytes(), room, start);
    let start = put_piece(b", ", room, start);
    let start = put_mode(mode, room, start);
    put_piece(b"encrypted (mode ", room, start)
}

impl Reason {
    /// Writes its text into a room, and returns it.
    pub fn text<'r>(&self, room: &'r mut [u8]) -> &'r [u8]
        requires { REASON_ROOM ≤ length room.old }
        ensures { result.now ≡ reason_text self.now }
    {
        let end = room.len();
        let start = match self {
            Reason::Encrypted(mode) => put_encrypted(*mode, room, end),
            Reason::Fixed => put_piece(b"fixed data (CI 73): not registered", room, end),
            Reason::NoHeader => put_piece(
                b"no header (CI 78): the telegram doesn't name its meter",
                room,
                end,
            ),
            Reason::ShortHeader => put_piece(
                b"short header (CI 7A): the telegram doesn't name its meter",
                room,
                end,
            ),
            Reason::PlainText => put_piece(
                b"a unit in plain text with VIFEs (VIF FC): not registered",
                room,
                end,
            ),
        };
        let (_, text) = room.split_at(start);
        text
    }
}
