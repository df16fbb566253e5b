//! The structures of bodies.

ghost use Rattle.std.specs.Prelude.{◌≡◌, drop, option_map};
ghost use Rattle.mbdc_reading.specs.Content.{content_of, content_view, head_in, long_header, no_header};
ghost use Rattle.mbdc_reading.specs.Content.{refused_by, short_header, structure_name, variable_view};

use crate::content::fixed::FixedData;
use crate::content::security::Security;
use crate::{SentRecords, end_of};
use dc_address::Identity;
use dc_records::{BodyFault, End, Header};

// How many bytes an identity has, and how many a long and a short header.
const IDENTITY_LEN: usize = 8;

const LONG_LEN: usize = 12;

const SHORT_LEN: usize = 4;

/// A variable data structure by its header (EN 13757-3).
#[derive(Clone, Copy)]
pub enum Structure {
    LongHeader,
    ShortHeader,
    NoHeader,
}

impl Structure {
    /// Its name.
    pub fn name(&self) -> &'static str
        ensures { result.now ≡ structure_name self.now }
    {
        match self {
            Structure::LongHeader => "long header",
            Structure::ShortHeader => "short header",
            Structure::NoHeader => "no header",
        }
    }
}

/// What both headers have: the access number, the status byte and the configuration.
#[derive(Clone, Copy)]
pub struct Head {
    pub access: u8,
    pub status: u8,
    pub config: u16,
}

/// A variable data structure: its meter and its header where they are whole, and the bytes after the header, or why
/// they aren't read.
#[derive(Clone, Copy)]
pub struct Variable<'a> {
    pub structure: Structure,
    pub meter: Option<Identity>,
    pub head: Option<Head>,
    pub after: &'a [u8],
    pub refused: Option<BodyFault>,
}

impl<'a> Variable<'a> {
    ghost use Rattle.dc_records.specs.Reading.{Gives};
    ghost use Rattle.dc_records.specs.Seen.{ending};
    ghost use Rattle.mbdc_reading.specs.Content.{sents_of, end_of};

    /// The records up to the end or the first fault.
    #[tactic(auto, using(crate::proofs::Register::none_sent))]
    pub fn records(&self) -> SentRecords<'a>
        ensures { result ≡ sents_of (variable_view self.now) }
    {
        match self.refused {
            None => SentRecords::new(self.after),
            Some(_) => SentRecords::new(&[]),
        }
    }

    /// How the body ends, or its first fault.
    pub fn end(&self) -> Result<End<'a>, BodyFault>
        ensures { Gives ending result (end_of (variable_view self.now)) }
    {
        match self.refused {
            None => end_of(self.after),
            Some(fault) => Err(fault),
        }
    }
}

/// What a body says: variable data, or fixed data where there are enough bytes.
#[derive(Clone, Copy)]
pub enum Content<'a> {
    Variable(Variable<'a>),
    Fixed(Option<FixedData<'a>>),
}

// The access number, the status and the configuration at the front.
fn head_in(bytes: &[u8]) -> Option<Head>
    ensures { result ≡ head_in bytes.now }
{
    match bytes {
        [access, status, low, high, ..] => Some(Head {
            access: *access,
            status: *status,
            config: u16::from(*low) + 256 * u16::from(*high),
        }),
        _ => None,
    }
}

// The fault of a header whose configuration is this: that of another security mode than 0.
fn refused_by(config: u16) -> Option<BodyFault>
    ensures { result ≡ refused_by config }
{
    if Security::of(config).mode == 0 {
        return None;
    }
    Some(BodyFault::Encrypted)
}

// The bytes after the first ones.
#[tactic(auto, using(std::proofs::lemmas::List::drop_min))]
fn after(len: usize, bytes: &[u8]) -> &[u8]
    ensures { result.now ≡ drop len bytes.now }
{
    let (_, after) = bytes.split_at(len.min(bytes.len()));
    after
}

// A body with a long header.
fn long_header(body: &[u8]) -> Variable<'_>
    ensures { variable_view result ≡ long_header body.now }
{
    let (meter, refused) = match Header::read(body) {
        Ok(header) => (Some(header.identity), refused_by(header.config)),
        Err(fault) => (None, Some(fault)),
    };
    Variable {
        structure: Structure::LongHeader,
        meter,
        head: head_in(after(IDENTITY_LEN, body)),
        after: after(LONG_LEN, body),
        refused,
    }
}

// A body with a short header.
fn short_header(body: &[u8]) -> Variable<'_>
    ensures { variable_view result ≡ short_header body.now }
{
    let head = head_in(body);
    let refused = match head {
        Some(head) => refused_by(head.config),
        None => Some(BodyFault::Short),
    };
    Variable {
        structure: Structure::ShortHeader,
        meter: None,
        head,
        after: after(SHORT_LEN, body),
        refused,
    }
}

// A body without a header.
fn no_header(body: &[u8]) -> Variable<'_>
    ensures { variable_view result ≡ no_header body.now }
{
    Variable {
        structure: Structure::NoHeader,
        meter: None,
        head: None,
        after: body,
        refused: None,
    }
}

/// What the body of a long frame with this CI field says: variable data after 72, 7A and 78, fixed data after 73.
#[tactic(auto, unfolding(crate::specs::Content::content_of))]
pub fn content_of(ci: u8, body: &[u8]) -> Option<Content<'_>>
    ensures { option_map content_view result ≡ content_of ci body.now }
{
    match ci {
        0x72 => Some(Content::Variable(long_header(body))),
        0x73 => Some(Content::Fixed(FixedData::at(body))),
        0x78 => Some(Content::Variable(no_header(body))),
        0x7A => Some(Content::Variable(short_header(body))),
        _ => None,
    }
}
