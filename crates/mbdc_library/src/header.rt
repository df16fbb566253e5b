//! The header of a body.

ghost use Rattle.std.specs.Prelude.{◌≡◌, None, Some};
ghost use Rattle.mbdc_reading.specs.Content as read;
ghost use Rattle.mbdc_reading.specs.Content.{content_of, variable_view};
ghost use Rattle.mbdc_library.specs.Header.{header_of, variable_header};
ghost use Rattle.mbdc_library.specs.Walk.{items_of, left};

use crate::results::{DONE, NO_CI, OTHER};
use dc_units::digits_after;
use mbdc_reading::content::{Content, Security, Structure, Variable, content_of};

// Where the records of each structure begin (EN 13757-3).
const AFTER_LONG: u64 = 12;

const AFTER_SHORT: u64 = 4;

const AFTER_FIXED: u64 = 8;

/// What stands before the records of a body (EN 13757-3), as C lays it out.
#[derive(Clone, Copy)]
#[repr(C)]
pub struct PlainHeader {
    /// 1 where it names its meter.
    pub named: u64,
    /// The meter's identification number, of eight digits.
    pub number: u64,
    /// The manufacturer: five bits a letter, A being 1, the first letter in the highest bits; 0 in fixed data.
    pub manufacturer: u64,
    /// The version of the meter; 0 in fixed data.
    pub version: u64,
    /// The device type; in fixed data the medium.
    pub medium: u64,
    /// 1 where it has an access number and a status byte.
    pub headed: u64,
    pub access: u64,
    pub status: u64,
    /// The configuration field; 0 in fixed data.
    pub configuration: u64,
    /// The security mode.
    pub mode: u64,
    /// The number of encrypted blocks of 16 bytes in modes 5 and 7.
    pub blocks: u64,
    /// The place of the first record.
    pub first: u64,
}

const NO_HEADER: PlainHeader = PlainHeader {
    named: 0,
    number: 0,
    manufacturer: 0,
    version: 0,
    medium: 0,
    headed: 0,
    access: 0,
    status: 0,
    configuration: 0,
    mode: 0,
    blocks: 0,
    first: 0,
};

// The header of variable data.
fn variable_header(variable: &Variable<'_>) -> PlainHeader
    ensures { result ≡ variable_header (variable_view variable.now) }
{
    let first = match variable.structure {
        Structure::LongHeader => AFTER_LONG,
        Structure::ShortHeader => AFTER_SHORT,
        Structure::NoHeader => 0,
    };
    let (named, number, manufacturer, version, medium) = match variable.meter {
        Some(meter) => (1, meter.number, meter.maker, meter.version, meter.kind),
        None => (0, 0, 0, 0, 0),
    };
    let (headed, access, status, configuration) = match variable.head {
        Some(head) => (1, head.access, head.status, head.config),
        None => (0, 0, 0, 0),
    };
    let Security { mode, blocks } = Security::of(configuration);
    PlainHeader {
        named,
        number: u64::from(number),
        manufacturer: u64::from(manufacturer),
        version: u64::from(version),
        medium: u64::from(medium),
        headed,
        access: u64::from(access),
        status: u64::from(status),
        configuration: u64::from(configuration),
        mode: u64::from(mode),
        blocks: match blocks {
            Some(blocks) => u64::from(blocks),
            None => 0,
        },
        first,
    }
}

/// Writes to `out` what stands before the records of a body after this CI byte.
///
/// Returns `DONE`, also at a fault, which [`mbdc_next_record`](crate::mbdc_next_record) returns; or
/// `OTHER` after another CI byte than 72, 73, 78 and 7A.
#[tactic(auto, using(crate::proofs::Bodies::narrow, crate::proofs::Bodies::all_left))]
#[unsafe(no_mangle)]
pub extern "C" fn mbdc_header(ci: u64, body: &[u8], out: &mut PlainHeader) -> u64
    ensures header { (content : read.Content) → content_of ci body.now ≡ Some content
        → (result ≡ DONE) × (out.new ≡ header_of content) }
    // From there on, place by place, come all records.
    ensures first { (content : read.Content) → content_of ci body.now ≡ Some content
        → left ci body.now out.new.first ≡ items_of content body.now }
    ensures other { content_of ci body.now ≡ None → (result ≡ OTHER) × (out.new ≡ out.old) }
{
    match content_of(ci.min(NO_CI) as u8, body) {
        Some(Content::Variable(variable)) => *out = variable_header(&variable),
        Some(Content::Fixed(Some(counters))) => {
            let number = digits_after(0, counters.number);
            *out = PlainHeader {
                named: u64::from(number.is_some()),
                number: number.unwrap_or(0),
                medium: u64::from(counters.medium),
                headed: 1,
                access: u64::from(counters.access),
                status: u64::from(counters.status),
                first: AFTER_FIXED,
                ..NO_HEADER
            }
        }
        Some(Content::Fixed(None)) => *out = NO_HEADER,
        None => return OTHER,
    }
    DONE
}
