//! A meter's identity and its status byte.

ghost use Rattle.std.specs.Prelude.{◌≡◌, ◌≢◌};
ghost use Rattle.json.specs.Tree.{json_tokens};
ghost use Rattle.mbdc_decode.specs.Object.{object_of};
ghost use Rattle.mbdc_decode.specs.Writing.{Added};
ghost use Rattle.mbdc_decode.specs.Meter.{identity_fields, status_fields, has_bit};

use crate::tokens::TokenWriter;
use dc_address::Identity;
use dc_records::names::{application_name, medium_name};
use mbdc_io::Sink;

// The places of the digits and of the letters in an identity's text.
const DIGITS_END: usize = 8;

const LETTERS: usize = 9;

const LETTERS_END: usize = 12;

/// Writes an identity.
pub fn put_meter<W: Sink>(out: &mut TokenWriter<'_, W>, identity: &Identity)
    ensures { Added W.Sink out.old out.new (json_tokens (object_of (identity_fields identity.now))) }
{
    let Identity { version, kind, .. } = *identity;
    let codes = identity.text();
    out.begin_object();
    out.put_name("id");
    out.put_string(&codes);
    out.put_name("number");
    out.put_string(&codes[0..DIGITS_END]);
    out.put_name("manufacturer");
    out.put_string(&codes[LETTERS..LETTERS_END]);
    out.put_count("version", u64::from(version));
    out.put_text("medium", medium_name(kind));
    out.put_count("medium_code", u64::from(kind));
    out.end_object();
}

// Whether a bit of the status byte is set, by its power of two.
fn has_bit(power: u8, status: u8) -> bool
    requires { power ≢ 0 }
    ensures { result ≡ has_bit power status }
{
    status / power % 2 == 1
}

/// Writes a status byte.
pub fn put_status_object<W: Sink>(out: &mut TokenWriter<'_, W>, status: u8)
    ensures { Added W.Sink out.old out.new (json_tokens (object_of (status_fields status))) }
{
    out.begin_object();
    out.put_count("code", u64::from(status));
    out.put_text("application", application_name(status));
    out.put_flag("power_low", has_bit(4, status));
    out.put_flag("permanent_error", has_bit(8, status));
    out.put_flag("temporary_error", has_bit(16, status));
    out.put_count("manufacturer_bits", u64::from(status / 32));
    out.end_object();
}
