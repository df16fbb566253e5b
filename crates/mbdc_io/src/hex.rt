//! Hex digits, read in either case and written in capitals.

ghost use Rattle.std.specs.Prelude.{◌≡◌, ◌+◌, ◌*◌, ◌<◌, ◌≤◌, ◌∷◌, length, take, filter, Some};
ghost use Rattle.std.specs.Prelude.{None, MatchOption, IfSome};
ghost use Rattle.mbdc_io.specs.Written.{Wrote};
ghost use Rattle.mbdc_io.specs.Hex.{digit_value, bytes_of, upper_digit, upper_pair, upper_hex};
ghost use Rattle.mbdc_io.specs.Lines.{is_solid};
ghost use Rattle.mbdc_io.specs.Words.{byte_word, hex_word};

use crate::{IoFault, Sink};

// Most VIBs and data have no more bytes than these.
const FEW: usize = 16;

// The value of each character as a hex digit, or 255.
static VALUES: [u8; 256] = [
    255, 255, 255, 255, 255, 255, 255, 255, 255, 255, 255, 255, 255, 255, 255, 255, 255, 255, 255,
    255, 255, 255, 255, 255, 255, 255, 255, 255, 255, 255, 255, 255, 255, 255, 255, 255, 255, 255,
    255, 255, 255, 255, 255, 255, 255, 255, 255, 255, 0, 1, 2, 3, 4, 5, 6, 7, 8, 9, 255, 255, 255,
    255, 255, 255, 255, 10, 11, 12, 13, 14, 15, 255, 255, 255, 255, 255, 255, 255, 255, 255, 255,
    255, 255, 255, 255, 255, 255, 255, 255, 255, 255, 255, 255, 255, 255, 255, 255, 10, 11, 12, 13,
    14, 15, 255, 255, 255, 255, 255, 255, 255, 255, 255, 255, 255, 255, 255, 255, 255, 255, 255,
    255, 255, 255, 255, 255, 255, 255, 255, 255, 255, 255, 255, 255, 255, 255, 255, 255, 255, 255,
    255, 255, 255, 255, 255, 255, 255, 255, 255, 255, 255, 255, 255, 255, 255, 255, 255, 255, 255,
    255, 255, 255, 255, 255, 255, 255, 255, 255, 255, 255, 255, 255, 255, 255, 255, 255, 255, 255,
    255, 255, 255, 255, 255, 255, 255, 255, 255, 255, 255, 255, 255, 255, 255, 255, 255, 255, 255,
    255, 255, 255, 255, 255, 255, 255, 255, 255, 255, 255, 255, 255, 255, 255, 255, 255, 255, 255,
    255, 255, 255, 255, 255, 255, 255, 255, 255, 255, 255, 255, 255, 255, 255, 255, 255, 255, 255,
    255, 255, 255, 255, 255, 255, 255, 255, 255, 255, 255, 255, 255, 255, 255, 255, 255, 255, 255,
    255, 255, 255,
];

// The value of a hex digit, in either case.
#[inline]
#[tactic(auto, using(crate::proofs::Values::VALUES_at))]
fn value_of(digit: u8) -> Option<u8>
    ensures value { result ≡ digit_value digit }
    ensures small { IfSome result (λ value. value < 16) }
{
    let value = VALUES[digit as usize];
    if value < 16 { Some(value) } else { None }
}

/// Decodes pairs of hex digits into `out` and returns the number of bytes; `None` if the text isn't
/// pairs of hex digits.
pub fn decode_hex(digits: &[u8], out: &mut [u8]) -> Option<usize>
    requires { length digits.now ≤ 2 * length out.old }
    ensures value { MatchOption result (bytes_of digits.now ≡ None)
        (λ n. bytes_of digits.now ≡ Some (take n out.new)) }
    ensures count { IfSome result (λ n. 2 * n ≡ length digits.now) }
{
    if digits.len() % 2 != 0 {
        return None;
    }
    let count = digits.len() / 2;
    'pairs: for i in 0..count {
        let high = value_of(digits[2 * i])?;
        let low = value_of(digits[2 * i + 1])?;
        out[i] = high * 16 + low;
    }
    Some(count)
}

// Decodes pairs of hex digits with one space between them, as `68 1F 1F`, into `out` and returns the number of bytes;
// `None` if the line isn't written so.
pub(crate) fn decode_spaced(line: &[u8], out: &mut [u8]) -> Option<usize>
    requires { length line.now ≤ 2 * length out.old }
    ensures value { IfSome result (λ n.
        bytes_of (filter is_solid line.now) ≡ Some (take n out.new)) }
    ensures count { IfSome result (λ n. 3 * n ≡ length line.now + 1) }
{
    if line.len() % 3 != 2 {
        return None;
    }
    let count = line.len() / 3;
    'pairs: for i in 0..count {
        if line[3 * i + 2] != b' ' {
            return None;
        }
        let high = value_of(line[3 * i])?;
        let low = value_of(line[3 * i + 1])?;
        out[i] = high * 16 + low;
    }
    let high = value_of(line[3 * count])?;
    let low = value_of(line[3 * count + 1])?;
    out[count] = high * 16 + low;
    Some(count + 1)
}

// Each byte as two capital hex digits, one after the other.
static PAIRS: [u8; 512] = *b"000102030405060708090A0B0C0D0E0F101112131415161718191A1B1C1D1E1F\
    202122232425262728292A2B2C2D2E2F303132333435363738393A3B3C3D3E3F\
    404142434445464748494A4B4C4D4E4F505152535455565758595A5B5C5D5E5F\
    606162636465666768696A6B6C6D6E6F707172737475767778797A7B7C7D7E7F\
    808182838485868788898A8B8C8D8E8F909192939495969798999A9B9C9D9E9F\
    A0A1A2A3A4A5A6A7A8A9AAABACADAEAFB0B1B2B3B4B5B6B7B8B9BABBBCBDBEBF\
    C0C1C2C3C4C5C6C7C8C9CACBCCCDCECFD0D1D2D3D4D5D6D7D8D9DADBDCDDDEDF\
    E0E1E2E3E4E5E6E7E8E9EAEBECEDEEEFF0F1F2F3F4F5F6F7F8F9FAFBFCFDFEFF";

/// A byte as two capital hex digits.
#[inline]
#[tactic(auto, using(crate::proofs::Values::PAIRS_at))]
pub fn pair_of(byte: u8) -> [u8; 2]
    ensures { result ≡ upper_pair byte }
{
    let at = 2 * usize::from(byte);
    [PAIRS[at], PAIRS[at + 1]]
}

/// Writes a byte as two capital hex digits.
#[inline]
pub fn put_byte<W: Sink>(out: &mut W, byte: u8) -> Result<(), IoFault>
    ensures { Wrote W.Sink result out.old out.new (upper_pair byte) }
{
    out.put(&pair_of(byte))
}

/// Writes bytes in capital hex digits.
#[tactic(auto, using(crate::proofs::Pieces::joined, crate::proofs::Digits::digits))]
pub fn put_hex<W: Sink>(out: &mut W, bytes: &[u8]) -> Result<(), IoFault>
    ensures { Wrote W.Sink result out.old out.new (upper_hex bytes.now) }
{
    'bytes: for byte in bytes {
        put_byte(out, *byte)?;
    }
    Ok(())
}

/// Writes a space and a byte in two capital hex digits.
pub fn put_byte_word<W: Sink>(out: &mut W, byte: u8) -> Result<(), IoFault>
    ensures { Wrote W.Sink result out.old out.new (byte_word byte) }
{
    let [high, low] = pair_of(byte);
    out.put(&[b' ', high, low])
}

// Writes a space and a few bytes in capital hex digits by one put.
fn put_few<W: Sink>(out: &mut W, bytes: &[u8]) -> Result<(), IoFault>
    requires { length bytes.now ≤ 16 }
    ensures { Wrote W.Sink result out.old out.new (32 ∷ upper_hex bytes.now) }
{
    let mut text = [b' '; 1 + 2 * FEW];
    'bytes: for i in 0..bytes.len() {
        let [high, low] = pair_of(bytes[i]);
        text[2 * i + 1] = high;
        text[2 * i + 2] = low;
    }
    out.put(&text[..2 * bytes.len() + 1])
}

// Writes a space and bytes in capital hex digits.
#[tactic(auto, using(crate::proofs::Pieces::written))]
fn put_many<W: Sink>(out: &mut W, bytes: &[u8]) -> Result<(), IoFault>
    ensures { Wrote W.Sink result out.old out.new (32 ∷ upper_hex bytes.now) }
{
    if bytes.len() <= FEW {
        return put_few(out, bytes);
    }
    out.put(b" ")?;
    put_hex(out, bytes)
}

/// Writes a space and bytes in capital hex digits, or `-` for no bytes.
#[tactic(auto, using(crate::proofs::Pieces::written, crate::proofs::Digits::words))]
pub fn put_hex_word<W: Sink>(out: &mut W, bytes: &[u8]) -> Result<(), IoFault>
    ensures { Wrote W.Sink result out.old out.new (hex_word bytes.now) }
{
    match bytes {
        [] => out.put(b" -"),
        // Most VIBs have one byte.
        [byte] => put_byte_word(out, *byte),
        _ => put_many(out, bytes),
    }
}
