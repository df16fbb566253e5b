//! Bytes of a string, and what stands for them in JSON.

ghost use Rattle.std.specs.Prelude.{◌≡◌, ◌+◌, ◌<◌, ◌≤◌, ◌∷◌, ◌++◌, [], length, take};
ghost use Rattle.std.specs.Bool.{OnTrue};
ghost use Rattle.std.specs.Char.{digit_char};
ghost use Rattle.json.specs.Print.{escape, escape_byte, escape_letter, token_text};
ghost use Rattle.json.specs.Token.{boolean};
ghost use Rattle.json.specs.Written.{PlainBetween};

use std::simd::prelude::*;

/// Names of the program's own have at most this many bytes.
pub(crate) const SHORT: usize = 28;

/// A short name has room with what stands around it.
pub(crate) const KEY_ROOM: usize = SHORT + 8;

// Whether the four bytes at a place stand for themselves in a string.
#[inline(always)]
fn are_four_plain(text: &[u8], at: usize) -> bool
    requires { at + 4 ≤ length text.now }
    ensures { OnTrue result (PlainBetween text.now at (at + 4)) }
{
    let bytes = u8x4::from_slice(&text[at..]);
    (bytes.simd_eq(u8x4::splat(b'"'))
        | bytes.simd_eq(u8x4::splat(b'\\'))
        | bytes.simd_lt(u8x4::splat(0x20))).to_bitmask()
        == 0
}

// Whether the eight bytes at a place stand for themselves.
#[inline(always)]
fn are_eight_plain(text: &[u8], at: usize) -> bool
    requires { at + 8 ≤ length text.now }
    ensures { OnTrue result (PlainBetween text.now at (at + 8)) }
{
    let bytes = u8x8::from_slice(&text[at..]);
    (bytes.simd_eq(u8x8::splat(b'"'))
        | bytes.simd_eq(u8x8::splat(b'\\'))
        | bytes.simd_lt(u8x8::splat(0x20))).to_bitmask()
        == 0
}

// Whether the sixteen bytes at a place stand for themselves.
#[inline(always)]
fn are_sixteen_plain(text: &[u8], at: usize) -> bool
    requires { at + 16 ≤ length text.now }
    ensures { OnTrue result (PlainBetween text.now at (at + 16)) }
{
    let bytes = u8x16::from_slice(&text[at..]);
    (bytes.simd_eq(u8x16::splat(b'"'))
        | bytes.simd_eq(u8x16::splat(b'\\'))
        | bytes.simd_lt(u8x16::splat(0x20))).to_bitmask()
        == 0
}

// Whether each byte stands for itself.
#[inline(always)]
fn is_each_plain(text: &[u8]) -> bool
    ensures { OnTrue result (PlainBetween text.now 0 (length text.now)) }
{
    'bytes: for byte in text {
        if *byte == b'"' || *byte == b'\\' || *byte < 0x20 {
            return false;
        }
    }
    true
}

// Whether each byte stands for itself. Two loads that overlap cover most texts.
#[inline(always)]
fn are_plain(text: &[u8]) -> bool
    ensures { OnTrue result (PlainBetween text.now 0 (length text.now)) }
{
    let len = text.len();
    if len < 4 || len > 32 {
        is_each_plain(text)
    } else if len >= 16 {
        are_sixteen_plain(text, 0) && are_sixteen_plain(text, len - 16)
    } else if len >= 8 {
        are_eight_plain(text, 0) && are_eight_plain(text, len - 8)
    } else {
        are_four_plain(text, 0) && are_four_plain(text, len - 4)
    }
}

/// Whether a text needs no escape.
#[inline(always)]
pub(crate) fn is_plain(text: &[u8]) -> bool
    ensures { OnTrue result (escape text.now ≡ text.now) }
{
    are_plain(text)
}

// The letter of a byte's short escape, or 0 where it has none.
fn letter_of(byte: u8) -> u8
    ensures { result ≡ escape_letter byte }
{
    match byte {
        b'"' | b'\\' => byte,
        8 => b'b',
        12 => b'f',
        b'\n' => b'n',
        b'\r' => b'r',
        b'\t' => b't',
        _ => 0,
    }
}

// A hex digit in small letters.
fn digit_of(digit: u8) -> u8
    requires { digit < 16 }
    ensures { result ≡ digit_char digit }
{
    if digit < 10 {
        b'0' + digit
    } else {
        b'a' - 10 + digit
    }
}

/// The word for true or false.
pub(crate) fn word_of(flag: bool) -> &'static [u8]
    ensures { result.now ≡ token_text (boolean flag) }
{
    if flag { b"true" } else { b"false" }
}

/// What stands in a string for a byte, and its length.
#[tactic(auto, unfolding(json::specs::Print::escape_byte))]
pub(crate) fn escaped(byte: u8) -> ([u8; 6], usize)
    ensures bytes { take result.1 result.0 ≡ escape_byte byte }
    ensures len { result.1 ≤ 6 }
{
    let letter = letter_of(byte);
    if letter > 0 {
        return ([b'\\', letter, 0, 0, 0, 0], 2);
    }
    if byte < 0x20 {
        let high = digit_of(byte / 16);
        let low = digit_of(byte % 16);
        return ([b'\\', b'u', b'0', b'0', high, low], 6);
    }
    ([byte, 0, 0, 0, 0, 0], 1)
}

/// Writes a comma, a name that needs no escape in quotes, its colon and more bytes to the front of a room, and returns
/// their number.
#[inline(always)]
pub(crate) fn write_key(name: &[u8], after: &[u8], room: &mut [u8]) -> usize
    requires { length name.now + length after.now + 4 ≤ length room.old }
    ensures text { take result room.new ≡ 44 ∷ 34 ∷ (name.now ++ 34 ∷ 58 ∷ after.now) }
    ensures len { result ≡ length name.now + length after.now + 4 }
{
    let (front, rest) = room.split_at_mut(2);
    front[0] = b',';
    front[1] = b'"';
    let (place, rest) = rest.split_at_mut(name.len());
    place.copy_from_slice(name);
    let (colon, rest) = rest.split_at_mut(2);
    colon[0] = b'"';
    colon[1] = b':';
    let (place, _) = rest.split_at_mut(after.len());
    place.copy_from_slice(after);
    name.len() + after.len() + 4
}
