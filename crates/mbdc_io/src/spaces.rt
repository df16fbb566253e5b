//! A line without its spaces.

ghost use Rattle.std.specs.Prelude.{◌≡◌, ◌*◌, ◌≤◌, length, take, filter, Some, None, IsTrue};
ghost use Rattle.std.specs.Prelude.{MatchOption, IfSome};
ghost use Rattle.mbdc_io.specs.Hex.{bytes_of};
ghost use Rattle.mbdc_io.specs.Lines.{is_solid};

use crate::hex::{decode_hex, decode_spaced};
use memchr::memchr;

// Whether a line has no space.
fn lacks_space(line: &[u8]) -> bool
    ensures { IsTrue result → filter is_solid line.now ≡ line.now }
{
    match memchr(b' ', line) {
        None => true,
        Some(_) => false,
    }
}

// Copies a line without its spaces into `out`, and returns the number of characters.
fn squeeze_into(line: &[u8], out: &mut [u8]) -> usize
    requires { length line.now ≤ length out.old }
    ensures count { result ≤ length line.now }
    ensures value { take result out.new ≡ filter is_solid line.now }
{
    let mut count = 0;
    for b in line {
        if *b != b' ' {
            out[count] = *b;
            count += 1;
        }
    }
    count
}

/// Decodes a line of pairs of hex digits, among which spaces count for nothing, into `out` and returns
/// the number of bytes; `None` if the line isn't pairs of hex digits. `digits` is room for the line
/// without its spaces.
pub fn decode_hex_line(line: &[u8], digits: &mut [u8], out: &mut [u8]) -> Option<usize>
    requires digits { length line.now ≤ length digits.old }
    requires out { length line.now ≤ 2 * length out.old }
    ensures value { MatchOption result (bytes_of (filter is_solid line.now) ≡ None)
        (λ n. bytes_of (filter is_solid line.now) ≡ Some (take n out.new)) }
    ensures count { IfSome result (λ n. 2 * n ≤ length line.now) }
{
    // Most lines have a space after each byte, or none.
    if let Some(count) = decode_spaced(line, out) {
        return Some(count);
    }
    if lacks_space(line) {
        return decode_hex(line, out);
    }
    let count = squeeze_into(line, digits);
    decode_hex(&digits[..count], out)
}
