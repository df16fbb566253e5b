//! The parts of a printed identity.

ghost use Rattle.std.specs.Prelude.{◌≡◌, ◌<◌, ◌/◌, ◌%◌, ◌∷◌, [], IfSome, IsTrue, is_some, map};
ghost use Rattle.std.specs.Char.{is_ascii_digit};
ghost use Rattle.std.specs.List.{list_all};
ghost use Rattle.dc_address.specs.Digits.{decimal_digits, is_digit};
ghost use Rattle.dc_address.specs.Text.{code_value, decimal_code, hex_code, is_dot, is_hex};

use crate::digits::number_of;

/// Eight decimal digits in ASCII.
pub fn codes_of(digits: [u8; 8]) -> [u8; 8]
    requires { IsTrue (list_all is_digit digits) }
    ensures { result ≡ map decimal_code digits }
{
    let [a, b, c, d, e, f, g, h] = digits;
    [
        48 + a,
        48 + b,
        48 + c,
        48 + d,
        48 + e,
        48 + f,
        48 + g,
        48 + h,
    ]
}

/// What a byte is as an ASCII digit; above 9 where it isn't one.
fn value_of(code: u8) -> u8
    ensures { result ≡ code_value code }
{
    code.wrapping_sub(b'0')
}

/// What eight bytes are as ASCII digits.
fn values_of(codes: &[u8; 8]) -> [u8; 8]
    ensures { result ≡ map code_value codes.now }
{
    codes.map(value_of)
}

/// The number that eight ASCII digits write; none where a byte isn't one.
pub fn number_of_codes(codes: &[u8; 8]) -> Option<u32>
    ensures digits { is_some result ≡ list_all is_ascii_digit codes.now }
    ensures fits { IfSome result (λ number. number < 100_000_000) }
    ensures spelled { IfSome result (λ number.
        map decimal_code (decimal_digits 8 number) ≡ codes.now) }
{
    number_of(&values_of(codes))
}

/// A hexadecimal digit in ASCII, in capitals.
pub fn hex_code(digit: u8) -> u8
    requires { digit < 16 }
    ensures { result ≡ hex_code digit }
{
    if digit < 10 {
        b'0' + digit
    } else {
        b'A' + (digit - 10)
    }
}

/// What a hexadecimal digit in capitals is worth.
fn hex_value(code: u8) -> Option<u8>
    ensures test { is_some result ≡ is_hex code }
    ensures fits { IfSome result (λ digit. digit < 16) }
    ensures spelled { IfSome result (λ digit. hex_code digit ≡ code) }
{
    match code {
        b'0'..=b'9' => Some(code - b'0'),
        b'A'..=b'F' => Some(code - b'A' + 10),
        _ => None,
    }
}

/// The byte that two hexadecimal digits in capitals write.
pub fn byte_of_hex(high: u8, low: u8) -> Option<u8>
    ensures test { is_some result ≡ list_all is_hex (high ∷ low ∷ []) }
    ensures fits { IfSome result (λ byte. byte < 256) }
    ensures high { IfSome result (λ byte. hex_code (byte / 16) ≡ high) }
    ensures low { IfSome result (λ byte. hex_code (byte % 16) ≡ low) }
{
    Some(hex_value(high)? * 16 + hex_value(low)?)
}

/// Whether each of three bytes is a dot.
pub fn are_dots(codes: [u8; 3]) -> bool
    ensures { result ≡ list_all is_dot codes }
{
    codes.iter().all(|code| *code == b'.')
}
