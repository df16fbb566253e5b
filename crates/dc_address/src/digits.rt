//! Decimal digits of fixed width, and two of them in a byte.

ghost use Rattle.std.specs.Prelude.{◌≡◌, ◌<◌, ◌/◌, ◌%◌, IsTrue, IfSome, is_some};
ghost use Rattle.std.specs.List.{list_all};
ghost use Rattle.std.specs.Int.Digits.{number_from_digits};
ghost use Rattle.dc_address.specs.Digits.{decimal_digits, is_digit, is_nibble, packed_digits};
ghost use Rattle.dc_address.specs.Digits.{unpacked_digits};

/// The decimal digit that counts this power of ten.
fn digit_at(number: u32, power: u32) -> u8
    requires { 0 < power }
    ensures { result ≡ number / power % 10 }
{
    (number / power % 10) as u8
}

/// The eight lowest decimal digits of a number, most significant first.
#[tactic(auto, unfolding(crate::specs::Digits::decimal_digits))]
pub fn digits_of(number: u32) -> [u8; 8]
    ensures { result ≡ decimal_digits 8 number }
{
    [
        digit_at(number, 10_000_000),
        digit_at(number, 1_000_000),
        digit_at(number, 100_000),
        digit_at(number, 10_000),
        digit_at(number, 1_000),
        digit_at(number, 100),
        digit_at(number, 10),
        digit_at(number, 1),
    ]
}

/// The number that eight decimal digits write, most significant first; none where a byte is above 9.
pub fn number_of(digits: &[u8; 8]) -> Option<u32>
    ensures digits { is_some result ≡ list_all is_digit digits.now }
    ensures number { IfSome result (λ number. number ≡ number_from_digits 10 digits.now) }
{
    let mut number = 0;
    for digit in digits {
        if *digit > 9 {
            return None;
        }
        number = number * 10 + u32::from(*digit);
    }
    Some(number)
}

/// Eight digits in four bytes, the byte of the lowest pair first.
pub fn packed(digits: [u8; 8]) -> [u8; 4]
    requires { IsTrue (list_all is_nibble digits) }
    ensures { result ≡ packed_digits digits }
{
    let [a, b, c, d, e, f, g, h] = digits;
    [16 * g + h, 16 * e + f, 16 * c + d, 16 * a + b]
}

/// The eight halves of four bytes, those of the last byte first.
pub fn unpacked(bytes: [u8; 4]) -> [u8; 8]
    ensures { result ≡ unpacked_digits bytes }
{
    let [a, b, c, d] = bytes;
    [
        d / 16,
        d % 16,
        c / 16,
        c % 16,
        b / 16,
        b % 16,
        a / 16,
        a % 16,
    ]
}
