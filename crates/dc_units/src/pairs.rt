//! Pairs of decimal digits that are read.

ghost use Rattle.std.specs.Prelude.{◌≡◌, ◌<◌, ◌∷◌, ℕ, [], true, Some, IfSome};
ghost use Rattle.std.specs.Fmt.{digit_glyph};
ghost use Rattle.dc_units.specs.Text.{last_digits};

/// The number below 100 that two digits say.
#[tactic(auto, using(crate::proofs::DayTexts::tens_digit, crate::proofs::DayTexts::ones_digit, crate::proofs::DayTexts::pair_of_digits))]
pub(crate) fn pair(tens: u8, ones: u8) -> Option<u8>
    ensures found { IfSome result (λ n. (n < 100) × (tens ∷ ones ∷ [] ≡ last_digits 10 2 n)) }
    ensures only { (n : ℕ) → n < 100 → tens ∷ ones ∷ [] ≡ last_digits 10 2 n → result ≡ Some n }
{
    Some(10 * digit(tens)? + digit(ones)?)
}

/// The number below 10 that a byte of ASCII says.
fn digit(byte: u8) -> Option<u8>
    ensures found { IfSome result (λ d. (d < 10) × (byte ≡ digit_glyph true d)) }
    ensures only { (d : ℕ) → d < 10 → byte ≡ digit_glyph true d → result ≡ Some d }
{
    match byte {
        b'0'..=b'9' => Some(byte - b'0'),
        _ => None,
    }
}
