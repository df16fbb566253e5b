//! The words of a line, and the numbers among them.

ghost use Rattle.std.specs.Prelude.{◌≡◌, ◌<◌, ◌++◌, ◌∷◌, ◌↔◌, ℕ, List, Some, IfSome, MatchOption};
ghost use Rattle.std.specs.Prelude.{IsTrue};
ghost use Rattle.std.specs.List.{position};
ghost use Rattle.std.specs.Fmt.{decimal};
ghost use Rattle.mbdc_change.specs.Fields.{end_of_numbers};
ghost use Rattle.mbdc_change.specs.Words.{IsWord, BeginsNumber, is_space};

use crate::END_OF_NUMBERS;
use std::str;

fn first_space(text: &[u8]) -> Option<usize>
    ensures { result ≡ position is_space text.now }
{
    text.iter().position(|byte| *byte == b' ')
}

/// Splits a text at its first space, into the text before and after it; `None` if it has no space.
pub fn split_word(text: &[u8]) -> Option<(&[u8], &[u8])>
    ensures found { IfSome result (λ parts.
        IsWord parts.0.now × (text.now ≡ parts.0.now ++ 32 ∷ parts.1.now)) }
    ensures only { (word rest : List ℕ) → IsWord word → text.now ≡ word ++ 32 ∷ rest
        → MatchOption result ⊥ (λ parts. (parts.0.now ≡ word) × (parts.1.now ≡ rest)) }
{
    let Some(space) = first_space(text) else {
        return None;
    };
    let (word, rest) = text.split_at(space);
    let (_, rest) = rest.split_at(1);
    Some((word, rest))
}

/// A text has one first word.
#[tactic(auto, using(crate::proofs::LineSpellings::one_word))]
pub fn a_text_has_one_first_word()
    ensures { (word other rest more : List ℕ) → IsWord word → IsWord other
        → word ++ 32 ∷ rest ≡ other ++ 32 ∷ more → (word ≡ other) × (rest ≡ more) }
{}

// Whether a word begins as a number does: without a sign, and without a leading 0 before other
// digits.
fn begins_number(word: &[u8]) -> bool
    ensures { IsTrue result ↔ BeginsNumber word.now }
{
    match word {
        [] => false,
        [first] => *first != b'+',
        [first, ..] => *first != b'+' && *first != b'0',
    }
}

/// Parses the number that a word spells: 1 to 18 decimal digits, without a leading 0 before other
/// digits.
pub fn parse_number(word: &[u8]) -> Option<u64>
    ensures found { IfSome result (λ number.
        (number < end_of_numbers) × (word.now ≡ decimal number)) }
    ensures only { (number : ℕ) → number < end_of_numbers → word.now ≡ decimal number
        → result ≡ Some number }
{
    if !begins_number(word) {
        return None;
    }
    let Ok(text) = str::from_utf8(word) else {
        return None;
    };
    match text.parse() {
        Ok(number) if number < END_OF_NUMBERS => Some(number),
        _ => None,
    }
}
