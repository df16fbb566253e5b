//! The parts of a text, and the pieces of a page.

ghost use Rattle.std.specs.Prelude.{◌≡◌, ◌<◌, ◌+◌, ◌∷◌, IfNone, IfSome, drop, length, option_map};
ghost use Rattle.mbdc_sheet.specs.Line.{is_text};
ghost use Rattle.mbdc_sheet.specs.Parts.{is_one_of, left_parts, part_at, parts_of, piece_of};

use memchr::memchr;

/// A piece of a page: a tag, up to the first `>`, and the text after it.
#[derive(Clone, Copy)]
pub struct Piece<'a> {
    pub tag: &'a [u8],
    pub text: &'a [u8],
}

/// Returns the first part of a text, and the rest after the mark, if there is one.
pub(crate) fn first_part(text: &[u8], mark: u8) -> (&[u8], Option<&[u8]>)
    ensures parts { parts_of mark text.now
        ≡ result.0.now ∷ left_parts mark (option_map (λ s. s.now) result.1) }
    ensures rest { IfSome result.1 (λ s. s.now ≡ drop (length result.0.now + 1) text.now) }
    ensures none { IfNone result.1 (result.0.now ≡ text.now) }
    ensures shorter { IfSome result.1 (λ s. length s.now < length text.now) }
{
    match memchr(mark, text) {
        Some(at) => {
            let (part, rest) = text.split_at(at);
            let (_, rest) = rest.split_at(1);
            (part, Some(rest))
        }
        None => (text, None),
    }
}

/// A part of a text, by its place from 0.
pub(crate) fn part_at(text: &[u8], mark: u8, at: usize) -> Option<&[u8]>
    ensures { option_map (λ p. p.now) result ≡ part_at mark text.now at }
{
    let (part, rest) = first_part(text, mark);
    if at == 0 {
        return Some(part);
    }
    part_at(rest?, mark, at - 1)
}

/// Whether a part of a text is this one.
pub(crate) fn is_part(text: &[u8], mark: u8, at: usize, wanted: &[u8]) -> bool
    ensures { result ≡ is_text wanted.now (part_at mark text.now at) }
{
    match part_at(text, mark, at) {
        Some(part) => part == wanted,
        None => false,
    }
}

/// Whether a word is one of these, with spaces between them.
pub(crate) fn is_one_of(words: &[u8], word: &[u8]) -> bool
    ensures { result ≡ is_one_of words.now word.now }
{
    let (one, rest) = first_part(words, b' ');
    if one == word {
        return true;
    }
    match rest {
        Some(words) => is_one_of(words, word),
        None => false,
    }
}

/// The piece that a part of a page is.
pub(crate) fn piece_of(part: &[u8]) -> Piece<'_>
    ensures tag { result.tag.now ≡ (piece_of part.now).tag }
    ensures text { result.text.now ≡ (piece_of part.now).text }
{
    let (tag, rest) = first_part(part, b'>');
    let text = match rest {
        Some(text) => text,
        None => &[],
    };
    Piece { tag, text }
}
