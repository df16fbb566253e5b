//! Texts without a digit, and dates.

ghost use Rattle.std.specs.Prelude.{◌≡◌};
ghost use Rattle.std.specs.List.{list_all, list_any};
ghost use Rattle.mbdc_sheet.specs.Parts.{parts_of};
ghost use Rattle.mbdc_sheet.specs.Text.{has_shape, is_date, is_like, is_numeral, is_of_date};
ghost use Rattle.mbdc_sheet.specs.Text.{is_quiet, is_year, quiet_on};

use crate::parts::first_part;

// The shapes of a date's words that have a year, and of its others.
const YEARS: &[u8] = b"20## 20##, 20##-## ##.##.20## ##.##.20##,";

const DAYS: &[u8] = b"##:## ##. #. ## #";

// Most bytes of a date.
const LONGEST_DATE: usize = 64;

// Whether a byte, by the one before, may be of a digit or a number.
fn is_numeral(before: u8, byte: u8) -> bool
    ensures { result ≡ is_numeral before byte }
{
    byte.is_ascii_digit()
        || (before == 0xC2 && (byte == 0xB9 || (0xBC..=0xBE).contains(&byte)))
        || (before == 0xE2 && !(byte == 0x80 || byte == 0x82))
        || (before == 0x82 && (0x80..=0x89).contains(&byte))
        || (byte >= 0xD2 && byte != 0xE2)
}

// The byte to go on from, where no numeral is met.
fn quiet_on(before: Option<u8>, byte: u8) -> Option<u8>
    ensures { result ≡ quiet_on before byte }
{
    let before = before?;
    if is_numeral(before, byte) {
        None
    } else {
        Some(byte)
    }
}

/// Whether a text has no digit, and nothing that is read as a number.
pub(crate) fn is_quiet(text: &[u8]) -> bool
    ensures { result ≡ is_quiet text.now }
{
    let mut before = Some(0);
    'bytes: for byte in text {
        before = quiet_on(before, *byte);
    }
    before.is_some()
}

/// Whether a text has a shape: `#` is a digit, anything else itself.
pub(crate) fn has_shape(shape: &[u8], text: &[u8]) -> bool
    ensures { result ≡ has_shape shape.now text.now }
{
    let [mark, shape @ ..] = shape else {
        return text.is_empty();
    };
    let [byte, text @ ..] = text else {
        return false;
    };
    let is_same = if *mark == b'#' {
        byte.is_ascii_digit()
    } else {
        byte == mark
    };
    is_same && has_shape(shape, text)
}

// Whether a word has one of these shapes, with spaces between them.
fn is_like(shapes: &[u8], word: &[u8]) -> bool
    ensures { result ≡ is_like shapes.now word.now }
{
    let (shape, rest) = first_part(shapes, b' ');
    if has_shape(shape, word) {
        return true;
    }
    match rest {
        Some(shapes) => is_like(shapes, word),
        None => false,
    }
}

// Whether a word of a text is one with a year.
fn has_year(text: &[u8]) -> bool
    ensures { result ≡ list_any is_year (parts_of 32 text.now) }
{
    let (word, rest) = first_part(text, b' ');
    if is_like(YEARS, word) {
        return true;
    }
    match rest {
        Some(rest) => has_year(rest),
        None => false,
    }
}

// Whether each word of a text is a date's.
fn are_of_date(text: &[u8]) -> bool
    ensures { result ≡ list_all is_of_date (parts_of 32 text.now) }
{
    let (word, rest) = first_part(text, b' ');
    if !(is_like(YEARS, word) || is_like(DAYS, word) || is_quiet(word)) {
        return false;
    }
    match rest {
        Some(rest) => are_of_date(rest),
        None => true,
    }
}

/// Whether a text is a date.
pub(crate) fn is_date(text: &[u8]) -> bool
    ensures { result ≡ is_date text.now }
{
    is_quiet(text) || (text.len() <= LONGEST_DATE && has_year(text) && are_of_date(text))
}
