//! Numbers as a language writes them.

ghost use Rattle.std.specs.Prelude.{◌≡◌, option_map};
ghost use Rattle.mbdc_sheet.specs.Written.{grouped, shows, stripped};

use crate::parts::first_part;
use crate::text::is_quiet;

/// The marks between thousands and before decimals.
#[derive(Clone, Copy)]
pub(crate) struct Marks {
    pub thousands: u8,
    pub decimals: u8,
}

/// What is left of a text after another one, with which it begins.
pub(crate) fn strip<'t>(prefix: &[u8], text: &'t [u8]) -> Option<&'t [u8]>
    ensures { option_map (λ t. t.now) result ≡ stripped prefix.now text.now }
{
    let [byte, prefix @ ..] = prefix else {
        return Some(text);
    };
    let [first, text @ ..] = text else {
        return None;
    };
    if byte == first {
        strip(prefix, text)
    } else {
        None
    }
}

// What is left of a text after digits with a mark before each third one.
fn strip_grouped<'t>(mark: u8, digits: &[u8], text: &'t [u8]) -> Option<&'t [u8]>
    ensures { option_map (λ t. t.now) result ≡ stripped (grouped mark digits.now) text.now }
{
    let [digit, digits @ ..] = digits else {
        return Some(text);
    };
    let [first, text @ ..] = text else {
        return None;
    };
    if digit != first {
        return None;
    }
    let more = digits.len();
    if !(more > 0 && more % 3 == 0 && *digit != b'-') {
        return strip_grouped(mark, digits, text);
    }
    match text {
        [second, text @ ..] if *second == mark => strip_grouped(mark, digits, text),
        _ => None,
    }
}

/// Whether a text shows a number.
pub(crate) fn shows(marks: Marks, number: &[u8], text: &[u8]) -> bool
    ensures { result ≡ shows marks number.now text.now }
{
    if number == "-".as_bytes() {
        return is_quiet(text);
    }
    let (whole, decimals) = first_part(number, b'.');
    let Some(rest) = strip_grouped(marks.thousands, whole, text) else {
        return false;
    };
    let Some(decimals) = decimals else {
        return is_quiet(rest);
    };
    let (decimals, _) = first_part(decimals, b'.');
    match rest {
        [first, rest @ ..] if *first == marks.decimals => {
            strip(decimals, rest).is_some_and(is_quiet)
        }
        _ => false,
    }
}
