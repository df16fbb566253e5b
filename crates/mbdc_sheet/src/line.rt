//! What a line of an audit file says of a user's numbers.

ghost use Rattle.std.specs.Prelude.{◌≡◌, ◌<◌, ◌*◌, option_map};
ghost use Rattle.std.specs.List.{list_any};
ghost use Rattle.mbdc_io.specs.Lines.{lines_of};
ghost use Rattle.mbdc_sheet.specs.Line.{digits_on, is_meter, is_span, is_wanted, line_at};
ghost use Rattle.mbdc_sheet.specs.Line.{number_in, places_of};

use crate::parts::{is_one_of, is_part, part_at};
use mbdc_io::first_line;

// What no number of a line reaches.
const END_OF_LINES: usize = 100_000_000;

// Where a line of this word has its number, and its user.
fn places_of(word: &[u8]) -> Option<(usize, usize)>
    ensures { result ≡ places_of word.now }
{
    if is_one_of(b"of_user mean cost", word) {
        Some((5, 2))
    } else if is_one_of(b"weather", word) {
        Some((5, 3))
    } else if is_one_of(b"change", word) {
        Some((6, 3))
    } else if is_one_of(b"carbon", word) {
        Some((4, 2))
    } else if is_one_of(b"shown", word) {
        Some((5, 0))
    } else if is_one_of(b"price average", word) {
        Some((4, 0))
    } else if is_one_of(b"value factor co2 degrees", word) {
        Some((3, 0))
    } else {
        None
    }
}

/// The number of a line, if it has one that the user may see.
pub(crate) fn number_in<'l>(user: &[u8], line: &'l [u8]) -> Option<&'l [u8]>
    ensures { option_map (λ f. f.now) result ≡ number_in user.now line.now }
{
    let (number, of) = places_of(part_at(line, b',', 0)?)?;
    if of == 0 || is_part(line, b',', of, user) {
        part_at(line, b',', number)
    } else {
        None
    }
}

/// Whether a line has a number of the user that a page has to show.
pub(crate) fn is_wanted(user: &[u8], line: &[u8]) -> bool
    ensures { result ≡ is_wanted user.now line.now }
{
    let Some(word) = part_at(line, b',', 0) else {
        return false;
    };
    let Some((number, of)) = places_of(word) else {
        return false;
    };
    of != 0 && is_part(line, b',', of, user) && !is_part(line, b',', number, b"-")
}

/// The number that digits go on from n.
pub(crate) fn digits_on(n: usize, text: &[u8]) -> Option<usize>
    requires { n < 100000000 }
    ensures { result ≡ digits_on n text.now }
{
    let [digit, text @ ..] = text else {
        return Some(n);
    };
    if !digit.is_ascii_digit() {
        return None;
    }
    let next = 10 * n + usize::from(*digit - b'0');
    if next >= END_OF_LINES {
        return None;
    }
    digits_on(next, text)
}

/// The line of a file with this number, from 1.
#[tactic(auto, using(crate::proofs::Ends::no_lines))]
pub(crate) fn line_at(file: &[u8], number: usize) -> Option<&[u8]>
    ensures { option_map (λ l. l.now) result ≡ line_at (lines_of file.now) (Some number) }
{
    let mut before = number.checked_sub(1)?;
    let mut left = file;
    'lines: while !left.is_empty() {
        let (line, rest) = first_line(left);
        if before == 0 {
            return Some(line);
        }
        before -= 1;
        left = rest;
    }
    None
}

/// Whether a meter of the file has the identity.
#[tactic(auto, using(crate::proofs::Ends::no_lines))]
pub(crate) fn has_meter(file: &[u8], identity: &[u8]) -> bool
    ensures { result ≡ list_any (is_meter identity.now) (lines_of file.now) }
{
    let mut left = file;
    'lines: while !left.is_empty() {
        let (line, rest) = first_line(left);
        if is_part(line, b',', 0, b"meter") && is_part(line, b',', 2, identity) {
            return true;
        }
        left = rest;
    }
    false
}

/// Whether a span of the file ends in the month.
#[tactic(auto, using(crate::proofs::Ends::no_lines))]
pub(crate) fn has_span(file: &[u8], month: &[u8]) -> bool
    ensures { result ≡ list_any (is_span month.now) (lines_of file.now) }
{
    let mut left = file;
    'lines: while !left.is_empty() {
        let (line, rest) = first_line(left);
        let day = part_at(line, b',', 4);
        if is_part(line, b',', 0, b"span") && day.is_some_and(|day| day.starts_with(month)) {
            return true;
        }
        left = rest;
    }
    false
}
