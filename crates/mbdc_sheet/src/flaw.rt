//! What is wrong with a piece of a page.

ghost use Rattle.std.specs.Prelude.{◌≡◌, codes, option_map};
ghost use Rattle.mbdc_sheet.specs.Sheet.{are_hex, flaw_in_number, flaw_in_text, flaw_of, is_fixed, is_number, named};
ghost use Rattle.mbdc_sheet.specs.View.{known_of, piece_at};

use crate::line::{digits_on, has_meter, has_span, line_at, number_in};
use crate::parts::{Piece, is_part, part_at};
use crate::tag::{is_plain, is_tag, name_of};
use crate::text::{has_shape, is_date, is_quiet};
use crate::written::{Marks, shows};

// Digits of a hash.
const HASH_DIGITS: usize = 64;

/// What is wrong with a piece of a page.
#[derive(Clone, Copy)]
pub enum Flaw {
    /// An element or an attribute that a sheet doesn't have.
    Element,
    /// A digit that names no line.
    Digits,
    /// The file has no number of the page's user in the line that is named.
    Line,
    /// It isn't the number of the line that is named.
    Number,
    /// It isn't what it is said to be: a date, an identity, a hash, what people wrote, a number of another month.
    Fixed,
    /// It is another user's page, or of another month.
    Main,
}

impl Flaw {
    /// Its name.
    pub(crate) fn name(self) -> &'static str {
        match self {
            Flaw::Element => "Element",
            Flaw::Digits => "Digits",
            Flaw::Line => "Line",
            Flaw::Number => "Number",
            Flaw::Fixed => "Fixed",
            Flaw::Main => "Main",
        }
    }
}

/// What a page is compared with: the marks of its language, whose it is, of which month, and its file.
#[derive(Clone, Copy)]
pub(crate) struct Known<'a> {
    pub marks: Marks,
    pub user: &'a [u8],
    pub label: &'a [u8],
    pub file: &'a [u8],
}

/// The value of a tag's first attribute, if it has this name.
pub(crate) fn named<'t>(name: &[u8], tag: &'t [u8]) -> Option<&'t [u8]>
    ensures { option_map (λ v. v.now) result ≡ named name.now tag.now }
{
    let first = part_at(tag, b'"', 0)?;
    if first.ends_with(name) {
        part_at(tag, b'"', 1)
    } else {
        None
    }
}

// Whether a text is hex digits.
fn are_hex(text: &[u8]) -> bool
    ensures { result ≡ are_hex text.now }
{
    text.iter().all(|byte| byte.is_ascii_digit() || (b'a' <= *byte && *byte <= b'f'))
}

// Whether a text has the bytes of a number.
fn is_number(text: &[u8]) -> bool
    ensures { result ≡ is_number text.now }
{
    text.iter().all(|byte| byte.is_ascii_digit() || *byte == b',' || *byte == b'.' || *byte == b'-')
}

impl<'a> Known<'a> {
    // Whether a text is what it is said to be.
    fn is_fixed(&self, kind: &[u8], tag: &[u8], text: &[u8]) -> bool
        ensures { result ≡ is_fixed (known_of self.now) kind.now tag.now text.now }
    {
        if kind == "date".as_bytes() {
            is_date(text)
        } else if kind == "identity".as_bytes() {
            has_meter(self.file, text)
        } else if kind == "hash".as_bytes() {
            text.len() == HASH_DIGITS && are_hex(text)
        } else if kind == "contact".as_bytes() {
            name_of(tag) == "address".as_bytes()
        } else {
            has_shape(b"20##-##", kind) && !has_span(self.file, kind) && is_number(text)
        }
    }

    // What is wrong with the text of an element that names a line.
    fn flaw_in_number(&self, line: &[u8], text: &[u8]) -> Option<Flaw>
        ensures { result ≡ flaw_in_number (known_of self.now) line.now text.now }
    {
        let Some(number) = digits_on(0, line) else {
            return Some(Flaw::Line);
        };
        let Some(line) = line_at(self.file, number) else {
            return Some(Flaw::Line);
        };
        let Some(number) = number_in(self.user, line) else {
            return Some(Flaw::Line);
        };
        (!shows(self.marks, number, text)).then_some(Flaw::Number)
    }

    // What is wrong with a text.
    fn flaw_in_text(&self, piece: &Piece<'_>) -> Option<Flaw>
        ensures { result ≡ flaw_in_text (known_of self.now) (piece_at piece.now)
            (named (codes " data-line=") piece.now.tag.now) (named (codes " data-fixed=") piece.now.tag.now) }
    {
        if let Some(line) = named(b" data-line=", piece.tag) {
            return self.flaw_in_number(line, piece.text);
        }
        match named(b" data-fixed=", piece.tag) {
            Some(kind) => (!self.is_fixed(kind, piece.tag, piece.text)).then_some(Flaw::Fixed),
            None => (!is_quiet(piece.text)).then_some(Flaw::Digits),
        }
    }

    /// What is wrong with a piece.
    pub(crate) fn flaw_of(&self, piece: &Piece<'_>) -> Option<Flaw>
        ensures { result ≡ flaw_of (known_of self.now) (piece_at piece.now) }
    {
        if !is_tag(piece.tag) {
            return Some(Flaw::Element);
        }
        if piece.tag == "style".as_bytes() {
            return (!is_plain(piece.text)).then_some(Flaw::Digits);
        }
        // The page's main part says whose it is, and of which month.
        let is_main = is_part(piece.tag, b'"', 0, b"main data-user=")
            && is_part(piece.tag, b'"', 1, self.user)
            && is_part(piece.tag, b'"', 2, b" data-label=")
            && is_part(piece.tag, b'"', 3, self.label);
        if piece.tag.starts_with(b"main") && !is_main {
            return Some(Flaw::Main);
        }
        self.flaw_in_text(piece)
    }
}
