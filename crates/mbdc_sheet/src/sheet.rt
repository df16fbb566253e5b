//! The engine: compares a page with its file.

ghost use Rattle.std.specs.Prelude.{◌≡◌, IfOk, OnErr, OnOk, Some, codes, option_map};
ghost use Rattle.std.specs.List.{list_all, list_any};
ghost use Rattle.mbdc_io.specs.Failures.{HasRisen};
ghost use Rattle.mbdc_io.specs.Lines.{lines_of};
ghost use Rattle.mbdc_sheet.specs.Parts.{parts_of};
ghost use Rattle.mbdc_sheet.specs.Sheet.{are_shown, first_user, is_fine, is_line, is_sheet, is_sheet_in};
ghost use Rattle.mbdc_sheet.specs.View.{known_of};

use crate::flaw::{Known, named};
use crate::line::{digits_on, is_wanted, line_at};
use crate::parts::{first_part, is_part, part_at, piece_of};
use crate::written::{Marks, strip};
use mbdc_io::{IoFault, Sink, first_line, put_number};

// How a page begins in German and in English, before the name of its second element.
const GERMAN: &[u8] = b"<!doctype html>\n<html lang=\"de\">\n<";

const ENGLISH: &[u8] = b"<!doctype html>\n<html lang=\"en\">\n<";

// The line of a page after that.
const FIRST_LINE: u64 = 3;

// The user whom the first main part of a page names.
fn first_user(page: &[u8]) -> Option<&[u8]>
    ensures { option_map (λ u. u.now) result ≡ first_user (parts_of 60 page.now) }
{
    let mut left = Some(page);
    'parts: while let Some(rest) = left {
        let (part, next) = first_part(rest, b'<');
        let tag = piece_of(part).tag;
        if is_part(tag, b'"', 0, b"main data-user=")
            && let Some(user) = part_at(tag, b'"', 1)
        {
            return Some(user);
        }
        left = next;
    }
    None
}

// Whether any part of a page names the line.
fn is_shown(page: &[u8], number: usize) -> bool
    ensures { result ≡ list_any (is_line number) (parts_of 60 page.now) }
{
    let mut left = Some(page);
    'parts: while let Some(rest) = left {
        let (part, next) = first_part(rest, b'<');
        if let Some(text) = named(b" data-line=", piece_of(part).tag)
            && digits_on(0, text) == Some(number)
        {
            return true;
        }
        left = next;
    }
    false
}

// Prints what is wrong with a line of a page.
fn put_flaw<W: Sink>(out: &mut W, line: u64, name: &str) -> Result<(), IoFault>
    ensures well { OnOk result (W.put_failures out.new ≡ W.put_failures out.old) }
    ensures failed { OnErr result (HasRisen (W.put_failures out.old) (W.put_failures out.new)) }
{
    out.put(b"PAGE line ")?;
    put_number(out, line)?;
    out.put(b" ")?;
    out.put(name.as_bytes())?;
    out.put(b"\n")
}

impl<'a> Known<'a> {
    // Whether each part of a page is fine; prints what isn't.
    fn check_parts<W: Sink>(&self, page: &[u8], out: &mut W) -> Result<bool, IoFault>
        ensures fine { IfOk result (λ fine. fine
            ≡ list_all (is_fine (known_of self.now)) (parts_of 60 page.now)) }
        ensures well { OnOk result (W.put_failures out.new ≡ W.put_failures out.old) }
        ensures failed { OnErr result (HasRisen (W.put_failures out.old) (W.put_failures out.new)) }
    {
        let mut is_fine = true;
        let mut line = FIRST_LINE;
        let mut left = Some(page);
        'parts: while let Some(rest) = left {
            let (part, next) = first_part(rest, b'<');
            if let Some(flaw) = self.flaw_of(&piece_of(part)) {
                put_flaw(out, line, flaw.name())?;
                is_fine = false;
            }
            line = line.saturating_add(part.iter().filter(|byte| **byte == b'\n').count() as u64);
            left = next;
        }
        Ok(is_fine)
    }

    // Whether each number of the user is on a page; prints which isn't.
    #[tactic(auto, using(crate::proofs::Ends::no_lines))]
    fn check_lines<W: Sink>(&self, page: &[u8], out: &mut W) -> Result<bool, IoFault>
        ensures shown { IfOk result (λ shown. shown
            ≡ are_shown self.now.user.now (parts_of 60 page.now) 1 (lines_of self.now.file.now)) }
        ensures well { OnOk result (W.put_failures out.new ≡ W.put_failures out.old) }
        ensures failed { OnErr result (HasRisen (W.put_failures out.old) (W.put_failures out.new)) }
    {
        let mut are_shown = true;
        let mut number = 1;
        let mut left = self.file;
        'lines: while !left.is_empty() {
            let (line, rest) = first_line(left);
            if is_wanted(self.user, line) && !is_shown(page, number) {
                out.put(b"PAGE lacks line ")?;
                put_number(out, number as u64)?;
                out.put(b"\n")?;
                are_shown = false;
            }
            number += 1;
            left = rest;
        }
        Ok(are_shown)
    }
}

// Compares a page, after how it begins, with its file.
fn compare_parts<W: Sink>(
    marks: Marks,
    page: &[u8],
    file: &[u8],
    out: &mut W,
) -> Result<bool, IoFault>
    ensures right { IfOk result (λ right. right ≡ is_sheet_in marks (parts_of 60 page.now) (lines_of file.now)) }
    ensures well { OnOk result (W.put_failures out.new ≡ W.put_failures out.old) }
    ensures failed { OnErr result (HasRisen (W.put_failures out.old) (W.put_failures out.new)) }
{
    let label = line_at(file, 1).and_then(|line| part_at(line, b',', 2));
    let (Some(user), Some(label)) = (first_user(page), label) else {
        put_flaw(out, FIRST_LINE, "Main")?;
        return Ok(false);
    };
    let known = Known {
        marks,
        user,
        label,
        file,
    };
    let is_fine = known.check_parts(page, out)?;
    let are_shown = known.check_lines(page, out)?;
    Ok(is_fine && are_shown)
}

/// Compares a tenant's page with its audit file, and prints what of it isn't the file's. Returns whether all is.
///
/// # Errors
/// [`IoFault`] if the writer failed; something may have been written then.
pub fn compare<W: Sink>(page: &[u8], file: &[u8], out: &mut W) -> Result<bool, IoFault>
    // True of a page that shows the numbers of its file, and no others, and of no other page.
    ensures right { IfOk result (λ right. right ≡ is_sheet page.now (lines_of file.now)) }
    ensures well { OnOk result (W.put_failures out.new ≡ W.put_failures out.old) }
    ensures failed { OnErr result (HasRisen (W.put_failures out.old) (W.put_failures out.new)) }
{
    if let Some(rest) = strip(GERMAN, page) {
        let marks = Marks {
            thousands: b'.',
            decimals: b',',
        };
        return compare_parts(marks, rest, file, out);
    }
    let Some(rest) = strip(ENGLISH, page) else {
        put_flaw(out, 1, "Element")?;
        return Ok(false);
    };
    let marks = Marks {
        thousands: b',',
        decimals: b'.',
    };
    compare_parts(marks, rest, file, out)
}
