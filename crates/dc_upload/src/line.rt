//! The lines that a billing office sends.

ghost use Rattle.std.specs.Prelude.{◌≡◌, ℕ, ◌≤◌, ◌∷◌, ◌++◌, List, Some, IfSome, IsSome, IsTrue};
ghost use Rattle.std.specs.Prelude.{codes, length};
ghost use Rattle.std.specs.Fmt.{decimal};
ghost use Rattle.mbdc_change.specs.Command.{line_of};
ghost use Rattle.mbdc_change.specs.Fields.{IsNumber};
ghost use Rattle.dc_units.specs.Date.{Day, exists};
ghost use Rattle.dc_units.specs.Text.{day_text};
ghost use Rattle.dc_upload.specs.Line.{IsCount, IsOfficeLine, office_text};

use dc_report::Date;
use mbdc_change::{Command, Numbered, parse_number, split_word};

/// A line of the billing office.
#[derive(Clone, Copy)]
pub enum OfficeLine {
    /// A command under its number: `n FIT ident line addr flat` and the like.
    Command(Numbered),
    /// `WINDOW from count`: the readings from a serial on, at most `count`.
    Window {
        /// The first serial, from 1, of at most 18 digits.
        from: u64,
        /// Maximum number of readings, from 1 to 100.
        count: u8,
    },
    /// `REGISTER`: the meters.
    Register,
    /// `REPORT date`: the due-date table.
    Report {
        /// The due date, as `2024-12-31`.
        date: Date,
    },
}

/// Parses a line of the office; `None` for any other text. Each line has exactly one text, of at
/// most 120 bytes.
pub fn parse_line(text: &[u8]) -> Option<OfficeLine>
    ensures found { IfSome result (λ line. IsOfficeLine line × (text.now ≡ office_text line)) }
    ensures only { (line : OfficeLine) → IsOfficeLine line → text.now ≡ office_text line
        → result ≡ Some line }
    ensures fits { IfSome result (λ _. length text.now ≤ 120) }
{
    if text == b"REGISTER".as_slice() {
        return Some(OfficeLine::Register);
    }
    if let Some(date) = behind_report(text) {
        return parse_report(date);
    }
    match behind_window(text) {
        Some(bounds) => parse_window(bounds),
        None => parse_command(text),
    }
}

fn parse_command(text: &[u8]) -> Option<OfficeLine>
    ensures found { IfSome result (λ line. IsOfficeLine line × (text.now ≡ office_text line)) }
    ensures only { (ordered : Numbered) → IsOfficeLine (OfficeLine.Command ordered)
        → text.now ≡ line_of ordered.number ordered.command
        → result ≡ Some (OfficeLine.Command ordered) }
    ensures fits { IfSome result (λ _. length text.now ≤ 120) }
{
    let ordered = Command::parse_line(text)?;
    Some(OfficeLine::Command(ordered))
}

// The text after `WINDOW` and a space.
fn behind_window(text: &[u8]) -> Option<&[u8]>
    ensures found { IfSome result (λ bounds. text.now ≡ codes "WINDOW" ++ 32 ∷ bounds.now) }
    ensures only { (bounds : List ℕ) → text.now ≡ codes "WINDOW" ++ 32 ∷ bounds → IsSome result }
{
    text.strip_prefix(b"WINDOW ".as_slice())
}

// `from count`
#[tactic(auto, using(mbdc_change::proofs::LineSpellings::number_is_word, crate::proofs::Texts::bounds_fit))]
fn parse_window(bounds: &[u8]) -> Option<OfficeLine>
    ensures found { IfSome result (λ line.
        IsOfficeLine line × (codes "WINDOW" ++ 32 ∷ bounds.now ≡ office_text line)) }
    ensures only { (from count : ℕ) → IsNumber from → IsCount count
        → bounds.now ≡ decimal from ++ 32 ∷ decimal count
        → result ≡ Some (OfficeLine.Window from count) }
    ensures fits { IfSome result (λ _. length bounds.now ≤ 22) }
{
    let (from, count) = split_word(bounds)?;
    let from = parse_number(from)?;
    let count = parse_count(count)?;
    if from == 0 {
        return None;
    }
    Some(OfficeLine::Window { from, count })
}

// The text after `REPORT` and a space.
fn behind_report(text: &[u8]) -> Option<&[u8]>
    ensures found { IfSome result (λ date. text.now ≡ codes "REPORT" ++ 32 ∷ date.now) }
    ensures only { (date : List ℕ) → text.now ≡ codes "REPORT" ++ 32 ∷ date → IsSome result }
{
    text.strip_prefix(b"REPORT ".as_slice())
}

// `date`
#[tactic(auto, using(dc_units::proofs::DayTexts::day_length))]
fn parse_report(date: &[u8]) -> Option<OfficeLine>
    ensures found { IfSome result (λ line.
        IsOfficeLine line × (codes "REPORT" ++ 32 ∷ date.now ≡ office_text line)) }
    ensures only { (day : Day) → IsTrue (exists day.year day.month day.day)
        → date.now ≡ day_text day → result ≡ Some (OfficeLine.Report day) }
    ensures fits { IfSome result (λ _. length date.now ≤ 10) }
{
    let date = Date::parse_text(date)?;
    Some(OfficeLine::Report { date })
}

fn parse_count(word: &[u8]) -> Option<u8>
    ensures found { IfSome result (λ count. IsCount count × (word.now ≡ decimal count)) }
    ensures only { (count : ℕ) → IsCount count → word.now ≡ decimal count → result ≡ Some count }
{
    match parse_number(word)? {
        count @ 1..=100 => Some(count as u8),
        _ => None,
    }
}

/// A text spells at most one line of the office.
#[tactic(auto, using(crate::proofs::Texts::one_text))]
pub fn a_text_spells_one_line()
    ensures { (line other : OfficeLine) → IsOfficeLine line → IsOfficeLine other
        → office_text line ≡ office_text other → line ≡ other }
{}
