//! What is asked of an image.

ghost use Rattle.std.specs.Prelude.{◌≡◌, IsTrue, Some, codes, IfSome};
ghost use Rattle.dc_units.specs.Date.{Day, exists};
ghost use Rattle.dc_units.specs.Text.{day_text};
ghost use Rattle.mbdc_looks.specs.Answer.{report_word};

use dc_units::Date;
use mbdc_json::status::Clock;

/// What is asked of an image.
#[derive(Clone, Copy)]
pub enum Asked {
    /// Its contents, one fact a line, or why it doesn't open.
    Contents,
    /// What its meters stand at.
    Values(Form),
    /// When its meters were last heard at a clock, and how full the image is.
    Status(Form, Clock),
    /// What its meters stand at and when they were last heard at a clock, as a table for a person.
    Overview(Clock),
    /// A table of its contents.
    Table(Report, Form),
}

/// How values and tables are written.
#[derive(Clone, Copy)]
pub enum Form {
    /// Values as lines of words, one a fact; a table as comma-separated values under a header.
    Text,
    /// JSON Lines (RFC 8259), an object a meter or a row.
    Json,
}

/// A table of an image's contents.
#[derive(Clone, Copy)]
pub enum Report {
    /// The registered meters, by flat.
    Register,
    /// The due-date values for a date, by flat.
    Due(Date),
}

impl Report {
    /// Parses the word of a table: `register`, or a valid date, as `2024-12-31`.
    pub fn parse(word: &[u8]) -> Option<Report>
        ensures found { IfSome result (λ report. word.now ≡ report_word report) }
        ensures register { word.now ≡ codes "register" → result ≡ Some Report.Register }
        ensures due { (date : Day) → IsTrue (exists date.year date.month date.day)
            → word.now ≡ day_text date → result ≡ Some (Report.Due date) }
    {
        if word == b"register".as_slice() {
            return Some(Report::Register);
        }
        let date = Date::parse_text(word)?;
        Some(Report::Due(date))
    }
}
