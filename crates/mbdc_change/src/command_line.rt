//! The line of a command, stored in place.

ghost use Rattle.std.specs.Prelude.{◌≡◌, ◌+◌, ◌≤◌, ◌<◌, ◌++◌, ◌∷◌, SomeIff, [], length};
ghost use Rattle.std.specs.Fmt.{decimal};
ghost use Rattle.mbdc_change.specs.Command.{longest_line};
ghost use Rattle.mbdc_change.specs.Fields.{most_digits};
ghost use Rattle.mbdc_change.specs.Fields.{end_of_numbers};

use crate::LONGEST_LINE;
use crate::kept::padded;
use itoa::Buffer;
use std::marker::Model;

/// A command's line: at most [`LONGEST_LINE`] bytes (this product).
#[derive(Clone, Copy)]
pub struct CommandLine {
    bytes: [u8; LONGEST_LINE],
    len: u8,
}

impl Model for CommandLine {
    ghost use Rattle.std.specs.Prelude.{ℕ, List, length, take};
    ghost use Rattle.mbdc_change.specs.Flat.{padded, IsKept};
    ghost use Rattle.mbdc_change.specs.Command.{longest_line};

    ghost Value = { List ℕ };

    ghost view = { λ l. take l.len l.bytes };

    ghost invariant = { λ l. IsKept longest_line l.bytes l.len };

    ghost inverse = { λ bytes. record { bytes = padded longest_line bytes; len = length bytes } };

    ghost inverse_ok = { λ l h i. record { bytes = h.zeros i; len = h.counted i } };
}

impl CommandLine {
    /// Returns an empty line.
    pub fn empty() -> CommandLine
        ensures { result ≡ [] }
    {
        CommandLine {
            bytes: [0; LONGEST_LINE],
            len: 0,
        }
    }

    /// Returns a line of these bytes, if they are at most 120.
    pub fn new(line: &[u8]) -> Option<CommandLine>
        ensures { SomeIff result (length line.now ≤ longest_line) line.now }
    {
        if line.len() > LONGEST_LINE {
            return None;
        }
        Some(CommandLine {
            bytes: padded(line),
            len: line.len() as u8,
        })
    }

    /// The line's bytes.
    pub fn as_slice(&self) -> &[u8]
        ensures line { result.now ≡ self.now }
        ensures fits { length self.now ≤ longest_line }
    {
        &self.bytes[..usize::from(self.len)]
    }

    /// Appends bytes to the line.
    fn push(&mut self, bytes: &[u8])
        requires { length self.old + length bytes.now ≤ longest_line }
        ensures line { self.new ≡ self.old ++ bytes.now }
        ensures len { length self.new ≡ length self.old + length bytes.now }
    {
        let start = usize::from(self.len);
        let end = start + bytes.len();
        self.bytes[start..end].copy_from_slice(bytes);
        self.len = end as u8;
    }

    /// Appends a space and a word to the line.
    pub(crate) fn push_word(&mut self, word: &[u8])
        requires { length self.old + 1 + length word.now ≤ longest_line }
        ensures line { self.new ≡ self.old ++ 32 ∷ word.now }
        ensures len { length self.new ≡ length self.old + 1 + length word.now }
    {
        self.push(b" ");
        self.push(word);
    }

    /// Returns a line of one number.
    pub(crate) fn of_number(number: u64) -> CommandLine
        requires { number < end_of_numbers }
        ensures line { result ≡ decimal number }
        ensures len { length result ≤ most_digits }
    {
        let mut line = CommandLine::empty();
        line.push(Buffer::new().format(number).as_bytes());
        line
    }

    /// Appends a space and a number to the line.
    pub(crate) fn push_number(&mut self, number: u64)
        requires number { number < end_of_numbers }
        requires room { length self.old + 1 + most_digits ≤ longest_line }
        ensures line { self.new ≡ self.old ++ 32 ∷ decimal number }
        ensures len { length self.new ≤ length self.old + 1 + most_digits }
    {
        let number = CommandLine::of_number(number);
        self.push_word(number.as_slice());
    }
}
