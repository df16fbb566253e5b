//! Parses changes from their lines.

ghost use Rattle.std.specs.Prelude.{◌≡◌, ◌≤◌, ◌*◌, ◌∷◌, ◌++◌, ℕ, List, IfSome, Some, length};
ghost use Rattle.std.specs.Prelude.{decimal, codes};
ghost use Rattle.mbdc_io.specs.Hex.{bytes_of};
ghost use Rattle.mbdc_change.specs.Body.{BodyRow, IsBody};
ghost use Rattle.mbdc_change.specs.ChangeLine.{SpellsTelegram, Spells, IsLineOf};
ghost use Rattle.mbdc_change.specs.ChangeLine.{longest_change_line};
ghost use Rattle.mbdc_change.specs.Valid.{IsChange, IsTelegram};
ghost use Rattle.mbdc_change.specs.Fields.{last_moment, most_parts};
ghost use Rattle.mbdc_change.specs.declared.change.Change.{Change};

use crate::words::{parse_number, split_word};
use crate::{Body, Change, Command, LONGEST_CHANGE_LINE, Moment};
use dc_records::one_telegram;
use mbdc_io::decode_hex;

impl<'a> Change<'a> {
    /// Parses the change that a line spells; `None` if it spells none, or is longer than
    /// [`LONGEST_CHANGE_LINE`]. A command has exactly one line; a telegram is the words `TELEGRAM
    /// part moment hex`, with hex digits of either case. The bytes of a body are decoded into
    /// `room`, which needs half as many bytes as the longest line.
    pub fn parse_line(line: &[u8], room: &'a mut [u8]) -> Option<Change<'a>>
        requires { longest_change_line ≤ 2 * length room.old }
        ensures found { IfSome result (λ change. IsLineOf line.now change) }
        ensures only { (change : Change) → IsLineOf line.now change → result ≡ Some change }
    {
        if line.len() > LONGEST_CHANGE_LINE {
            return None;
        }
        match Command::parse_line(line) {
            Some(found) => Some(Change::Command {
                number: found.number,
                command: found.command,
            }),
            None => parse_telegram(line, room),
        }
    }
}

/// A line spells at most one change.
pub fn a_line_has_one_change()
    ensures { (line : List ℕ) (a b : Change) → IsLineOf line a → IsLineOf line b → a ≡ b }
{
    one_telegram();
}

// Parses the telegram that a line spells.
fn parse_telegram<'a>(line: &[u8], room: &'a mut [u8]) -> Option<Change<'a>>
    requires { length line.now ≤ 2 * length room.old }
    ensures found { IfSome result (λ change. IsChange change × Spells line.now change) }
    ensures only { (part moment : ℕ) (body : BodyRow) → IsTelegram part moment body
        → SpellsTelegram line.now part moment body.bytes
        → result ≡ Some (Change.Telegram part moment body) }
{
    let (verb, words) = split_word(line)?;
    match verb {
        b"TELEGRAM" => parse_words(words, room),
        _ => None,
    }
}

// `part moment hex`
#[tactic(auto, using(crate::proofs::TelegramLines::part_is_word, crate::proofs::TelegramLines::moment_is_word))]
fn parse_words<'a>(words: &[u8], room: &'a mut [u8]) -> Option<Change<'a>>
    requires { length words.now ≤ 2 * length room.old }
    ensures found { IfSome result (λ change.
        IsChange change × Spells (codes "TELEGRAM" ++ 32 ∷ words.now) change) }
    ensures only { (part moment : ℕ) (body : BodyRow) → IsTelegram part moment body
        → SpellsTelegram (codes "TELEGRAM" ++ 32 ∷ words.now) part moment body.bytes
        → result ≡ Some (Change.Telegram part moment body) }
{
    let (part, rest) = split_word(words)?;
    let part = parse_part(part)?;
    let (moment, digits) = split_word(rest)?;
    let moment = parse_moment(moment)?;
    let body = parse_body(digits, room)?;
    Some(Change::Telegram { part, moment, body })
}

fn parse_part(word: &[u8]) -> Option<u8>
    ensures found { IfSome result (λ part. word.now ≡ decimal part) }
    ensures only { (part : ℕ) → part ≤ most_parts → word.now ≡ decimal part → result ≡ Some part }
{
    let number = parse_number(word)?;
    if number > 255 {
        return None;
    }
    Some(number as u8)
}

fn parse_moment(word: &[u8]) -> Option<u64>
    ensures found { IfSome result (λ moment. (moment ≤ last_moment) × (word.now ≡ decimal moment)) }
    ensures only { (moment : ℕ) → moment ≤ last_moment → word.now ≡ decimal moment
        → result ≡ Some moment }
{
    let moment = Moment::from_seconds(parse_number(word)?)?;
    Some(moment.seconds)
}

fn parse_body<'a>(digits: &[u8], room: &'a mut [u8]) -> Option<Body<'a>>
    requires { length digits.now ≤ 2 * length room.old }
    ensures found { IfSome result (λ body. IsBody body × (bytes_of digits.now ≡ Some body.bytes)) }
    ensures only { (body : BodyRow) → IsBody body → bytes_of digits.now ≡ Some body.bytes
        → result ≡ Some body }
{
    let count = decode_hex(digits, room)?;
    let (content, _) = room.split_at(count);
    Body::parse(content)
}
