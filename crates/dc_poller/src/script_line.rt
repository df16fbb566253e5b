//! The lines of a script.

ghost use Rattle.std.specs.Prelude.{◌≡◌, ◌<◌, ◌≤◌, ◌*◌, ◌++◌, ◌∷◌, ℕ, List, Some, IfSome, IsSome};
ghost use Rattle.std.specs.Prelude.{MatchOption, codes, length};
ghost use Rattle.std.specs.Fmt.{decimal};
ghost use Rattle.dc_address.specs.Text.{text_of};
ghost use Rattle.dc_address.specs.declared.identity.Identity.{Identity};
ghost use Rattle.mbdc_change.specs.Fields.{IsOfBytes};
ghost use Rattle.mbdc_change.specs.Fields.{end_of_numbers};
ghost use Rattle.mbdc_io.specs.Hex.{bytes_of};
ghost use Rattle.mbdc_io.specs.Lines.{longest_input_line};
ghost use Rattle.dc_poller.specs.ScriptLine.{LineSeen, IsLineOf, at, start, ask, hear, poll};
ghost use Rattle.dc_poller.specs.ScriptLine.{search, seen, greatest_line};
ghost use Rattle.dc_search.specs.Found.{greatest_budget};

use dc_address::Identity;
use mbdc_change::{Moment, parse_number, split_word};
use mbdc_io::{LONGEST, decode_hex};

/// A line of a script.
#[derive(Clone, Copy)]
pub enum ScriptLine<'a> {
    /// Nothing: the line is empty.
    Nothing,
    /// `AT seconds`: sets the time stamp (Unix seconds) of the `HEAR` lines that follow.
    At { moment: Moment },
    /// `START line ident`: begins the readout of a meter on its line.
    Start { line: u8, meter: Identity },
    /// `ASK line`: prints a line's request.
    Ask { line: u8 },
    /// `HEAR line hex`: an answer is received on a line; `HEAR line` is silence.
    Hear { line: u8, answer: &'a [u8] },
    /// `COMMIT`: writes the pending changes.
    Commit,
    /// `OFFICE` and a space, followed by a line of the office.
    Office { text: &'a [u8] },
    /// `POLL line ident`: reads a meter over the bus of its line.
    Poll { line: u8, meter: Identity },
    /// `SEARCH budget`: searches for meters over the gateway.
    Search { budget: u32 },
}

impl<'a> ScriptLine<'a> {
    /// Parses a line; `None` if it spells nothing, or has more than 4,096 bytes. The bytes of an
    /// answer are decoded into `room`, which needs at least half as many bytes.
    pub fn parse(text: &'a [u8], room: &'a mut [u8]) -> Option<ScriptLine<'a>>
        requires { longest_input_line ≤ 2 * length room.old }
        ensures found { IfSome result (λ read. IsLineOf text.now (seen read)) }
        ensures only { (asked : LineSeen) → IsLineOf text.now asked
            → MatchOption result ⊥ (λ read. seen read ≡ asked) }
    {
        if text.len() > LONGEST {
            return None;
        }
        if text.is_empty() {
            return Some(ScriptLine::Nothing);
        }
        if text == b"COMMIT".as_slice() {
            return Some(ScriptLine::Commit);
        }
        if let Some(moment) = parse_at(text) {
            return Some(ScriptLine::At { moment });
        }
        if let Some((line, meter)) = parse_start(text) {
            return Some(ScriptLine::Start { line, meter });
        }
        if let Some(line) = parse_ask(text) {
            return Some(ScriptLine::Ask { line });
        }
        if let Some(line) = behind_office(text) {
            return Some(ScriptLine::Office { text: line });
        }
        if let Some((line, meter)) = parse_poll(text) {
            return Some(ScriptLine::Poll { line, meter });
        }
        if let Some(budget) = parse_search(text) {
            return Some(ScriptLine::Search { budget });
        }
        let (line, answer) = parse_hear(text, room)?;
        Some(ScriptLine::Hear { line, answer })
    }
}

// ---- the forms, each by its first word

fn parse_at(text: &[u8]) -> Option<Moment>
    requires { length text.now ≤ longest_input_line }
    ensures found { IfSome result (λ moment. IsLineOf text.now (at moment.seconds)) }
    ensures only { (moment : ℕ) → IsLineOf text.now (at moment) → IsSome result }
{
    let word = text.strip_prefix(b"AT ".as_slice())?;
    Moment::from_seconds(parse_number(word)?)
}

fn parse_start(text: &[u8]) -> Option<(u8, Identity)>
    requires { length text.now ≤ longest_input_line }
    ensures found { IfSome result (λ told. IsLineOf text.now (start told.0 told.1)) }
    ensures only { (line : ℕ) (meter : Identity) → IsLineOf text.now (start line meter)
        → IsSome result }
{
    let words = text.strip_prefix(b"START ".as_slice())?;
    parse_meter_on_line(words)
}

fn parse_ask(text: &[u8]) -> Option<u8>
    requires { length text.now ≤ longest_input_line }
    ensures found { IfSome result (λ line. IsLineOf text.now (ask line)) }
    ensures only { (line : ℕ) → IsLineOf text.now (ask line) → IsSome result }
{
    let word = text.strip_prefix(b"ASK ".as_slice())?;
    parse_line_number(word)
}

fn parse_poll(text: &[u8]) -> Option<(u8, Identity)>
    requires { length text.now ≤ longest_input_line }
    ensures found { IfSome result (λ told. IsLineOf text.now (poll told.0 told.1)) }
    ensures only { (line : ℕ) (meter : Identity) → IsLineOf text.now (poll line meter)
        → IsSome result }
{
    let words = text.strip_prefix(b"POLL ".as_slice())?;
    parse_meter_on_line(words)
}

fn parse_search(text: &[u8]) -> Option<u32>
    requires { length text.now ≤ longest_input_line }
    ensures found { IfSome result (λ budget. IsLineOf text.now (search budget)) }
    ensures only { (budget : ℕ) → IsLineOf text.now (search budget) → IsSome result }
{
    let word = text.strip_prefix(b"SEARCH ".as_slice())?;
    parse_budget(word)
}

fn parse_hear<'a>(text: &[u8], room: &'a mut [u8]) -> Option<(u8, &'a [u8])>
    requires fits { length text.now ≤ longest_input_line }
    requires room { longest_input_line ≤ 2 * length room.old }
    ensures found { IfSome result (λ told. IsLineOf text.now (hear told.0 told.1.now)) }
    ensures only { (line : ℕ) (answer : List ℕ) → IsLineOf text.now (hear line answer)
        → IsSome result }
{
    let words = behind_hear(text)?;
    let Some((line, digits)) = split_word(words) else {
        return Some((parse_line_number(words)?, &[]));
    };
    let line = parse_line_number(line)?;
    Some((line, parse_answer(digits, room)?))
}

fn behind_hear(text: &[u8]) -> Option<&[u8]>
    ensures found { IfSome result (λ words. text.now ≡ codes "HEAR" ++ 32 ∷ words.now) }
    ensures only { (words : List ℕ) → text.now ≡ codes "HEAR" ++ 32 ∷ words → IsSome result }
{
    text.strip_prefix(b"HEAR ".as_slice())
}

fn behind_office(text: &[u8]) -> Option<&[u8]>
    ensures found { IfSome result (λ line. text.now ≡ codes "OFFICE" ++ 32 ∷ line.now) }
    ensures only { (line : List ℕ) → text.now ≡ codes "OFFICE" ++ 32 ∷ line → IsSome result }
{
    text.strip_prefix(b"OFFICE ".as_slice())
}

// ---- words

// A number up to a bound.
fn parse_up_to(word: &[u8], most: u64) -> Option<u64>
    requires { most < end_of_numbers }
    ensures found { IfSome result (λ number. (number ≤ most) × (word.now ≡ decimal number)) }
    ensures only { (number : ℕ) → number ≤ most → word.now ≡ decimal number → result ≡ Some number }
{
    let number = parse_number(word)?;
    if number > most {
        return None;
    }
    Some(number)
}

fn parse_budget(word: &[u8]) -> Option<u32>
    ensures found { IfSome result (λ budget.
        (budget ≤ greatest_budget) × (word.now ≡ decimal budget)) }
    ensures only { (budget : ℕ) → budget ≤ greatest_budget → word.now ≡ decimal budget
        → result ≡ Some budget }
{
    let budget = parse_up_to(word, u64::from(u32::MAX))?;
    Some(budget as u32)
}

fn parse_line_number(word: &[u8]) -> Option<u8>
    ensures found { IfSome result (λ line. (line ≤ greatest_line) × (word.now ≡ decimal line)) }
    ensures only { (line : ℕ) → line ≤ greatest_line → word.now ≡ decimal line
        → result ≡ Some line }
{
    let line = parse_up_to(word, u64::from(u8::MAX))?;
    Some(line as u8)
}

fn parse_meter(word: &[u8]) -> Option<Identity>
    ensures found { IfSome result (λ meter. IsOfBytes meter × (word.now ≡ text_of meter)) }
    ensures only { (meter : Identity) → IsOfBytes meter → word.now ≡ text_of meter
        → result ≡ Some meter }
{
    Identity::parse_text(word).ok()
}

// `line ident`
#[tactic(auto, using(crate::proofs::Scripts::line_is_word))]
fn parse_meter_on_line(words: &[u8]) -> Option<(u8, Identity)>
    ensures found { IfSome result (λ told. (told.0 ≤ greatest_line) × IsOfBytes told.1
        × (words.now ≡ decimal told.0 ++ 32 ∷ text_of told.1)) }
    ensures only { (line : ℕ) (meter : Identity) → line ≤ greatest_line → IsOfBytes meter
        → words.now ≡ decimal line ++ 32 ∷ text_of meter → IsSome result }
{
    let (line, meter) = split_word(words)?;
    let line = parse_line_number(line)?;
    Some((line, parse_meter(meter)?))
}

// The bytes that some digits stand for.
fn parse_answer<'a>(digits: &[u8], room: &'a mut [u8]) -> Option<&'a [u8]>
    requires { length digits.now ≤ 2 * length room.old }
    ensures found { IfSome result (λ answer.
        (0 < length answer.now) × (bytes_of digits.now ≡ Some answer.now)) }
    ensures only { (answer : List ℕ) → 0 < length answer → bytes_of digits.now ≡ Some answer
        → IsSome result }
{
    let count = decode_hex(digits, room)?;
    if count == 0 {
        return None;
    }
    let (answer, _) = room.split_at(count);
    Some(answer)
}
