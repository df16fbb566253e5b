//! The commands of the billing office, and their lines, written and parsed.

ghost use Rattle.std.specs.Prelude.{◌≡◌, ◌+◌, ◌<◌, ◌≤◌, ◌++◌, ◌∷◌, length, ℕ, List, Option, Some};
ghost use Rattle.std.specs.Prelude.{IfSome, MatchOption, codes};
ghost use Rattle.std.specs.List.{join_with_byte};
ghost use Rattle.std.specs.Fmt.{decimal};
ghost use Rattle.dc_address.specs.Primary.{IsPrimary};
ghost use Rattle.dc_address.specs.Text.{text_of};
ghost use Rattle.dc_address.specs.declared.identity.Identity.{Identity};
ghost use Rattle.mbdc_change.specs.Command.{line_of, command_words, longest_line, IsCommand};
ghost use Rattle.mbdc_change.specs.Command.{command_text, verb_of, arguments_of, NamesMeters};
ghost use Rattle.mbdc_change.specs.Command.{meter_removed};
ghost use Rattle.mbdc_change.specs.Fields.{address_word, most_digits, IsNumber, end_of_numbers};
ghost use Rattle.mbdc_change.specs.Fields.{IsOfBytes, IsAddress, IsBusLine};
ghost use Rattle.mbdc_change.specs.declared.command.Command.{Command};

use crate::words::{parse_number, split_word};
use crate::{CommandLine, Flat};
use dc_address::{Identity, Primary};

/// A command of the billing office.
#[derive(Clone, Copy)]
pub enum Command {
    /// Registers a meter.
    Fit {
        /// The meter.
        meter: Identity,
        /// The bus line, from 1 to 8.
        line: u8,
        /// Its primary address; `None` for secondary addressing.
        address: Option<Primary>,
        /// Its flat.
        flat: Flat,
    },
    /// Assigns a meter to another flat.
    Move {
        /// The meter.
        meter: Identity,
        /// Its new flat.
        flat: Flat,
    },
    /// Removes a meter.
    Out {
        /// The meter.
        meter: Identity,
    },
    /// Confirms the readings up to a serial.
    Confirm {
        /// The last serial that the office has, of at most 18 digits.
        serial: u64,
    },
    /// Replaces a meter by another at the same place.
    Swap {
        /// The old meter.
        old: Identity,
        /// The new meter.
        new: Identity,
        /// The new meter's primary address; `None` for secondary addressing.
        address: Option<Primary>,
    },
}

/// A command and its number.
#[derive(Clone, Copy)]
pub struct Numbered {
    /// Its number, from 1, of at most 18 digits.
    pub number: u64,
    /// The command.
    pub command: Command,
}

impl Command {
    /// The command's line under a number: `n FIT ident line addr flat`, `n MOVE ident flat`, `n OUT ident`,
    /// `n CONFIRM serial` or `n SWAP old new addr`, `addr` being `S` or a primary address.
    #[tactic(auto, unfolding(crate::specs::Command::line_of))]
    pub fn line(&self, number: u64) -> CommandLine
        requires number { IsNumber number }
        requires command { IsCommand self.now }
        ensures line { result ≡ line_of number self.now }
        ensures fits { length result ≤ longest_line }
    {
        let line = CommandLine::of_number(number);
        match *self {
            Command::Fit {
                meter,
                line: bus_line,
                address,
                flat,
            } => fit_line(line, &meter, bus_line, address, flat),
            Command::Move { meter, flat } => move_line(line, &meter, flat),
            Command::Out { meter } => out_line(line, &meter),
            Command::Confirm { serial } => confirm_line(line, serial),
            Command::Swap { old, new, address } => swap_line(line, &old, &new, address),
        }
    }

    /// The meter that the command removes, if it removes one.
    pub fn meter_removed(&self) -> Option<Identity>
        ensures { result ≡ meter_removed self.now }
    {
        match *self {
            Command::Out { meter } => Some(meter),
            Command::Swap { old, .. } => Some(old),
            _ => None,
        }
    }
}

fn fit_line(
    line: CommandLine,
    meter: &Identity,
    bus_line: u8,
    address: Option<Primary>,
    flat: Flat,
) -> CommandLine
    requires { length line ≤ most_digits }
    ensures words { result ≡ join_with_byte 32
        (line ∷ command_words (Command.Fit meter.now bus_line address flat)) }
    ensures fits { length result ≤ longest_line }
{
    let mut line = line;
    line.push_word(b"FIT");
    line.push_word(&meter.text());
    line.push_number(u64::from(bus_line));
    push_address(&mut line, address);
    line.push_word(flat.as_slice());
    line
}

fn move_line(line: CommandLine, meter: &Identity, flat: Flat) -> CommandLine
    requires { length line ≤ most_digits }
    ensures words { result ≡ join_with_byte 32
        (line ∷ command_words (Command.Move meter.now flat)) }
    ensures fits { length result ≤ longest_line }
{
    let mut line = line;
    line.push_word(b"MOVE");
    line.push_word(&meter.text());
    line.push_word(flat.as_slice());
    line
}

fn out_line(line: CommandLine, meter: &Identity) -> CommandLine
    requires { length line ≤ most_digits }
    ensures words { result ≡ join_with_byte 32 (line ∷ command_words (Command.Out meter.now)) }
    ensures fits { length result ≤ longest_line }
{
    let mut line = line;
    line.push_word(b"OUT");
    line.push_word(&meter.text());
    line
}

fn confirm_line(line: CommandLine, serial: u64) -> CommandLine
    requires room { length line ≤ most_digits }
    requires serial { serial < end_of_numbers }
    ensures words { result ≡ join_with_byte 32 (line ∷ command_words (Command.Confirm serial)) }
    ensures fits { length result ≤ longest_line }
{
    let mut line = line;
    line.push_word(b"CONFIRM");
    line.push_number(serial);
    line
}

fn swap_line(
    line: CommandLine,
    old: &Identity,
    new: &Identity,
    address: Option<Primary>,
) -> CommandLine
    requires { length line ≤ most_digits }
    ensures words { result ≡ join_with_byte 32
        (line ∷ command_words (Command.Swap old.now new.now address)) }
    ensures fits { length result ≤ longest_line }
{
    let mut line = line;
    line.push_word(b"SWAP");
    line.push_word(&old.text());
    line.push_word(&new.text());
    push_address(&mut line, address);
    line
}

fn push_address(line: &mut CommandLine, address: Option<Primary>)
    requires { length line.old + 1 + most_digits ≤ longest_line }
    ensures line { line.new ≡ line.old ++ 32 ∷ address_word address }
    ensures len { length line.new ≤ length line.old + 1 + most_digits }
{
    match address {
        Some(address) => line.push_number(u64::from(address.get())),
        None => line.push_word(b"S"),
    }
}

// ---- parsing

impl Command {
    /// Parses the command that a line spells, and its number; `None` if the line spells no command.
    /// Each command has exactly one line, of at most 120 bytes.
    #[tactic(auto, using(crate::proofs::CommandSpellings::line_read), unfolding(crate::specs::Command::line_of))]
    pub fn parse_line(line: &[u8]) -> Option<Numbered>
        ensures found { IfSome result (λ found.
            IsNumber found.number × IsCommand found.command × NamesMeters found.command
            × (line.now ≡ line_of found.number found.command)) }
        ensures only { (number : ℕ) (command : Command) → IsNumber number → IsCommand command
            → NamesMeters command → line.now ≡ line_of number command
            → result ≡ Some (record { number = number; command = command }) }
        ensures fits { IfSome result (λ _. length line.now ≤ longest_line) }
    {
        let (number, text) = split_word(line)?;
        let number = parse_number(number)?;
        if number == 0 {
            return None;
        }
        let command = parse_command(text)?;
        Some(Numbered { number, command })
    }
}

/// A line spells at most one command, under one number.
#[tactic(auto, using(crate::proofs::CommandSpellings::one_line))]
pub fn a_line_has_one_command()
    ensures { (m n : ℕ) (a b : Command) → IsNumber m → IsCommand a → NamesMeters a → IsNumber n
        → IsCommand b → NamesMeters b → line_of m a ≡ line_of n b → (m ≡ n) × (a ≡ b) }
{}

// Parses a command from its line without the number.
fn parse_command(text: &[u8]) -> Option<Command>
    ensures found { IfSome result (λ command.
        IsCommand command × NamesMeters command × (text.now ≡ command_text command)) }
    ensures only { (command : Command) → IsCommand command → NamesMeters command
        → text.now ≡ command_text command → result ≡ Some command }
{
    let (verb, arguments) = split_word(text)?;
    match verb {
        b"FIT" => parse_fit(arguments),
        b"MOVE" => parse_move(arguments),
        b"OUT" => parse_out(arguments),
        b"CONFIRM" => parse_confirm(arguments),
        b"SWAP" => parse_swap(arguments),
        _ => None,
    }
}

// `ident line addr flat`
#[tactic(auto, using(crate::proofs::LineSpellings::address_is_word))]
fn parse_fit(arguments: &[u8]) -> Option<Command>
    ensures found { IfSome result (λ command. IsCommand command × NamesMeters command
        × (codes "FIT" ++ 32 ∷ arguments.now ≡ command_text command)) }
    ensures only { (command : Command) → IsCommand command → NamesMeters command
        → verb_of command ≡ codes "FIT" → arguments.now ≡ arguments_of command
        → result ≡ Some command }
{
    let (meter, rest) = split_meter(arguments)?;
    let (line, rest) = split_bus_line(rest)?;
    let (address, flat) = split_word(rest)?;
    let address = parse_address(address)?;
    let flat = Flat::new(flat)?;
    Some(Command::Fit {
        meter,
        line,
        address,
        flat,
    })
}

// `ident flat`
fn parse_move(arguments: &[u8]) -> Option<Command>
    ensures found { IfSome result (λ command. IsCommand command × NamesMeters command
        × (codes "MOVE" ++ 32 ∷ arguments.now ≡ command_text command)) }
    ensures only { (command : Command) → IsCommand command → NamesMeters command
        → verb_of command ≡ codes "MOVE" → arguments.now ≡ arguments_of command
        → result ≡ Some command }
{
    let (meter, flat) = split_meter(arguments)?;
    let flat = Flat::new(flat)?;
    Some(Command::Move { meter, flat })
}

// `ident`
fn parse_out(arguments: &[u8]) -> Option<Command>
    ensures found { IfSome result (λ command. IsCommand command × NamesMeters command
        × (codes "OUT" ++ 32 ∷ arguments.now ≡ command_text command)) }
    ensures only { (command : Command) → IsCommand command → NamesMeters command
        → verb_of command ≡ codes "OUT" → arguments.now ≡ arguments_of command
        → result ≡ Some command }
{
    let meter = parse_meter(arguments)?;
    Some(Command::Out { meter })
}

// `serial`
fn parse_confirm(arguments: &[u8]) -> Option<Command>
    ensures found { IfSome result (λ command. IsCommand command × NamesMeters command
        × (codes "CONFIRM" ++ 32 ∷ arguments.now ≡ command_text command)) }
    ensures only { (command : Command) → IsCommand command → NamesMeters command
        → verb_of command ≡ codes "CONFIRM" → arguments.now ≡ arguments_of command
        → result ≡ Some command }
{
    let serial = parse_number(arguments)?;
    Some(Command::Confirm { serial })
}

// `old new addr`
fn parse_swap(arguments: &[u8]) -> Option<Command>
    ensures found { IfSome result (λ command. IsCommand command × NamesMeters command
        × (codes "SWAP" ++ 32 ∷ arguments.now ≡ command_text command)) }
    ensures only { (command : Command) → IsCommand command → NamesMeters command
        → verb_of command ≡ codes "SWAP" → arguments.now ≡ arguments_of command
        → result ≡ Some command }
{
    let (old, rest) = split_meter(arguments)?;
    let (new, address) = split_meter(rest)?;
    let address = parse_address(address)?;
    Some(Command::Swap { old, new, address })
}

// ---- words, and a first word with the text after its space

fn parse_meter(word: &[u8]) -> Option<Identity>
    ensures found { IfSome result (λ meter. IsOfBytes meter × (word.now ≡ text_of meter)) }
    ensures only { (meter : Identity) → IsOfBytes meter → word.now ≡ text_of meter
        → result ≡ Some meter }
{
    Identity::parse_text(word).ok()
}

#[tactic(auto, using(crate::proofs::LineSpellings::meter_is_word))]
fn split_meter(text: &[u8]) -> Option<(Identity, &[u8])>
    ensures found { IfSome result (λ parts.
        IsOfBytes parts.0 × (text.now ≡ text_of parts.0 ++ 32 ∷ parts.1.now)) }
    ensures only { (meter : Identity) (rest : List ℕ) → IsOfBytes meter
        → text.now ≡ text_of meter ++ 32 ∷ rest
        → MatchOption result ⊥ (λ parts. (parts.0 ≡ meter) × (parts.1.now ≡ rest)) }
{
    let (word, rest) = split_word(text)?;
    Some((parse_meter(word)?, rest))
}

fn parse_bus_line(word: &[u8]) -> Option<u8>
    ensures found { IfSome result (λ line. IsBusLine line × (word.now ≡ decimal line)) }
    ensures only { (line : ℕ) → IsBusLine line → word.now ≡ decimal line → result ≡ Some line }
{
    match parse_number(word)? {
        line @ 1..=8 => Some(line as u8),
        _ => None,
    }
}

#[tactic(auto, using(crate::proofs::LineSpellings::line_is_word))]
fn split_bus_line(text: &[u8]) -> Option<(u8, &[u8])>
    ensures found { IfSome result (λ parts.
        IsBusLine parts.0 × (text.now ≡ decimal parts.0 ++ 32 ∷ parts.1.now)) }
    ensures only { (line : ℕ) (rest : List ℕ) → IsBusLine line
        → text.now ≡ decimal line ++ 32 ∷ rest
        → MatchOption result ⊥ (λ parts. (parts.0 ≡ line) × (parts.1.now ≡ rest)) }
{
    let (word, rest) = split_word(text)?;
    Some((parse_bus_line(word)?, rest))
}

fn parse_primary(word: &[u8]) -> Option<Primary>
    ensures found { IfSome result (λ address. IsPrimary address × (word.now ≡ decimal address)) }
    ensures only { (address : ℕ) → IsPrimary address → word.now ≡ decimal address
        → result ≡ Some address }
{
    let number = parse_number(word)?;
    if number > 250 {
        return None;
    }
    Primary::new(number as u8)
}

fn parse_address(word: &[u8]) -> Option<Option<Primary>>
    ensures found { IfSome result (λ address.
        IsAddress address × (word.now ≡ address_word address)) }
    ensures only { (address : Option ℕ) → IsAddress address → word.now ≡ address_word address
        → result ≡ Some address }
{
    match word {
        b"S" => Some(None),
        _ => Some(Some(parse_primary(word)?)),
    }
}
