//! What is printed: each finding on a line, and the closing line.

ghost use Rattle.mbdc_io.specs.Written.{Wrote};
ghost use Rattle.mbdc_audit.specs.Told.{piece_text, pieces_text};
ghost use Rattle.std.specs.Prelude.{◌≡◌, false, IsTrue, OnOk};
ghost use Rattle.mbdc_audit.specs.Walk.{Checks, is_clean};

use crate::teller::Piece::{Number, Text};
use mbdc_io::{IoFault, Sink, put_number};

/// What was counted.
#[derive(Clone, Copy)]
pub(crate) struct Counts {
    pub numbers: u64,
    pub differ: u64,
    pub rules: u64,
    pub readings: u64,
    pub refused: u64,
    pub by_hand: u64,
    pub estimated: u64,
    pub struck: u64,
}

impl Counts {
    /// Nothing.
    pub const NONE: Counts = Counts {
        numbers: 0,
        differ: 0,
        rules: 0,
        readings: 0,
        refused: 0,
        by_hand: 0,
        estimated: 0,
        struck: 0,
    };
}

/// A piece of a text.
#[derive(Clone, Copy)]
pub enum Piece<'a> {
    Text(&'a [u8]),
    /// A number in decimal.
    Number(u64),
}

/// Prints findings, and counts.
#[derive(Drop)]
pub(crate) struct Teller<'s, W: Sink> {
    pub out: &'s mut W,
    pub counts: Counts,
}

// Writes a piece.
fn put_piece<W: Sink>(out: &mut W, piece: &Piece<'_>) -> Result<(), IoFault>
    ensures { Wrote W.Sink result out.old out.new (piece_text piece.now) }
{
    match piece {
        Text(text) => out.put(text),
        Number(number) => put_number(out, *number),
    }
}

/// Writes pieces, one after the other.
pub(crate) fn put_pieces<W: Sink>(out: &mut W, pieces: &[Piece<'_>]) -> Result<(), IoFault>
    ensures { Wrote W.Sink result out.old out.new (pieces_text pieces.now) }
{
    match pieces {
        [] => Ok(()),
        [piece, rest @ ..] => {
            put_piece(out, piece)?;
            put_pieces(out, rest)
        }
    }
}

impl<'s, W: Sink> Teller<'s, W> {
    /// Prints that a line breaks a rule, and how.
    pub fn rule(&mut self, line: u64, name: &str, words: &[Piece<'_>]) -> Result<(), IoFault>
        ensures { OnOk result (is_clean self.new.counts ≡ false) }
    {
        self.counts.rules = self.counts.rules.saturating_add(1);
        put_pieces(
            self.out,
            &[
                Text(b"RULE line "),
                Number(line),
                Text(b" "),
                Text(name.as_bytes()),
                Text(b": "),
            ],
        )?;
        put_pieces(self.out, words)?;
        self.out.put(b"\n")
    }

    /// Prints that a line breaks a rule where it does.
    pub fn unless(
        &mut self,
        holds: bool,
        line: u64,
        name: &str,
        words: &[Piece<'_>],
    ) -> Result<(), IoFault>
        ensures { Checks result self.old.counts self.new.counts (IsTrue holds) }
    {
        if holds {
            return Ok(());
        }
        self.rule(line, name, words)
    }
}
