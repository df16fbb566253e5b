//! The plan of a list: its commands, and what is said of each row.

ghost use Rattle.std.specs.Prelude.{◌≡◌, ◌+◌, ◌++◌, ◌∷◌, ◌↔◌, [], IfOk, IsOk, OnOk};
ghost use Rattle.mbdc_io.specs.Written.{Wrote};
ghost use Rattle.mbdc_change.specs.State.{Held};
ghost use Rattle.mbdc_fit.specs.Rows.{IsReadAs};
ghost use Rattle.mbdc_change.specs.Accepts.{Accepts};
ghost use Rattle.mbdc_change.specs.Apply.{applied};
ghost use Rattle.mbdc_change.specs.Encoding.{change_bytes};
ghost use Rattle.mbdc_change.specs.Command.{line_of};
ghost use Rattle.mbdc_change.specs.Valid.{IsChange};
ghost use Rattle.mbdc_fit.specs.Plan.{change_of, fit_text, numbered};
ghost use Rattle.mbdc_fit.specs.Plan.{AreSteps, IsOneGroup, IsPlanned, IsStep, IsStepBy, nothing};

use crate::list::listed::{Column, Listed, Listing};
use crate::list::row::{Row, read_row};
use crate::list::verdict::{
    Verdict, command_of, lacking_words, put_row, put_said, put_wrong, verdict_on,
};
use dc_meters::House;
use mbdc_change::{Change, Command, CommandLine, encode_change};
use mbdc_io::{Bytes, IoFault, NoMemory, Sink};
use std::alloc::Allocator;
use std::marker::Model;

/// What a list of meters comes to on a register.
#[derive(Drop)]
pub struct Plan<A: Allocator> {
    commands: Vec<CommandLine, A>,
    changes: Bytes<A>,
    pub(crate) is_wrong: bool,
    pub(crate) text: Bytes<A>,
    pub(crate) refusals: Bytes<A>,
}

impl<A: Allocator> Model for Plan<A> {
    ghost use Rattle.mbdc_fit.specs.Plan.{Outcome};

    ghost Value = { Outcome };

    ghost view = { λ p. record {
      commands = p.commands.items;
      payload = p.changes.bytes;
      wrong = p.is_wrong;
      text = p.text.bytes;
      refusals = p.refusals.bytes;
    } };
}

// A put into memory fails if memory runs out.
pub(crate) fn kept(put: Result<(), IoFault>) -> Result<(), NoMemory>
    ensures { IsOk result ↔ IsOk put }
{
    match put {
        Ok(()) => Ok(()),
        Err(IoFault) => Err(NoMemory),
    }
}

impl<A: Allocator + Copy> Plan<A> {
    /// The lines of the commands, in order, numbered from the register's last command on.
    pub fn commands(&self) -> &[CommandLine]
        ensures { result.now ≡ self.now.commands }
    {
        self.commands.as_slice()
    }

    /// The encodings of the changes of these commands, one after the other: the payload of one group.
    pub fn changes(&self) -> &[u8]
        ensures { result.now ≡ self.now.payload }
    {
        self.changes.as_slice()
    }

    /// Whether a row is wrong, so that nothing is done.
    pub fn is_wrong(&self) -> bool
        ensures { result ≡ self.now.wrong }
    {
        self.is_wrong
    }

    /// Prints what is said of each row, a line each; where one is wrong, what is wrong and that nothing is done.
    #[tactic(auto, using(mbdc_io::proofs::Pieces::written))]
    pub fn print<W: Sink>(&self, out: &mut W) -> Result<(), IoFault>
        ensures { Wrote W.Sink result out.old out.new (fit_text self.now) }
    {
        if !self.is_wrong {
            return out.put(self.text.as_slice());
        }
        out.put(self.refusals.as_slice())?;
        out.put(b"nothing is done\n")
    }

    // Nothing is planned yet.
    pub(crate) fn empty(alloc: A) -> Plan<A>
        ensures { result ≡ nothing }
    {
        Plan {
            commands: Vec::new(alloc),
            changes: Bytes::new(alloc),
            is_wrong: false,
            text: Bytes::new(alloc),
            refusals: Bytes::new(alloc),
        }
    }

    // Adds a row on which this is the verdict.
    fn add_verdict(
        &mut self,
        number: u64,
        verdict: Verdict,
        row: &Row,
        house: &mut House<A>,
    ) -> Result<(), NoMemory>
        requires { verdict ≡ Verdict.New → IsChange (change_of row.now house.old.state)
            × Accepts house.old.budget (change_of row.now house.old.state) house.old.state }
        ensures { OnOk result (IsStepBy verdict row.now number house.old house.new self.old
            self.new) }
    {
        match verdict {
            Verdict::New => {
                kept(put_row(&mut self.text, number, verdict, row, house))?;
                self.order(command_of(row), house)
            }
            Verdict::Stands => kept(put_row(&mut self.text, number, verdict, row, house)),
            Verdict::Spent | Verdict::Refused(_) => {
                self.is_wrong = true;
                kept(put_row(&mut self.refusals, number, verdict, row, house))
            }
        }
    }

    // Adds a command, and does it to the house.
    pub(crate) fn order(&mut self, command: Command, house: &mut House<A>) -> Result<(), NoMemory>
        requires change { IsChange (numbered command house.old.state) }
        requires accepted { Accepts house.old.budget (numbered command house.old.state)
            house.old.state }
        ensures house { OnOk result (house.new ≡ record house.old {
          state = applied (numbered command house.old.state) house.old.state;
        }) }
        ensures plan { OnOk result (self.new ≡ record self.old {
          commands = self.old.commands
              ++ line_of (house.old.state.last_number + 1) command ∷ [];
          payload = self.old.payload ++ change_bytes (numbered command house.old.state);
        }) }
    {
        let number = house.last_number() + 1;
        let change = Change::Command { number, command };
        kept(encode_change(&change, &mut self.changes))?;
        self.commands.push(command.line(number))?;
        house.apply(&change)
    }

    // Adds a row of a list that is read so, and does its command to the house.
    fn add_read(
        &mut self,
        listed: &Listed,
        read: Result<Row, Column>,
        house: &mut House<A>,
    ) -> Result<(), NoMemory>
        requires { IsReadAs listed.now read }
        ensures { OnOk result (IsStep listed.now read house.old house.new self.old self.new) }
    {
        match read {
            Ok(row) => {
                let verdict = verdict_on(&row, house);
                self.add_verdict(listed.number, verdict, &row, house)?;
                Ok(())
            }
            Err(column) => {
                self.is_wrong = true;
                kept(put_wrong(&mut self.refusals, listed, column))
            }
        }
    }

    // Adds the rows of a list.
    fn add_rows(&mut self, rows: &[Listed], house: &mut House<A>) -> Result<(), NoMemory>
        ensures { OnOk result (AreSteps rows.now house.old house.new self.old self.new) }
    {
        let mut rest = rows;
        'rows: while let Some((listed, after)) = rest.split_first() {
            self.add_read(listed, read_row(listed), house)?;
            rest = after;
        }
        Ok(())
    }
}

/// What a list of meters comes to on a house, which isn't used any more.
pub fn plan_on<A: Allocator + Copy>(
    alloc: A,
    list: &Listing,
    house: &mut House<A>,
) -> Result<Plan<A>, NoMemory>
    ensures planned { IfOk result (λ plan. IsPlanned list.now house.old plan) }
    ensures one_group { IfOk result (λ plan. IsOneGroup house.old plan) }
{
    let mut plan = Plan::empty(alloc);
    match list {
        Listing::Lacks(column) => {
            plan.is_wrong = true;
            kept(put_said(&mut plan.refusals, 1, lacking_words(*column)))?;
            Ok(plan)
        }
        Listing::Rows(rows) => {
            plan.add_rows(rows.as_slice(), house)?;
            Ok(plan)
        }
    }
}
