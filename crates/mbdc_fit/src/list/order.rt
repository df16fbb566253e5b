//! A command that is given at the box, and what it comes to on a register.

ghost use Rattle.std.specs.Prelude.{◌≡◌, IfOk, OnOk};
ghost use Rattle.mbdc_io.specs.Written.{Wrote};
ghost use Rattle.mbdc_change.specs.Accepts.{Accepts};
ghost use Rattle.mbdc_change.specs.Valid.{IsChange};
ghost use Rattle.mbdc_fit.specs.Order.{IsOrdered, IsOrderedBy, address_of, command_for, newcomer_of};
ghost use Rattle.mbdc_fit.specs.Order.{order_said, order_text, subject_of, verdict_for};
ghost use Rattle.mbdc_fit.specs.Plan.{IsOneGroup, numbered};

use crate::list::plan::{Plan, kept};
use crate::list::verdict::{Verdict, put_is_at, put_taken};
use dc_address::{Identity, Primary};
use dc_meters::House;
use mbdc_change::{Change, ChangeFault, Command, END_OF_NUMBERS, Flat};
use mbdc_io::{IoFault, NoMemory, Sink};
use std::alloc::Allocator;

/// A command that is given at the box: one line of the billing office.
#[derive(Clone, Copy)]
pub enum Order {
    /// Replaces a meter by another at the same place.
    Swap {
        /// The old meter.
        old: Identity,
        /// The new meter.
        new: Identity,
        /// The new meter's primary address; `None` for secondary addressing.
        address: Option<Primary>,
    },
    /// Gives a meter another flat.
    Move {
        /// The meter.
        meter: Identity,
        /// Its new flat.
        flat: Flat,
    },
    /// Removes a meter.
    Out {
        /// The meter.
        meter: Identity,
    },
}

impl Order {
    // Its command.
    fn command(&self) -> Command
        ensures { result ≡ command_for self.now }
    {
        match *self {
            Order::Swap { old, new, address } => Command::Swap { old, new, address },
            Order::Move { meter, flat } => Command::Move { meter, flat },
            Order::Out { meter } => Command::Out { meter },
        }
    }

    /// The registered meter that it changes.
    pub fn subject(&self) -> Identity
        ensures { result ≡ subject_of self.now }
    {
        match *self {
            Order::Swap { old, .. } => old,
            Order::Move { meter, .. } | Order::Out { meter } => meter,
        }
    }

    // The meter that the register has after it.
    fn newcomer(&self) -> Identity
        ensures { result ≡ newcomer_of self.now }
    {
        match *self {
            Order::Swap { new, .. } => new,
            Order::Move { meter, .. } | Order::Out { meter } => meter,
        }
    }

    // The primary address that it asks for.
    fn address(&self) -> Option<Primary>
        ensures { result ≡ address_of self.now }
    {
        match *self {
            Order::Swap { address, .. } => address,
            Order::Move { .. } | Order::Out { .. } => None,
        }
    }
}

// What an order asks of a house.
#[tactic(auto, unfolding(crate::specs::Order::verdict_for))]
fn verdict_for<A: Allocator + Copy>(order: &Order, house: &House<A>) -> Verdict
    ensures verdict { result ≡ verdict_for house.now.budget order.now house.now.state }
    ensures accepted { result ≡ Verdict.New
        → IsChange (numbered (command_for order.now) house.now.state)
        × Accepts house.now.budget (numbered (command_for order.now) house.now.state)
        house.now.state }
{
    let number = house.last_number() + 1;
    if number >= END_OF_NUMBERS {
        return Verdict::Spent;
    }
    let command = order.command();
    match house.check(&Change::Command { number, command }) {
        Ok(()) => Verdict::New,
        Err(fault) => Verdict::Refused(fault),
    }
}

// Writes what is said of an order.
#[tactic(auto, using(mbdc_io::proofs::Pieces::written), unfolding(crate::specs::Order::order_text, crate::specs::Order::order_refusal, crate::specs::Order::taken_by))]
fn put_order<A: Allocator + Copy, W: Sink>(
    out: &mut W,
    verdict: Verdict,
    order: &Order,
    house: &House<A>,
) -> Result<(), IoFault>
    requires { verdict ≡ Verdict.New → IsChange (numbered (command_for order.now) house.now.state) }
    ensures { Wrote W.Sink result out.old out.new (order_text verdict order.now house.now.state) }
{
    match verdict {
        Verdict::New => {
            let line = order.command().line(house.last_number() + 1);
            out.put(line.as_slice())
        }
        Verdict::Stands => Ok(()),
        Verdict::Spent => out.put(b"no number is left for a command"),
        Verdict::Refused(ChangeFault::Unknown) => {
            out.put(&order.subject().text())?;
            out.put(b" isn't registered")
        }
        Verdict::Refused(ChangeFault::Known) => put_is_at(out, &order.newcomer(), house),
        // The primary address is taken on the bus line of the meter that the order changes.
        Verdict::Refused(ChangeFault::AddressTaken) => match house.meter(&order.subject()) {
            Some(known) => put_taken(out, known.line(), &order.address(), house),
            None => Ok(()),
        },
        Verdict::Refused(ChangeFault::Full) => out.put(b"the image is full"),
        Verdict::Refused(ChangeFault::Beyond) => Ok(()),
    }
}

// Writes the line of an order.
#[tactic(auto, using(mbdc_io::proofs::Pieces::written))]
fn put_said<A: Allocator + Copy, W: Sink>(
    out: &mut W,
    verdict: Verdict,
    order: &Order,
    house: &House<A>,
) -> Result<(), IoFault>
    requires { verdict ≡ Verdict.New → IsChange (numbered (command_for order.now) house.now.state) }
    ensures { Wrote W.Sink result out.old out.new (order_said verdict order.now house.now.state) }
{
    put_order(out, verdict, order, house)?;
    out.put(b"\n")
}

impl<A: Allocator + Copy> Plan<A> {
    // Adds an order, and does its command to the house.
    fn add_order(
        &mut self,
        verdict: Verdict,
        order: &Order,
        house: &mut House<A>,
    ) -> Result<(), NoMemory>
        requires { verdict ≡ Verdict.New
            → IsChange (numbered (command_for order.now) house.old.state)
            × Accepts house.old.budget (numbered (command_for order.now) house.old.state)
            house.old.state }
        ensures { OnOk result (IsOrderedBy verdict order.now house.old.state self.old self.new) }
    {
        match verdict {
            Verdict::New => {
                kept(put_said(&mut self.text, verdict, order, house))?;
                self.order(order.command(), house)
            }
            Verdict::Stands => kept(put_said(&mut self.text, verdict, order, house)),
            Verdict::Spent | Verdict::Refused(_) => {
                self.is_wrong = true;
                kept(put_said(&mut self.refusals, verdict, order, house))
            }
        }
    }
}

/// What an order comes to on a house, which isn't used any more.
pub fn plan_for<A: Allocator + Copy>(
    alloc: A,
    order: &Order,
    house: &mut House<A>,
) -> Result<Plan<A>, NoMemory>
    ensures ordered { IfOk result (λ plan. IsOrdered order.now house.old plan) }
    ensures one_group { IfOk result (λ plan. IsOneGroup house.old plan) }
{
    let verdict = verdict_for(order, house);
    let mut plan = Plan::empty(alloc);
    plan.add_order(verdict, order, house)?;
    Ok(plan)
}
