//! What is asked of a register.

ghost use Rattle.std.specs.Prelude.{◌≡◌, IfOk};
ghost use Rattle.mbdc_fit.specs.Plan.{IsOneGroup};
ghost use Rattle.mbdc_fit.specs.Wish.{IsMetBy};

use crate::list::listed::Listing;
use crate::list::order::{Order, plan_for};
use crate::list::plan::{Plan, plan_on};
use dc_meters::House;
use mbdc_change::DecodeFault;
use mbdc_io::{Bytes, IoFault, NoMemory};
use std::alloc::Allocator;

/// What is asked of a register.
#[derive(Clone, Copy)]
pub enum Wish<'a> {
    /// The meters of a list.
    List(&'a Listing),
    /// One command.
    One(Order),
}

// A copy of a house, to plan on.
fn copy_of<A: Allocator + Copy>(alloc: A, house: &House<A>) -> Result<House<A>, NoMemory>
    ensures { IfOk result (λ copy. copy ≡ house.now) }
{
    let budget = house.budget();
    let mut bytes = Bytes::new(alloc);
    match house.encode(&mut bytes) {
        Ok(()) => {}
        Err(IoFault) => return Err(NoMemory),
    }
    match House::decode(alloc, bytes.as_slice(), budget) {
        Ok(copy) => Ok(copy),
        Err(DecodeFault::NoMemory) => Err(NoMemory),
        Err(DecodeFault::Bad) => unreachable!(),
    }
}

/// What a wish comes to on a house.
pub fn plan_wish<A: Allocator + Copy>(
    alloc: A,
    wish: &Wish<'_>,
    house: &House<A>,
) -> Result<Plan<A>, NoMemory>
    ensures met { IfOk result (λ plan. IsMetBy wish.now house.now plan) }
    ensures one_group { IfOk result (λ plan. IsOneGroup house.now plan) }
{
    let mut copy = copy_of(alloc, house)?;
    match *wish {
        Wish::List(list) => plan_on(alloc, list, &mut copy),
        Wish::One(order) => plan_for(alloc, &order, &mut copy),
    }
}
