//! The result of a search, as text.

ghost use Rattle.std.specs.Prelude.{◌≡◌, ◌<◌, ◌≤◌, ◌+◌, ◌/◌, ◌%◌, ◌++◌, flat_map, map};
ghost use Rattle.dc_address.specs.Digits.{decimal_digits};
ghost use Rattle.dc_address.specs.Text.{decimal_code};
ghost use Rattle.mbdc_io.specs.Written.{Wrote};
ghost use Rattle.dc_search.specs.State.{step_of};
ghost use Rattle.dc_search.specs.Found.{budget_line, found_line, greatest_budget, search_text};
ghost use Rattle.dc_search.specs.Found.{search_text_after, selections_line, shared_line};

use crate::search::Search;
use crate::step::Step;
use dc_address::Identity;
use mbdc_io::{IoFault, Sink, put_number_word};
use std::alloc::Allocator;

/// Writes what a search found, which numbers are shared, whether the budget was spent, and the
/// number of selections.
#[tactic(auto, using(mbdc_io::proofs::Pieces::written))]
pub fn put_search<A: Allocator + Copy, W: Sink>(
    search: &Search<A>,
    out: &mut W,
) -> Result<(), IoFault>
    ensures { Wrote W.Sink result out.old out.new (search_text search.now) }
{
    put_found(search.found(), out)?;
    put_rest(search, search.selections(), out)
}

/// Writes what a search found, as [`put_search`] does, after an earlier search of the same bus made
/// `before` selections: the number of selections is that of both.
#[tactic(auto, using(mbdc_io::proofs::Pieces::written))]
pub fn put_search_after<A: Allocator + Copy, W: Sink>(
    before: u32,
    search: &Search<A>,
    out: &mut W,
) -> Result<(), IoFault>
    requires { before + search.now.selections ≤ greatest_budget }
    ensures { Wrote W.Sink result out.old out.new
        (search_text_after before search.now) }
{
    put_found(search.found(), out)?;
    put_rest(search, before + search.selections(), out)
}

// Writes what follows the meters found.
#[tactic(auto, using(mbdc_io::proofs::Pieces::written))]
fn put_rest<A: Allocator + Copy, W: Sink>(
    search: &Search<A>,
    selections: u32,
    out: &mut W,
) -> Result<(), IoFault>
    ensures { Wrote W.Sink result out.old out.new
        (flat_map shared_line search.now.shared
        ++ (budget_line (step_of search.now) ++ selections_line selections)) }
{
    put_shared(search.shared(), out)?;
    put_end(search.next(), selections, out)
}

#[tactic(auto, using(mbdc_io::proofs::Pieces::written))]
fn put_end<W: Sink>(step: Step, selections: u32, out: &mut W) -> Result<(), IoFault>
    ensures { Wrote W.Sink result out.old out.new
        (budget_line step ++ selections_line selections) }
{
    put_budget(step, out)?;
    put_selections(selections, out)
}

#[tactic(auto, using(mbdc_io::proofs::Pieces::written))]
fn put_found<W: Sink>(meters: &[Identity], out: &mut W) -> Result<(), IoFault>
    ensures { Wrote W.Sink result out.old out.new
        (flat_map found_line meters.now) }
{
    for meter in meters {
        put_meter(meter, out)?;
    }
    Ok(())
}

#[tactic(auto, using(mbdc_io::proofs::Pieces::written))]
fn put_meter<W: Sink>(meter: &Identity, out: &mut W) -> Result<(), IoFault>
    ensures { Wrote W.Sink result out.old out.new (found_line meter.now) }
{
    out.put(b"FOUND ")?;
    out.put(&meter.text())?;
    out.put(b"\n")
}

#[tactic(auto, using(mbdc_io::proofs::Pieces::written))]
fn put_shared<W: Sink>(numbers: &[u32], out: &mut W) -> Result<(), IoFault>
    ensures { Wrote W.Sink result out.old out.new
        (flat_map shared_line numbers.now) }
{
    for number in numbers {
        put_number(*number, out)?;
    }
    Ok(())
}

#[tactic(auto, using(mbdc_io::proofs::Pieces::written))]
fn put_number<W: Sink>(number: u32, out: &mut W) -> Result<(), IoFault>
    ensures { Wrote W.Sink result out.old out.new (shared_line number) }
{
    out.put(b"SHARED ")?;
    out.put(&eight_digits(number))?;
    out.put(b"\n")
}

fn put_budget<W: Sink>(step: Step, out: &mut W) -> Result<(), IoFault>
    ensures { Wrote W.Sink result out.old out.new (budget_line step) }
{
    match step {
        Step::Budget => out.put(b"BUDGET\n"),
        _ => Ok(()),
    }
}

#[tactic(auto, using(mbdc_io::proofs::Pieces::joined))]
fn put_selections<W: Sink>(count: u32, out: &mut W) -> Result<(), IoFault>
    ensures { Wrote W.Sink result out.old out.new (selections_line count) }
{
    out.put(b"SELECTIONS")?;
    put_number_word(out, count as u64)?;
    out.put(b"\n")
}

// The eight lowest decimal digits of a number in ASCII.
#[tactic(auto, unfolding(dc_address::specs::Digits::decimal_digits))]
fn eight_digits(number: u32) -> [u8; 8]
    ensures { result ≡ map decimal_code (decimal_digits 8 number) }
{
    [
        code_at(number, 10_000_000),
        code_at(number, 1_000_000),
        code_at(number, 100_000),
        code_at(number, 10_000),
        code_at(number, 1_000),
        code_at(number, 100),
        code_at(number, 10),
        code_at(number, 1),
    ]
}

// The decimal digit at this power of ten.
fn code_at(number: u32, power: u32) -> u8
    requires { 0 < power }
    ensures { result ≡ decimal_code (number / power % 10) }
{
    b'0' + (number / power % 10) as u8
}
