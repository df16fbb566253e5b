//! Judges a billing office's line on the current house.

ghost use Rattle.std.specs.Prelude.{◌≡◌, ℕ};
ghost use Rattle.mbdc_change.specs.Accepts.{Accepts};
ghost use Rattle.mbdc_change.specs.Apply.{applied};
ghost use Rattle.mbdc_change.specs.State.{Held};
ghost use Rattle.mbdc_change.specs.Valid.{IsChange};
ghost use Rattle.dc_upload.specs.Line.{IsOfficeLine};
ghost use Rattle.dc_upload.specs.Reply.{done_line, reply_text};
ghost use Rattle.dc_upload.specs.Verdict.{IfDo, is_repeat, verdict_of};

use crate::{Code, OfficeLine};
use dc_meters::House;
use mbdc_change::{Change, Numbered};
use std::alloc::Allocator;

/// The verdict on a line.
#[derive(Drop)]
pub enum Verdict {
    /// It repeats the last command, which is done.
    Repeat,
    /// It is a new command, and its change is accepted.
    Do(Change<'static>),
    /// It asks for something to show.
    Show,
    /// It is refused with this code.
    Refuse(Code),
}

/// Judges a line: a repeat of the last command, byte for byte, or else refused by the first code
/// that applies.
#[tactic(auto, unfolding(crate::specs::Verdict::verdict_of))]
pub fn judge<A: Allocator + Copy>(house: &House<A>, line: &OfficeLine) -> Verdict
    requires { IsOfficeLine line.now }
    ensures verdict { result ≡ verdict_of house.now line.now }
    ensures accepted { IfDo result (λ change.
        IsChange change × Accepts house.now.budget change house.now.state) }
{
    match *line {
        OfficeLine::Command(ordered) => judge_command(house, ordered),
        OfficeLine::Window { from, .. } => judge_window(house, from),
        OfficeLine::Register | OfficeLine::Report { .. } => Verdict::Show,
    }
}

#[tactic(auto, using(crate::proofs::Verdicts::codes_of_faults), unfolding(crate::specs::Verdict::verdict_of))]
fn judge_command<A: Allocator + Copy>(house: &House<A>, ordered: Numbered) -> Verdict
    requires { IsOfficeLine (OfficeLine.Command ordered) }
    ensures verdict { result ≡ verdict_of house.now (OfficeLine.Command ordered) }
    ensures accepted { IfDo result (λ change.
        IsChange change × Accepts house.now.budget change house.now.state) }
{
    if is_repeat(house, &ordered) {
        return Verdict::Repeat;
    }
    let last = house.last_number();
    if ordered.number != last + 1 {
        return Verdict::Refuse(Code::Order { last });
    }
    let Numbered { number, command } = ordered;
    let change = Change::Command { number, command };
    match house.check(&change) {
        Ok(()) => Verdict::Do(change),
        Err(fault) => Verdict::Refuse(Code::of(fault)),
    }
}

// Whether the command has the last command's number and is the last line.
fn is_repeat<A: Allocator + Copy>(house: &House<A>, ordered: &Numbered) -> bool
    requires { IsOfficeLine (OfficeLine.Command ordered.now) }
    ensures { result ≡ is_repeat ordered.now house.now.state }
{
    if ordered.number != house.last_number() {
        return false;
    }
    let line = ordered.command.line(ordered.number);
    line.as_slice() == house.last_line()
}

#[tactic(auto, unfolding(crate::specs::Verdict::verdict_of))]
fn judge_window<A: Allocator + Copy>(house: &House<A>, from: u64) -> Verdict
    ensures verdict { (count : ℕ) → result ≡ verdict_of house.now (OfficeLine.Window from count) }
    ensures accepted { IfDo result (λ change.
        IsChange change × Accepts house.now.budget change house.now.state) }
{
    let confirmed = house.confirmed();
    if from <= confirmed {
        return Verdict::Refuse(Code::Gone { confirmed });
    }
    Verdict::Show
}

/// A new command that was done is a repeat when it comes again; the reply is `OK` and its number.
#[tactic(auto, using(crate::proofs::Verdicts::repeated, crate::proofs::Verdicts::replied))]
pub fn a_done_command_is_repeated()
    ensures repeat { (house : Held) (line : OfficeLine) (change : Change)
        → verdict_of house line ≡ Verdict.Do change
        → verdict_of (record house { state = applied change house.state }) line ≡ Verdict.Repeat }
    ensures reply { (house : Held) (ordered : Numbered) (change : Change)
        → verdict_of house (OfficeLine.Command ordered) ≡ Verdict.Do change
        → reply_text (record house { state = applied change house.state })
        (OfficeLine.Command ordered) ≡ done_line ordered.number }
{}
