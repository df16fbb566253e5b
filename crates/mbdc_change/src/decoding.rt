//! Decodes changes from bytes.

ghost use Rattle.std.specs.Prelude.{IfOk, IsErrOf, List};
ghost use Rattle.mbdc_change.specs.declared.change.Change.{Change};
ghost use Rattle.mbdc_change.specs.Spelled.{SpellsChanges};
ghost use Rattle.mbdc_change.specs.Pieces.{Reads};
ghost use Rattle.mbdc_change.specs.Reading.{telegram_change_at, change_at};
ghost use Rattle.mbdc_change.specs.Command.{command_at};

use crate::command_bytes::command_at;
use crate::pieces::{body_at, byte_at, moment_at};
use crate::{Change, DecodeFault};
use std::alloc::Allocator;

/// Decodes a telegram, after its tag.
#[tactic(auto, unfolding(crate::specs::Reading::telegram_change_at))]
fn telegram_at(bytes: &[u8]) -> Result<(Change<'_>, &[u8]), DecodeFault>
    ensures { Reads (λ x. (x.0, x.1.now)) result (telegram_change_at bytes.now) }
{
    let (part, rest) = byte_at(bytes)?;
    let (moment, rest) = moment_at(rest)?;
    let (body, rest) = body_at(rest)?;
    Ok((Change::Telegram { part, moment, body }, rest))
}

/// Decodes a change: its tag, and the fields of that tag.
#[tactic(auto, unfolding(crate::specs::Reading::change_at))]
pub fn change_at(bytes: &[u8]) -> Result<(Change<'_>, &[u8]), DecodeFault>
    ensures { Reads (λ x. (x.0, x.1.now)) result (change_at bytes.now) }
{
    let (tag, rest) = byte_at(bytes)?;
    match tag {
        1 => telegram_at(rest),
        _ => command_at(tag, rest),
    }
}

/// Decodes the changes that the bytes spell, in order. Their bodies are borrowed.
pub fn decode_changes<'a, A: Allocator + Copy>(
    alloc: A,
    bytes: &'a [u8],
) -> Result<Vec<Change<'a>, A>, DecodeFault>
    // The result is what the bytes spell, and no bytes that spell changes are rejected.
    ensures found { IfOk result (λ changes. SpellsChanges bytes.now changes.items) }
    ensures bad { IsErrOf result DecodeFault.Bad → (changes : List Change)
        → SpellsChanges bytes.now changes → ⊥ }
{
    let mut changes = Vec::new(alloc);
    let mut rest = bytes;
    while !rest.is_empty() {
        let (change, after) = change_at(rest)?;
        changes.push(change)?;
        rest = after;
    }
    Ok(changes)
}
