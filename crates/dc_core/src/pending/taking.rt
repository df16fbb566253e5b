//! Takes a telegram: into the register, and among the pending changes.

ghost use Rattle.std.specs.Prelude.{◌≡◌, ◌⊎◌, ◌≤◌, length, None, Some, Ok, Err, OnOk, OnErr};
ghost use Rattle.mbdc_change.specs.Body.{longest_body};
ghost use Rattle.mbdc_change.specs.Fields.{last_moment};
ghost use Rattle.dc_records.specs.Telegram.{parsed};
ghost use Rattle.dc_core.specs.declared.pending.fault.TakeFault.TheVariants.{NoMemory};
ghost use Rattle.dc_core.specs.Taking.{change_of, refuses, IsTaken};

use crate::pending::TakeFault;
use crate::pending::waiting::Waiting;
use dc_meters::House;
use dc_records::Telegram;
use mbdc_change::{Body, Change};
use std::alloc::Allocator;

/// Takes a telegram: applies it to the register, and adds its change to the pending changes. The body is copied once,
/// into the register.
///
/// # Errors
/// `PendingFull` if the maximum number of changes is pending, then `Full` if the register refuses
/// the telegram, then `NoMemory`. Nothing has changed then.
pub fn take<A: Allocator + Copy>(
    house: &mut House<A>,
    waiting: &mut Waiting,
    part: u8,
    moment: u64,
    telegram: &Telegram<'_>,
) -> Result<(), TakeFault>
    requires body { length (parsed telegram.now).body ≤ longest_body }
    requires moment { moment ≤ last_moment }
    // The result is the fault that applies, and otherwise only out of memory.
    ensures refused { (fault : _) → refuses house.old.budget waiting.old.count
        (change_of moment part (parsed telegram.now)) house.old.state ≡ Some fault
        → result ≡ Err fault }
    ensures accepted { refuses house.old.budget waiting.old.count
        (change_of moment part (parsed telegram.now)) house.old.state ≡ None
        → (result ≡ Ok tt) ⊎ (result ≡ Err NoMemory) }
    ensures ok { OnOk result (IsTaken house.old house.new waiting.old waiting.new
        (change_of moment part (parsed telegram.now))) }
    ensures house { OnErr result (house.new ≡ house.old) }
    ensures waiting { OnErr result (waiting.new ≡ waiting.old) }
{
    if waiting.is_full() {
        return Err(TakeFault::PendingFull);
    }
    // A telegram is no body of a change only where it is longer than 252 bytes, which a frame can't hold.
    let Some(body) = Body::of(telegram) else {
        return Err(TakeFault::Full);
    };
    let _is_body = body.as_slice();
    let change = Change::Telegram { part, moment, body };
    if house.check(&change).is_err() {
        return Err(TakeFault::Full);
    }
    if house.apply(&change).is_err() {
        return Err(TakeFault::NoMemory);
    }
    waiting.push(&change);
    Ok(())
}
