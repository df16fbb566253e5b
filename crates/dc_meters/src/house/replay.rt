//! Decodes and applies changes one by one.

ghost use Rattle.std.specs.Prelude.{◌≡◌, ℕ, List, OnOk, OnErr, IsErrOf};
ghost use Rattle.mbdc_change.specs.declared.change.Change.{Change};
ghost use Rattle.mbdc_change.specs.Apply.{applied};
ghost use Rattle.mbdc_change.specs.Accepts.{Accepts};
ghost use Rattle.mbdc_change.specs.History.{after, AcceptsAll};
ghost use Rattle.mbdc_change.specs.Spelled.{SpellsChanges};
ghost use Rattle.mbdc_change.specs.Valid.{IsChange};
ghost use Rattle.dc_meters.specs.Replay.{BeginsUnaccepted, IsApplied, IsHeldUp};

use super::House;
use mbdc_change::{Change, DecodeFault, change_at};
use std::alloc::Allocator;

impl<A: Allocator + Copy> House<A> {
    /// Applies the changes that the bytes spell, each as it is decoded. It returns `Bad` at the
    /// first bytes that spell no accepted change, and `NoMemory` at an accepted change for which
    /// memory runs out. The changes before stay applied.
    pub fn replay(&mut self, bytes: &[u8]) -> Result<(), DecodeFault>
        ensures ok { OnOk result ((changes : List Change) × SpellsChanges bytes.now changes
            × AcceptsAll self.old.budget self.old.state changes
            × (self.new.state ≡ after self.old.state changes)) }
        ensures bad { IsErrOf result DecodeFault.Bad → (changes : List Change)
            → SpellsChanges bytes.now changes → AcceptsAll self.old.budget self.old.state changes
            → ⊥ }
        ensures no_memory { IsErrOf result DecodeFault.NoMemory
            → IsHeldUp self.old self.new bytes.now }
        ensures left { IsErrOf result DecodeFault.Bad → (rest : List ℕ)
            × IsApplied self.old self.new bytes.now rest × BeginsUnaccepted self.new rest }
        ensures budget { self.new.budget ≡ self.old.budget }
    {
        let mut rest = bytes;
        while !rest.is_empty() {
            let (change, after) = change_at(rest)?;
            self.accept(&change)?;
            rest = after;
        }
        Ok(())
    }

    /// Applies an accepted change.
    fn accept(&mut self, change: &Change<'_>) -> Result<(), DecodeFault>
        requires { IsChange change.now }
        ensures accepted { OnOk result (Accepts self.old.budget change.now self.old.state) }
        ensures ok { OnOk result (self.new
            ≡ record self.old { state = applied change.now self.old.state }) }
        ensures bad { IsErrOf result DecodeFault.Bad
            → Accepts self.old.budget change.now self.old.state → ⊥ }
        ensures no_memory { IsErrOf result DecodeFault.NoMemory
            → Accepts self.old.budget change.now self.old.state }
        ensures err { OnErr result (self.new ≡ self.old) }
    {
        if !self.is_next(change) || self.check(change).is_err() {
            return Err(DecodeFault::Bad);
        }
        self.apply(change)?;
        Ok(())
    }
}
