//! What a store asks of what it keeps.

ghost use Rattle.std.specs.Prelude.{◌≡◌, ◌<◌, ◌≤◌, ◌+◌, ◌^◌, ◌++◌, List, [], ℕ, length};
ghost use Rattle.std.specs.Prelude.{IfOk, OnOk, OnErr, IsErrOf};
ghost use Rattle.mbdc_io.specs.Written.{IsWritten, IsStopped};
ghost use Rattle.mbdc_io.specs.declared.kept.fault.DecodeFault.TheVariants.{Bad};

use crate::kept::DecodeFault;
use crate::{IoFault, Sink};
use std::alloc::Allocator;

/// The language of a store: states and changes, and the bytes that spell them. It has no calls.
pub trait Language {
    /// A state.
    ghost State: { Type 0 };

    /// A change of a state.
    ghost Change: { Type 0 };

    /// The state at first.
    ghost empty: { State };

    /// The state after changes.
    ghost after: { State → List Change → State };

    /// The changes are accepted in turn in the state, within a budget.
    ghost Accepts: { ℕ → State → List Change → Type 0 };

    /// The bytes that are written for a state.
    ghost bytes_of: { State → List ℕ };

    /// The bytes that are written for the first state.
    ghost empty_bytes: { List ℕ };

    /// The bytes spell the state, which is one within the budget.
    ghost SpellsState: { ℕ → List ℕ → State → Type 0 };

    /// The bytes spell the changes.
    ghost SpellsChanges: { List ℕ → List Change → Type 0 };

    /// The state that a value has, and its budget.
    ghost state: { Self → State };

    ghost limit: { Self → ℕ };

    // What a store's proofs use.

    /// Bytes spell one state.
    ghost one_state: { (budget : ℕ) (bytes : List ℕ) (s t : State) → budget < 2 ^ 32
        → SpellsState budget bytes s → SpellsState budget bytes t → s ≡ t };

    /// Bytes spell one list of changes.
    ghost one_list: { (bytes : List ℕ) (cs ds : List Change) → SpellsChanges bytes cs
        → SpellsChanges bytes ds → cs ≡ ds };

    /// A state within a budget is one within a greater budget.
    ghost wider: { (small great : ℕ) (bytes : List ℕ) (s : State) → small ≤ great
        → SpellsState small bytes s → SpellsState great bytes s };

    /// A state is spelled in at least one byte, and at most its budget.
    ghost some: { (budget : ℕ) (bytes : List ℕ) (s : State) → SpellsState budget bytes s
        → 0 < length bytes };

    ghost fits: { (budget : ℕ) (bytes : List ℕ) (s : State) → SpellsState budget bytes s
        → length bytes ≤ budget };

    /// The first state is one within the least budget of an image.
    ghost empty_spelled: { SpellsState 15616 empty_bytes empty };

    /// No changes, and changes after changes.
    ghost after_none: { (s : State) → after s [] ≡ s };

    ghost after_append: { (s : State) (first then : List Change)
        → after s (first ++ then) ≡ after (after s first) then };
}

/// What a store keeps: a state that changes, in memory.
pub trait Kept: Language + Drop {
    /// Its memory.
    type Alloc: Allocator + Copy;

    /// The bytes of the first state.
    fn empty_bytes() -> &'static [u8]
        ensures { result.now ≡ Self.empty_bytes };

    /// Decodes the value that the bytes spell within a budget.
    ///
    /// # Errors
    ///
    /// `Bad` if they spell none; `NoMemory`.
    fn decode(alloc: Self::Alloc, bytes: &[u8], budget: u32) -> Result<Self, DecodeFault>
        ensures found { IfOk result (λ kept.
            Self.SpellsState budget bytes.now (Self.state kept) × (Self.limit kept ≡ budget)) }
        ensures bad { IsErrOf result Bad → (s : Self.State) → Self.SpellsState budget bytes.now s → ⊥ };

    /// Applies the changes that the bytes spell.
    ///
    /// # Errors
    ///
    /// `Bad` if they spell none that are accepted; `NoMemory`.
    fn replay(&mut self, bytes: &[u8]) -> Result<(), DecodeFault>
        ensures ok { OnOk result ((changes : List Self.Change) × Self.SpellsChanges bytes.now changes
            × Self.Accepts (Self.limit self.old) (Self.state self.old) changes
            × (Self.state self.new ≡ Self.after (Self.state self.old) changes)) }
        ensures bad { IsErrOf result Bad → (changes : List Self.Change)
            → Self.SpellsChanges bytes.now changes → Self.Accepts (Self.limit self.old) (Self.state self.old) changes
            → ⊥ }
        ensures budget { Self.limit self.new ≡ Self.limit self.old };

    /// Writes the bytes of the state.
    fn encode<S: Sink>(&self, sink: &mut S) -> Result<(), IoFault>
        ensures ok { OnOk result (IsWritten S.Sink sink.old sink.new (Self.bytes_of (Self.state self.now))) }
        ensures err { OnErr result (IsStopped S.Sink sink.old sink.new
            (Self.bytes_of (Self.state self.now))) };

    /// The size of the state in bytes, for what it says: the state is one within its budget.
    fn size(&self) -> u32
        ensures is_state { Self.SpellsState (Self.limit self.now) (Self.bytes_of (Self.state self.now))
            (Self.state self.now) };
}

/// Names what a store keeps, whatever its memory.
pub trait Subject: Drop {
    /// It in some memory: its language is that of all.
    type Any: Kept;
}

/// A subject in one kind of memory.
pub trait KeptIn<A: Allocator + Copy>: Subject {
    /// Its value.
    type Value: Kept<Alloc = A>;
}
