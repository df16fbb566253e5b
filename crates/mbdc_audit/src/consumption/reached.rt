//! How far a walk over the entries of a place has come.

ghost use Rattle.std.specs.Prelude.{◌≤◌, ◌*◌, ◌-◌, ◌^◌};

/// The entries that a walk has passed.
#[derive(Clone, Copy)]
pub(crate) struct Reached {
    /// Number of entries that are passed.
    pub count: usize,
    /// The sum of the steps between them.
    pub sum: u128,
    ghost fits: { sum ≤ count * (2 ^ 64 - 1) },
}
