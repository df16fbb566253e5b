//! What connects a link.

ghost use Rattle.std.specs.Prelude.{Some, None, IfOk, OnErr};

/// Connects links: `N` names a link, `P` is a connected one, and `E` says why one can't be connected.
pub trait Connector<N, P, E> {
    ghost use Rattle.std.specs.Prelude.{ℕ, Option};

    // It tried this link, and this came of it.
    ghost tries: { Self → N → Option P → Self → Type 0 };

    // It said that the link of this line isn't connected.
    ghost says: { Self → ℕ → Self → Type 0 };

    // It gave a link back.
    ghost releases: { Self → P → Self → Type 0 };

    /// Connects a link.
    fn connect(&mut self, name: &N) -> Result<P, E>
        ensures came { IfOk result (λ peer. tries self.old name.now (Some peer) self.new) }
        ensures missed { OnErr result (tries self.old name.now None self.new) };

    /// Says why the link of a line can't be connected.
    fn say(&mut self, line: u8, why: &E)
        ensures { says self.old line self.new };

    /// Gives a link back to other programs.
    fn release(&mut self, peer: &P)
        ensures { releases self.old peer.now self.new };
}
