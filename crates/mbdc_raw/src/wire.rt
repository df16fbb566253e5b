//! A wire: bytes are sent on it, and bytes arrive on it.

ghost use Rattle.std.specs.Prelude.{◌≡◌, ℕ, ◌≤◌, ◌<◌, Bool, List, length, IfOk, OnOk, OnErr};
ghost use Rattle.mbdc_io.specs.Failures.{HasRisen};
ghost use Rattle.mbdc_raw.specs.Looks.{most_looks};
ghost use Rattle.mbdc_raw.specs.Wire.{FitsRoom, Sound, Wanes, sound_of};
ghost use Rattle.mbdc_raw.specs.declared.wire.Asking.{Asking as Asks};

use mbdc_io::IoFault;

/// What has arrived on a wire so far.
#[derive(Clone, Copy)]
pub enum Came {
    /// This many bytes, at least one.
    Bytes(usize),
    /// Nothing yet.
    Nothing,
    /// Nothing since the last byte for as long as ends an answer that has begun. It is returned
    /// once after a byte.
    Gap,
    /// Nothing came since the request for as long as its repeat waits. It is returned once after a request.
    Overdue,
    /// The wire's time-out is over: nothing came for its patience since the request, the last byte
    /// or the last silence; or the time is over that an [`Asking`] gives.
    Silence,
}

/// How long a wire listens after a request.
#[derive(Clone, Copy)]
pub struct Asking {
    /// Whether several meters may answer: the wire listens while one of them may begin to, and then
    /// to the end of what comes.
    pub many: bool,
    /// Number of times that bytes came late on the line: each doubles the patience.
    pub late: u64,
    /// Number of times that this request went out just before, each time overdue.
    pub repeats: u8,
}

/// The wire of a line. No call waits.
pub trait Wire {
    // Number of calls that failed.
    ghost failures: { Self → ℕ };

    // Number of times that nothing may still come.
    ghost waits_left: { Self → ℕ };

    ghost few: { (wire : Self) → waits_left wire ≤ most_looks };

    // The effect of a call that succeeds on the wire: these bytes were sent; this arrived.
    ghost sends: { Self → List ℕ → Asks → Self → Type 0 };

    ghost hears: { Self → Sound → Self → Type 0 };

    // The effect of a look at the link: whether it was opened again. Of what then comes nothing is
    // promised.
    ghost reopens: { Self → Bool → Self → Type 0 };

    /// Opens the link again, once, where it has closed. Returns whether it did.
    fn reopen(&mut self) -> bool
        ensures step { reopens self.old result self.new }
        ensures no_more { waits_left self.new ≤ waits_left self.old }
        ensures well { failures self.new ≡ failures self.old };

    /// Sends all of the bytes.
    fn send(&mut self, bytes: &[u8], asking: Asking) -> Result<(), IoFault>
        ensures step { OnOk result (sends self.old bytes.now asking self.new) }
        ensures well { OnOk result (failures self.new ≡ failures self.old) }
        ensures failed { OnErr result (HasRisen (failures self.old) (failures self.new)) };

    /// Takes what has arrived so far into the first bytes of `room`.
    fn hear(&mut self, room: &mut [u8]) -> Result<Came, IoFault>
        requires { 0 < length room.old }
        ensures fits { IfOk result (λ came. FitsRoom came (length room.old)) }
        ensures step { IfOk result (λ came. hears self.old (sound_of came room.new) self.new) }
        ensures fewer { IfOk result (λ came. Wanes came
            (waits_left self.old) (waits_left self.new)) }
        ensures well { OnOk result (failures self.new ≡ failures self.old) }
        ensures failed { OnErr result (HasRisen (failures self.old) (failures self.new)) };
}
