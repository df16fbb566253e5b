//! What sees the requests and the answers of a bus.

/// Sees what goes over a bus.
pub trait Observer {
    ghost use Rattle.std.specs.Prelude.{ℕ, List};

    // What it does to the observer to see a request that goes out, and an answer that came.
    ghost sees_request: { Self → List ℕ → Self → Type 0 };

    ghost sees_answer: { Self → List ℕ → Self → Type 0 };

    /// Sees a request that goes out.
    fn see_request(&mut self, request: &[u8])
        ensures { sees_request self.old request.now self.new };

    /// Sees an answer that came; no byte is silence.
    fn see_answer(&mut self, answer: &[u8])
        ensures { sees_answer self.old answer.now self.new };
}

/// Two observers, each of which sees everything.
#[derive(Drop)]
pub struct Pair<A: Observer + Drop, B: Observer + Drop> {
    /// The first one.
    pub first: A,
    /// The second one.
    pub second: B,
}

impl<A: Observer + Drop, B: Observer + Drop> Observer for Pair<A, B> {
    ghost use Rattle.mbdc_bus.specs.Observed.{BothSee};

    ghost sees_request = { BothSee A.sees_request B.sees_request };

    ghost sees_answer = { BothSee A.sees_answer B.sees_answer };

    fn see_request(&mut self, request: &[u8]) {
        self.first.see_request(request);
        self.second.see_request(request);
    }

    fn see_answer(&mut self, answer: &[u8]) {
        self.first.see_answer(answer);
        self.second.see_answer(answer);
    }
}
