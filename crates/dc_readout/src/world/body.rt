//! Bodies of telegrams in memory.

ghost use Rattle.std.specs.Prelude.{◌≡◌, ◌==◌, ◌<◌, ◌++◌, ◌∷◌, [], IfOk, OnOk, length};
ghost use Rattle.std.specs.Prelude.{slice_index_or};

use mbdc_io::NoMemory;
use std::alloc::Allocator;
use std::marker::Model;

/// The body of one telegram.
#[derive(Drop)]
pub struct Body<A: Allocator> {
    bytes: Vec<u8, A>,
}

impl<A: Allocator> Model for Body<A> {
    ghost use Rattle.std.specs.Prelude.{ℕ, List};

    ghost Value = { List ℕ };

    ghost view = { λ b. b.bytes.items };
}

impl<A: Allocator> Body<A> {
    /// A copy of these bytes.
    pub fn copied(alloc: A, bytes: &[u8]) -> Result<Body<A>, NoMemory>
        ensures { IfOk result (λ body. body ≡ bytes.now) }
    {
        Ok(Body {
            bytes: Vec::from_slice(alloc, bytes)?,
        })
    }

    /// The body's bytes.
    pub fn as_slice(&self) -> &[u8]
        ensures { result.now ≡ self.now }
    {
        &self.bytes
    }
}

/// The bodies of some telegrams, in order.
#[derive(Drop)]
pub struct Bodies<A: Allocator> {
    bodies: Vec<Body<A>, A>,
}

impl<A: Allocator> Model for Bodies<A> {
    ghost use Rattle.std.specs.Prelude.{ℕ, List};

    ghost Value = { List (List ℕ) };

    ghost view = { λ b. b.bodies.items };
}

impl<A: Allocator> Bodies<A> {
    /// Returns an empty list.
    pub fn new(alloc: A) -> Bodies<A>
        ensures { result ≡ [] }
    {
        Bodies {
            bodies: Vec::new(alloc),
        }
    }

    /// Appends a body.
    pub fn push(&mut self, body: Body<A>) -> Result<(), NoMemory>
        ensures { OnOk result (self.new ≡ self.old ++ body ∷ []) }
    {
        self.bodies.push(body)?;
        Ok(())
    }

    /// Number of bodies.
    pub fn len(&self) -> usize
        ensures { result ≡ length self.now }
    {
        self.bodies.len()
    }

    /// Whether there are no bodies.
    pub fn is_empty(&self) -> bool
        ensures { result ≡ (length self.now == 0) }
    {
        self.bodies.is_empty()
    }

    /// The body at this index, from 0.
    pub fn at(&self, place: usize) -> &[u8]
        requires { place < length self.now }
        ensures { result.now ≡ slice_index_or self.now place result.now }
    {
        self.bodies[place].as_slice()
    }
}
