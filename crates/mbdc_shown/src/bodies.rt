//! The bodies of a readout's telegrams.

ghost use Rattle.std.specs.Prelude.{◌≡◌, ◌<◌, ◌≤◌, ◌++◌, ◌∷◌, [], length, map};
ghost use Rattle.mbdc_change.specs.Fields.{most_parts};
ghost use Rattle.mbdc_shown.specs.Stand.{bodies_of};

use arrayvec::ArrayVec;
use dc_meters::Part;
use std::alloc::Allocator;
use std::marker::Model;

/// Maximum number of telegrams of a readout.
pub const MOST_BODIES: usize = 255;

/// The bodies of a readout's telegrams, in order, wherever they are kept. Contracts see them as a list.
#[derive(Drop)]
pub struct Bodies<'a> {
    bodies: ArrayVec<&'a [u8], MOST_BODIES>,
}

impl<'a> Model for Bodies<'a> {
    ghost use Rattle.std.specs.Prelude.{ℕ, List, map};

    ghost Value = { List (List ℕ) };

    ghost view = { λ b. map (λ s. s.now) b.bodies.items };
}

impl<'a> Bodies<'a> {
    /// No body.
    pub fn none() -> Self
        ensures { result ≡ [] }
    {
        Bodies {
            bodies: ArrayVec::new(),
        }
    }

    /// Appends a body. There must be room.
    pub fn push(&mut self, body: &'a [u8])
        requires { length self.old < most_parts }
        ensures { self.new ≡ self.old ++ body.now ∷ [] }
    {
        self.bodies.push(body);
    }

    /// Those of a reading's parts.
    pub fn of<A: Allocator>(parts: &'a [Part<A>]) -> Self
        requires { length parts.now ≤ most_parts }
        ensures { result ≡ bodies_of parts.now }
    {
        let mut bodies = Bodies::none();
        'parts: for part in parts {
            bodies.push(part.body());
        }
        bodies
    }

    /// Number of bodies.
    pub fn len(&self) -> usize
        ensures len { result ≡ length self.now }
        ensures fits { result ≤ most_parts }
    {
        self.bodies.len()
    }

    /// The bodies.
    pub fn as_slice(&self) -> &[&'a [u8]]
        ensures { map (λ s. s.now) result.now ≡ self.now }
    {
        self.bodies.as_slice()
    }
}
