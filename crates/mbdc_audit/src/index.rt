//! Numbers by keys, so that what is of one flat or meter is found without a walk over the house.

ghost use Rattle.std.specs.Prelude.{◌≡◌, ◌==◌, ◌++◌, ◌∷◌, ℕ, [], OnOk, if◌then◌else◌};
ghost use Rattle.mbdc_audit.specs.Index.{at, flat_key};

use crate::fault::Stop;
use std::alloc::Allocator;
use std::collections::BTreeMap;

// What the key of a longer flat is multiplied by, and the key of none (FNV-1a, 64 bits).
const PRIME: u64 = 0x0000_0100_0000_01B3;

const NO_FLAT: u64 = 0xCBF2_9CE4_8422_2325;

/// Numbers of places by a key: of each key those that were added with it, in the order of adding.
#[derive(Drop)]
pub(crate) struct Index<A: Allocator + Copy> {
    numbers: BTreeMap<u64, Vec<u64, A>, A>,
    alloc: A,
}

impl<A: Allocator + Copy> Index<A> {
    /// Without numbers.
    pub fn new(alloc: A) -> Self
        ensures { (k : ℕ) → at result k ≡ [] }
    {
        Index {
            numbers: BTreeMap::new(alloc),
            alloc,
        }
    }

    /// Adds a number to those of a key.
    pub fn add(&mut self, key: u64, number: u64) -> Result<(), Stop>
        ensures { OnOk result ((k : ℕ)
            → at self.new k ≡ (if k == key then at self.old k ++ number ∷ [] else at self.old k)) }
    {
        let none = Vec::new(self.alloc);
        self.numbers.entry(key)?.or_insert(none).push(number)?;
        Ok(())
    }

    /// The numbers of a key.
    pub fn at(&self, key: u64) -> &[u64]
        ensures { result.now ≡ at self.now key }
    {
        match self.numbers.get(&key) {
            Some(numbers) => numbers.as_slice(),
            None => &[],
        }
    }
}

/// The key of a flat, which others may share.
pub(crate) fn flat_key(flat: &[u8]) -> u64
    ensures { result ≡ flat_key flat.now }
{
    flat.iter().fold(NO_FLAT, |key, byte| {
        (key ^ u64::from(*byte)).wrapping_mul(PRIME)
    })
}
