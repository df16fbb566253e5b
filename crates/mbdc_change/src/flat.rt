//! A flat's name.

ghost use Rattle.std.specs.Prelude.{◌≡◌, SomeIff, Some, length, true, false, nat_eq, refl};
ghost use Rattle.std.specs.Cmp.{partial_equiv_from_equiv};
ghost use Rattle.std.specs.Cmp.Lexicographic.{pointwise, slice_cmp, nat_list_eq_equiv};
ghost use Rattle.std.specs.Cmp.Lexicographic.{nat_list_cmp_total, texts_ties, texts_po};
ghost use Rattle.std.specs.Ordering.{nat_cmp};
ghost use Rattle.std.specs.List.{list_all};
ghost use Rattle.mbdc_change.specs.Flat.{IsFlat, is_flat_byte};

use crate::LONGEST_FLAT;
use crate::kept::padded;
use std::cmp::Ordering;
use std::marker::Model;

/// A flat's name: 1 to 12 bytes of `A-Z a-z 0-9 . - / _` (this product). Names are ordered as their bytes.
#[derive(Clone, Copy)]
pub struct Flat {
    bytes: [u8; LONGEST_FLAT],
    len: u8,
}

impl Model for Flat {
    ghost use Rattle.std.specs.Prelude.{ℕ, List, length, take};
    ghost use Rattle.mbdc_change.specs.Flat.{padded, IsKept, IsFlat, longest_flat};

    ghost Value = { List ℕ };

    ghost view = { λ f. take f.len f.bytes };

    ghost invariant = { λ f. IsKept longest_flat f.bytes f.len × IsFlat (take f.len f.bytes) };

    ghost inverse = { λ bytes. record { bytes = padded longest_flat bytes; len = length bytes } };

    ghost inverse_ok = { λ f h i. record { bytes = h.0.zeros i; len = h.0.counted i } };
}

impl Flat {
    /// Returns the flat of this name, if the name is valid.
    pub fn new(name: &[u8]) -> Option<Flat>
        ensures { SomeIff result (IsFlat name.now) name.now }
    {
        if !is_flat(name) {
            return None;
        }
        Some(Flat {
            bytes: padded(name),
            len: name.len() as u8,
        })
    }

    /// The name's bytes.
    pub fn as_slice(&self) -> &[u8]
        ensures name { result.now ≡ self.now }
        ensures is_flat { IsFlat self.now }
    {
        &self.bytes[..usize::from(self.len)]
    }

    /// Number of bytes of the name.
    pub fn len(&self) -> u8
        ensures exact { result ≡ length self.now }
        ensures is_flat { IsFlat self.now }
    {
        self.len
    }
}

impl PartialEq for Flat {
    ghost eq = { pointwise nat_eq };

    ghost laws = { partial_equiv_from_equiv nat_list_eq_equiv };

    fn eq(&self, other: &Flat) -> bool {
        self.as_slice() == other.as_slice()
    }
}

impl Eq for Flat {
    ghost laws = { nat_list_eq_equiv };
}

impl PartialOrd for Flat {
    ghost partial_cmp = { λ x y. Some (slice_cmp nat_cmp x y) };

    ghost laws = { texts_po };

    fn partial_cmp(&self, other: &Flat) -> Option<Ordering> {
        Some(self.cmp(other))
    }
}

impl Ord for Flat {
    ghost cmp = { slice_cmp nat_cmp };

    ghost total = { nat_list_cmp_total };

    ghost matches_partial_cmp = { λ x y. refl };

    ghost matches_eq = { texts_ties };

    fn cmp(&self, other: &Flat) -> Ordering {
        self.as_slice().cmp(other.as_slice())
    }
}

fn is_flat(name: &[u8]) -> bool
    ensures yes { result ≡ true → IsFlat name.now }
    ensures no { result ≡ false → ¬ IsFlat name.now }
{
    !name.is_empty() && name.len() <= LONGEST_FLAT && has_flat_bytes(name)
}

fn has_flat_bytes(name: &[u8]) -> bool
    ensures { result ≡ list_all is_flat_byte name.now }
{
    name.iter().all(|byte| is_flat_byte(*byte))
}

fn is_flat_byte(byte: u8) -> bool
    ensures { result ≡ is_flat_byte byte }
{
    matches!(byte, b'A'..=b'Z' | b'a'..=b'z' | b'-'..=b'9' | b'_')
}
