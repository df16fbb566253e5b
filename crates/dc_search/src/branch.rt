//! The masks of a search's walk.

use dc_address::Mask;
use std::marker::Model;

/// A mask of the walk: the first digits of the identification number are fixed.
#[derive(Clone, Copy)]
pub struct Branch {
    mask: Mask,
    number: u32,
    fixed: u8,
}

impl Model for Branch {
    ghost use Rattle.std.specs.Prelude.{ℕ, List, length};
    ghost use Rattle.std.specs.Int.Digits.{number_from_digits};
    ghost use Rattle.dc_search.specs.Prefix.{mask_of_digits};
    ghost use Rattle.dc_search.specs.Branch.{IsBranch};
    ghost use Rattle.dc_address.specs.Digits.{decimal_digits};

    ghost Value = { List ℕ };

    ghost view = { λ b. decimal_digits b.fixed b.number };

    ghost invariant = { λ b. IsBranch b.mask b.number b.fixed };

    ghost inverse = { λ digits. record {
      mask = mask_of_digits digits;
      number = number_from_digits 10 digits;
      fixed = length digits;
    } };

    ghost inverse_ok = { λ b h i. record {
      mask = h.mask_back i;
      number = h.number_back i;
      fixed = h.fixed_back i;
    } };
}

impl Branch {
    ghost use Rattle.std.specs.Prelude.{◌≡◌, ◌<◌, ◌≤◌, ◌==◌, ◌++◌, ◌∷◌, [], length, reverse};
    ghost use Rattle.std.specs.Int.Digits.{number_from_digits};
    ghost use Rattle.dc_search.specs.Prefix.{mask_of_digits};
    ghost use Rattle.dc_search.specs.State.{children};

    /// The mask of all wildcards.
    pub fn root() -> Branch
        ensures { result ≡ [] }
    {
        Branch {
            mask: Mask::all(),
            number: 0,
            fixed: 0,
        }
    }

    /// The wildcard secondary address that is selected.
    pub fn mask(&self) -> Mask
        ensures { result ≡ mask_of_digits self.now }
    {
        self.mask
    }

    /// Whether all eight digits are fixed.
    pub fn is_full(&self) -> bool
        ensures { result ≡ (length self.now == 8) }
    {
        self.fixed == 8
    }

    /// The number that the fixed digits spell.
    pub fn number(&self) -> u32
        ensures { result ≡ number_from_digits 10 self.now }
    {
        self.number
    }

    /// The mask with this digit fixed next.
    pub fn child(&self, digit: u8) -> Branch
        requires room { length self.now < 8 }
        requires digit { digit < 10 }
        ensures { result ≡ self.now ++ digit ∷ [] }
    {
        Branch {
            mask: self.mask.with_digit(usize::from(self.fixed), digit),
            number: self.number * 10 + u32::from(digit),
            fixed: self.fixed + 1,
        }
    }

    /// The ten masks with the next digit, from 9 down to 0.
    pub fn children(&self) -> [Branch; 10]
        requires { length self.now < 8 }
        ensures { result ≡ reverse (children self.now) }
    {
        [
            self.child(9),
            self.child(8),
            self.child(7),
            self.child(6),
            self.child(5),
            self.child(4),
            self.child(3),
            self.child(2),
            self.child(1),
            self.child(0),
        ]
    }
}
