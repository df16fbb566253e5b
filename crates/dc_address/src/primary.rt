//! Primary addresses.

use std::marker::Model;

/// A primary address, from 1 to 250 (EN 13757-2: 0 is unconfigured, 251 and above have other uses).
#[derive(Clone, Copy, PartialEq, Eq, PartialOrd, Ord, Hash)]
pub struct Primary {
    address: u8,
}

impl Model for Primary {
    ghost use Rattle.std.specs.Prelude.{ℕ};
    ghost use Rattle.dc_address.specs.Primary.{IsPrimary};

    ghost Value = { ℕ };

    ghost view = { λ p. p.address };

    ghost invariant = { λ p. IsPrimary p.address };

    ghost inverse = { λ n. record { address = n } };
}

impl Primary {
    ghost use Rattle.std.specs.Prelude.{◌≡◌, SomeIff};
    ghost use Rattle.dc_address.specs.Primary.{IsPrimary};

    /// The address of this number, if it is one.
    pub fn new(number: u8) -> Option<Primary>
        ensures { SomeIff result (IsPrimary number) number }
    {
        if (1..=250).contains(&number) {
            Some(Primary { address: number })
        } else {
            None
        }
    }

    /// The address as a number, from 1 to 250.
    pub fn get(self) -> u8
        ensures exact { result ≡ self }
        ensures range { IsPrimary result }
    {
        self.address
    }
}
