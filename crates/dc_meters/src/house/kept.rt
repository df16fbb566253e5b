//! A house as what a store keeps.

ghost use Rattle.std.specs.Prelude.{◌≡◌};

use super::House;
use mbdc_change::DecodeFault;
use mbdc_io::kept::{Kept, Language};
use mbdc_io::{IoFault, Sink};
use std::alloc::Allocator;

/// The bytes of the empty register: the next serial is 1, and all else is zero or empty.
const EMPTY: [u8; 33] = [
    1, 0, 0, 0, 0, 0, 0, 0, 0, 0, 0, 0, 0, 0, 0, 0, 0, 0, 0, 0, 0, 0, 0, 0, 0, 0, 0, 0, 0, 0, 0, 0,
    0,
];

impl<A: Allocator + Copy> Language for House<A> {
    ghost use Rattle.mbdc_change.specs.State.{State as Register, empty_state};
    ghost use Rattle.mbdc_change.specs.declared.change.Change.{Change as RegisterChange};
    ghost use Rattle.mbdc_change.specs.Encoding.{state_bytes};
    ghost use Rattle.mbdc_change.specs.Spelled.{SpellsState as Spells, SpellsChanges as Spell};
    ghost use Rattle.mbdc_change.specs.History.{AcceptsAll, after as after_all};
    ghost use Rattle.dc_meters.specs.Language.{empty_text, one_register, one_history, wider_register};
    ghost use Rattle.dc_meters.specs.Language.{some_register, fits_register, empty_register};
    ghost use Rattle.dc_meters.specs.Language.{nothing_after, all_after};

    ghost State = { Register };

    ghost Change = { RegisterChange };

    ghost empty = { empty_state };

    ghost after = { after_all };

    ghost Accepts = { AcceptsAll };

    ghost bytes_of = { state_bytes };

    ghost empty_bytes = { empty_text };

    ghost SpellsState = { Spells };

    ghost SpellsChanges = { Spell };

    ghost state = { λ h. h.state };

    ghost limit = { λ h. h.budget };

    ghost one_state = { one_register };

    ghost one_list = { one_history };

    ghost wider = { wider_register };

    ghost some = { some_register };

    ghost fits = { fits_register };

    ghost empty_spelled = { empty_register };

    ghost after_none = { nothing_after };

    ghost after_append = { all_after };
}

impl<A: Allocator + Copy> Kept for House<A> {
    type Alloc = A;

    fn empty_bytes() -> &'static [u8] {
        &EMPTY
    }

    fn decode(alloc: A, bytes: &[u8], budget: u32) -> Result<House<A>, mbdc_io::kept::DecodeFault> {
        match House::decode(alloc, bytes, budget) {
            Ok(house) => Ok(house),
            Err(DecodeFault::Bad) => Err(mbdc_io::kept::DecodeFault::Bad),
            Err(DecodeFault::NoMemory) => Err(mbdc_io::kept::DecodeFault::NoMemory),
        }
    }

    fn replay(&mut self, bytes: &[u8]) -> Result<(), mbdc_io::kept::DecodeFault> {
        match House::replay(self, bytes) {
            Ok(()) => Ok(()),
            Err(DecodeFault::Bad) => Err(mbdc_io::kept::DecodeFault::Bad),
            Err(DecodeFault::NoMemory) => Err(mbdc_io::kept::DecodeFault::NoMemory),
        }
    }

    fn encode<S: Sink>(&self, sink: &mut S) -> Result<(), IoFault> {
        House::encode(self, sink)
    }

    fn size(&self) -> u32 {
        House::size(self)
    }
}
