//! The fixed data structure (EN 13757-3).

ghost use Rattle.std.specs.Prelude.{◌≡◌, length};

use crate::content::counter::{Counter, first_counter, second_counter};
use dc_units::digits_after;

// How many bytes the structure has.
const FIXED_LEN: usize = 16;

// The first medium whose counters have their highest byte first.
const MODE_2: u8 = 10;

/// Fixed data: the four bytes of the number, the access number, the status without what it says of the counters, the
/// medium, and two counters.
#[derive(Clone, Copy)]
pub struct FixedData<'a> {
    pub number: &'a [u8],
    pub access: u8,
    pub status: u8,
    pub medium: u8,
    pub first: Counter<'a>,
    pub second: Counter<'a>,
    ghost four: { length number.now ≡ 4 },
}

impl<'a> FixedData<'a> {
    ghost use Rattle.std.specs.Prelude.{option_map};
    ghost use Rattle.mbdc_reading.specs.Fixed.{fixed_at, fixed_view, has_number, shows_counters};

    /// Reads fixed data at the front of a body; none of fewer than 16 bytes.
    #[tactic(auto, unfolding(crate::specs::Fixed::fixed_at))]
    pub(crate) fn at(body: &'a [u8]) -> Option<FixedData<'a>>
        ensures { option_map fixed_view result ≡ fixed_at body.now }
    {
        if body.len() < FIXED_LEN {
            return None;
        }
        let (status, one, two) = (body[5], body[6], body[7]);
        Some(FixedData {
            number: &body[0..4],
            access: body[4],
            status: status / 4 * 4,
            medium: one / 64 + 4 * (two / 64),
            first: first_counter(&body[6..7], &body[8..12], status, one),
            second: second_counter(&body[7..8], &body[12..16], status, one, two),
        })
    }

    /// Whether the number has eight digits.
    pub fn has_number(&self) -> bool
        ensures { result ≡ has_number (fixed_view self.now) }
    {
        digits_after(0, self.number).is_some()
    }

    /// Whether the counters are read: the meter has a number, and its medium isn't one of mode 2.
    pub fn shows_counters(&self) -> bool
        ensures { result ≡ shows_counters (fixed_view self.now) }
    {
        self.has_number() && self.medium < MODE_2
    }
}
