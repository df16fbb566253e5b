//! Laws of identities and masks: what each contract says holds by the definitions.
ghost use Rattle.std.specs.Prelude.{◌≡◌, ◌≢◌, ◌<◌, ◌&&◌, ◌==◌, ℕ, Some, None, true, slice_get};
ghost use Rattle.std.specs.Prelude.{slice_index};
ghost use Rattle.dc_address.specs.Digits.{decimal_digits};
ghost use Rattle.dc_address.specs.Mask.{IsMask, MaskParts, mask_at, mask_of, mask_of_all};
ghost use Rattle.dc_address.specs.Mask.{mask_wire, matches, with_digit};
ghost use Rattle.dc_address.specs.Identity.{identity_cmp, wire_of};
ghost use Rattle.dc_address.specs.declared.identity.Identity.{Identity};

use crate::Identity;
use std::cmp::Ordering;

/// The mask of an identity matches it and, where its version and type aren't FF, no other; it is sent
/// as the identity's own bytes.
pub fn mask_of_asks_for_one()
    ensures own { (identity : Identity) → matches (mask_of identity) identity ≡ true }
    ensures alone { (identity other : Identity) → identity.version ≢ 255 → identity.kind ≢ 255
        → matches (mask_of identity) other ≡ true → other ≡ identity }
    ensures sent { (identity : Identity) → mask_wire (mask_of identity) ≡ wire_of identity }
{}

/// All wildcards match every identity.
pub fn mask_of_all_matches_all()
    ensures { (identity : Identity) → matches mask_of_all identity ≡ true }
{}

/// A mask that is sent is read back from its bytes, and so is an identity's.
pub fn masks_are_read_as_sent()
    ensures mask { (mask : MaskParts) → IsMask mask → mask_at (mask_wire mask) ≡ mask }
    ensures identity { (identity : Identity) → mask_at (wire_of identity) ≡ mask_of identity }
{}

/// Identities are ordered by identification number, then manufacturer, then version, then device type.
pub fn order_of(one: &Identity, other: &Identity) -> Ordering
    ensures { result ≡ identity_cmp one.now other.now }
{
    one.cmp(other)
}

/// Fixing a digit where a wildcard stood keeps, of the identities that matched, those with that digit.
pub fn with_digit_narrows()
    ensures { (mask : MaskParts) (place digit : ℕ) (identity : Identity) → place < 8
        → slice_get mask.digits place ≡ Some None
        → matches (with_digit mask place digit) identity
        ≡ (digit == slice_index (decimal_digits 8 identity.number) place && matches mask identity) }
{}
