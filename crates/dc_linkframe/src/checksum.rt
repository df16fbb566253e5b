//! The checksum of a frame.

ghost use Rattle.std.specs.Prelude.{◌≡◌};
ghost use Rattle.dc_linkframe.specs.Frame.{checksum};

// The sum of the bytes, without carry.
pub(crate) fn checksum(bytes: &[u8]) -> u8
    ensures { result ≡ checksum bytes.now }
{
    bytes.iter().fold(0, |sum, byte| sum.wrapping_add(*byte))
}
