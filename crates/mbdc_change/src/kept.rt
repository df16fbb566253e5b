//! Short texts in fixed arrays.

ghost use Rattle.std.specs.Prelude.{◌≡◌, ◌≤◌, length};
ghost use Rattle.mbdc_change.specs.Flat.{padded};

/// Copies the bytes into an array, with zeros after them.
#[tactic(auto, using(crate::proofs::Padding::padded_copied))]
pub fn padded<const N: usize>(bytes: &[u8]) -> [u8; N]
    requires { length bytes.now ≤ N }
    ensures { result ≡ padded N bytes.now }
{
    let mut kept = [0; N];
    kept[..bytes.len()].copy_from_slice(bytes);
    kept
}
