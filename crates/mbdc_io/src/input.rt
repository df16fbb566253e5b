//! Reads the whole input before anything is written.

ghost use Rattle.std.specs.Prelude.{◌≡◌, ◌⊎◌, ◌<◌, ◌≤◌, length, vec_len, IfOk, IfErr, OnOk};
ghost use Rattle.std.specs.Prelude.{IsErrOf};
ghost use Rattle.mbdc_io.specs.Failures.{HasRisen};
ghost use Rattle.mbdc_io.specs.Stream.{Takes, IsAtEnd};
ghost use Rattle.mbdc_io.specs.Lines.{most_input};

use crate::Source;
use crate::text_fault::TextFault;
use std::alloc::Allocator;

/// Number of bytes that one read asks for.
pub const CHUNK: usize = 65_536;

/// Maximum number of bytes of an input.
pub const MOST: usize = 1_048_576;

/// Reads until the source ends or the input exceeds its maximum. `chunk` is the room for one read.
pub fn read_input<A: Allocator, R: Source>(
    alloc: A,
    reader: &mut R,
    chunk: &mut [u8],
) -> Result<Vec<u8, A>, TextFault>
    requires { 0 < length chunk.old }
    ensures bytes { IfOk result (λ input.
        Takes (R.left reader.old) (R.left reader.new) input.items) }
    ensures end { IfOk result (λ input. vec_len input ≤ most_input → IsAtEnd (R.left reader.new)) }
    ensures faults { IfErr result (λ fault.
        (fault ≡ TextFault.Read) ⊎ (fault ≡ TextFault.NoMemory)) }
    ensures ok { OnOk result (R.take_failures reader.new ≡ R.take_failures reader.old) }
    ensures read { IsErrOf result TextFault.Read
        → HasRisen (R.take_failures reader.old) (R.take_failures reader.new) }
{
    // No growth follows: a read that begins at the limit still fits.
    let Ok(mut input) = Vec::with_capacity(alloc, MOST + CHUNK) else {
        return Err(TextFault::NoMemory);
    };
    'takes: while input.len() <= MOST {
        let Ok(count) = reader.take(chunk) else {
            return Err(TextFault::Read);
        };
        if count == 0 {
            return Ok(input);
        }
        let (given, _) = chunk.split_at(count);
        if input.extend_from_slice(given).is_err() {
            return Err(TextFault::NoMemory);
        }
    }
    Ok(input)
}
