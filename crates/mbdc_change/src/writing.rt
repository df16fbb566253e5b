//! Writes the pieces of an encoding to a sink.

ghost use Rattle.std.specs.Prelude.{◌≡◌, ◌≤◌, ◌++◌, length, OnOk, OnErr};
ghost use Rattle.dc_address.specs.Identity.{wire_of};
ghost use Rattle.mbdc_change.specs.Pieces.{long_bytes, count_bytes, counted, byte};
ghost use Rattle.mbdc_io.specs.Written.{IsWritten, IsStopped};

use byteorder::{ByteOrder, LittleEndian};
use dc_address::Identity;
use mbdc_io::{IoFault, Sink};

/// Writes one piece.
#[tactic(auto, using(mbdc_io::proofs::Writes::written_one, mbdc_io::proofs::Writes::stopped_one))]
pub fn put<S: Sink>(sink: &mut S, bytes: &[u8]) -> Result<(), IoFault>
    ensures ok { OnOk result (IsWritten S.Sink sink.old sink.new
        bytes.now) }
    ensures err { OnErr result (IsStopped S.Sink sink.old sink.new
        bytes.now) }
{
    sink.put(bytes)?;
    Ok(())
}

/// Writes a byte.
#[tactic(auto, unfolding(crate::specs::Pieces::byte))]
pub fn put_byte<S: Sink>(sink: &mut S, value: u8) -> Result<(), IoFault>
    ensures ok { OnOk result (IsWritten S.Sink sink.old sink.new
        (byte value)) }
    ensures err { OnErr result (IsStopped S.Sink sink.old sink.new
        (byte value)) }
{
    put(sink, &[value])?;
    Ok(())
}

/// Writes a number as eight bytes.
#[tactic(auto, unfolding(crate::specs::Pieces::long_bytes))]
pub fn put_long<S: Sink>(sink: &mut S, number: u64) -> Result<(), IoFault>
    ensures ok { OnOk result (IsWritten S.Sink sink.old sink.new
        (long_bytes number)) }
    ensures err { OnErr result (IsStopped S.Sink sink.old sink.new
        (long_bytes number)) }
{
    let mut bytes = [0; 8];
    LittleEndian::write_u64(&mut bytes, number);
    put(sink, &bytes)?;
    Ok(())
}

/// Writes a number as four bytes.
#[tactic(auto, unfolding(crate::specs::Pieces::count_bytes))]
pub fn put_count<S: Sink>(sink: &mut S, number: u32) -> Result<(), IoFault>
    ensures ok { OnOk result (IsWritten S.Sink sink.old sink.new
        (count_bytes number)) }
    ensures err { OnErr result (IsStopped S.Sink sink.old sink.new
        (count_bytes number)) }
{
    let mut bytes = [0; 4];
    LittleEndian::write_u32(&mut bytes, number);
    put(sink, &bytes)?;
    Ok(())
}

/// Writes an identity, as it is sent.
pub fn put_identity<S: Sink>(sink: &mut S, identity: &Identity) -> Result<(), IoFault>
    ensures ok { OnOk result (IsWritten S.Sink sink.old sink.new
        (wire_of identity.now)) }
    ensures err { OnErr result (IsStopped S.Sink sink.old sink.new
        (wire_of identity.now)) }
{
    put(sink, &identity.wire())?;
    Ok(())
}

/// Writes a length byte, and that many bytes.
pub fn put_counted<S: Sink>(sink: &mut S, bytes: &[u8]) -> Result<(), IoFault>
    requires { length bytes.now ≤ 255 }
    ensures ok { OnOk result (IsWritten S.Sink sink.old sink.new
        (counted bytes.now)) }
    ensures err { OnErr result (IsStopped S.Sink sink.old sink.new
        (counted bytes.now)) }
{
    put_byte(sink, bytes.len() as u8)?;
    put(sink, bytes)?;
    Ok(())
}
