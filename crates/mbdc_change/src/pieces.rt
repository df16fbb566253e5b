//! Decodes values from the start of bytes.

ghost use Rattle.std.specs.Prelude.{◌≤◌, ◌<◌, IfOk};
ghost use Rattle.mbdc_change.specs.Flat.{IsFlat};
ghost use Rattle.mbdc_change.specs.Body.{IsBody};
ghost use Rattle.mbdc_change.specs.Fields.{IsNumber, IsBusLine, IsAddress, last_moment};
ghost use Rattle.mbdc_change.specs.Fields.{end_of_numbers};
ghost use Rattle.mbdc_change.specs.Pieces.{Reads, byte_at, long_at, count_at, counted_at};
ghost use Rattle.mbdc_change.specs.Pieces.{identity_at, moment_at, number_at, serial_at, line_at};
ghost use Rattle.mbdc_change.specs.Pieces.{address_of, only, is_flat};
ghost use Rattle.mbdc_change.specs.Reading.{body_at};

use crate::{Body, DecodeFault, END_OF_NUMBERS, Flat, Moment};
use byteorder::{ByteOrder, LittleEndian};
use dc_address::{Identity, Primary};

/// Decodes a byte.
#[tactic(auto, unfolding(crate::specs::Pieces::byte_at))]
pub fn byte_at(bytes: &[u8]) -> Result<(u8, &[u8]), DecodeFault>
    ensures { Reads (λ x. (x.0, x.1.now)) result (byte_at bytes.now) }
{
    let Some((first, rest)) = bytes.split_first() else {
        return Err(DecodeFault::Bad);
    };
    Ok((*first, rest))
}

/// Decodes a number of eight bytes.
#[tactic(auto, unfolding(crate::specs::Pieces::long_at))]
pub fn long_at(bytes: &[u8]) -> Result<(u64, &[u8]), DecodeFault>
    ensures { Reads (λ x. (x.0, x.1.now)) result (long_at bytes.now) }
{
    let Some((front, rest)) = bytes.split_at_checked(8) else {
        return Err(DecodeFault::Bad);
    };
    Ok((LittleEndian::read_u64(front), rest))
}

/// Decodes a number of four bytes.
#[tactic(auto, unfolding(crate::specs::Pieces::count_at))]
pub fn count_at(bytes: &[u8]) -> Result<(u32, &[u8]), DecodeFault>
    ensures { Reads (λ x. (x.0, x.1.now)) result (count_at bytes.now) }
{
    let Some((front, rest)) = bytes.split_at_checked(4) else {
        return Err(DecodeFault::Bad);
    };
    Ok((LittleEndian::read_u32(front), rest))
}

/// Decodes a length byte, and that many bytes.
#[tactic(auto, unfolding(crate::specs::Pieces::counted_at))]
pub fn counted_at(bytes: &[u8]) -> Result<(&[u8], &[u8]), DecodeFault>
    ensures { Reads (λ x. (x.0.now, x.1.now)) result (counted_at bytes.now) }
{
    let (len, rest) = byte_at(bytes)?;
    let Some((text, rest)) = rest.split_at_checked(usize::from(len)) else {
        return Err(DecodeFault::Bad);
    };
    Ok((text, rest))
}

/// Decodes an identity, as it is sent.
#[tactic(auto, unfolding(crate::specs::Pieces::identity_at), using(crate::proofs::PieceSpellings::identity_read))]
pub fn identity_at(bytes: &[u8]) -> Result<(Identity, &[u8]), DecodeFault>
    ensures { Reads (λ x. (x.0, x.1.now)) result (identity_at bytes.now) }
{
    let Some((wire, rest)) = bytes.split_first_chunk::<8>() else {
        return Err(DecodeFault::Bad);
    };
    let Some(identity) = Identity::from_wire(wire) else {
        return Err(DecodeFault::Bad);
    };
    Ok((identity, rest))
}

/// Decodes a time stamp, up to the end of the year 9999.
#[tactic(auto, unfolding(crate::specs::Pieces::moment_at))]
pub fn moment_at(bytes: &[u8]) -> Result<(u64, &[u8]), DecodeFault>
    ensures read { Reads (λ x. (x.0, x.1.now)) result (moment_at bytes.now) }
    ensures fits { IfOk result (λ x. x.0 ≤ last_moment) }
{
    let (seconds, rest) = long_at(bytes)?;
    let Some(moment) = Moment::from_seconds(seconds) else {
        return Err(DecodeFault::Bad);
    };
    Ok((moment.seconds, rest))
}

/// Decodes the number of a command: at least 1, of at most 18 digits.
#[tactic(auto, unfolding(crate::specs::Pieces::number_at))]
pub fn number_at(bytes: &[u8]) -> Result<(u64, &[u8]), DecodeFault>
    ensures read { Reads (λ x. (x.0, x.1.now)) result (number_at bytes.now) }
    ensures is_number { IfOk result (λ x. IsNumber x.0) }
{
    let (number, rest) = long_at(bytes)?;
    if 1 <= number && number < END_OF_NUMBERS {
        Ok((number, rest))
    } else {
        Err(DecodeFault::Bad)
    }
}

/// Decodes a serial of at most 18 digits.
#[tactic(auto, unfolding(crate::specs::Pieces::serial_at))]
pub fn serial_at(bytes: &[u8]) -> Result<(u64, &[u8]), DecodeFault>
    ensures read { Reads (λ x. (x.0, x.1.now)) result (serial_at bytes.now) }
    ensures fits { IfOk result (λ x. x.0 < end_of_numbers) }
{
    let (serial, rest) = long_at(bytes)?;
    if serial < END_OF_NUMBERS {
        Ok((serial, rest))
    } else {
        Err(DecodeFault::Bad)
    }
}

/// Decodes a bus line, from 1 to 8.
#[tactic(auto, unfolding(crate::specs::Pieces::line_at))]
pub fn line_at(bytes: &[u8]) -> Result<(u8, &[u8]), DecodeFault>
    ensures read { Reads (λ x. (x.0, x.1.now)) result (line_at bytes.now) }
    ensures is_line { IfOk result (λ x. IsBusLine x.0) }
{
    let (line, rest) = byte_at(bytes)?;
    if 1 <= line && line <= 8 {
        Ok((line, rest))
    } else {
        Err(DecodeFault::Bad)
    }
}

/// The primary address of this number; `None` for 0, which means secondary addressing.
pub fn address_of(number: u8) -> Result<Option<Primary>, DecodeFault>
    ensures means { Reads (λ x. x) result (address_of number) }
    ensures is_address { IfOk result (λ x. IsAddress x) }
{
    if number == 0 {
        return Ok(None);
    }
    let Some(address) = Primary::new(number) else {
        return Err(DecodeFault::Bad);
    };
    Ok(Some(address))
}

/// Returns the flat of this name.
pub fn flat_of(name: &[u8]) -> Result<Flat, DecodeFault>
    ensures means { Reads (λ x. x) result (only is_flat name.now) }
    ensures is_flat { IfOk result (λ x. IsFlat x) }
{
    let Some(flat) = Flat::new(name) else {
        return Err(DecodeFault::Bad);
    };
    Ok(flat)
}

/// Decodes a telegram's body, after its length.
#[tactic(auto, unfolding(crate::specs::Reading::body_at), using(crate::proofs::PieceSpellings::body_read))]
pub fn body_at(bytes: &[u8]) -> Result<(Body<'_>, &[u8]), DecodeFault>
    ensures read { Reads (λ x. (x.0, x.1.now)) result (body_at bytes.now) }
    ensures is_body { IfOk result (λ x. IsBody x.0) }
{
    let (text, rest) = counted_at(bytes)?;
    let Some(body) = Body::parse(text) else {
        return Err(DecodeFault::Bad);
    };
    Ok((body, rest))
}
