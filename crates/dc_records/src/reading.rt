//! Reading a record from the front of a slice.

ghost use Rattle.std.specs.Prelude.{◌≡◌, ◌≤◌, ◌<◌, ◌^◌, ◌*◌, length, map, IfOk};
ghost use Rattle.dc_records.specs.Record.{number, storage_digit, tariff_digit, subunit_digit, view, width};
ghost use Rattle.dc_records.specs.Reading.{Gives, chain_len, counted_at, vib_len, data_at};
ghost use Rattle.dc_records.specs.Reading.{record_at};

use crate::fault::BodyFault;
use crate::record::Record;

/// The most DIFEs of a record, and the most VIFEs (EN 13757-3).
pub const MOST_EXTENSIONS: usize = 10;

/// How many bytes follow `last`, each announced by bit 7 of the one before it: at most `room`. Mostly none.
///
/// # Errors
/// `many` if more than `room` are announced, [`BodyFault::Cut`] if the bytes end before the last one.
#[inline]
#[tactic(auto, using(crate::proofs::Spellings::Chain::chain_ends))]
pub fn chain_len(many: BodyFault, room: usize, last: u8, bytes: &[u8]) -> Result<usize, BodyFault>
    ensures exact { result ≡ chain_len many room last bytes.now }
    ensures room { IfOk result (λ n. n ≤ room) }
    ensures within { IfOk result (λ n. n ≤ length bytes.now) }
{
    if last < 0x80 {
        return Ok(0);
    }
    counted_chain(many, room, last, bytes)
}

// The same, byte by byte.
#[tactic(auto, using(crate::proofs::Spellings::Chain::chain_ends, crate::proofs::Spellings::Chain::chain_full))]
fn counted_chain(many: BodyFault, room: usize, last: u8, bytes: &[u8]) -> Result<usize, BodyFault>
    ensures exact { result ≡ chain_len many room last bytes.now }
    ensures room { IfOk result (λ n. n ≤ room) }
    ensures within { IfOk result (λ n. n ≤ length bytes.now) }
{
    if last < 0x80 {
        return Ok(0);
    }
    if room == 0 {
        return Err(many);
    }
    match bytes {
        [] => Err(BodyFault::Cut),
        [next, rest @ ..] => {
            let others = counted_chain(many, room - 1, *next, rest)?;
            Ok(others + 1)
        }
    }
}

/// A length byte, then that many bytes: those bytes, and the rest.
///
/// # Errors
/// [`BodyFault::BadLength`] if the length byte is F0 or more, [`BodyFault::Cut`] if the bytes end before.
pub fn counted(bytes: &[u8]) -> Result<(&[u8], &[u8]), BodyFault>
    ensures { Gives (λ x. (x.0.now, x.1.now)) result (counted_at bytes.now) }
{
    let Some((first, rest)) = bytes.split_first() else {
        return Err(BodyFault::Cut);
    };
    let len = match *first {
        0..0xC0 => *first,
        0xC0..0xF0 => *first % 16,
        _ => return Err(BodyFault::BadLength),
    };
    rest.split_at_checked(len as usize).ok_or(BodyFault::Cut)
}

// How many bytes the VIB has.
fn vib_len(bytes: &[u8]) -> Result<usize, BodyFault>
    ensures exact { result ≡ vib_len bytes.now }
    ensures within { IfOk result (λ n. n ≤ length bytes.now) }
{
    match bytes {
        [] => Err(BodyFault::Cut),
        [0xFC, ..] => Err(BodyFault::PlainTextExtension),
        [0x7C, rest @ ..] => {
            let (characters, _) = counted(rest)?;
            Ok(2 + characters.len())
        }
        [vif, rest @ ..] => {
            let others = chain_len(BodyFault::TooManyVife, MOST_EXTENSIONS, *vif, rest)?;
            Ok(others + 1)
        }
    }
}

// How many bytes each data field has; D has a length byte.
static WIDTHS: [usize; 15] = [0, 1, 2, 3, 4, 4, 6, 8, 0, 1, 2, 3, 4, 0, 6];

/// How many bytes a data field has, without those that a length byte states.
#[inline(always)]
pub fn width(field: u8) -> usize
    ensures { result ≡ width field }
{
    let at = usize::from(field);
    if at < WIDTHS.len() { WIDTHS[at] } else { 0 }
}

/// The data that a data field has: its content, and the rest.
///
/// # Errors
/// [`BodyFault::BadLength`] if a length byte is F0 or more, [`BodyFault::Cut`] if the bytes end before.
pub fn data(field: u8, bytes: &[u8]) -> Result<(&[u8], &[u8]), BodyFault>
    ensures { Gives (λ x. (x.0.now, x.1.now)) result (data_at field bytes.now) }
{
    if field == 0xD {
        return counted(bytes);
    }
    bytes.split_at_checked(width(field)).ok_or(BodyFault::Cut)
}

/// The numbers that DIFEs make. Ten of them fit in these types.
#[derive(Clone, Copy)]
pub struct Numbers {
    /// The storage number, but for the bit in the DIF.
    pub storage: u64,
    /// The tariff.
    pub tariff: u32,
    /// The subunit.
    pub subunit: u16,
}

/// The numbers of a record with these DIFEs (EN 13757-3).
#[inline]
pub fn numbers_of(difes: &[u8]) -> Numbers
    requires { length difes.now ≤ 10 }
    ensures storage { result.storage ≡ number 16 (map storage_digit difes.now) }
    ensures tariff { result.tariff ≡ number 4 (map tariff_digit difes.now) }
    ensures subunit { result.subunit ≡ number 2 (map subunit_digit difes.now) }
    ensures storage_fits { result.storage < 16 ^ length difes.now }
    ensures tariff_fits { result.tariff < 4 ^ length difes.now }
    ensures subunit_fits { result.subunit < 2 ^ length difes.now }
{
    match difes {
        // Mostly there are none.
        [] => Numbers {
            storage: 0,
            tariff: 0,
            subunit: 0,
        },
        _ => sum_up(difes),
    }
}

// The same, DIFE by DIFE.
fn sum_up(difes: &[u8]) -> Numbers
    requires { length difes.now ≤ 10 }
    ensures storage { result.storage ≡ number 16 (map storage_digit difes.now) }
    ensures tariff { result.tariff ≡ number 4 (map tariff_digit difes.now) }
    ensures subunit { result.subunit ≡ number 2 (map subunit_digit difes.now) }
    ensures storage_fits { result.storage < 16 ^ length difes.now }
    ensures tariff_fits { result.tariff < 4 ^ length difes.now }
    ensures subunit_fits { result.subunit < 2 ^ length difes.now }
{
    match difes {
        [] => Numbers {
            storage: 0,
            tariff: 0,
            subunit: 0,
        },
        [dife, others @ ..] => {
            let higher = sum_up(others);
            Numbers {
                storage: u64::from(dife % 16) + 16 * higher.storage,
                tariff: u32::from(dife / 16 % 4) + 4 * higher.tariff,
                subunit: u16::from(dife / 64 % 2) + 2 * higher.subunit,
            }
        }
    }
}

/// The record at the front of the bytes, and the rest.
#[inline(always)]
#[tactic(auto, unfolding(crate::specs::Reading::record_at))]
pub fn record(bytes: &[u8]) -> Result<(Record<'_>, &[u8]), BodyFault>
    ensures { Gives (λ x. (view x.0, x.1.now)) result (record_at bytes.now) }
{
    let Some((&dif, rest)) = bytes.split_first() else {
        return Err(BodyFault::Cut);
    };
    let field = dif % 16;
    if field == 0xF {
        return Err(BodyFault::ReservedDif);
    }
    let difes = chain_len(BodyFault::TooManyDife, MOST_EXTENSIONS, dif, rest)?;
    let (difes, rest) = rest.split_at(difes);
    let (vib, rest) = rest.split_at(vib_len(rest)?);
    let (content, rest) = data(field, rest)?;
    let higher = numbers_of(difes);
    let record = Record {
        storage: u64::from(dif / 64 % 2) + 2 * higher.storage,
        tariff: higher.tariff,
        subunit: higher.subunit,
        function: dif / 16 % 4,
        field,
        vib,
        content,
    };
    Ok((record, rest))
}
