//! What stands at the front of a body's rest, a record with a unit in plain text and VIFEs too.

ghost use Rattle.std.specs.Prelude.{◌≡◌, ◌≤◌, length, IfOk};
ghost use Rattle.std.specs.List.{list_all};
ghost use Rattle.dc_records.specs.Record.{view};
ghost use Rattle.dc_records.specs.Reading.{Gives};
ghost use Rattle.dc_records.specs.Seen.{front};
ghost use Rattle.mbdc_reading.specs.Front.{is_printed, text_vib_len, text_record_at, wide_front_at};

use dc_records::{
    BodyFault, Front, MOST_EXTENSIONS, Record, chain_len, counted, data, front_of, numbers_of,
};

// Whether a text has no control characters.
fn is_printed(text: &[u8]) -> bool
    ensures { result ≡ list_all is_printed text.now }
{
    match text {
        [] => true,
        [first, others @ ..] => matches!(*first, 0x20..=0x7E | 0xA0..) && is_printed(others),
    }
}

// How many bytes the VIB has whose VIF is FC.
fn text_vib_len(bytes: &[u8]) -> Result<usize, BodyFault>
    ensures exact { result ≡ text_vib_len bytes.now }
    ensures within { IfOk result (λ n. n ≤ length bytes.now) }
{
    let [_, rest @ ..] = bytes else {
        return Err(BodyFault::Cut);
    };
    let (text, others) = counted(rest)?;
    if !is_printed(text) {
        return Err(BodyFault::PlainTextExtension);
    }
    let vifes = chain_len(BodyFault::TooManyVife, MOST_EXTENSIONS, 0xFC, others)?;
    Ok(2 + text.len() + vifes)
}

// The record at the front of the bytes whose VIF is FC, and the rest.
#[tactic(auto, unfolding(crate::specs::Front::text_record_at))]
fn text_record(bytes: &[u8]) -> Result<(Record<'_>, &[u8]), BodyFault>
    ensures { Gives (λ x. (view x.0, x.1.now)) result (text_record_at bytes.now) }
{
    let Some((&dif, rest)) = bytes.split_first() else {
        return Err(BodyFault::Cut);
    };
    let field = dif % 16;
    let difes = chain_len(BodyFault::TooManyDife, MOST_EXTENSIONS, dif, rest)?;
    let (difes, rest) = rest.split_at(difes);
    let (vib, rest) = rest.split_at(text_vib_len(rest)?);
    let (content, rest) = data(field, rest)?;
    let higher = numbers_of(difes);
    let record = Record {
        storage: u64::from(dif / 64 % 2) + 2 * higher.storage,
        tariff: higher.tariff,
        subunit: higher.subunit,
        function: dif / 16 % 4,
        field,
        vib,
        content,
    };
    Ok((record, rest))
}

/// What stands at the front of a body's rest: an end, a filler or a record, one whose VIF is FC too, or the first
/// fault.
#[tactic(auto, unfolding(crate::specs::Front::wide_front_at))]
pub(crate) fn wide_front(bytes: &[u8]) -> Result<Front<'_>, BodyFault>
    ensures { Gives front result (wide_front_at bytes.now) }
{
    match front_of(bytes) {
        Err(BodyFault::PlainTextExtension) => {
            let (found, rest) = text_record(bytes)?;
            Ok(Front::Record(found, rest))
        }
        found => found,
    }
}
