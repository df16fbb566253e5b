//! What a meter stands at.

ghost use Rattle.std.specs.Prelude.{◌≡◌, option_map};
ghost use Rattle.std.specs.List.{list_all};
ghost use Rattle.mbdc_reading.specs.Sent.{sent_view};
ghost use Rattle.mbdc_reading.specs.Headline.{comes_before, follows, is_candidate, is_of, keeps};
ghost use Rattle.mbdc_reading.specs.Headline.{is_better, key_of, main_of, next_in, taken};

use crate::{DataType, Datum, Found, Sent, SentRecords, number_of, reading_of, vifes_of};
use dc_units::Value;

/// There are no more tariffs than ten DIFEs make.
pub const MOST_TARIFFS: u32 = 1_048_576;

/// The quantity of a device type.
#[derive(Clone, Copy)]
pub enum Main {
    Energy,
    Volume,
    Allocation,
}

/// By what values of one quantity differ: whether the value is that of forward flow only, the subunit and the
/// tariff.
#[derive(Clone, Copy)]
pub struct Key {
    pub is_forward: bool,
    pub subunit: u16,
    pub tariff: u32,
}

impl Main {
    /// The quantity of a device type (EN 13757-3, device type identification); none of others.
    pub fn of(kind: u8) -> Option<Main>
        ensures { result ≡ main_of kind }
    {
        match kind {
            2 | 4 | 5 | 0x0A..=0x0D => Some(Main::Energy),
            1 | 3 | 6 | 7 | 9 | 0x10 | 0x13 | 0x15..=0x17 | 0x28 => Some(Main::Volume),
            8 => Some(Main::Allocation),
            _ => None,
        }
    }

    // Whether a code is of this quantity.
    fn has(&self, number: u16) -> bool
        ensures { result ≡ is_of self.now number }
    {
        match self {
            Main::Energy => {
                matches!(number, 0..=0x0F | 0xFB00..=0xFB01 | 0xFB08..=0xFB09 | 0xFB0C..=0xFB0F)
            }
            Main::Volume => matches!(number, 0x10..=0x17 | 0xFB10..=0xFB11 | 0xFB20..=0xFB23),
            Main::Allocation => number == 0x6E,
        }
    }
}

// Whether VIFEs leave a value the meter's: no error, uncorrected, at base conditions, corrections, forward flow only.
fn keep(vifes: &[u8]) -> bool
    ensures { result ≡ list_all keeps vifes.now }
{
    match vifes {
        [] => true,
        [vife, others @ ..] => {
            matches!(*vife % 128, 0 | 0x3A | 0x3B | 0x3E | 0x70..=0x77 | 0x7D) && keep(others)
        }
    }
}

// Whether a record may be what the meter stands at: a number of its quantity, now.
fn is_candidate(main: Main, sent: &Sent<'_>) -> bool
    ensures { result ≡ is_candidate main (sent_view sent.now) }
{
    let record = &sent.record;
    record.storage == 0
        && record.function == 0
        && main.has(number_of(record.vib))
        && keep(vifes_of(record.vib))
        && matches!(
            reading_of(record, sent.len).found,
            Found::Value(DataType::Number, Datum::Known(Value::Number(_)))
        )
}

/// What a record differs by from others of its quantity.
pub fn key_of(sent: &Sent<'_>) -> Key
    ensures { result ≡ key_of (sent_view sent.now) }
{
    Key {
        is_forward: reading_of(&sent.record, sent.len).direction.is_some(),
        subunit: sent.record.subunit,
        tariff: sent.record.tariff,
    }
}

// Whether the first comes before the second.
fn comes_before(a: Key, b: Key) -> bool
    ensures { result ≡ comes_before a b }
{
    if a.is_forward != b.is_forward {
        return b.is_forward;
    }
    a.subunit < b.subunit || (a.subunit == b.subunit && a.tariff < b.tariff)
}

// Whether a record of the same direction and subunit comes after the last one.
fn follows(last: Option<Key>, key: Key) -> bool
    ensures { result ≡ follows last key }
{
    match last {
        None => true,
        Some(last) => {
            last.is_forward == key.is_forward
                && last.subunit == key.subunit
                && last.tariff < key.tariff
        }
    }
}

// Whether a record comes before the best so far.
fn is_better(best: &Option<Sent<'_>>, sent: &Sent<'_>) -> bool
    ensures { result ≡ is_better (option_map sent_view best.now) (sent_view sent.now) }
{
    match best {
        None => true,
        Some(best) => comes_before(key_of(sent), key_of(best)),
    }
}

// A record in place of the best so far, or that one.
fn taken<'a>(
    main: Main,
    last: Option<Key>,
    best: Option<Sent<'a>>,
    sent: Sent<'a>,
) -> Option<Sent<'a>>
    ensures { option_map sent_view result
        ≡ taken main last (option_map sent_view best.entry) (sent_view sent.entry) }
{
    if is_candidate(main, &sent) && follows(last, key_of(&sent)) && is_better(&best, &sent) {
        return Some(sent);
    }
    best
}

/// The first of the records that comes next after the last one, where it comes before the best so far; else that one.
#[tactic(auto, unfolding(crate::specs::Headline::next_in))]
pub fn next_in<'a>(
    main: Main,
    last: Option<Key>,
    best: Option<Sent<'a>>,
    records: SentRecords<'a>,
) -> Option<Sent<'a>>
    ensures { option_map sent_view result
        ≡ next_in main last (option_map sent_view best.entry) records.entry }
{
    let mut next = best;
    'records: for sent in records {
        next = taken(main, last, next, sent);
    }
    next
}
