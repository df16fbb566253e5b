//! The second walk, first half: the value that the telegrams of a line give.

ghost use Rattle.std.specs.Prelude.{◌≡◌, ◌↔◌, ◌≤◌, ◌&&◌, ◌==◌, ◌++◌, ℕ, IfErr, IfOk, IfSome, IsOk, List, OnOk, Some};
ghost use Rattle.std.specs.Prelude.{filter, length, map, take};
ghost use Rattle.std.specs.List.{list_all};
ghost use Rattle.std.specs.Str.{bytes_eq};
ghost use Rattle.dc_records.specs.Record.{view};
ghost use Rattle.dc_records.specs.Telegram.{Parsed, parsed};
ghost use Rattle.dc_units.specs.Point.{seen_of};
ghost use Rattle.mbdc_audit.specs.Dates.{days, days_in, is_once, may_be_own, may_be_stored};
ghost use Rattle.mbdc_audit.specs.Evidence.{AreDatedOnce, AreOf, Gives, IsAmount, IsIt, IsOf, Tell, bare, bytes_in};
ghost use Rattle.mbdc_audit.specs.Evidence.{code_of, date_in_record, is_flow, is_main, is_meant, list_of, main};
ghost use Rattle.mbdc_audit.specs.Field.{fields_of};
ghost use Rattle.mbdc_audit.specs.View.{run_of};
ghost use Rattle.mbdc_audit.specs.Walk.{IsRefused, MayBe, day_meant};

use crate::curve::Run;
use crate::fault::Stop;
use crate::field::first_field;
use crate::moment::{DAY, Dated, date_in};
use crate::smallest::of_decimal;
use crate::uses::{Counted, size_of};
use dc_records::{Record, Telegram};
use dc_units::{Seen, Value, point_of};
use mbdc_io::{decode_hex, room};
use std::alloc::Allocator;

/// Why a value has no evidence, as it is printed.
pub type Refusal = &'static str;

const BODY: Refusal = "a body isn't a telegram";

const METER: Refusal = "a body of another meter";

const ERROR: Refusal = "the meter reports an error";

const READOUTS: Refusal = "bodies of two readouts";

const OTHER: Refusal = "dated another day";

const LATER: Refusal = "it knows a later day";

const CLOCK: Refusal = "dated after its own clock";

const DATE: Refusal = "no record dated so";

/// No record has a value of the use.
pub const RECORD: Refusal = "no record of the use";

/// No telegram shows that the counter began anew.
pub const ANEW: Refusal = "no telegram shows that it began anew";

/// Which value of a readout is meant: the current one at a moment, or the one that was stored at the end of a day.
#[derive(Clone, Copy)]
pub enum Meant {
    Current(u64),
    Stored(u64),
}

// The status (EN 13757-3): bit 3 says that there is a permanent error, bits 1 and 0 that there is an application error.
const PERMANENT: u8 = 8;

const APPLICATION: u8 = 4;

const APPLICATION_ERROR: u8 = 2;

// A day and, for a zone that isn't known, 14 hours.
const NEAR: u64 = DAY + 14 * 3_600;

// The longest block that is looked up: a VIF and ten VIFEs (EN 13757-3).
const MOST_VIB: usize = 11;

type Block = [u8; MOST_VIB];

// The bytes of pairs of hex digits; none of another text.
fn bytes<A: Allocator>(alloc: A, digits: &[u8]) -> Result<Vec<u8, A>, Stop>
    ensures ok { IfOk result (λ bytes. bytes.items ≡ bytes_in digits.now) }
    ensures memory { IfErr result (λ s. IsRefused s → ⊥) }
{
    let Ok(mut bytes) = room(alloc, digits.len() / 2 + 1) else {
        return Err(Stop::NoMemory);
    };
    let count = decode_hex(digits, bytes.as_mut_slice()).unwrap_or(0);
    bytes.truncate(count);
    Ok(bytes)
}

// The bodies of a line, as bytes.
fn decoded<A: Allocator + Copy>(alloc: A, bodies: &[u8]) -> Result<Vec<Vec<u8, A>, A>, Stop>
    ensures ok { IfOk result (λ all. map (λ b. b.items) all.items ≡ map bytes_in (fields_of bodies.now)) }
    ensures memory { IfErr result (λ s. IsRefused s → ⊥) }
{
    let mut all = Vec::new(alloc);
    let mut left = Some(bodies);
    'bodies: while let Some(text) = left {
        let (digits, rest) = first_field(text);
        let body = bytes(alloc, digits)?;
        let Ok(()) = all.push(body) else {
            return Err(Stop::NoMemory);
        };
        left = rest;
    }
    Ok(all)
}

// A body as a telegram of a meter that reports no error.
fn telegram_of<'b>(body: &'b [u8], run: &Run<'_>) -> Result<Telegram<'b>, Stop>
    ensures ok { IfOk result (λ t. IsOf run.now.identity body.now (parsed t)) }
    ensures only { IfErr result (λ s. (t : Parsed) → IsOf run.now.identity body.now t → ⊥) }
    ensures one { IfOk result (λ x. (t : Parsed) → IsOf run.now.identity body.now t → parsed x ≡ t) }
{
    let Ok(telegram) = Telegram::parse(body) else {
        return Err(Stop::Refused(BODY));
    };
    let header = telegram.header();
    if header.identity != run.identity {
        return Err(Stop::Refused(METER));
    }
    let status = header.status;
    if status / PERMANENT % 2 == 1 || status % APPLICATION == APPLICATION_ERROR {
        return Err(Stop::Refused(ERROR));
    }
    Ok(telegram)
}

// Adds a telegram's instantaneous values of the whole meter.
fn push_records<'b, A: Allocator>(
    records: &mut Vec<Record<'b>, A>,
    telegram: &Telegram<'b>,
) -> Result<(), Stop>
    ensures ok { OnOk result (map view records.new.items
        ≡ map view records.old.items ++ filter is_main (parsed telegram.now).records) }
    ensures memory { IfErr result (λ s. IsRefused s → ⊥) }
{
    'records: for record in telegram.records() {
        if record.function == 0 && record.tariff == 0 && record.subunit == 0 {
            let Ok(()) = records.push(record) else {
                return Err(Stop::NoMemory);
            };
        }
    }
    Ok(())
}

// The records of the whole meter in the bodies of one readout of it, instantaneous values alone.
fn records_of<'b, A: Allocator + Copy>(
    alloc: A,
    bodies: &'b [Vec<u8, A>],
    run: &Run<'_>,
) -> Result<Vec<Record<'b>, A>, Stop>
    ensures ok { IfOk result (λ all. (telegrams : List Parsed)
        × AreOf run.now.identity (map (λ b. b.items) bodies.now) telegrams × (map view all.items ≡ main telegrams)) }
    ensures one { IfOk result (λ all. (telegrams : List Parsed)
        → AreOf run.now.identity (map (λ b. b.items) bodies.now) telegrams → main telegrams ≡ map view all.items) }
    ensures only { IfErr result (λ s. IsRefused s → (telegrams : List Parsed)
        → AreOf run.now.identity (map (λ b. b.items) bodies.now) telegrams → ⊥) }
{
    let mut records = Vec::new(alloc);
    let mut left = bodies;
    'bodies: while let Some((body, rest)) = left.split_first() {
        let telegram = telegram_of(body.as_slice(), run)?;
        if !rest.is_empty() && !telegram.more_follows() {
            return Err(Stop::Refused(READOUTS));
        }
        push_records(&mut records, &telegram)?;
        left = rest;
    }
    Ok(records)
}

// A VIB without VIFE 00 at its end, which means no error (EN 13757-3), in some room.
fn bare<'r>(vib: &[u8], room: &'r mut Block) -> &'r [u8]
    ensures { length vib.now ≤ 11 → result.now ≡ bare vib.now }
{
    let len = vib.len().min(MOST_VIB);
    room[..len].copy_from_slice(&vib[..len]);
    if len < 2 {
        return &room[..len];
    }
    let (code, last) = (room[len - 2], room[len - 1]);
    if last != 0 || code < 128 || code == 0xFB {
        return &room[..len];
    }
    room[len - 2] = code - 128;
    &room[..len - 1]
}

// Whether VIFEs count forward and backward flow alone, or there are none.
fn are_flow(vifes: &[u8]) -> bool
    ensures { result ≡ list_all is_flow vifes.now }
{
    vifes
        .iter()
        .all(|vife| vife % 128 == 0x3B || vife % 128 == 0x3C)
}

// The code of a VIB, without VIFEs 3B and 3C, which count forward and backward flow; nothing with others.
fn code_of<'r>(vib: &[u8], room: &'r mut [u8; 2]) -> &'r [u8]
    ensures { result.now ≡ code_of vib.now }
{
    let Some((vif, rest)) = vib.split_first() else {
        return &[];
    };
    if *vif != 0xFB {
        if !are_flow(rest) {
            return &[];
        }
        room[0] = vif % 128;
        return &room[..1];
    }
    let Some((code, vifes)) = rest.split_first() else {
        return &[];
    };
    if !are_flow(vifes) {
        return &[];
    }
    room[0] = 0xFB;
    room[1] = code % 128;
    &room[..2]
}

// What a record's date says.
fn date_of(record: &Record<'_>) -> Option<Dated>
    ensures { list_of result ≡ date_in_record (view «record».now) }
{
    if record.vib.len() > MOST_VIB {
        return None;
    }
    let mut room = [0u8; MOST_VIB];
    let vib = bare(record.vib, &mut room);
    let plain = Record { vib, ..*record };
    match point_of(&plain) {
        Seen::Point(point) => date_in(&point.value),
        Seen::Other => None,
    }
}

// The day with which a record dates a storage number.
fn day_in(record: &Record<'_>, storage: u64) -> Option<u64>
    ensures { list_of result ≡ days_in storage (view «record».now) }
{
    if record.storage != storage {
        return None;
    }
    match date_of(record) {
        Some(dated) => Some(dated.day),
        None => None,
    }
}

// The first day with which records date a storage number.
fn day_of(records: &[Record<'_>], storage: u64) -> Option<u64>
    ensures { list_of result ≡ take 1 (days storage (map view records.now)) }
{
    'records: for record in records {
        let day = day_in(record, storage);
        if day.is_some() {
            return day;
        }
    }
    None
}

// Whether a record doesn't date a storage number above 0 with another day than the first one.
fn is_once(records: &[Record<'_>], record: &Record<'_>) -> bool
    ensures { result ≡ is_once (map view records.now) (view «record».now) }
{
    match date_of(record) {
        Some(dated) => record.storage == 0 || day_of(records, record.storage) == Some(dated.day),
        None => true,
    }
}

// Whether a record's own date and time lies near the moment that is meant, or not before the day's end.
fn may_be_own(record: &Record<'_>, meant: Meant) -> bool
    ensures { result ≡ may_be_own meant (view «record».now) }
{
    let Some(Dated { second, .. }) = date_of(record) else {
        return true;
    };
    if record.storage > 0 {
        return true;
    }
    match (meant, second) {
        (Meant::Current(moment), Some(second)) => second.abs_diff(moment) <= NEAR,
        (Meant::Stored(day), Some(second)) => {
            u128::from(day) * u128::from(DAY) <= u128::from(second)
        }
        (_, None) => true,
    }
}

// Whether a record's stored day isn't after the moment that is meant.
fn may_be_stored(record: &Record<'_>, meant: Meant) -> bool
    ensures { result ≡ may_be_stored meant (view «record».now) }
{
    let Some(dated) = date_of(record) else {
        return true;
    };
    if record.storage == 0 {
        return true;
    }
    match meant {
        Meant::Current(moment) => {
            (u128::from(dated.day) + 1) * u128::from(DAY) <= u128::from(moment) + u128::from(NEAR)
        }
        Meant::Stored(_) => true,
    }
}

// The first fault of the dates of a readout: two days of a storage number, then a date that contradicts what is meant.
fn check_dates(records: &[Record<'_>], meant: Meant) -> Result<(), Refusal>
    ensures { IsOk result ↔ (AreDatedOnce (map view records.now) × MayBe meant (map view records.now)) }
{
    if !records.iter().all(|record| is_once(records, record)) {
        return Err(READOUTS);
    }
    if !records.iter().all(|record| may_be_own(record, meant)) {
        return Err(match meant {
            Meant::Current(_) => OTHER,
            Meant::Stored(_) => CLOCK,
        });
    }
    if !records.iter().all(|record| may_be_stored(record, meant)) {
        return Err(LATER);
    }
    Ok(())
}

// Whether a record is of the storage that is meant.
fn is_meant(records: &[Record<'_>], record: &Record<'_>, meant: Meant) -> bool
    ensures { result ≡ is_meant (day_meant meant) (map view records.now) (view «record».now) }
{
    match meant {
        Meant::Current(_) => record.storage == 0,
        Meant::Stored(day) => {
            record.storage > 0
                && records.iter().any(|other| match day_in(other, record.storage) {
                    Some(found) => found == day,
                    None => false,
                })
        }
    }
}

// Whether a VIB is the one that is named, but for VIFE 00 at its end.
fn is_named(vib: &[u8], named: &[u8]) -> bool
    ensures { result ≡ bytes_eq (bare vib.now) named.now }
{
    let (mut left, mut asked) = (vib, named);
    'bytes: while let Some((byte, rest)) = left.split_first() {
        let Some((wanted, others)) = asked.split_first() else {
            return false;
        };
        if rest.len() < 2 {
            let mut room = [0u8; MOST_VIB];
            return bare(left, &mut room) == asked;
        }
        if byte != wanted {
            return false;
        }
        (left, asked) = (rest, others);
    }
    asked.is_empty()
}

// What a record counts of a use, by a VIB: the number that it has.
fn amount_of(record: &Record<'_>, counted: Counted) -> Option<u64>
    ensures ok { IfSome result (IsAmount counted (seen_of (view «record».now))) }
    ensures only { (amount : ℕ) → IsAmount counted (seen_of (view «record».now)) amount → result ≡ Some amount }
{
    let Seen::Point(point) = point_of(record) else {
        return None;
    };
    let (found, size) = size_of(point.quantity)?;
    match point.value {
        Value::Number(decimal) if found == counted => of_decimal(decimal, size),
        _ => None,
    }
}

// What a record counts of a use, if it is meant: by its code, or by that of the VIB that is named.
fn count_of(
    records: &[Record<'_>],
    record: &Record<'_>,
    counted: Counted,
    named: &[u8],
    meant: Meant,
) -> Option<u64>
    ensures ok { IfSome result (IsIt named.now counted (day_meant meant) (map view records.now) (view «record».now)) }
    ensures only { (amount : ℕ)
        → IsIt named.now counted (day_meant meant) (map view records.now) (view «record».now) amount
        → result ≡ Some amount }
{
    if !is_meant(records, record, meant) {
        return None;
    }
    if named.is_empty() {
        if record.vib.len() > MOST_VIB {
            return None;
        }
        let mut room = [0u8; MOST_VIB];
        let vib = bare(record.vib, &mut room);
        return amount_of(&Record { vib, ..*record }, counted);
    }
    if !is_named(record.vib, named) {
        return None;
    }
    let mut room = [0u8; 2];
    let vib = code_of(named, &mut room);
    amount_of(&Record { vib, ..*record }, counted)
}

// What the first record that is meant counts of a use.
fn first_of(records: &[Record<'_>], counted: Counted, named: &[u8], meant: Meant) -> Option<u64>
    ensures ok { IfSome result (Gives named.now counted (day_meant meant) (map view records.now)) }
    ensures only { (amount : ℕ) → Gives named.now counted (day_meant meant) (map view records.now) amount
        → result ≡ Some amount }
{
    'records: for record in records {
        let amount = count_of(records, record, counted, named, meant);
        if amount.is_some() {
            return amount;
        }
    }
    None
}

/// The value that the bodies of a readout give of a run, in the smallest unit.
///
/// # Errors
/// [`Stop::Refused`] with the first [`Refusal`] that applies; or out of memory.
pub(crate) fn value_of<A: Allocator + Copy>(
    alloc: A,
    bodies: &[u8],
    run: &Run<'_>,
    counted: Counted,
    meant: Meant,
) -> Result<u64, Stop>
    ensures ok { IfOk result (λ n. Tell (run_of run.now) counted bodies.now (day_meant meant) (MayBe meant) n) }
    ensures one { IfOk result (λ n. (m : ℕ)
        → Tell (run_of run.now) counted bodies.now (day_meant meant) (MayBe meant) m → m ≡ n) }
    ensures only { IfErr result (λ s. IsRefused s → (n : ℕ)
        → Tell (run_of run.now) counted bodies.now (day_meant meant) (MayBe meant) n → ⊥) }
{
    let named = bytes(alloc, run.vib)?;
    let bodies = decoded(alloc, bodies)?;
    let records = records_of(alloc, bodies.as_slice(), run)?;
    let records = records.as_slice();
    if let Err(refusal) = check_dates(records, meant) {
        return Err(Stop::Refused(refusal));
    }
    match first_of(records, counted, named.as_slice(), meant) {
        Some(amount) => Ok(amount),
        None => {
            let is_there = records
                .iter()
                .any(|record| is_meant(records, record, meant));
            let is_stored = matches!(meant, Meant::Stored(_));
            Err(Stop::Refused(if is_stored && !is_there { DATE } else { RECORD }))
        }
    }
}
