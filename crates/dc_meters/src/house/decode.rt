//! Decodes a house from bytes.

ghost use Rattle.std.specs.Prelude.{◌≡◌, ◌+◌, ◌<◌, ◌≤◌, ℕ, List, Some, None, All, length, map};
ghost use Rattle.std.specs.Prelude.{true, false, IfSome, IfNone, IfOk, IsErrOf};
ghost use Rattle.std.specs.List.Sorted.{IsStrictlySortedBy};
ghost use Rattle.std.specs.Map.{keys_of};
ghost use Rattle.std.specs.Ordering.{nat_cmp};
ghost use Rattle.std.specs.declared.cmp.Ordering.TheVariants.{Less};
ghost use Rattle.dc_address.specs.declared.identity.Identity.{Identity};
ghost use Rattle.dc_address.specs.Identity.{identity_cmp};
ghost use Rattle.mbdc_change.specs.Command.{longest_line};
ghost use Rattle.mbdc_change.specs.State.{State, MeterRow, ReadingRow};
ghost use Rattle.mbdc_change.specs.Order.{MetersAscend, ReadingsAscend, IsNextSerial};
ghost use Rattle.mbdc_change.specs.Spelled.{SpellsState};
ghost use Rattle.mbdc_change.specs.Pieces.{Gives, Reads, many, listed, count_at};
ghost use Rattle.mbdc_change.specs.Reading.{entry_at};
ghost use Rattle.mbdc_change.specs.Reading.{reading_at, head_at};

use super::House;
use crate::due::due_days_of;
use crate::parts::parts_at;
use crate::{Meter, MeterMap, Reading, ReadingList};
use dc_address::Identity;
use mbdc_change::pieces::{
    address_of, byte_at, count_at, counted_at, flat_of, identity_at, line_at, long_at,
};
use mbdc_change::{CommandLine, DecodeFault, END_OF_NUMBERS, LONGEST_LINE};
use std::alloc::Allocator;

/// The fields before the meters.
#[derive(Clone, Copy)]
struct Head<'a> {
    next_serial: u64,
    confirmed: u64,
    last_number: u64,
    last_line: &'a [u8],
}

impl<'a> Head<'a> {
    #[tactic(auto, unfolding(mbdc_change::specs::Reading::head_at))]
    fn read(bytes: &'a [u8]) -> Result<(Head<'a>, &'a [u8]), DecodeFault>
        ensures { Reads (λ x. (
          record {
            next_serial = x.0.next_serial;
            confirmed = x.0.confirmed;
            last_number = x.0.last_number;
            last_line = x.0.last_line.now;
          },
          x.1.now,
        )) result (head_at bytes.now) }
    {
        let (next_serial, rest) = long_at(bytes)?;
        let (confirmed, rest) = long_at(rest)?;
        let (last_number, rest) = long_at(rest)?;
        let (last_line, rest) = counted_at(rest)?;
        if next_serial > END_OF_NUMBERS
            || confirmed >= next_serial
            || last_number >= END_OF_NUMBERS
            || last_line.len() > LONGEST_LINE
        {
            return Err(DecodeFault::Bad);
        }
        let head = Head {
            next_serial,
            confirmed,
            last_number,
            last_line,
        };
        Ok((head, rest))
    }
}

/// Decodes a meter and its row.
#[tactic(auto, unfolding(mbdc_change::specs::Reading::entry_at, mbdc_change::specs::Pieces::address_at, mbdc_change::specs::Pieces::flat_at))]
fn entry_at<A: Allocator + Copy>(
    alloc: A,
    bytes: &[u8],
) -> Result<(Identity, Meter<A>, &[u8]), DecodeFault>
    ensures { Gives (λ x. ((x.0, x.1), x.2.now)) result (entry_at bytes.now) }
{
    let (meter, rest) = identity_at(bytes)?;
    let (line, rest) = line_at(rest)?;
    let (address, rest) = byte_at(rest)?;
    let address = address_of(address)?;
    let (name, rest) = counted_at(rest)?;
    let flat = flat_of(name)?;
    let (parts, rest) = parts_at(alloc, rest)?;
    Ok((meter, Meter::with_parts(line, address, flat, parts), rest))
}

/// Decodes a reading.
#[tactic(auto, unfolding(mbdc_change::specs::Reading::reading_at, mbdc_change::specs::Pieces::flat_at))]
fn reading_at<A: Allocator + Copy>(
    alloc: A,
    bytes: &[u8],
) -> Result<(Reading<A>, &[u8]), DecodeFault>
    ensures { Gives (λ x. (x.0, x.1.now)) result (reading_at bytes.now) }
{
    let (serial, rest) = long_at(bytes)?;
    let (meter, rest) = identity_at(rest)?;
    let (name, rest) = counted_at(rest)?;
    let flat = flat_of(name)?;
    let (parts, rest) = parts_at(alloc, rest)?;
    let due_days = due_days_of(alloc, &parts)?;
    Ok((Reading::new(serial, meter, flat, parts, due_days), rest))
}

/// Whether a meter comes after all of these.
fn is_behind<A: Allocator + Copy>(meters: &MeterMap<A>, meter: &Identity) -> bool
    ensures yes { result ≡ true → All (λ other.
        identity_cmp other meter.now ≡ Less) (keys_of meters.now.entries) }
    ensures no { result ≡ false → All (λ other.
        identity_cmp other meter.now ≡ Less) (keys_of meters.now.entries) → ⊥ }
{
    match meters.rows().last_key_value() {
        Some((last, _)) => meter.cmp(last).is_gt(),
        None => true,
    }
}

fn each_meter<A: Allocator + Copy>(
    alloc: A,
    count: u32,
    bytes: &[u8],
) -> Result<(MeterMap<A>, &[u8]), DecodeFault>
    ensures found { IfOk result (λ x. many entry_at count bytes.now ≡ Some (x.0.entries, x.1.now)) }
    ensures ascend { IfOk result (λ x. MetersAscend x.0.entries) }
    ensures bad { IsErrOf result DecodeFault.Bad
        → (meters : List (Identity × MeterRow)) (rest : List ℕ)
        → many entry_at count bytes.now ≡ Some (meters, rest) → MetersAscend meters → ⊥ }
{
    let mut meters = MeterMap::new(alloc);
    let mut rest = bytes;
    for _ in 0..count {
        let (meter, row, after) = entry_at(alloc, rest)?;
        if !is_behind(&meters, &meter) {
            return Err(DecodeFault::Bad);
        }
        meters.insert(meter, row)?;
        rest = after;
    }
    Ok((meters, rest))
}

/// Decodes the number of meters, and the meters.
fn meters_at<A: Allocator + Copy>(
    alloc: A,
    bytes: &[u8],
) -> Result<(MeterMap<A>, &[u8]), DecodeFault>
    ensures found { IfOk result (λ x.
        listed count_at entry_at bytes.now ≡ Some (x.0.entries, x.1.now)) }
    ensures ascend { IfOk result (λ x. MetersAscend x.0.entries) }
    ensures bad { IsErrOf result DecodeFault.Bad
        → (meters : List (Identity × MeterRow)) (rest : List ℕ)
        → listed count_at entry_at bytes.now ≡ Some (meters, rest) → MetersAscend meters → ⊥ }
{
    let (count, rest) = count_at(bytes)?;
    each_meter(alloc, count, rest)
}

/// Whether a reading of this serial comes after all of these.
fn is_later<A: Allocator + Copy>(readings: &ReadingList<A>, serial: u64) -> bool
    requires { IsStrictlySortedBy nat_cmp (map (λ r. r.serial) readings.now.items) }
    ensures yes { result ≡ true → All (λ r. r.serial < serial) readings.now.items }
    ensures no { result ≡ false → All (λ r. r.serial < serial) readings.now.items → ⊥ }
{
    match readings.last() {
        Some(last) => last.serial() < serial,
        None => true,
    }
}

/// Whether a serial is the next of a state's readings: between the mark and the next serial, after
/// all of these.
fn is_next_serial<A: Allocator + Copy>(
    readings: &ReadingList<A>,
    confirmed: u64,
    next_serial: u64,
    serial: u64,
) -> bool
    requires { IsStrictlySortedBy nat_cmp (map (λ r. r.serial) readings.now.items) }
    ensures yes { result ≡ true → IsNextSerial confirmed next_serial readings.now.items serial }
    ensures no { result ≡ false → IsNextSerial confirmed next_serial readings.now.items serial → ⊥ }
{
    confirmed < serial && serial < next_serial && is_later(readings, serial)
}

fn each_reading<A: Allocator + Copy>(
    alloc: A,
    count: u32,
    confirmed: u64,
    next_serial: u64,
    bytes: &[u8],
) -> Result<(ReadingList<A>, &[u8]), DecodeFault>
    ensures found { IfOk result (λ x. many reading_at count bytes.now ≡ Some (x.0.items, x.1.now)) }
    ensures ascend { IfOk result (λ x. ReadingsAscend confirmed next_serial x.0.items) }
    ensures bad { IsErrOf result DecodeFault.Bad → (readings : List ReadingRow) (rest : List ℕ)
        → many reading_at count bytes.now ≡ Some (readings, rest)
        → ReadingsAscend confirmed next_serial readings → ⊥ }
{
    let mut readings = ReadingList::new(alloc);
    let mut rest = bytes;
    for _ in 0..count {
        let (reading, after) = reading_at(alloc, rest)?;
        if !is_next_serial(&readings, confirmed, next_serial, reading.serial()) {
            return Err(DecodeFault::Bad);
        }
        readings.push(reading)?;
        rest = after;
    }
    Ok((readings, rest))
}

/// Decodes the number of readings, and the readings.
fn readings_at<A: Allocator + Copy>(
    alloc: A,
    confirmed: u64,
    next_serial: u64,
    bytes: &[u8],
) -> Result<(ReadingList<A>, &[u8]), DecodeFault>
    ensures found { IfOk result (λ x.
        listed count_at reading_at bytes.now ≡ Some (x.0.items, x.1.now)) }
    ensures ascend { IfOk result (λ x. ReadingsAscend confirmed next_serial x.0.items) }
    ensures bad { IsErrOf result DecodeFault.Bad → (readings : List ReadingRow) (rest : List ℕ)
        → listed count_at reading_at bytes.now ≡ Some (readings, rest)
        → ReadingsAscend confirmed next_serial readings → ⊥ }
{
    let (count, rest) = count_at(bytes)?;
    each_reading(alloc, count, confirmed, next_serial, rest)
}

/// The size of the state that the bytes spell with this last line, if it is within the budget.
fn spelled_size(bytes: &[u8], last_line: &[u8], budget: u32) -> Option<u32>
    requires { length last_line.now ≤ length bytes.now }
    ensures found { IfSome result (λ size.
        (size + length last_line.now ≡ length bytes.now + longest_line) × (size ≤ budget)) }
    ensures none { IfNone result (length bytes.now + longest_line ≤ budget + length last_line.now
        → ⊥) }
{
    let size = bytes.len() - last_line.len() + LONGEST_LINE;
    if size <= budget as usize {
        Some(size as u32)
    } else {
        None
    }
}

impl<A: Allocator + Copy> House<A> {
    /// Decodes the house that the bytes spell within a budget: what [`House::encode`] writes, and
    /// nothing else.
    pub fn decode(alloc: A, bytes: &[u8], budget: u32) -> Result<House<A>, DecodeFault>
        // The result is what the bytes spell, and no bytes that spell a state within the budget are
        // rejected.
        ensures found { IfOk result (λ h.
            SpellsState budget bytes.now h.state × (h.budget ≡ budget)) }
        ensures bad { IsErrOf result DecodeFault.Bad → (s : State) → SpellsState budget bytes.now s
            → ⊥ }
    {
        let (head, rest) = Head::read(bytes)?;
        let Some(size) = spelled_size(bytes, head.last_line, budget) else {
            return Err(DecodeFault::Bad);
        };
        let Some(last_line) = CommandLine::new(head.last_line) else {
            return Err(DecodeFault::Bad);
        };
        let (meters, rest) = meters_at(alloc, rest)?;
        let (readings, rest) = readings_at(alloc, head.confirmed, head.next_serial, rest)?;
        if !rest.is_empty() {
            return Err(DecodeFault::Bad);
        }
        Ok(House {
            alloc,
            meters,
            readings,
            next_serial: head.next_serial,
            confirmed: head.confirmed,
            last_number: head.last_number,
            last_line,
            size,
            budget,
        })
    }
}
