//! The records of a body, one after the other.

ghost use Rattle.std.specs.Prelude.{◌≡◌, ◌≢◌, ◌<◌, ◌≤◌, [], length, Some, IfSome, position};
ghost use Rattle.mbdc_reading.specs.Content.{variable_view};
ghost use Rattle.mbdc_reading.specs.Fixed.{fixed_at, fixed_view};
ghost use Rattle.mbdc_library.specs.Plain.{counter_places};
ghost use Rattle.mbdc_library.specs.Walk.{IsNext, IsNextCounter, IsNextSent, counters_left};
ghost use Rattle.mbdc_library.specs.Walk.{counters_result, end_left, end_result, is_item, is_last, left, left_result};
ghost use Rattle.mbdc_library.specs.Walk.{sents_left};

use crate::plain::{FIXED_CODES, NO_PLACES, Places, PlainRecord, places_of, plain_record};
use crate::results::{DONE, END, FAULT, MORE, NO_CI, OTHER};
use dc_records::{BodyFault, End};
use mbdc_reading::content::{Content, Counter, FixedData, Variable, content_of};
use mbdc_reading::{Sent, number_of, reading_of};

// What fills a body between records (EN 13757-3, DIF 2F).
const FILLER: u8 = 0x2F;

// Where the second counter of fixed data begins, and where it ends.
pub(crate) const SECOND: u64 = 12;

const AFTER_SECOND: u64 = 16;

// The unit code of a second counter that says that its unit is the first one's.
const SAME: u8 = 0x3E;

// The place of the first byte that is no filler.
fn first_item(bytes: &[u8]) -> Option<usize>
    ensures place { result ≡ position is_item bytes.now }
    ensures within { IfSome result (λ n. n < length bytes.now) }
{
    bytes.iter().position(|byte| *byte != FILLER)
}

// The place of the first byte that announces no other by bit 7: of a DIF, or of its last DIFE.
fn last_dife(bytes: &[u8]) -> Option<usize>
    ensures place { result ≡ position is_last bytes.now }
    ensures within { IfSome result (λ n. n < length bytes.now) }
{
    bytes.iter().position(|byte| *byte < 0x80)
}

// Writes the record of variable data that comes next from a place on.
fn next_sent(variable: &Variable<'_>, body: &[u8], at: u64, out: &mut PlainRecord) -> u64
    ensures next { result ≡ DONE → IsNextSent (variable_view variable.now) body.now at out.new }
    ensures on { result ≡ DONE → at < out.new.places.next }
    ensures within { result ≡ DONE → out.new.places.next ≤ length body.now }
    ensures end { result ≢ DONE → (sents_left (variable_view variable.now) body.now at ≡ [])
        × (result ≡ end_result (end_left (variable_view variable.now) body.now at)) }
    ensures untouched { result ≢ DONE → out.new ≡ out.old }
{
    let from = at.min(body.len() as u64) as usize;
    let (_, after) = body.split_at(from);
    let left = Variable { after, ..*variable };
    let mut records = left.records();
    match records.next() {
        Some(Sent { record, len }) => {
            let (_, unfilled) = after.split_at(first_item(after).unwrap_or(0));
            let vib_at = body.len() - unfilled.len() + last_dife(unfilled).unwrap_or(0) + 1;
            let places = places_of(at, vib_at as u64, &record);
            let quantity = u64::from(number_of(record.vib));
            *out = plain_record(&record, len, quantity, &reading_of(&record, len), places);
            DONE
        }
        None => match left.end() {
            Ok(End::More(_)) => MORE,
            Ok(_) => END,
            Err(fault) => FAULT + u64::from(fault.number()),
        },
    }
}

// The places of a counter whose number of four bytes begins at `data_at`.
fn counter_places(at: u64, vib_at: u8, data_at: u8) -> Places
    ensures { result ≡ counter_places at vib_at data_at }
{
    Places {
        at,
        vib_at: u64::from(vib_at),
        vib_size: 1,
        data_at: u64::from(data_at),
        data_size: 4,
        next: u64::from(data_at) + 4,
        ..NO_PLACES
    }
}

// Writes the counter of fixed data that comes next from a place on.
#[tactic(auto, using(crate::proofs::Counters::next_counter), unfolding(mbdc_reading::specs::Fixed::fixed_at))]
fn next_counter(counters: &FixedData<'_>, body: &[u8], at: u64, out: &mut PlainRecord) -> u64
    requires { fixed_at body.now ≡ Some (fixed_view counters.now) }
    ensures next { result ≡ DONE → IsNextCounter (fixed_view counters.now) body.now at out.new }
    ensures on { result ≡ DONE → at < out.new.places.next }
    ensures within { result ≡ DONE → out.new.places.next ≤ length body.now }
    ensures end { result ≢ DONE → (counters_left (fixed_view counters.now) body.now at ≡ [])
        × (result ≡ counters_result (fixed_view counters.now)) }
    ensures untouched { result ≢ DONE → out.new ≡ out.old }
{
    if !counters.has_number() {
        return FAULT + u64::from(BodyFault::BadIdentity.number());
    }
    let [_, _, _, _, _, _, one, two, ..] = body else {
        return END;
    };
    if at >= AFTER_SECOND || !counters.shows_counters() {
        return END;
    }
    if at < SECOND {
        let Counter {
            record,
            reading,
            ..
        } = &counters.first;
        let code = FIXED_CODES + u64::from(*one % 64);
        *out = plain_record(record, 0, code, reading, counter_places(at, 6, 8));
        return DONE;
    }
    let code = if *two % 64 == SAME {
        *one % 64
    } else {
        *two % 64
    };
    let Counter {
        record,
        reading,
        ..
    } = &counters.second;
    let code = FIXED_CODES + u64::from(code);
    *out = plain_record(record, 0, code, reading, counter_places(at, 7, 12));
    DONE
}

/// Writes to `out` the record that comes next from a place of a body on, after this CI byte, and what is read of it.
///
/// Returns `DONE`; else `END`, `MORE`, or `FAULT` and the number of the body's fault, where no record comes; or `OTHER`
/// after another CI byte than 72, 73, 78 and 7A. From the place in its header on, place by place, these are all records
/// of the body.
#[tactic(auto, using(crate::proofs::Bodies::next_record))]
#[unsafe(no_mangle)]
pub extern "C" fn mbdc_next_record(ci: u64, body: &[u8], at: u64, out: &mut PlainRecord) -> u64
    ensures next { result ≡ DONE → IsNext ci body.now at out.new }
    ensures end { result ≢ DONE → (left ci body.now at ≡ []) × (result ≡ left_result ci body.now at) }
    ensures untouched { result ≢ DONE → out.new ≡ out.old }
    // The walk ends.
    ensures on { result ≡ DONE → at < out.new.places.next }
    ensures within { result ≡ DONE → out.new.places.next ≤ length body.now }
{
    match content_of(ci.min(NO_CI) as u8, body) {
        Some(Content::Variable(variable)) => next_sent(&variable, body, at, out),
        Some(Content::Fixed(Some(data))) => next_counter(&data, body, at, out),
        Some(Content::Fixed(None)) => FAULT + u64::from(BodyFault::Short.number()),
        None => OTHER,
    }
}
