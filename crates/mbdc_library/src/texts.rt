//! Texts, into a slice.

ghost use Rattle.std.specs.Prelude.{◌≡◌, ◌≢◌, ◌-◌, ◌^◌, ◌<◌, ◌≤◌, length, take};
ghost use Rattle.mbdc_library.specs.Texts.{value_text_at};

use crate::plain::{FIXED_CODES, PlainRecord};
use crate::walk::SECOND;
use mbdc_reading::content::{Content, content_of};
use mbdc_reading::{READING_ROOM, Sent, SentRecords, reading_of, value_text};

// The CI byte of fixed data (EN 13757-3).
const FIXED_DATA: u8 = 0x73;

/// Writes a text to the front of `out`, and returns its number of bytes; `usize::MAX` if it has more than `out`.
pub(crate) fn text_into(text: &[u8], out: &mut [u8]) -> usize
    ensures text { result ≢ 2 ^ 64 - 1 → take result out.new ≡ text.now }
    ensures full { result ≡ 2 ^ 64 - 1 → length out.old < length text.now }
    ensures fits { result ≢ 2 ^ 64 - 1 → result ≤ length out.old }
{
    if text.len() > out.len() {
        return usize::MAX;
    }
    let (front, _) = out.split_at_mut(text.len());
    front.copy_from_slice(text);
    text.len()
}

/// Writes the text of a record's value to the front of `out`, and returns its number of bytes; `usize::MAX` if it has
/// more than `out`. The text of a record without a value is empty.
#[tactic(auto, using(std::proofs::lemmas::List::drop_min), unfolding(mbdc_reading::specs::Content::content_of))]
#[unsafe(no_mangle)]
pub extern "C" fn mbdc_value_text(record: &PlainRecord, body: &[u8], out: &mut [u8]) -> usize
    ensures text { result ≢ 2 ^ 64 - 1 → take result out.new ≡ value_text_at «record».now body.now }
    ensures full { result ≡ 2 ^ 64 - 1 →
        length out.old < length (value_text_at «record».now body.now) }
    ensures fits { result ≢ 2 ^ 64 - 1 → result ≤ length out.old }
{
    let at = record.places.at;
    let mut room = [0u8; READING_ROOM];
    if record.reading.quantity < FIXED_CODES {
        let (_, left) = body.split_at(at.min(body.len() as u64) as usize);
        return match SentRecords::new(left).next() {
            Some(Sent { record, len }) => {
                let reading = reading_of(&record, len);
                text_into(
                    value_text(&reading, record.content, &mut room).unwrap_or(b""),
                    out,
                )
            }
            None => 0,
        };
    }
    let Some(Content::Fixed(Some(counters))) = content_of(FIXED_DATA, body) else {
        return 0;
    };
    let counter = if at < SECOND {
        counters.first
    } else {
        counters.second
    };
    text_into(
        value_text(&counter.reading, counter.record.content, &mut room).unwrap_or(b""),
        out,
    )
}
