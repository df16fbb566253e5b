//! What stands at the front of a body's rest.

ghost use Rattle.std.specs.Prelude.{◌≡◌, MatchResult};
ghost use Rattle.dc_records.specs.Body.{front_at, content_at, Reads};
ghost use Rattle.dc_records.specs.Seen.{front};
ghost use Rattle.dc_records.specs.Reading.{Gives};

use crate::end::End;
use crate::fault::BodyFault;
use crate::reading::record;
use crate::record::Record;

/// An end, or an item and the bytes after it.
#[derive(Clone, Copy)]
pub enum Front<'a> {
    End(End<'a>),
    Filler(&'a [u8]),
    Record(Record<'a>, &'a [u8]),
}

#[inline(always)]
#[tactic(auto, unfolding(crate::specs::Body::front_at))]
fn exact_front(bytes: &[u8]) -> Result<Front<'_>, BodyFault>
    ensures { Gives front result (front_at bytes.now) }
{
    match bytes {
        [] => Ok(Front::End(End::Plain)),
        [0x0F, rest @ ..] => Ok(Front::End(End::Last(rest))),
        [0x1F, rest @ ..] => Ok(Front::End(End::More(rest))),
        [0x2F, rest @ ..] => Ok(Front::Filler(rest)),
        _ => {
            let (found, rest) = record(bytes)?;
            Ok(Front::Record(found, rest))
        }
    }
}

/// What stands at the front of a body's rest: an end, a filler or a record, or the first fault.
#[inline(always)]
pub fn front_of(bytes: &[u8]) -> Result<Front<'_>, BodyFault>
    ensures exact { Gives front result (front_at bytes.now) }
    // What that says of all that is read there.
    ensures reads { MatchResult result (λ f. Reads bytes.now (front f))
        (λ f. content_at bytes.now ≡ Err f) }
{
    exact_front(bytes)
}
