//! Encodes and decodes the parts of a readout.

ghost use Rattle.std.specs.Prelude.{◌≡◌, ◌≤◌, ◌++◌, length, IfOk, OnOk, OnErr};
ghost use Rattle.std.specs.List.{flat_map};
ghost use Rattle.mbdc_change.specs.Encoding.{part_bytes, parts_bytes};
ghost use Rattle.mbdc_change.specs.Pieces.{Gives, many};
ghost use Rattle.mbdc_change.specs.Reading.{part_at, parts_at};
ghost use Rattle.mbdc_change.specs.Valid.{IsPart, AreParts};
ghost use Rattle.mbdc_change.specs.Fields.{most_parts};
ghost use Rattle.mbdc_io.specs.Written.{IsWritten, IsStopped};

use crate::Part;
use mbdc_change::DecodeFault;
use mbdc_change::pieces::{body_at, byte_at, moment_at};
use mbdc_change::writing::{put_byte, put_counted, put_long};
use mbdc_io::{IoFault, Sink};
use std::alloc::Allocator;

/// Writes a part: its time stamp and body.
pub(crate) fn put_kept_part<S: Sink, A: Allocator>(
    sink: &mut S,
    part: &Part<A>,
) -> Result<(), IoFault>
    ensures ok { OnOk result (IsWritten S.Sink sink.old sink.new
        (part_bytes part.now)) }
    ensures err { OnErr result (IsStopped S.Sink sink.old sink.new
        (part_bytes part.now)) }
{
    put_long(sink, part.moment())?;
    put_counted(sink, part.body())?;
    Ok(())
}

fn put_each_part<S: Sink, A: Allocator>(sink: &mut S, parts: &[Part<A>]) -> Result<(), IoFault>
    ensures ok { OnOk result (IsWritten S.Sink sink.old sink.new
        (flat_map part_bytes parts.now)) }
    ensures err { OnErr result (IsStopped S.Sink sink.old sink.new
        (flat_map part_bytes parts.now)) }
{
    for part in parts {
        put_kept_part(sink, part)?;
    }
    Ok(())
}

/// Writes the number of parts, and the parts.
pub(crate) fn put_parts<S: Sink, A: Allocator>(
    sink: &mut S,
    parts: &[Part<A>],
) -> Result<(), IoFault>
    requires { length parts.now ≤ most_parts }
    ensures ok { OnOk result (IsWritten S.Sink sink.old sink.new
        (parts_bytes parts.now)) }
    ensures err { OnErr result (IsStopped S.Sink sink.old sink.new
        (parts_bytes parts.now)) }
{
    put_byte(sink, parts.len() as u8)?;
    put_each_part(sink, parts)?;
    Ok(())
}

/// Decodes a part, and copies its body.
#[tactic(auto, unfolding(mbdc_change::specs::Reading::part_at))]
fn part_at<A: Allocator>(alloc: A, bytes: &[u8]) -> Result<(Part<A>, &[u8]), DecodeFault>
    ensures { Gives (λ x. (x.0, x.1.now)) result (part_at bytes.now) }
{
    let (moment, rest) = moment_at(bytes)?;
    let (body, rest) = body_at(rest)?;
    let part = Part::new(alloc, moment, body.as_slice())?;
    Ok((part, rest))
}

fn each_part<A: Allocator + Copy>(
    alloc: A,
    count: u8,
    bytes: &[u8],
) -> Result<(Vec<Part<A>, A>, &[u8]), DecodeFault>
    ensures { Gives (λ x. (x.0.items, x.1.now)) result (many part_at count bytes.now) }
{
    let mut parts = Vec::new(alloc);
    let mut rest = bytes;
    for _ in 0..count {
        let (part, after) = part_at(alloc, rest)?;
        parts.push(part)?;
        rest = after;
    }
    Ok((parts, rest))
}

/// Decodes the number of parts, and the parts.
#[tactic(auto, unfolding(mbdc_change::specs::Reading::parts_at))]
pub(crate) fn parts_at<A: Allocator + Copy>(
    alloc: A,
    bytes: &[u8],
) -> Result<(Vec<Part<A>, A>, &[u8]), DecodeFault>
    ensures read { Gives (λ x. (x.0.items, x.1.now)) result (parts_at bytes.now) }
    ensures are_parts { IfOk result (λ x. AreParts x.0.items) }
{
    let (count, rest) = byte_at(bytes)?;
    each_part(alloc, count, rest)
}
