//! The steps of a period that are marked.

ghost use Rattle.std.specs.Prelude.{◌≡◌, length};
ghost use Rattle.mbdc_audit.specs.Consumption.Mark.{exchanges_in, marked_in};

use crate::consumption::Entry;

/// Number of steps that touch a period and are marked: doubtful, before a doubtful one, or after
/// one.
pub fn backwards(entries: &[Entry], from: u64, to: u64) -> usize
    ensures { result ≡ length (marked_in entries.now from to) }
{
    let mut count = 0;
    let Some((first, mut later)) = entries.split_first() else {
        return 0;
    };
    let mut before = *first;
    let mut is_after_doubtful = false;
    'steps: while let Some((after, rest)) = later.split_first() {
        let is_doubtful = before.is_doubtful_to(after);
        let is_before = rest.first().is_some_and(|next| after.is_doubtful_to(next));
        let is_marked = is_after_doubtful || is_doubtful || is_before;
        if is_marked && before.touches(after, from, to) {
            count += 1;
        }
        is_after_doubtful = is_doubtful;
        before = *after;
        later = rest;
    }
    count
}

/// Number of steps between different meters that touch a period.
pub fn exchanges(entries: &[Entry], from: u64, to: u64) -> usize
    ensures { result ≡ length (exchanges_in entries.now from to) }
{
    let mut count = 0;
    let Some((first, later)) = entries.split_first() else {
        return 0;
    };
    let mut before = *first;
    for after in later {
        if before.meter != after.meter && before.touches(after, from, to) {
            count += 1;
        }
        before = *after;
    }
    count
}
