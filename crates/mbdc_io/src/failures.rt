//! Saturating counts of failures.

ghost use Rattle.std.specs.Prelude.{◌≡◌, ◌+◌, ◌-◌, ◌^◌, min};
ghost use Rattle.mbdc_io.specs.Failures.{HasRisen};

/// Adds one failure to a count, which saturates at `u64::MAX`.
pub const fn one_failure_more(failures: u64) -> u64
    ensures exact { result ≡ min (failures + 1) (2 ^ 64 - 1) }
    ensures risen { HasRisen failures result }
{
    failures.saturating_add(1)
}
