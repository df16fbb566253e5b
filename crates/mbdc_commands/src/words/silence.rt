//! How long a meter may be silent, as a word of the command line.

ghost use Rattle.std.specs.Prelude.{◌≡◌, ℕ, ◌*◌, ◌<◌, ◌≤◌, IfSome, Some};
ghost use Rattle.std.specs.Fmt.{decimal};
ghost use Rattle.mbdc_commands.specs.Silence.{IsCounted};

use mbdc_change::parse_number;

const SECONDS_AN_HOUR: u64 = 3_600;

const SECONDS_A_DAY: u64 = 86_400;

// At most that many days, and as many hours.
const MOST_DAYS: u64 = 366;

const MOST_HOURS: u64 = 8_784;

/// The seconds that a word spells: a number of days from 1 to 366, alone or with `d`, or of hours from 1 to 8784 with
/// `h`.
pub(crate) fn silence_of(word: &[u8]) -> Option<u64> {
    match word {
        [digits @ .., b'h'] => counted(digits, MOST_HOURS, SECONDS_AN_HOUR),
        [digits @ .., b'd'] => counted(digits, MOST_DAYS, SECONDS_A_DAY),
        digits => counted(digits, MOST_DAYS, SECONDS_A_DAY),
    }
}

// A number of units in digits, from 1 to `most`, as seconds.
fn counted(digits: &[u8], most: u64, unit: u64) -> Option<u64>
    requires few { most ≤ 8784 }
    requires short { unit ≤ 86400 }
    ensures found { IfSome result (λ seconds. IsCounted digits.now most unit seconds) }
    ensures only { (count : ℕ) → 0 < count → count ≤ most → digits.now ≡ decimal count
        → result ≡ Some (count * unit) }
{
    match parse_number(digits)? {
        count if count > 0 && count <= most => Some(count * unit),
        _ => None,
    }
}
