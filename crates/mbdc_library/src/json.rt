//! The JSON lines of `decode --json`, into a slice.

ghost use Rattle.std.specs.Prelude.{◌≡◌, ◌≢◌, ◌-◌, ◌^◌, ◌<◌, ◌≤◌, length, take};
ghost use Rattle.mbdc_decode.specs.JsonText.{json_text};

use mbdc_decode::objects::put_json_lines;
use mbdc_io::{LONGEST, SliceSink};

/// Writes the JSON lines of an input of hex digits, as `decode --json` prints them, to the front of
/// `out`, and returns their number of bytes; `usize::MAX` if they have more than `out`.
///
/// The text is defined by `specs/Text.antt` of mbdc_decode: an object for each link frame (EN
/// 13757-2) and each fault, with the telegram (EN 13757-3) of a frame with CI 72h.
#[unsafe(no_mangle)]
pub extern "C" fn mbdc_decode_json(input: &[u8], out: &mut [u8]) -> usize
    ensures text { result ≢ 2 ^ 64 - 1 → take result out.new ≡ json_text input.now }
    // A text that is longer than `out` is the only reason.
    ensures full { result ≡ 2 ^ 64 - 1 → length out.old < length (json_text input.now) }
    ensures fits { result ≢ 2 ^ 64 - 1 → result ≤ length out.old }
{
    let mut digits = [0; LONGEST];
    let mut bytes = [0; LONGEST / 2];
    let mut sink = SliceSink::new(out);
    match put_json_lines(input, &mut digits, &mut bytes, &mut sink) {
        Ok(_) => sink.len,
        Err(_) => usize::MAX,
    }
}
