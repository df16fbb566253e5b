//! The text of `decode`, into a slice.

ghost use Rattle.std.specs.Prelude.{◌≡◌, ◌≢◌, ◌-◌, ◌^◌, ◌<◌, ◌≤◌, length, take};
ghost use Rattle.mbdc_decode.specs.Text.{text_of};

use mbdc_decode::put_lines;
use mbdc_io::{LONGEST, SliceSink};

/// Writes the text of an input of hex digits, as `decode` prints it, to the front of `out`, and
/// returns its number of bytes; `usize::MAX` if it has more than `out`.
///
/// The text is defined by `specs/Text.antt` of mbdc_decode: each line of the input is read as link
/// frames (EN 13757-2), and a frame with CI 72h as a telegram (EN 13757-3).
#[unsafe(no_mangle)]
pub extern "C" fn mbdc_decode_text(input: &[u8], out: &mut [u8]) -> usize
    ensures text { result ≢ 2 ^ 64 - 1 → take result out.new ≡ text_of input.now }
    // A text that is longer than `out` is the only reason.
    ensures full { result ≡ 2 ^ 64 - 1 → length out.old < length (text_of input.now) }
    ensures fits { result ≢ 2 ^ 64 - 1 → result ≤ length out.old }
{
    let mut digits = [0; LONGEST];
    let mut bytes = [0; LONGEST / 2];
    let mut sink = SliceSink::new(out);
    match put_lines(input, &mut digits, &mut bytes, &mut sink) {
        Ok(_) => sink.len,
        Err(_) => usize::MAX,
    }
}
