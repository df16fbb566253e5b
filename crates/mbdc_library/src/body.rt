//! The JSON line of a body, into a slice.

ghost use Rattle.std.specs.Prelude.{◌≡◌, ◌≢◌, ◌-◌, ◌^◌, ◌<◌, ◌≤◌, length, take};
ghost use Rattle.mbdc_decode.specs.Frame.{body_json};
ghost use Rattle.mbdc_decode.specs.JsonText.{value_line};

use mbdc_decode::objects::put_body_line;
use mbdc_io::SliceSink;

/// Writes the JSON line of a telegram's body, without a frame around it, to the front of `out`, and
/// returns its number of bytes; `usize::MAX` if it has more than `out`.
///
/// The line is defined by `body_json` of mbdc_decode: the fields of the telegram (EN 13757-3), as
/// in a line of `decode --json`, or the body's bytes and its fault.
#[unsafe(no_mangle)]
pub extern "C" fn mbdc_decode_body(body: &[u8], out: &mut [u8]) -> usize
    ensures text { result ≢ 2 ^ 64 - 1 → take result out.new ≡ value_line (body_json body.now) }
    // A text that is longer than `out` is the only reason.
    ensures full { result ≡ 2 ^ 64 - 1 →
        length out.old < length (value_line (body_json body.now)) }
    ensures fits { result ≢ 2 ^ 64 - 1 → result ≤ length out.old }
{
    let mut sink = SliceSink::new(out);
    match put_body_line(&mut sink, body) {
        Ok(_) => sink.len,
        Err(_) => usize::MAX,
    }
}
