//! The lines of an input.

ghost use Rattle.std.specs.Prelude.{◌≡◌, ◌<◌, ◌∷◌, length};
ghost use Rattle.mbdc_io.specs.Lines.{lines_of};

use memchr::memchr;

/// Maximum number of bytes of a line.
pub const LONGEST: usize = 4096;

/// Splits off the first line of a text, and returns it with the rest.
pub fn first_line(text: &[u8]) -> (&[u8], &[u8])
    requires { 0 < length text.now }
    ensures lines { lines_of text.now ≡ result.0.now ∷ lines_of result.1.now }
    ensures shorter { length result.1.now < length text.now }
{
    match memchr(b'\n', text) {
        Some(end) => {
            let (line, rest) = text.split_at(end);
            let (_, rest) = rest.split_at(1);
            (line, rest)
        }
        None => (text, &[]),
    }
}
