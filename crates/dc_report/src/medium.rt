//! The names of device types.

ghost use Rattle.std.specs.Prelude.{◌≡◌, ◌<◌};
ghost use Rattle.dc_address.specs.Text.{hex_code};
ghost use Rattle.dc_report.specs.Medium.{medium_text};

/// The name of a device type (EN 13757-3), or its two hex digits if it has no name here.
pub(crate) fn medium(kind: u8, room: &mut [u8; 2]) -> &[u8]
    ensures { result.now ≡ medium_text kind }
{
    match kind {
        0x02 => b"electricity",
        0x03 => b"gas",
        0x04 => b"heat-outlet",
        0x06 => b"warm-water",
        0x07 => b"water",
        0x08 => b"heat-cost-allocator",
        0x0C => b"heat-inlet",
        0x15 => b"hot-water",
        0x16 => b"cold-water",
        _ => {
            *room = [hex_digit(kind / 16), hex_digit(kind % 16)];
            room
        }
    }
}

fn hex_digit(digit: u8) -> u8
    requires { digit < 16 }
    ensures { result ≡ hex_code digit }
{
    if digit < 10 {
        b'0' + digit
    } else {
        b'A' - 10 + digit
    }
}
