//! Texts are put together in a room from their end on.
ghost use Rattle.std.specs.Prelude.{◌≡◌, ◌+◌, ◌-◌, ◌*◌, ◌/◌, ◌^◌, ◌<◌, ◌≤◌, ◌∷◌, ◌++◌, true};
ghost use Rattle.std.specs.Prelude.{length, drop};
ghost use Rattle.std.specs.Fmt.{digit_glyph};
ghost use Rattle.dc_units.specs.Text.{last_digits};

/// The longest text of a value has this many bytes at most.
pub const TEXT_ROOM: usize = 512;

/// A digit, 0 to 15, in ASCII.
#[inline]
fn glyph(digit: u8) -> u8
    requires { digit < 16 }
    ensures { result ≡ digit_glyph true digit }
{
    if digit < 10 {
        b'0' + digit
    } else {
        b'A' + (digit - 10)
    }
}

/// Writes a byte just before `end`.
#[inline]
pub fn put_byte(byte: u8, room: &mut [u8], end: usize)
    requires { (0 < end) × (end ≤ length room.old) }
    ensures { drop (end - 1) room.new ≡ byte ∷ drop end room.old }
{
    room[end - 1] = byte;
}

/// Writes the last `count` digits of n just before `end`, and returns what is left of n.
#[inline(always)]
pub fn put_digits(base: u64, count: usize, n: u64, room: &mut [u8], end: usize) -> u64
    requires base { (2 ≤ base) × (base ≤ 16) }
    requires place { (count ≤ end) × (end ≤ length room.old) }
    ensures written { drop (end - count) room.new ≡ last_digits base count n ++ drop end room.old }
    ensures rest { result ≡ n / base ^ count }
{
    let mut left = n;
    'digits: for i in 0..count {
        room[end - 1 - i] = glyph((left % base) as u8);
        left /= base;
    }
    left
}

/// Writes a piece just before `end`, and says where it begins.
#[inline]
pub fn put_piece(piece: &[u8], room: &mut [u8], end: usize) -> usize
    requires { (length piece.now ≤ end) × (end ≤ length room.old) }
    ensures start { result + length piece.now ≡ end }
    ensures written { drop result room.new ≡ piece.now ++ drop end room.old }
{
    let start = end - piece.len();
    let (_, place) = room.split_at_mut(start);
    let (place, _) = place.split_at_mut(piece.len());
    place.copy_from_slice(piece);
    start
}
