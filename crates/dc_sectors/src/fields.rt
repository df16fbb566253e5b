//! Numbers of several bytes at a place of a sector, little-endian.

ghost use Rattle.std.specs.Prelude.{◌≡◌, ◌≤◌, ◌+◌, ◌++◌, take, drop};
ghost use Rattle.dc_sectors.specs.Fields.{field, number_bytes};

use byteorder::{ByteOrder, LittleEndian};

/// Writes a number into the two bytes from that place on.
pub fn put_u16(sector: &mut [u8; 512], at: usize, number: u16)
    requires { at ≤ 510 }
    ensures { sector.new ≡ take at sector.old
        ++ (number_bytes 2 number ++ drop (at + 2) sector.old) }
{
    LittleEndian::write_u16(&mut sector[at..], number);
}

/// Writes a number into the four bytes from that place on.
pub fn put_u32(sector: &mut [u8; 512], at: usize, number: u32)
    requires { at ≤ 508 }
    ensures { sector.new ≡ take at sector.old
        ++ (number_bytes 4 number ++ drop (at + 4) sector.old) }
{
    LittleEndian::write_u32(&mut sector[at..], number);
}

/// Writes a number into the eight bytes from that place on.
pub fn put_u64(sector: &mut [u8; 512], at: usize, number: u64)
    requires { at ≤ 504 }
    ensures { sector.new ≡ take at sector.old
        ++ (number_bytes 8 number ++ drop (at + 8) sector.old) }
{
    LittleEndian::write_u64(&mut sector[at..], number);
}

/// The number in the two bytes from that place on.
pub fn u16_at(sector: &[u8; 512], at: usize) -> u16
    requires { at ≤ 510 }
    ensures { result ≡ field 2 at sector.now }
{
    LittleEndian::read_u16(&sector[at..])
}

/// The number in the four bytes from that place on.
pub fn u32_at(sector: &[u8; 512], at: usize) -> u32
    requires { at ≤ 508 }
    ensures { result ≡ field 4 at sector.now }
{
    LittleEndian::read_u32(&sector[at..])
}

/// The number in the eight bytes from that place on.
pub fn u64_at(sector: &[u8; 512], at: usize) -> u64
    requires { at ≤ 504 }
    ensures { result ≡ field 8 at sector.now }
{
    LittleEndian::read_u64(&sector[at..])
}
