//! Link frames, and the bytes that mark them.

/// A link frame (EN 13757-2); the body of a long one lies in the bytes that were read.
#[derive(Clone, Copy)]
pub enum Frame<'a> {
    /// The single byte `E5`.
    Ack,
    /// Control byte and address.
    Short {
        control: u8,
        address: u8,
    },
    /// Control byte, address, control information and a body of at most 252 bytes.
    Long {
        control: u8,
        address: u8,
        ci: u8,
        body: &'a [u8],
    },
}

/// The single byte that acknowledges.
pub const ACK: u8 = 0xE5;

/// The byte that begins a short frame.
pub(crate) const SHORT: u8 = 0x10;

/// The byte that begins a long frame, and is repeated after its two length bytes.
pub(crate) const LONG: u8 = 0x68;

/// The byte that ends a short and a long frame.
pub(crate) const STOP: u8 = 0x16;
