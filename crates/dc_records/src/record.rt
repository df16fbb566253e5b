//! A data record.

ghost use Rattle.std.specs.Prelude.{◌≡◌};

/// A data record, borrowed from its body (EN 13757-3, the data record header DIF, DIFE, VIF, VIFE).
#[derive(Clone, Copy)]
pub struct Record<'a> {
    /// The storage number; 0 is the current value.
    pub storage: u64,
    /// The tariff.
    pub tariff: u32,
    /// The subunit of the device.
    pub subunit: u16,
    /// The function field: 0 instantaneous, 1 maximum, 2 minimum, 3 during an error.
    pub function: u8,
    /// The data field, bits 3 to 0 of the DIF: 0 to E.
    pub field: u8,
    /// The value information block as sent: the VIF with all that follows it before the data, or before the length
    /// byte of data field D.
    pub vib: &'a [u8],
    /// The data, without the length byte of data field D.
    pub content: &'a [u8],
}
