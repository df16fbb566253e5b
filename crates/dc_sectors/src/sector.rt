//! The contents of a sector, and the failures of a device.

use thiserror::Error;

/// The contents of a sector of 512 bytes.
#[derive(Clone, Copy)]
pub enum Sector {
    /// These bytes.
    Bytes([u8; 512]),
    /// Unreadable: a crash came within a write, or after one that wasn't synced.
    Unreadable,
}

/// The device failed, and counted the failure.
#[derive(Clone, Copy, Debug, Error)]
#[error("the disk failed")]
pub struct Failed;

/// Why a read returned no bytes.
#[derive(Clone, Copy, Debug, Error)]
pub enum ReadFault {
    /// The sector is unreadable: a fact of the image, not a failure.
    #[error("the sector is unreadable")]
    Unreadable,
    /// The device failed, and counted the failure.
    #[error("the disk failed")]
    Failed,
}
