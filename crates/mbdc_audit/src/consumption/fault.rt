//! The faults of an amount.

/// Why a place has no amount in a period (this product).
#[derive(Clone, Copy, Debug)]
pub enum AmountFault {
    /// The amount is 2^64 or more.
    TooLarge,
}
