//! Data points of metering records: quantities and units, the values of data fields, dates, and their
//! exact texts (EN 13757-3; OMS Volume 2).
//!
//! **Points.** `point_of` reads a record as one table says: the whole value information block is looked up
//! in the table's rows, which give the quantity and the power of ten, and a record whose data field is
//! allowed there is that row's point. Any other record is other, and nothing is guessed.
//!
//! **Values.** A number is the mantissa and exponent of a decimal, exact to the digit. Two's complement,
//! packed BCD and the two date types are each a function of the bytes; what stands for no value there (the
//! least number, a digit above 9, a day that doesn't exist, a time marked invalid) is `Value::None`.
//!
//! **Texts.** A decimal, a date and a value print exactly, by `Display` or into a caller's room.
//!
//! Nothing here takes memory.
#![tactic(auto)]

mod date;
mod decimal;
mod laws;
mod number;
mod pairs;
mod point;
mod quantity;
mod room;
mod table;
mod time;
mod value;

pub use date::Date;
pub use decimal::Decimal;
pub use laws::texts_are_exact;
pub use number::{bcd, digits_after, integer, unsigned};
pub use point::{Point, Seen, point_of};
pub use quantity::Quantity;
pub use room::{TEXT_ROOM, put_byte, put_digits, put_piece};
pub use table::unit_at;
pub use time::{day, minute};
pub use value::Value;
