//! The tables of a house, as text for a spreadsheet: the due-date table and the register table (this product; OMS
//! Volume 2 for due-date values, EN 13757-3 for points and device types).
//!
//! A table is a header and a line for each row. Commas separate the fields, of which none needs
//! quotes, and each line ends with a line feed. The values are those that the meters sent: exact
//! decimals, flags in hex, `none` where a meter sent no value.
//!
//! Proved: each table has exactly the text of its definition, or memory ran out and no table is
//! returned; a count of rows is that of the table's rows. The definitions are a filter and a sort
//! over the meters and the readings of the state: for each meter with a due-date value for the
//! date, removed meters included, the last reading that has one, by the flat of the readout and
//! then by identity ([`due_table`]); each meter by flat and then by identity ([`register_table`]).
#![tactic(auto)]

mod due;
mod last;
mod line;
mod medium;
mod register;
mod row;
mod table;

pub use dc_units::Date;
pub use due::{counted_due_table, due_rows, due_table, rows};
pub use register::{register_rows, register_table};
pub use row::Row;
pub use table::Table;
