//! Telegrams of wired M-Bus meters and their data records.
//!
//! A telegram's body is the variable data structure of EN 13757-3: a header of twelve bytes, data records with
//! fillers between them, and perhaps manufacturer specific data at the end. [`Telegram::parse`] reads one from
//! borrowed bytes and takes no memory; [`Header::read`] reads the header alone.
//!
//! What is promised of every byte string: it is read exactly where it is spelled as the standard says (security mode
//! 0, at most ten DIFEs and ten VIFEs, no VIF FC, no length byte from F0 on), with the numbers, the records and the
//! end that are spelled; a record that nothing here interprets is a record all the same. Each other byte string has
//! one fault ([`BodyFault`]). Past the header that is the fault of the byte that rules out every item and every end,
//! once as many whole items as there are have been taken ([`first_fault`]).
#![tactic(auto)]

mod end;
mod fault;
mod front;
mod header;
mod laws;
pub mod names;
mod reading;
mod record;
mod records;
mod telegram;

pub use end::End;
pub use fault::BodyFault;
pub use front::{Front, front_of};
pub use header::Header;
pub use laws::{first_fault, one_record, one_telegram, read_as_spelled};
pub use mbdc_io::{Bytes, IoFault, Sink, Source};
pub use reading::{MOST_EXTENSIONS, Numbers, chain_len, counted, data, numbers_of, width};
pub use record::Record;
pub use records::Records;
pub use telegram::Telegram;
