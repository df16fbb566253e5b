//! A tenant's sheet: whether a page shows what its audit file has, and no other number.
//!
//! [`compare`] reads a page of the office and the file beside it. A page is cut at each `<` ([`Piece`]); an element
//! that names a line of the file (`data-line`) has to show its number as the page's language writes it, and no other
//! text has a digit, but for dates, identities, the file's hash, and what people wrote (`specs/Sheet.antt`). Whether the
//! file is right says `mbdc_audit`. [`Flaw`] is what is wrong with a piece.
#![tactic(auto)]

mod flaw;
mod laws;
mod line;
mod parts;
mod sheet;
mod tag;
mod text;
mod written;

pub use flaw::Flaw;
pub use laws::a_page_shows_its_files_numbers;
pub use parts::Piece;
pub use sheet::compare;
