//! The rows of a list of meters.

ghost use Rattle.std.specs.Prelude.{◌≡◌, ℕ, Option, Some, IfSome};
ghost use Rattle.std.specs.Fmt.{decimal};
ghost use Rattle.mbdc_change.specs.Fields.{IsAddress, IsBusLine};
ghost use Rattle.mbdc_fit.specs.Rows.{IsReadAs, SpellsAddress};

use crate::list::listed::{Column, Listed};
use dc_address::{Identity, Primary};
use dc_meters::named::identity_of;
use mbdc_change::{Flat, parse_number};

/// A meter and its place.
#[derive(Clone, Copy)]
pub struct Row {
    /// The meter.
    pub meter: Identity,
    /// Its bus line, from 1 to 8.
    pub line: u8,
    /// Its primary address; `None` for secondary addressing.
    pub address: Option<Primary>,
    /// Its flat.
    pub flat: Flat,
}

fn parse_bus_line(word: &[u8]) -> Option<u8>
    ensures found { IfSome result (λ line. IsBusLine line × (word.now ≡ decimal line)) }
    ensures only { (line : ℕ) → IsBusLine line → word.now ≡ decimal line → result ≡ Some line }
{
    match parse_number(word)? {
        line @ 1..=8 => Some(line as u8),
        _ => None,
    }
}

// Nothing is secondary addressing too.
fn parse_address(word: &[u8]) -> Option<Option<Primary>>
    ensures found { IfSome result (λ address.
        IsAddress address × SpellsAddress word.now address) }
    ensures only { (address : Option ℕ) → IsAddress address → SpellsAddress word.now address
        → result ≡ Some address }
{
    if word.is_empty() {
        return Some(None);
    }
    match word {
        b"S" => Some(None),
        _ => match parse_number(word)? {
            number @ 1..=250 => Some(Some(Primary::new(number as u8)?)),
            _ => None,
        },
    }
}

/// Reads a row of a list.
///
/// # Errors
/// The first column whose field doesn't spell what it has to.
pub fn read_row(listed: &Listed) -> Result<Row, Column>
    ensures { IsReadAs listed.now result }
{
    let Some(meter) = identity_of(listed.meter.as_slice()) else {
        return Err(Column::Meter);
    };
    let Some(line) = parse_bus_line(listed.line.as_slice()) else {
        return Err(Column::Line);
    };
    let Some(address) = parse_address(listed.address.as_slice()) else {
        return Err(Column::Address);
    };
    let Some(flat) = Flat::new(listed.flat.as_slice()) else {
        return Err(Column::Flat);
    };
    Ok(Row {
        meter,
        line,
        address,
        flat,
    })
}
