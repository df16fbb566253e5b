//! The counters of fixed data (EN 13757-3).

ghost use Rattle.std.specs.Prelude.{◌≡◌, length};
ghost use Rattle.mbdc_reading.specs.Counter.{counter_by, counter_view, first_counter, second_counter};

use crate::content::units::fixed_unit;
use crate::{DataType, Form, Found, How, Reading, value_of};
use dc_records::Record;

// The unit code of a second counter that says that its unit is the first one's, and that it is stored.
const SAME_STORED: u8 = 0x3E;

/// A counter of fixed data: a record whose value information block is the unit byte, what it counts, and its reading.
#[derive(Clone, Copy)]
pub struct Counter<'a> {
    pub record: Record<'a>,
    pub name: &'static str,
    pub unit: &'static str,
    pub reading: Reading,
}

// A counter: its unit byte, its data, the status byte, the code of its unit, its storage number and its subunit.
fn counter_by<'a>(
    vib: &'a [u8],
    content: &'a [u8],
    status: u8,
    code: u8,
    storage: u64,
    subunit: u16,
) -> Counter<'a>
    requires { length content.now ≡ 4 }
    ensures { counter_view result
        ≡ counter_by vib.now content.now status code storage subunit }
{
    let (field, form) = if status % 2 == 1 {
        (4, Form::Integer)
    } else {
        (0xC, Form::Bcd)
    };
    let (how, found, name, unit) = match fixed_unit(code) {
        Some(unit) => {
            let datum = value_of(DataType::Number, form, unit.exponent, content);
            let found = Found::Value(DataType::Number, datum);
            (How::Plain, found, unit.name, unit.unit)
        }
        None => (How::Other, Found::Nothing, "reserved", ""),
    };
    Counter {
        record: Record {
            storage,
            tariff: 0,
            subunit,
            function: 0,
            field,
            vib,
            content,
        },
        name,
        unit,
        reading: Reading {
            how,
            found,
            is_replaced: false,
            unit: None,
            direction: None,
            phase: None,
        },
    }
}

/// The counter that is sent first.
pub(crate) fn first_counter<'a>(
    vib: &'a [u8],
    content: &'a [u8],
    status: u8,
    one: u8,
) -> Counter<'a>
    requires { length content.now ≡ 4 }
    ensures { counter_view result ≡ first_counter vib.now content.now status one }
{
    let storage = if status / 2 % 2 == 1 { 1 } else { 0 };
    counter_by(vib, content, status, one % 64, storage, 0)
}

/// The counter that is sent second.
pub(crate) fn second_counter<'a>(
    vib: &'a [u8],
    content: &'a [u8],
    status: u8,
    one: u8,
    two: u8,
) -> Counter<'a>
    requires { length content.now ≡ 4 }
    ensures { counter_view result ≡ second_counter vib.now content.now status one two }
{
    let is_same = two % 64 == SAME_STORED;
    let code = if is_same { one % 64 } else { two % 64 };
    if status / 2 % 2 == 1 || is_same {
        return counter_by(vib, content, status, code, 1, 0);
    }
    counter_by(vib, content, status, code, 0, 1)
}
