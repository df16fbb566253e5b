//! The table of a house's meters for a person. A terminal of 60 columns breaks no cell: what doesn't fit stands on a
//! second line.

use mbdc_io::{Bytes, FixedSink, IoFault, Sink};
use std::alloc::{AllocError, Global};
use std::array;

// What ends a cell.
const TAB: u8 = b'\t';

// Number of characters of a line.
const WIDTH: usize = 60;

const COLUMNS: usize = 7;

// The place of the column whose cells stand at its right.
const VALUE: usize = 3;

// The place of the last column, whose cells are as wide as they are.
const STATE: usize = 6;

// The blanks before what stands on a second line.
const INDENT: usize = 4;

const BLANKS: &[u8] = b"                                                            ";

// Room for the order of a flat: its 12 characters, and the length of each run of digits.
const KEY: usize = 24;

const RED: &[u8] = b"\x1b[31m";

const PLAIN: &[u8] = b"\x1b[0m";

type Widths = [usize; COLUMNS];

/// Lays out lines of cells, which tabs divide. The first line has the names of the columns; the others are put into the
/// natural order of their first cells, the flats: A2 before A10. Failures are red where that is asked for.
///
/// # Errors
/// Out of memory.
pub fn table_of(alloc: Global, cells: &[u8], is_coloured: bool) -> Result<Bytes<Global>, IoFault> {
    let rows: Result<Vec<&[u8]>, AllocError> = cells.split(|byte| *byte == b'\n').collect(alloc);
    let Ok(mut rows) = rows else {
        return Err(IoFault);
    };
    // What follows the last line feed.
    let _ = rows.pop();
    if let Some(meters) = rows.as_mut_slice().get_mut(1..)
        && meters
            .sort_by(
                alloc,
                |one, other| key_of(one).as_slice().cmp(key_of(other).as_slice()),
            )
            .is_err()
    {
        return Err(IoFault);
    }
    // The width of each column is that of its widest cell.
    let widths: Widths = array::from_fn(|column| {
        let cells = rows
            .iter()
            .filter_map(|row| row.split(|byte| *byte == TAB).nth(column));
        cells.map(|cell| cell.len()).max().unwrap_or_default()
    });
    let mut out = Bytes::new(alloc);
    for row in &rows {
        put_row(&mut out, row, &widths, is_coloured)?;
    }
    Ok(out)
}

// The order of a row by its flat: before each run of digits its length, so that its number counts.
fn key_of(row: &[u8]) -> FixedSink<KEY> {
    let flat = row.split(|byte| *byte == TAB).next().unwrap_or_default();
    let mut key = FixedSink::new();
    let mut is_in_run = false;
    for (at, byte) in flat.iter().enumerate() {
        if byte.is_ascii_digit() && !is_in_run {
            let rest = flat.get(at..).unwrap_or_default();
            let run = rest.iter().take_while(|it| it.is_ascii_digit()).count();
            let length = u8::try_from(run).unwrap_or(u8::MAX);
            let _ = key.put(&[b'0'.saturating_add(length)]);
        }
        let _ = key.put(&[*byte]);
        is_in_run = byte.is_ascii_digit();
    }
    key
}

// Writes a row: each cell in its column, or from the first one that doesn't fit on a second line.
fn put_row<W: Sink>(
    out: &mut W,
    row: &[u8],
    widths: &Widths,
    is_coloured: bool,
) -> Result<(), IoFault> {
    let (mut begin, mut end) = (0usize, 0usize);
    let mut is_second = false;
    for (column, cell) in row.split(|byte| *byte == TAB).enumerate() {
        let width = match widths.get(column) {
            Some(width) if column != STATE => *width,
            _ => cell.len(),
        };
        if !is_second && width > 0 && begin.saturating_add(width) > WIDTH {
            is_second = true;
            out.put(b"\n")?;
            begin = INDENT;
            end = 0;
        }
        let left = if column == VALUE {
            width.saturating_sub(cell.len())
        } else {
            0
        };
        if !cell.is_empty() {
            let gap = begin.saturating_add(left).saturating_sub(end);
            out.put(BLANKS.get(..gap).unwrap_or(BLANKS))?;
            let is_red = is_coloured
                && (cell.starts_with(b"SILENT") || cell.starts_with(b"FAILED"));
            if is_red {
                out.put(RED)?;
            }
            out.put(cell)?;
            if is_red {
                out.put(PLAIN)?;
            }
            end = begin.saturating_add(left).saturating_add(cell.len());
        }
        begin = begin.saturating_add(width).saturating_add(1);
    }
    out.put(b"\n")
}
