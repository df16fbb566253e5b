//! A list of meters as it is read: CSV, whose first line names the columns.

ghost use Rattle.std.specs.Prelude.{◌≡◌, ◌↔◌, IfErr, IfOk, IsTrue, option_map};
ghost use Rattle.csv.specs.Records.{fields_of};
ghost use Rattle.mbdc_change.specs.State.{row_of};
ghost use Rattle.mbdc_fit.specs.Listed.{AreEmpty, AreNamed, IsListOf, IsPlaceOf, IsRowOf, IsShown, IsUnnamed, Names};
ghost use Rattle.mbdc_fit.specs.Listed.{field_in, flat_by, separator_of, whole_lines};
ghost use Rattle.mbdc_fit.specs.Rows.{column_name};

use csv::{ByteRecord, ReaderBuilder, Trim};
use dc_address::Identity;
use dc_meters::House;
use dc_meters::named::{NameFault, Named, resolve};
use mbdc_io::NoMemory;
use std::alloc::Global;
use std::str;

// U+FEFF in UTF-8.
const MARK: &[u8] = b"\xEF\xBB\xBF";

/// A column that a list has to have.
#[derive(Clone, Copy)]
pub enum Column {
    /// An identity.
    Meter,
    /// A bus line.
    Line,
    /// A primary address, `S` or nothing.
    Address,
    /// A flat.
    Flat,
}

impl Column {
    /// Its name in the first line.
    pub fn name(self) -> &'static str
        ensures { result.now ≡ column_name self }
    {
        match self {
            Column::Meter => "meter",
            Column::Line => "line",
            Column::Address => "address",
            Column::Flat => "flat",
        }
    }
}

/// A row of a list: the number of its line, and its fields as they are spelled.
#[derive(Drop)]
pub struct Listed {
    /// The number of its line, from 1.
    pub number: u64,
    /// The field of the column `meter`.
    pub meter: Vec<u8>,
    /// That of `line`.
    pub line: Vec<u8>,
    /// That of `address`.
    pub address: Vec<u8>,
    /// That of `flat`.
    pub flat: Vec<u8>,
}

/// A list as it is read.
#[derive(Drop)]
pub enum Listing {
    /// Its rows.
    Rows(Vec<Listed>),
    /// Its first line doesn't name this column.
    Lacks(Column),
}

/// In which place of a record the field of each column is.
#[derive(Clone, Copy)]
pub struct Places {
    /// That of the column `meter`.
    pub meter: usize,
    /// That of `line`.
    pub line: usize,
    /// That of `address`.
    pub address: usize,
    /// That of `flat`.
    pub flat: usize,
}

/// Reads a list: a row for each of its lines that has a field, but for the first one and each other that names all four
/// columns, in any order and case. A number alone is the registered meter that has it, and an empty flat that of a
/// registered meter.
///
/// # Errors
/// Out of memory.
pub fn read_list(
    alloc: Global,
    list: &[u8],
    house: Option<&House<Global>>,
) -> Result<Listing, NoMemory>
    // The numbers of lines are in no clause, since the reader's place is in none of its own.
    ensures { IfOk result (λ listing. IsListOf list.now (option_map (λ h. h.now.state) house.entry) listing) }
{
    let text = whole_lines(alloc, list)?;
    let mut reader = ReaderBuilder::new()
        .delimiter(separator_of(list))
        .has_headers(false)
        .flexible(true)
        .trim(Trim::All)
        .from_reader(alloc, text.as_slice());
    let mut record = ByteRecord::new(alloc);
    let mut rows = Vec::new(alloc);
    let mut columns = Err(Column::Meter);
    // No list has more records than bytes.
    'records: for _ in 0..text.len() + 1 {
        match reader.read_byte_record(&mut record) {
            Ok(true) => {}
            Ok(false) => break,
            Err(_) => return Err(NoMemory),
        }
        match (places_in(&record), columns) {
            (Ok(places), _) => columns = Ok(places),
            (Err(column), Err(_)) => return Ok(Listing::Lacks(column)),
            (Err(_), Ok(_)) if is_blank(&record) => {}
            (Err(_), Ok(places)) => {
                let number = reader.position().line().saturating_sub(1);
                rows.push(row_of(alloc, number, &record, &places, house)?)?;
            }
        }
    }
    Ok(match columns {
        Ok(_) => Listing::Rows(rows),
        Err(column) => Listing::Lacks(column),
    })
}

// The list without carriage returns, and with a line feed at its end.
fn whole_lines(alloc: Global, list: &[u8]) -> Result<Vec<u8>, NoMemory>
    ensures { IfOk result (λ text. text.items ≡ whole_lines list.now) }
{
    let mut text = Vec::new(alloc);
    'bytes: for byte in list {
        if *byte != b'\r' {
            text.push(*byte)?;
        }
    }
    text.push(b'\n')?;
    Ok(text)
}

// The first comma, semicolon or tab of the first line, or a space.
fn separator_of(list: &[u8]) -> u8
    ensures { result ≡ separator_of list.now }
{
    'bytes: for byte in list {
        match *byte {
            b',' | b';' | b'\t' => return *byte,
            b'\n' => return b' ',
            _ => {}
        }
    }
    b' '
}

// The place of each column, or the first one that a line doesn't name.
fn places_in(fields: &ByteRecord) -> Result<Places, Column>
    ensures named { IfOk result (AreNamed (fields_of fields.now)) }
    ensures missing { IfErr result (IsUnnamed (fields_of fields.now)) }
{
    Ok(Places {
        meter: place_of(fields, Column::Meter)?,
        line: place_of(fields, Column::Line)?,
        address: place_of(fields, Column::Address)?,
        flat: place_of(fields, Column::Flat)?,
    })
}

// A field; one that a line lacks is empty.
fn field_in(fields: &ByteRecord, place: usize) -> &[u8]
    ensures { result.now ≡ field_in (fields_of fields.now) place }
{
    match fields.get(place) {
        Some(field) => field,
        None => b"",
    }
}

fn place_of(fields: &ByteRecord, column: Column) -> Result<usize, Column>
    ensures found { IfOk result (IsPlaceOf column (fields_of fields.now)) }
    ensures missing { IfErr result (λ same. (same ≡ column) × IsUnnamed (fields_of fields.now) column) }
{
    'places: for place in 0..fields.len() {
        if is_named(field_in(fields, place), column) {
            return Ok(place);
        }
    }
    Err(column)
}

// Whether a field names a column, in any case. (A list that was appended to another one may begin with a byte order
// mark.)
fn is_named(field: &[u8], column: Column) -> bool
    ensures { IsTrue result ↔ Names column field.now }
{
    let name = field.strip_prefix(MARK).unwrap_or(field);
    name.eq_ignore_ascii_case(column.name().as_bytes())
}

// Whether no field has a byte.
fn is_blank(fields: &ByteRecord) -> bool
    ensures { IsTrue result ↔ AreEmpty (fields_of fields.now) }
{
    'places: for place in 0..fields.len() {
        if !field_in(fields, place).is_empty() {
            return false;
        }
    }
    true
}

fn row_of(
    alloc: Global,
    number: u64,
    fields: &ByteRecord,
    places: &Places,
    house: Option<&House<Global>>,
) -> Result<Listed, NoMemory>
    ensures { IfOk result (λ row. IsRowOf (option_map (λ h. h.now.state) house.entry) places.now
        (fields_of fields.now) row) }
{
    let row = Listed {
        number,
        meter: shown_field(alloc, fields, places.meter)?,
        line: shown_field(alloc, fields, places.line)?,
        address: shown_field(alloc, fields, places.address)?,
        flat: shown_field(alloc, fields, places.flat)?,
    };
    let Some(house) = house else {
        return Ok(row);
    };
    let Some(name) = Named::parse(row.meter.as_slice()) else {
        return Ok(row);
    };
    match resolve(alloc, house, name) {
        Ok(meter) => Ok(Listed {
            meter: Vec::from_slice(alloc, &meter.text())?,
            flat: flat_of(alloc, house, &meter, row.flat)?,
            ..row
        }),
        Err(NameFault::NoMemory) => Err(NoMemory),
        Err(_) => Ok(row),
    }
}

// A flat, or where it isn't given that of the registered meter.
fn flat_of(
    alloc: Global,
    house: &House<Global>,
    meter: &Identity,
    given: Vec<u8>,
) -> Result<Vec<u8>, NoMemory>
    ensures { IfOk result (λ flat. flat.items ≡ flat_by given.items (row_of meter.now house.now.state)) }
{
    match house.meter(meter) {
        Some(known) if given.is_empty() => Ok(Vec::from_slice(alloc, known.flat().as_slice())?),
        _ => Ok(given),
    }
}

// A field, with a question mark for what can't be shown.
fn shown_field(alloc: Global, fields: &ByteRecord, place: usize) -> Result<Vec<u8>, NoMemory>
    ensures { IfOk result (λ shown. IsShown (field_in (fields_of fields.now) place) shown.items) }
{
    let field = field_in(fields, place);
    let text = match str::from_utf8(field) {
        Ok(_) => field,
        Err(_) => b"?",
    };
    let mut shown = Vec::new(alloc);
    'bytes: for byte in text {
        shown.push(if byte.is_ascii_control() { b'?' } else { *byte })?;
    }
    Ok(shown)
}
