//! Names by their numbers.

ghost use Rattle.std.specs.Prelude.{◌≡◌, ◌≢◌, ◌-◌, ◌^◌, ◌<◌, ◌≤◌, length, map, take};
ghost use Rattle.mbdc_library.specs.Names.{byte_name, coded_name, listed_name, name_in, name_of};

use crate::texts::text_into;
use dc_records::names::{application_name, ci_name, control_name, function_name, medium_name};
use mbdc_reading::content::{fixed_unit, medium_of, security_name};
use mbdc_reading::{code_at, vife_at};

/// The tables of names.
pub const CONTROLS: u64 = 0;

pub const CI_BYTES: u64 = 1;

pub const MEDIA: u64 = 2;

pub const FIXED_MEDIA: u64 = 3;

pub const STATES: u64 = 4;

pub const SECURITY: u64 = 5;

pub const FUNCTIONS: u64 = 6;

pub const READINGS: u64 = 7;

pub const TYPES: u64 = 8;

pub const ERRORS: u64 = 9;

pub const QUANTITIES: u64 = 10;

pub const UNITS: u64 = 11;

pub const VIFES: u64 = 12;

pub const VIFE_TEXTS: u64 = 13;

pub const FRAME_FAULTS: u64 = 14;

pub const BODY_FAULTS: u64 = 15;

// How many numbers the codes of variable data have by 256, and those of fixed data after them.
const PAGES: u64 = 256;

/// The names of how a record is read.
pub const READING_NAMES: [&str; 4] = ["other", "point", "plain", "qualified"];

/// The names of types of values, from 1.
pub const TYPE_NAMES: [&str; 11] = [
    "", "number", "digits", "flags", "date", "minute", "second", "time", "text", "text", "identity",
];

/// The names of reasons for no value, from 1.
pub const ERROR_NAMES: [&str; 10] = [
    "",
    "marked invalid",
    "digits above 9",
    "not a number",
    "infinite",
    "sign not known",
    "no such time",
    "no such date",
    "no three letters",
    "power of ten out of range",
];

/// The names of faults of frames, from 1.
pub const FRAME_FAULT_NAMES: [&str; 8] = [
    "",
    "Empty",
    "Start",
    "Truncated",
    "Lengths",
    "Trailing",
    "Stop",
    "Checksum",
];

/// The names of faults of bodies, from 1.
pub const BODY_FAULT_NAMES: [&str; 10] = [
    "",
    "Short",
    "BadIdentity",
    "Encrypted",
    "ReservedDif",
    "TooManyDife",
    "TooManyVife",
    "BadLength",
    "PlainTextExtension",
    "Cut",
];

// The name at a place of a list; empty where the list ends before it.
fn name_in(mut names: &[&'static str], place: u8) -> &'static str
    ensures { result.now ≡ name_in (map (λ s. s.now) names.entry.now) place }
{
    let mut left = place;
    while let [name, rest @ ..] = names {
        if left == 0 {
            return name;
        }
        names = rest;
        left -= 1;
    }
    ""
}

// The name of a medium of fixed data, at a place of one of the lists, or of a VIFE.
#[tactic(auto, unfolding(crate::specs::Names::listed_name))]
fn listed_name(table: u64, place: u8) -> &'static str
    ensures { result.now ≡ listed_name table place }
{
    match table {
        FIXED_MEDIA => medium_of(place),
        READINGS => name_in(&READING_NAMES, place),
        TYPES => name_in(&TYPE_NAMES, place),
        ERRORS => name_in(&ERROR_NAMES, place),
        VIFES => vife_at(place).name,
        VIFE_TEXTS => vife_at(place).text,
        FRAME_FAULTS => name_in(&FRAME_FAULT_NAMES, place),
        BODY_FAULTS => name_in(&BODY_FAULT_NAMES, place),
        _ => "",
    }
}

// The name of a state, a security mode or a function, or of what lists have.
#[tactic(auto, unfolding(crate::specs::Names::coded_name))]
fn coded_name(table: u64, code: u8) -> &'static str
    ensures { result.now ≡ coded_name table code }
{
    match table {
        STATES => application_name(code),
        SECURITY => security_name(code),
        FUNCTIONS => function_name(code),
        _ => listed_name(table, code),
    }
}

// The name of a code of one byte.
#[tactic(auto, unfolding(crate::specs::Names::byte_name))]
fn byte_name(table: u64, code: u8) -> &'static str
    ensures { result.now ≡ byte_name table code }
{
    if table == CONTROLS {
        return control_name(code);
    }
    if table == CI_BYTES {
        return ci_name(code);
    }
    if table == MEDIA {
        return medium_name(code);
    }
    coded_name(table, code)
}

/// Writes the name with this number in a table to the front of `out`, and returns its number of bytes; `usize::MAX` if
/// it has more than `out`. The name is empty where the table has no such number.
#[unsafe(no_mangle)]
pub extern "C" fn mbdc_name(table: u64, number: u64, out: &mut [u8]) -> usize
    ensures text { result ≢ 2 ^ 64 - 1 → take result out.new ≡ name_of table number }
    ensures full { result ≡ 2 ^ 64 - 1 → length out.old < length (name_of table number) }
    ensures fits { result ≢ 2 ^ 64 - 1 → result ≤ length out.old }
{
    text_into(name_of(table, number).as_bytes(), out)
}

// The name with this number in a table; empty where the table has no such number.
#[tactic(auto, unfolding(crate::specs::Names::name_of))]
fn name_of(table: u64, number: u64) -> &'static str
    ensures { result.now ≡ name_of table number }
{
    let (page, code) = (number / PAGES, (number % PAGES) as u8);
    if table == QUANTITIES {
        if page < PAGES {
            return code_at(number as u16).name;
        }
        if page > PAGES {
            return "";
        }
        return match fixed_unit(code) {
            Some(unit) => unit.name,
            None => "reserved",
        };
    }
    if table == UNITS {
        if page < PAGES {
            return code_at(number as u16).unit;
        }
        if page > PAGES {
            return "";
        }
        return match fixed_unit(code) {
            Some(unit) => unit.unit,
            None => "",
        };
    }
    if page == 0 {
        return byte_name(table, code);
    }
    if page != 1 {
        return "";
    }
    if table != ERRORS {
        return "";
    }
    vife_at(code).name
}
