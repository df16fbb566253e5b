//! Control fields, CI fields, functions and states.

ghost use Rattle.std.specs.Prelude.{◌≡◌};
ghost use Rattle.dc_records.specs.Fields.{control_name, ci_name, function_name, application_name};

use crate::names::codes::name_in;

/// The names of control bytes (EN 13757-2, control field): those of wired M-Bus.
pub const CONTROLS: [(u8, &str); 21] = [
    (0x07, "unknown"),
    (0x08, "RSP_UD"),
    (0x17, "unknown"),
    (0x18, "RSP_UD"),
    (0x27, "unknown"),
    (0x28, "RSP_UD"),
    (0x37, "unknown"),
    (0x38, "RSP_UD"),
    (0x3F, "unknown"),
    (0x40, "SND_NKE"),
    (0x52, "unknown"),
    (0x53, "SND_UD"),
    (0x59, "unknown"),
    (0x5A, "REQ_UD1"),
    (0x5B, "REQ_UD2"),
    (0x72, "unknown"),
    (0x73, "SND_UD"),
    (0x79, "unknown"),
    (0x7A, "REQ_UD1"),
    (0x7B, "REQ_UD2"),
    (0xFF, "unknown"),
];

/// The names of CI bytes (EN 13757-3, CI field): those of wired M-Bus.
pub const INFORMATIONS: [(u8, &str); 31] = [
    (0x4F, "unknown"),
    (0x50, "application reset or select"),
    (0x51, "data for the meter"),
    (0x52, "selection"),
    (0x53, "application reset or select, long header"),
    (0x54, "request of selected application"),
    (0x55, "request of selected application, long header"),
    (0x59, "unknown"),
    (0x5A, "data for the meter, short header"),
    (0x5B, "data for the meter, long header"),
    (0x5C, "synchronise action"),
    (0x68, "unknown"),
    (0x69, "format frame, no header"),
    (0x6A, "format frame, short header"),
    (0x6B, "format frame, long header"),
    (0x6C, "set date and time"),
    (0x6D, "shift date and time"),
    (0x6F, "application error with header"),
    (0x70, "application error"),
    (0x71, "alarm"),
    (0x72, "variable data, long header"),
    (0x73, "fixed data"),
    (0x75, "alarm with header"),
    (0x77, "unknown"),
    (0x78, "variable data, no header"),
    (0x79, "compact frame, no header"),
    (0x7A, "variable data, short header"),
    (0x7B, "compact frame, short header"),
    (0xB7, "unknown"),
    (0xBF, "set baud rate"),
    (0xFF, "unknown"),
];

/// The names of a record's functions (EN 13757-3, function field of the DIF).
pub const FUNCTIONS: [(u8, &str); 4] = [
    (0x00, "instantaneous"),
    (0x01, "maximum"),
    (0x02, "minimum"),
    (0x03, "error state"),
];

/// The names of what the application says of itself (EN 13757-3, status byte, bits 1 and 0).
pub const STATES: [(u8, &str); 4] = [
    (0x00, "no error"),
    (0x01, "busy"),
    (0x02, "error"),
    (0x03, "abnormal condition"),
];

/// The name of a control byte (EN 13757-2), `unknown` where wired M-Bus doesn't have it.
pub fn control_name(code: u8) -> &'static str
    ensures { result.now ≡ control_name code }
{
    name_in(&CONTROLS, code)
}

/// The name of a CI byte (EN 13757-3), `unknown` where wired M-Bus doesn't have it.
pub fn ci_name(code: u8) -> &'static str
    ensures { result.now ≡ ci_name code }
{
    name_in(&INFORMATIONS, code)
}

/// The name of a record's function (EN 13757-3, function field).
pub fn function_name(code: u8) -> &'static str
    ensures { result.now ≡ function_name code }
{
    name_in(&FUNCTIONS, code)
}

/// The name of what the application says of itself (EN 13757-3, status byte, bits 1 and 0).
pub fn application_name(status: u8) -> &'static str
    ensures { result.now ≡ application_name status }
{
    name_in(&STATES, status % 4)
}
