//! An input, and what makes a line of hex digits a `HEX FAULT`, named for a person at a terminal.

use mbdc_files::Noted;
use mbdc_io::LONGEST;
use std::fs::File;
use std::io;
use std::io::Read;

// What makes a line of hex digits a fault.
#[derive(Clone, Copy)]
enum Mistake {
    // A byte that is no hex digit, at this place from 1.
    Byte(u8, u64),
    // The line is too long.
    Long,
    // It has this odd number of hex digits.
    Odd(u64),
}

/// A file, or standard input.
#[derive(Drop)]
pub enum Opened<'r, T: Drop> {
    /// A file.
    File(Noted<'r, File>),
    /// Standard input.
    Standard(Noted<'r, T>),
}

/// Lines of hex digits that are read on; where it is asked for, the first mistake of each line is named on standard
/// error.
#[derive(Drop)]
pub struct Pointed<'r, R, T: Drop> {
    inner: Opened<'r, T>,
    rt: &'r R,
    is_pointed: bool,
    // The line, from 1, and the number of its bytes and digits so far.
    line: u64,
    bytes: u64,
    digits: u64,
    is_named: bool,
}

impl<'r, R: Eprint, T: Drop> Pointed<'r, R, T> {
    /// Wraps the input, before its first line.
    pub fn new(inner: Opened<'r, T>, rt: &'r R, is_pointed: bool) -> Self {
        Pointed {
            inner,
            rt,
            is_pointed,
            line: 1,
            bytes: 0,
            digits: 0,
            is_named: false,
        }
    }

    // Names what can be said of a line only at its end, and begins the next one.
    fn end_line(&mut self) {
        if self.bytes > LONGEST as u64 {
            self.name(Mistake::Long);
        } else if self.digits % 2 == 1 {
            self.name(Mistake::Odd(self.digits));
        }
        self.line = self.line.saturating_add(1);
        self.bytes = 0;
        self.digits = 0;
        self.is_named = false;
    }

    // Prints the first mistake of a line.
    fn name(&mut self, mistake: Mistake) {
        if self.is_named {
            return;
        }
        self.is_named = true;
        let line = self.line;
        let _ = match mistake {
            Mistake::Byte(b'\t', at) => eprint!(self.rt;
                "mbdc: line {line}: TAB at {at} is no hex digit\n"
            ),
            Mistake::Byte(b'\r', at) => eprint!(self.rt;
                "mbdc: line {line}: CR at {at}: lines end in LF alone\n"
            ),
            Mistake::Byte(byte @ 0x21..=0x7E, at) => {
                eprint!(self.rt;
                    "mbdc: line {line}: {} at {at} is no hex digit\n",
                    char::from(byte)
                )
            }
            Mistake::Byte(byte, at) => eprint!(self.rt;
                "mbdc: line {line}: \\x{byte:02X} at {at} is no hex digit\n"
            ),
            Mistake::Long => eprint!(self.rt;
                "mbdc: line {line}: it has more than {LONGEST} bytes\n"
            ),
            Mistake::Odd(digits) => {
                eprint!(self.rt; "mbdc: line {line}: {digits} hex digits are no whole bytes\n")
            }
        };
    }
}

impl<R: Eprint, T: Read + Drop> Read for Pointed<'_, R, T> {
    fn read(&mut self, room: &mut [u8]) -> io::Result<usize> {
        let count = match &mut self.inner {
            Opened::File(file) => file.read(room)?,
            Opened::Standard(input) => input.read(room)?,
        };
        if !self.is_pointed {
            return Ok(count);
        }
        for byte in &room[..count] {
            if *byte == b'\n' {
                self.end_line();
            } else {
                self.bytes = self.bytes.saturating_add(1);
                if byte.is_ascii_hexdigit() {
                    self.digits = self.digits.saturating_add(1);
                } else if *byte != b' ' {
                    self.name(Mistake::Byte(*byte, self.bytes));
                }
            }
        }
        if count == 0 {
            self.end_line();
        }
        Ok(count)
    }
}
