//! `audit --sheet`: a tenant's page beside its audit file.

ghost use Rattle.std.specs.Prelude.{◌≡◌, IfOk, IfSome, false};
ghost use Rattle.mbdc.specs.Tasks.{Compares, ShowsRight};

use crate::fit::read_whole;
use crate::system::System;
use mbdc_audit::audit;
use mbdc_ending::{Ending, ProgramFault};
use mbdc_files::{Host, Output};
use mbdc_io::{Buffered, Bytes, Source, WriteSink};
use mbdc_sheet::compare;
use std::fs::File;
use std::io;
use std::io::Write;
use std::rt::Files;

// Number of bytes that go to standard output at once.
const ROOM: usize = 65_536;

/// Audits the file of that name, and compares the page with it.
pub fn audit_sheet<'a, R: Files<File = File> + Print + Eprint + AllocGlobal, S: System<'a>>(
    host: &Host<'_, R>,
    system: &S,
    page: &'a str,
    file: &'a str,
) -> Ending<'a>
    ensures { Compares (S.opened system.now) S.Lines.left page.now file.now result }
{
    let mut shown = match system.lines(page, false) {
        Ok(shown) => shown,
        Err(ending) => return ending,
    };
    let mut lines = match system.lines(file, false) {
        Ok(lines) => lines,
        Err(ending) => return ending,
    };
    match read_whole(host.rt.alloc(), &mut shown) {
        Ok(text) => host
            .why
            .ended(compared(host, text.as_slice(), &mut lines), file),
        Err(fault) => host.why.ended(Err(fault), page),
    }
}

// Whether a page or the file that is left in the reader may be wrong; prints what is.
fn compared<R: Files<File = File> + Print + Eprint + AllocGlobal, S: Source>(
    host: &Host<'_, R>,
    page: &[u8],
    reader: &mut S,
) -> Result<bool, ProgramFault>
    ensures { IfOk result (λ faulty. faulty ≡ false
        → IfSome (S.left reader.old) (λ input. ShowsRight page.now input)) }
{
    let alloc = host.rt.alloc();
    let file = read_whole(alloc, reader)?;
    let mut lines = Bytes::from_slice(alloc, file.as_slice())?;
    let printer = Output::new(io::writer(host.rt), host, false);
    let mut writer = Buffered::new(alloc, ROOM, WriteSink::new(printer))?;
    let is_right = audit(alloc, &mut lines, &mut writer)?;
    let Ok(is_shown) = compare(page, file.as_slice(), &mut writer) else {
        return Err(ProgramFault::Write);
    };
    let (mut output, put) = writer.finish();
    if put.is_err() || output.flush().is_err() {
        return Err(ProgramFault::Write);
    }
    Ok(!(is_right && is_shown))
}
