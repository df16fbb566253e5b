//! The command `audit` over slices, under the names by which a web page knows it.
//!
//! [`mbdc_audit`] writes what `audit` prints of a file to the front of a slice, [`mbdc_sheet`] what `audit --sheet`
//! prints of a page besides. Its memory comes from whoever links it: `tools/library` makes a module of it for a web
//! page, with the heap of `library/heap.c`.
#![tactic(auto)]

ghost use Rattle.std.specs.Prelude.{◌≡◌, ◌<◌, ◌≤◌, false, length, true};
ghost use Rattle.mbdc_audit.specs.File.{IsRight};
ghost use Rattle.mbdc_io.specs.Lines.{lines_of};
ghost use Rattle.mbdc_sheet.specs.Sheet.{is_sheet};

use mbdc_audit::audit;
use mbdc_io::{Bytes, SliceSink, TextFault};
use mbdc_sheet::compare;
use std::alloc::Global;

/// Each number is what the telegrams give.
pub const RIGHT: u64 = 0;

/// A number differs, a value has no evidence, or a line is at fault; a page doesn't show the numbers of its file.
pub const WRONG: u64 = 1;

/// Out of memory.
pub const NO_MEMORY: u64 = 2;

/// What is printed has more bytes than there is room for.
pub const TOO_LONG: u64 = 3;

/// Writes what `audit` prints of a file to the front of `out`, its number of bytes to `size`, and returns whether all
/// holds, or why nothing is known.
#[unsafe(no_mangle)]
pub extern "C" fn mbdc_audit(alloc: Global, file: &[u8], out: &mut [u8], size: &mut usize) -> u64
    ensures right { result ≡ RIGHT → IsRight false (lines_of file.now) }
    ensures known { result < 4 }
    ensures fits { size.new ≤ length out.old }
{
    let most = out.len();
    *size = 0;
    let Ok(mut reader) = Bytes::from_slice(alloc, file) else {
        return NO_MEMORY;
    };
    let mut writer = SliceSink::new(out);
    let found = audit(alloc, &mut reader, &mut writer);
    *size = writer.len.min(most);
    match found {
        Ok(true) => RIGHT,
        Ok(false) => WRONG,
        Err(TextFault::NoMemory) => NO_MEMORY,
        Err(_) => TOO_LONG,
    }
}

/// Writes what `audit --sheet` prints of a page beside a file to the front of `out`, its number of bytes to `size`, and
/// returns whether the page shows the file's numbers and no others.
#[unsafe(no_mangle)]
pub extern "C" fn mbdc_sheet(page: &[u8], file: &[u8], out: &mut [u8], size: &mut usize) -> u64
    ensures right { result ≡ RIGHT → is_sheet page.now (lines_of file.now) ≡ true }
    ensures known { result < 4 }
    ensures fits { size.new ≤ length out.old }
{
    let most = out.len();
    let mut writer = SliceSink::new(out);
    let found = compare(page, file, &mut writer);
    *size = writer.len.min(most);
    match found {
        Ok(true) => RIGHT,
        Ok(false) => WRONG,
        Err(_) => TOO_LONG,
    }
}
