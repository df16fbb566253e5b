//! A file of zeros, which `format` makes an image in its place.

use crate::half_made::HalfMade;
use crate::host::Host;
use crate::image::{NO_FILE, OTHER_LENGTH, is_same_file, open_image, refused};
use crate::image_file::disk_over;
use dc_roots::{RootFault, choose};
use dc_sectors::Disk;
use mbdc_log::FormatFault;
use std::fs::{File, Metadata};
use std::io;
use std::io::ErrorKind;
use std::os::unix::fs::FileExt;
use std::rt::Files;

// Why a file isn't formatted.
const OTHER_CONTENT: &str = "it holds other bytes than zeros";

/// The regular file that was found under the name, if it has that length and holds only zeros. If it holds an image,
/// that is the fault, and any other content is kept. Another file may have replaced it since.
pub(crate) fn zeros_at<R: Files<File = File>>(
    host: &Host<'_, R>,
    name: &str,
    seen: Metadata,
    length: u64,
) -> io::Result<Result<HalfMade, FormatFault>> {
    if !seen.is_file() {
        return Err(refused(NO_FILE));
    }
    let file = open_image(host.rt, name)?;
    let about = file.metadata()?;
    let found = about.len();
    if !is_same_file(&Ok(about), &Ok(seen)) {
        return Err(io::Error::new(ErrorKind::NotFound, "another file came under that name"));
    }
    if found != length {
        return Err(refused(OTHER_LENGTH));
    }
    let mut sector = [0; 512];
    for place in 0..length / 512 {
        file.read_exact_at(&mut sector, 512 * place)?;
        if sector != [0; 512] {
            break;
        }
    }
    // It holds only zeros, as `truncate` makes it.
    if sector == [0; 512] {
        return Ok(Ok(HalfMade { file, name: None }));
    }
    let mut disk = disk_over(file, false, host.rt, host.why, None)?;
    if disk.count() <= 2 {
        return Err(refused(OTHER_CONTENT));
    }
    match choose(&mut disk) {
        Ok(_) => Ok(Err(FormatFault::AlreadyFormatted)),
        Err(RootFault::Device) => Ok(Err(FormatFault::Device)),
        Err(RootFault::NoRoot(_) | RootFault::Worn) => Err(refused(OTHER_CONTENT)),
    }
}
