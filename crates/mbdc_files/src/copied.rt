//! The sectors of an image as they are at one instant: in memory, and by the command `copy` in a new file.

ghost use Rattle.std.specs.Prelude.{◌≡◌, ◌⊎◌, [], IfErr, IfOk, OnOk};
ghost use Rattle.mbdc_ending.specs.declared.ending.Ending.TheVariants.{Memory, Open};
ghost use Rattle.mbdc_log.specs.declared.fault.OpenFault.TheVariants.{Device};
ghost use Rattle.mbdc_files.specs.Copied.{IsCopied, IsUncopied};
ghost use Rattle.mbdc_files.specs.Formatted.{IsUnmade};

use crate::image_file::SECTOR;
use crate::shelf::Shelf;
use dc_sectors::call_log::{CallLog, GOT, MEASURED, PUT, SYNCED};
use dc_sectors::{Disk, FileCalls, ReadFault, Sector};
use mbdc_ending::Ending;
use mbdc_log::OpenFault;
use std::alloc::Global;
use std::io;

/// An image as it stood at one instant. What is written to it stays in memory.
#[derive(Drop)]
pub struct Copied {
    sectors: Vec<Sector, Global>,
    log: CallLog,
}

impl FileCalls for Copied {
    ghost use Rattle.dc_sectors.specs.Note.{calls_of};

    ghost history = { λ copy. calls_of copy.log.notes };

    ghost start = { λ copy. copy.log.start };

    fn measure(&mut self) -> io::Result<u64> {
        let length = (self.sectors.len() as u64).saturating_mul(SECTOR as u64);
        self.log.note(&[MEASURED, 0, length, 1], &[]);
        Ok(length)
    }

    fn read_some(&mut self, at: u64, bytes: &mut [u8]) -> Result<usize, ReadFault> {
        let asked = bytes.len();
        match self.sectors.get((at / SECTOR as u64) as usize) {
            Some(Sector::Bytes(kept)) if asked == SECTOR => {
                bytes.copy_from_slice(kept);
                self.log.note(&[GOT, at, asked as u64, 1], &bytes[..asked]);
                Ok(asked)
            }
            Some(Sector::Unreadable) => {
                self.log.note(&[GOT, at, asked as u64, 2], &[]);
                Err(ReadFault::Unreadable)
            }
            _ => {
                self.log.note(&[GOT, at, asked as u64, 1], &[]);
                Ok(0)
            }
        }
    }

    fn write_some(&mut self, at: u64, bytes: &[u8]) -> io::Result<usize> {
        let sector = self.sectors.get_mut((at / SECTOR as u64) as usize);
        let taken = match (sector, <[u8; SECTOR]>::try_from(bytes)) {
            (Some(sector), Ok(written)) => {
                *sector = Sector::Bytes(written);
                SECTOR
            }
            _ => 0,
        };
        self.log.note(&[PUT, at, taken as u64, 1], bytes);
        Ok(taken)
    }

    fn sync_once(&mut self) -> io::Result<()> {
        self.log.note(&[SYNCED, 0, 0, 1], &[]);
        Ok(())
    }
}

/// Reads all sectors of a disk.
pub(crate) fn read_all<'a, D: Disk>(alloc: Global, disk: &mut D) -> Result<Copied, Ending<'a>>
    ensures copied { IfOk result (λ copy. copy.log.notes ≡ []) }
    ensures failed { IfErr result (λ ending. (ending ≡ Open Device) ⊎ (ending ≡ Memory)) }
{
    let mut sectors = Vec::new(alloc);
    'sectors: for n in 0..disk.count() {
        let content = match disk.read(n) {
            Ok(bytes) => Sector::Bytes(bytes),
            Err(ReadFault::Unreadable) => Sector::Unreadable,
            Err(ReadFault::Failed) => return Err(Ending::Open(OpenFault::Device)),
        };
        if sectors.push(content).is_err() {
            return Err(Ending::Memory);
        }
    }
    Ok(Copied {
        sectors,
        log: CallLog::new(),
    })
}

/// Copies an image as it stands at one instant to a new file, which gets its name once it is whole and durable.
///
/// # Errors
/// `Open(NotImage)` of a file that holds no image; the image can't be copied, or a sector of it not be read; or the new
/// file can't be made.
pub fn back_up<'a, S: Shelf>(shelf: &S, image: &'a str, name: &'a str) -> Ending<'a>
    // At status 0 the file of that name was made of a disk that has what the image had.
    ensures { (IsUncopied result image.now ⊎ IsUnmade result name.now) ⊎ ((result ≡ Ending.Clean)
        × (copy : S.Old) × (read : S.Old) × (made : S.New) × S.copied shelf.now image.now copy
        × S.named shelf.now name.now made × IsCopied S.Old.Disk S.New.Disk copy read made) }
{
    let mut copy = match shelf.copy(image) {
        Ok(copy) => copy,
        Err(ending) => return ending,
    };
    let (draft, mut new) = match shelf.begin(name, copy.count(), false) {
        Ok(begun) => begun,
        Err(ending) => return ending,
    };
    match copy_sectors(&mut copy, &mut new, name) {
        Ok(()) => match shelf.end(draft, &new, name) {
            Ok(()) => Ending::Clean,
            Err(ending) => ending,
        },
        Err(ending) => {
            shelf.give_up(draft);
            ending
        }
    }
}

// Writes each sector of a copy to a new disk of as many, and makes that durable. A sector that the drive can't read has
// no copy.
fn copy_sectors<'a, C: Disk, D: Disk>(
    copy: &mut C,
    new: &mut D,
    name: &'a str,
) -> Result<(), Ending<'a>>
    requires { D.sectors new.old ≡ C.sectors copy.old }
    ensures copied { OnOk result (IsCopied C.Disk D.Disk copy.old copy.new new.new) }
    ensures failed { IfErr result (λ ending. (ending ≡ Open Device) ⊎ IsUnmade ending name.now) }
{
    for n in 0..copy.count() {
        let bytes = match copy.read(n) {
            Ok(bytes) => bytes,
            Err(_) => return Err(Ending::Open(OpenFault::Device)),
        };
        match new.write(n, &bytes) {
            Ok(()) => {}
            Err(_) => return Err(Ending::File(name)),
        }
    }
    match new.sync() {
        Ok(()) => Ok(()),
        Err(_) => Err(Ending::File(name)),
    }
}
